// SPDX-License-Identifier: Apache-2.0
// SPDX-FileCopyrightText: Copyright the Vortex contributors
// Changed: `gather_slices` of compute/take.rs in vortex-array 0.89.0, written anew in Rattle; hidden bytes are not copied, and a bad run is refused with its place.
//
// Selecting by run.
ghost use Rattle.std.specs.Iterator.{YieldsFirst, item_count};
ghost use Rattle.std.specs.Prelude.{◌≡◌, ℕ, ◌<◌, length, ◌==◌};
ghost use Rattle.builder.specs.States.{state_with, SameMemory};
ghost use Rattle.integers.specs.Slices.{integers};
ghost use Rattle.ptype.specs.Integers.{amount_at};
ghost use Rattle.ptype.specs.Searches.{total, in_u64};
ghost use Rattle.refusal.specs.Refusals.{answer, first_refusal};
ghost use Rattle.compute.specs.Indices.{runs_left};
ghost use Rattle.compute.specs.Left.{run_starts, run_lengths, left_of_runs};
ghost use Rattle.compute.specs.Selections.{by_run, starts_of, lengths_of, first_outside, selection_checks, select_answer, selected};

use crate::index::RowIndices;
use crate::select::select;
use builder::builder::VarBinBuilder;
use builder::memory::Memory;
use integers::slices::IntegerSlice;
use integers::unsigned::UnsignedSlice;
use offsets::store::OffsetStore;
use refusal::Refusal;
use rows::source::RowSource;

// The lengths of runs: one for each, or the same for all.
#[derive(Clone, Copy)]
pub enum RunLengths<'a> {
    Each(UnsignedSlice<'a>),
    Same(u64),
}

impl RunLengths<'_> {
    // The length of run i of so many.
    fn length_at(self, i: u64) -> u64
        ensures { (count : ℕ) → i < count → result ≡ amount_at (lengths_of self.entry count) i }
    {
        match self {
            RunLengths::Each(slice) => IntegerSlice::from(slice).amount(i),
            RunLengths::Same(n) => n,
        }
    }

    // Whether there is a length for each of so many runs, and no other.
    fn is_for_each(self, count: u64) -> bool
        ensures { result ≡ (count == length (lengths_of self.entry count)) }
    {
        match self {
            RunLengths::Each(slice) => IntegerSlice::from(slice).len() == count,
            RunLengths::Same(_) => true,
        }
    }

    // How many rows so many runs have together; none where that does not fit 64 bits.
    fn total_rows(self, count: u64) -> Option<u64>
        ensures { result ≡ in_u64 (total (lengths_of self.entry count)) }
    {
        match self {
            RunLengths::Each(slice) => IntegerSlice::from(slice).total(),
            RunLengths::Same(n) => count.checked_mul(n),
        }
    }
}

// Runs of rows: where each starts, and how long it is.
#[derive(Clone, Copy)]
pub struct Runs<'a> {
    starts: IntegerSlice<'a>,
    lengths: RunLengths<'a>,
}

impl<'a> Runs<'a> {
    // The first run that leaves a source of `count` rows, by looking at each row of each run. The search is two nested loops, left by a label with the run's place, and a run's rows are no slice: hence the numbers.
    fn first_outside(self, count: u64) -> Option<u64>
        ensures { result ≡ first_outside count 0 (run_starts self.entry) (run_lengths self.entry) }
    {
        let fault = 'runs: {
            for i in 0..self.starts.len() {
                let start = self.starts.amount(i);
                for j in 0..self.lengths.length_at(i) {
                    if start >= count {
                        break 'runs Some(i);
                    }
                    if j >= count - start {
                        break 'runs Some(i);
                    }
                }
            }
            None
        };
        fault
    }

    // 6, 11 at the first run that leaves the source, or 8 where the declared rows differ.
    fn check(self, count: u64, declared: u64) -> Result<(), Refusal>
        ensures { answer result ≡ first_refusal (selection_checks count (by_run (run_starts self.entry) (run_lengths self.entry) declared)) }
    {
        let runs = self.starts.len();
        if !self.lengths.is_for_each(runs) {
            return Err(Refusal::CountsDiffer);
        }
        if let Some(entry) = self.first_outside(count) {
            return Err(Refusal::RowAbsent { entry });
        }
        if self.lengths.total_rows(runs) != Some(declared) {
            return Err(Refusal::TotalDiffers);
        }
        Ok(())
    }

    // The indices of all rows of the runs.
    fn indices(self) -> RunIndices<'a>
        ensures { left_of_runs result ≡ runs_left 0 0 (run_starts self.entry) (run_lengths self.entry) }
    {
        RunIndices {
            runs: self,
            run: 0,
            row: 0,
        }
    }
}

// The indices of runs, from a row of a run on.
#[derive(Clone, Copy)]
pub struct RunIndices<'a> {
    runs: Runs<'a>,
    run: u64,
    row: u64,
}

impl Iterator for RunIndices<'_> {
    type Item = Option<u64>;

    ghost next_gives = { YieldsFirst left_of_runs };

    ghost remaining = { item_count left_of_runs };

    fn next(&mut self) -> Option<Option<u64>> {
        // run and row are where the reading stands from one call to the next, so no `for` can count them
        while self.run < self.runs.starts.len() {
            let run = self.run;
            let row = self.row;
            if row < self.runs.lengths.length_at(run) {
                self.row = row + 1;
                let start = self.runs.starts.amount(run);
                return Some(Some(start.saturating_add(row)));
            }
            self.run = run + 1;
            self.row = 0;
        }
        None
    }
}

impl RowIndices for RunIndices<'_> {
    ghost left = { left_of_runs };

    ghost reads = { λ s item t h. h };

    ghost may_read = { λ s. tt };

    ghost ends = { λ s. tt };
}

// Appends the rows of each run of the source, in order.
pub fn gather_slices<'a, S: OffsetStore, R: RowSource>(
    builder: &mut VarBinBuilder,
    memory: &mut Memory<'_, S>,
    source: &R,
    starts: UnsignedSlice<'a>,
    lengths: RunLengths<'a>,
    declared: u64,
) -> Result<(), Refusal>
    ensures answer { answer result ≡ select_answer (state_with S.offsets S.free S.top builder.old memory.old) (R.rows source.now) (by_run (starts_of starts.entry) (lengths_of lengths.entry (length (starts_of starts.entry))) declared) }
    ensures after { state_with S.offsets S.free S.top builder.new memory.new ≡ selected (state_with S.offsets S.free S.top builder.old memory.old) (R.rows source.now) (by_run (starts_of starts.entry) (lengths_of lengths.entry (length (starts_of starts.entry))) declared) (answer result) }
    ensures same { SameMemory memory.old memory.new }
{
    memory.check_memory(builder)?;
    let runs = Runs {
        starts: IntegerSlice::from(starts),
        lengths,
    };
    runs.check(source.len() as u64, declared)?;
    select(builder, memory, source, runs.indices())
}
