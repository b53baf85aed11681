// SPDX-License-Identifier: Apache-2.0
// SPDX-FileCopyrightText: Copyright the Vortex contributors
// Changed: `take` of compute/take.rs in vortex-array 0.89.0, written anew in Rattle; an index that the source does not have is refused with its place.
//
// Selecting by number.
ghost use Rattle.std.specs.Iterator.{YieldsFirst, item_count};
ghost use Rattle.std.specs.Prelude.{◌≡◌, length};
ghost use Rattle.builder.specs.States.{state_with, SameMemory};
ghost use Rattle.integers.specs.Slices.{integers};
ghost use Rattle.mask.specs.Masks.{flags, covered};
ghost use Rattle.refusal.specs.Refusals.{answer, first_refusal};
ghost use Rattle.compute.specs.Agreement.{SelectionsAgree};
ghost use Rattle.compute.specs.Left.{left_to_take};
ghost use Rattle.compute.specs.Selections.{by_number, selection_checks, select_answer, selected};

use crate::index::RowIndices;
use crate::select::select;
use builder::builder::VarBinBuilder;
use builder::memory::Memory;
use builder::values::check_counts;
use integers::slices::IntegerSlice;
use mask::mask::Mask;
use offsets::store::OffsetStore;
use refusal::Refusal;
use rows::source::RowSource;

// The indices of a take, from a place on.
#[derive(Clone, Copy)]
pub struct TakeIndices<'a> {
    indices: IntegerSlice<'a>,
    validity: Mask<'a>,
    at: u64,
}

impl Iterator for TakeIndices<'_> {
    type Item = Option<u64>;

    ghost next_gives = { YieldsFirst left_to_take };

    ghost remaining = { item_count left_to_take };

    fn next(&mut self) -> Option<Option<u64>> {
        let at = self.at;
        if at >= self.indices.len() {
            return None;
        }
        if at >= self.validity.len() {
            return None;
        }
        self.at = at + 1;
        if self.validity.value(at) {
            Some(Some(self.indices.amount(at)))
        } else {
            Some(None)
        }
    }
}

impl RowIndices for TakeIndices<'_> {
    ghost left = { left_to_take };

    ghost reads = { λ s item t h. h };

    ghost may_read = { λ s. tt };

    ghost ends = { λ s. tt };
}

// 6, or 11 at the first set index that is negative or not below the count.
fn check_indices(count: u64, indices: IntegerSlice<'_>, validity: Mask<'_>) -> Result<(), Refusal>
    ensures { answer result ≡ first_refusal (selection_checks count (by_number (integers indices.entry) (flags validity.entry) (covered validity.entry))) }
{
    check_counts(indices, validity)?;
    match indices.first_not_below(validity, count) {
        Some(entry) => Err(Refusal::RowAbsent { entry }),
        None => Ok(()),
    }
}

// Appends the rows of the source that the set indices number, and a null for each unset one.
pub fn take<'a, S: OffsetStore, R: RowSource>(
    builder: &mut VarBinBuilder,
    memory: &mut Memory<'_, S>,
    source: &R,
    indices: IntegerSlice<'a>,
    validity: Mask<'a>,
) -> Result<(), Refusal>
    ensures answer { answer result ≡ select_answer (state_with S.offsets S.free S.top builder.old memory.old) (R.rows source.now) (by_number (integers indices.entry) (flags validity.entry) (covered validity.entry)) }
    ensures after { state_with S.offsets S.free S.top builder.new memory.new ≡ selected (state_with S.offsets S.free S.top builder.old memory.old) (R.rows source.now) (by_number (integers indices.entry) (flags validity.entry) (covered validity.entry)) (answer result) }
    ensures same { SameMemory memory.old memory.new }
    ensures agree { SelectionsAgree }
{
    memory.check_memory(builder)?;
    check_indices(source.len() as u64, indices, validity)?;
    select(
        builder,
        memory,
        source,
        TakeIndices {
            indices,
            validity,
            at: 0,
        },
    )
}
