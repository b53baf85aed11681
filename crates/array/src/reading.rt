// A view as a row source: a row is a returned part of the column's heap.
ghost use Rattle.std.specs.Prelude.{◌≡◌, ◌+◌, length};
ghost use Rattle.std.specs.List.{slice_get};
ghost use Rattle.mask.specs.Masks.{flags};
ghost use Rattle.ptype.specs.Integers.{amount_at};
ghost use Rattle.integers.specs.Slices.{integers};
ghost use Rattle.rows.specs.Sources.{shown};
ghost use Rattle.array.specs.Columns.{column_rows, slot_lengths};
ghost use Rattle.array.specs.Tallies.{tally_of, longest_of};
ghost use Rattle.array.specs.Views.{Placed};

use crate::completeness::thousandths;
use crate::tally::Tally;
use crate::text::slot_at;
use crate::view::VarBinArray;
use rows::row::RowRef;
use rows::source::RowSource;

impl RowSource for VarBinArray<'_> {
    ghost rows = { λ s. column_rows (integers s.offsets) s.heap.now (flags s.validity) };

    #[tactic(auto, using(crate::proofs::Slots::length_rows))]
    fn len(&self) -> u32 {
        self.offsets.len().saturating_sub(1) as u32
    }

    #[tactic(auto, using(crate::proofs::Slots::row_past, crate::proofs::Slots::row_null, crate::proofs::Slots::row_bytes))]
    fn row(&self, i: u64) -> Option<RowRef<'_>>
        ensures value { shown result ≡ slice_get (column_rows (integers self.now.offsets) self.now.heap.now (flags self.now.validity)) i }
        ensures place { Placed result self.now.heap (amount_at (integers self.now.offsets) i) (amount_at (integers self.now.offsets) (i + 1)) }
    {
        if i >= self.offsets.len().saturating_sub(1) {
            return None;
        }
        if !self.validity.value(i) {
            return Some(None);
        }
        Some(Some(slot_at(self.offsets, self.heap, i)))
    }
}

impl VarBinArray<'_> {
    // The longest slot, hidden bytes counted.
    #[tactic(auto, using(crate::proofs::Tallying::longest_more), unfolding(crate::specs::Tallies::longest_of))]
    fn longest(&self) -> u64
        ensures { result ≡ longest_of (slot_lengths (integers self.now.offsets)) }
    {
        let mut longest: u64 = 0;
        // by number, since each slot reads two offsets
        for i in 0..self.offsets.len().saturating_sub(1) {
            let from = self.offsets.amount(i);
            let to = self.offsets.amount(i + 1);
            longest = longest.max(to.saturating_sub(from));
        }
        longest
    }

    // Rows, valid rows, bytes, the longest slot and completeness.
    #[tactic(auto, using(mask::proofs::Flags::count_le, crate::proofs::Tallying::lengths_count, crate::proofs::Tallying::lengths_sum))]
    pub fn tally(&self) -> Tally
        ensures { result ≡ tally_of (flags self.now.validity) (slot_lengths (integers self.now.offsets)) }
    {
        let offsets = self.offsets.len();
        let rows = offsets.saturating_sub(1);
        let valid = self.validity.true_count();
        let first = self.offsets.amount(0);
        let last = self.offsets.amount(rows);
        let complete = thousandths(valid as u32, rows as u32);
        Tally {
            rows,
            valid,
            bytes: last.saturating_sub(first),
            longest: self.longest(),
            complete,
        }
    }
}
