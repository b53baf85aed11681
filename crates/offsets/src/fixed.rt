// The fixed store: lent entries of one kind, whose greatest number is the top.
ghost use Rattle.std.specs.Prelude.{◌≡◌, ◌-◌, length};
ghost use Rattle.offsets.specs.Stores.{held, amounts, HandedOut, FixedExamples};

use crate::entry::{natural_part, read_entry, write_entry};
use crate::store::OffsetStore;
use ptype::native::IntegerPType;

// The entries are lent and of a fixed size, so the count of used ones stands beside them.
#[derive(Drop)]
pub struct FixedOffsets<'a, T: IntegerPType> {
    entries: &'a mut [T],
    used: usize,
}

impl<'a, T: IntegerPType> FixedOffsets<'a, T> {
    // An empty store over these entries.
    pub fn new(entries: &'a mut [T]) -> FixedOffsets<'a, T>
        ensures used { result.used ≡ 0 }
        ensures entries { result.entries.now ≡ entries.old }
        ensures examples { FixedExamples }
    {
        FixedOffsets { entries, used: 0 }
    }

    // The entries that hold an offset: none where one of them is negative, as no push makes it.
    pub fn as_slice(&self) -> Option<&[T]>
        ensures { HandedOut T.IntegerPType.value (held T.IntegerPType.value self.now.used self.now.entries.now) result }
    {
        natural_part(self.entries, self.used)
    }
}

impl<T: IntegerPType> OffsetStore for FixedOffsets<'_, T> {
    ghost offsets = { λ s. amounts (held T.IntegerPType.value s.used s.entries.now) };

    ghost free = { λ s. length s.entries.now - s.used };

    ghost top = { λ s. T.IntegerPType.greatest };

    fn free(&self) -> u64 {
        self.entries.len().saturating_sub(self.used) as u64
    }

    fn top(&self) -> u64 {
        T::max_value_as_u64()
    }

    fn len(&self) -> u64 {
        self.used.min(self.entries.len()) as u64
    }

    fn get(&self, i: u64) -> Option<u64> {
        (i < self.len()).then(|| read_entry(self.entries, i as usize))
    }

    fn push(&mut self, offset: u64) -> bool {
        if self.free() == 0 || offset > self.top() {
            return false;
        }
        write_entry(self.entries, self.used, offset);
        self.used += 1;
        true
    }
}
