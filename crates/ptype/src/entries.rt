// A lent slice of one kind: its entries and the searches over them, written once for all kinds.
ghost use Rattle.std.specs.Prelude.{◌≡◌, ℕ, ◌^◌, ◌<◌, map, length};
ghost use Rattle.mask.specs.Masks.{flags};
ghost use Rattle.ptype.specs.Integers.{natural_at};
ghost use Rattle.ptype.specs.Searches.{first_not_below, first_fall, first_overrun, total, in_u64};

use crate::native::IntegerPType;
use mask::mask::Mask;

#[derive(Clone, Copy)]
pub struct Entries<'a, T> {
    values: &'a [T],
}

impl<'a, T: IntegerPType> Entries<'a, T> {
    pub fn new(values: &'a [T]) -> Entries<'a, T>
        ensures { result.values.now ≡ values.now }
    {
        Entries { values }
    }

    // The number at i: none from the length on, and none where it is negative.
    #[tactic(auto, using(crate::proofs::Naturals::at_past))]
    pub fn get(&self, i: u64) -> Option<u64>
        ensures { result ≡ natural_at (map T.value self.now.values.now) i }
    {
        let Some(value) = self.values.get(i as usize) else {
            return None; // past the end
        };
        value.to_u64()
    }

    // The first entry with a set flag that is negative or not below the limit.
    #[tactic(auto, using(crate::proofs::Steps::not_below_all))]
    pub fn first_not_below(&self, mask: Mask<'_>, limit: u64) -> Option<u64>
        ensures { result ≡ first_not_below limit 0 (flags mask.entry) (map T.value self.now.values.now) }
    {
        for (i, value) in self.values.iter().enumerate() {
            if mask.value(i as u64) {
                match value.to_u64() {
                    Some(n) => {
                        if n >= limit {
                            return Some(i as u64);
                        }
                    }
                    None => return Some(i as u64),
                }
            }
        }
        None
    }

    // The first entry that is negative, falls below the one before it (below `low` for the first), or passes the limit.
    #[tactic(auto, using(crate::proofs::Steps::fall_all))]
    pub fn first_fall(&self, low: u64, limit: u64) -> Option<u64>
        ensures { result ≡ first_fall limit low 0 (map T.value self.now.values.now) }
    {
        let mut last = low;
        for (i, value) in self.values.iter().enumerate() {
            match value.to_u64() {
                Some(n) => {
                    if n < last {
                        return Some(i as u64);
                    }
                    if n > limit {
                        return Some(i as u64);
                    }
                    last = n;
                }
                None => return Some(i as u64),
            }
        }
        None
    }

    // The first length that is negative or runs past `bytes`, when they are laid one behind the other.
    #[tactic(auto, using(crate::proofs::Steps::overrun_all))]
    pub fn first_overrun(&self, bytes: u64) -> Option<u64>
        ensures { result ≡ first_overrun bytes 0 (map T.value self.now.values.now) }
    {
        let mut left = bytes;
        for (i, value) in self.values.iter().enumerate() {
            match value.to_u64() {
                Some(n) => {
                    if n > left {
                        return Some(i as u64);
                    }
                    left -= n;
                }
                None => return Some(i as u64),
            }
        }
        None
    }

    // The sum of all entries, a negative one counting 0; none where it does not fit 64 bits.
    pub fn total(&self) -> Option<u64>
        ensures { result ≡ in_u64 (total (map T.value self.now.values.now)) }
    {
        let mut sum: u64 = 0;
        for value in self.values {
            sum = sum.checked_add(value.to_u64().unwrap_or(0))?;
        }
        Some(sum)
    }
}
