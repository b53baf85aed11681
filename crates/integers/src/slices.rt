// A lent slice of any of the eight kinds: the choice of kind, above the one generic text.
ghost use Rattle.std.specs.Prelude.{◌≡◌, length};
ghost use Rattle.mask.specs.Masks.{flags};
ghost use Rattle.ptype.specs.Integers.{natural_at, amount_at};
ghost use Rattle.ptype.specs.Searches.{first_not_below, first_fall, first_overrun, total, in_u64};
ghost use Rattle.integers.specs.Slices.{integers};

use mask::mask::Mask;
use ptype::entries::Entries;

#[derive(Clone, Copy)]
pub enum IntegerSlice<'a> {
    U8(&'a [u8]),
    U16(&'a [u16]),
    U32(&'a [u32]),
    U64(&'a [u64]),
    I8(&'a [i8]),
    I16(&'a [i16]),
    I32(&'a [i32]),
    I64(&'a [i64]),
}

// The same expression for whichever kind the slice has.
macro_rules! match_each_integer {
    ($slice:expr, $s:ident => $body:expr) => {
        match $slice {
            IntegerSlice::U8($s) => $body,
            IntegerSlice::U16($s) => $body,
            IntegerSlice::U32($s) => $body,
            IntegerSlice::U64($s) => $body,
            IntegerSlice::I8($s) => $body,
            IntegerSlice::I16($s) => $body,
            IntegerSlice::I32($s) => $body,
            IntegerSlice::I64($s) => $body,
        }
    };
}

impl IntegerSlice<'_> {
    // The number of entries.
    pub fn len(self) -> u64
        ensures { result ≡ length (integers self.entry) }
    {
        match_each_integer!(self, s => s.len() as u64)
    }

    // The number at i: none from the length on, and none where it is negative.
    pub fn get(self, i: u64) -> Option<u64>
        ensures { result ≡ natural_at (integers self.entry) i }
    {
        match_each_integer!(self, s => Entries::new(s).get(i))
    }

    // The number at i: 0 from the length on, and 0 where it is negative.
    pub fn amount(self, i: u64) -> u64
        ensures { result ≡ amount_at (integers self.entry) i }
    {
        self.get(i).unwrap_or(0)
    }

    // The first entry with a set flag that is negative or not below the limit.
    pub fn first_not_below(self, mask: Mask<'_>, limit: u64) -> Option<u64>
        ensures { result ≡ first_not_below limit 0 (flags mask.entry) (integers self.entry) }
    {
        match_each_integer!(self, s => Entries::new(s).first_not_below(mask, limit))
    }

    // The first entry that is negative, falls below the one before it (below `low` for the first), or passes the limit.
    pub fn first_fall(self, low: u64, limit: u64) -> Option<u64>
        ensures { result ≡ first_fall limit low 0 (integers self.entry) }
    {
        match_each_integer!(self, s => Entries::new(s).first_fall(low, limit))
    }

    // The first length that is negative or runs past `bytes`, when they are laid one behind the other.
    pub fn first_overrun(self, bytes: u64) -> Option<u64>
        ensures { result ≡ first_overrun bytes 0 (integers self.entry) }
    {
        match_each_integer!(self, s => Entries::new(s).first_overrun(bytes))
    }

    // The sum of all entries, a negative one counting 0; none where it does not fit 64 bits.
    pub fn total(self) -> Option<u64>
        ensures { result ≡ in_u64 (total (integers self.entry)) }
    {
        match_each_integer!(self, s => Entries::new(s).total())
    }
}
