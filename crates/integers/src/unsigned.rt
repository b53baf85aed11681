// A lent slice of one of the four unsigned kinds, for the starts and lengths of runs.
ghost use Rattle.std.specs.Prelude.{◌≡◌};
ghost use Rattle.integers.specs.Slices.{widened};

use crate::slices::IntegerSlice;

#[derive(Clone, Copy)]
pub enum UnsignedSlice<'a> {
    U8(&'a [u8]),
    U16(&'a [u16]),
    U32(&'a [u32]),
    U64(&'a [u64]),
}

// The same slice as one of the eight kinds.
impl<'a> From<UnsignedSlice<'a>> for IntegerSlice<'a> {
    ghost from_gives = { λ slice widened_slice. widened_slice ≡ widened slice };

    fn from(slice: UnsignedSlice<'a>) -> IntegerSlice<'a> {
        match slice {
            UnsignedSlice::U8(s) => IntegerSlice::U8(s),
            UnsignedSlice::U16(s) => IntegerSlice::U16(s),
            UnsignedSlice::U32(s) => IntegerSlice::U32(s),
            UnsignedSlice::U64(s) => IntegerSlice::U64(s),
        }
    }
}
