// An opened column: a view over lent offsets of any kind, a heap and validity. What stands in its type holds of every view.
ghost use Rattle.std.specs.Prelude.{◌≡◌, ◌≤◌, false, length, is_some};
ghost use Rattle.mask.specs.Masks.{flags};
ghost use Rattle.ptype.specs.Searches.{first_fall};
ghost use Rattle.integers.specs.Slices.{integers};
ghost use Rattle.array.specs.Columns.{row_count};

use integers::slices::IntegerSlice;
use mask::mask::Mask;
use slots::dtype::DType;

#[derive(Clone, Copy)]
pub struct VarBinArray<'a> {
    pub(super) offsets: IntegerSlice<'a>,
    pub(super) heap: &'a [u8],
    pub(super) validity: Mask<'a>,
    pub(super) dtype: DType,
    ghost few: { row_count (integers offsets) ≤ 16777216 },
    ghost rising: { is_some (first_fall (length heap.now) 0 0 (integers offsets)) ≡ false },
    ghost valid: { length (flags validity) ≡ row_count (integers offsets) },
}
