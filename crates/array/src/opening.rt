// SPDX-License-Identifier: Apache-2.0
// SPDX-FileCopyrightText: Copyright the Vortex contributors
// Changed: making a `VarBinArray`, of array.rs in vortex-array 0.89.0, written anew in Rattle; opening fills a view that the caller holds.
//
// Opening fills a view that the caller holds; refused, the view stays.
ghost use Rattle.std.specs.Prelude.{◌≡◌, false, [], MatchResult};
ghost use Rattle.integers.specs.Slices.{integers};
ghost use Rattle.refusal.specs.Refusals.{answer};
ghost use Rattle.mask.specs.Masks.{flags};
ghost use Rattle.array.specs.Opening.{open_answer, row_flags};
ghost use Rattle.array.specs.Views.{Opened};

use crate::checks::{check_layout, check_limits, check_some, check_validity};
use crate::text::check_text;
use crate::view::VarBinArray;
use integers::slices::IntegerSlice;
use mask::mask::Mask;
use refusal::Refusal;
use slots::dtype::DType;

impl<'a> VarBinArray<'a> {
    // The view without offsets.
    #[tactic(auto, unfolding(ptype::specs::Searches::first_fall))]
    pub fn empty() -> VarBinArray<'a>
        ensures { integers result.offsets ≡ [] }
    {
        VarBinArray {
            offsets: IntegerSlice::U8(&[]),
            heap: &[],
            validity: Mask::new_true(0),
            dtype: DType {
                utf8: false,
                nullable: false,
            },
        }
    }

    // Fills the view with these parts, where they are a column; else it stays.
    #[tactic(auto, using(crate::proofs::Opens::few, crate::proofs::Opens::rising, crate::proofs::Opens::valid))]
    pub fn open(
        &mut self,
        offsets: IntegerSlice<'a>,
        heap: &'a [u8],
        mask: Option<Mask<'a>>,
        dtype: DType,
    ) -> Result<(), Refusal>
        ensures answer { answer result ≡ open_answer dtype.nullable dtype.utf8 (integers offsets.entry) heap.now mask.entry }
        ensures after { MatchResult result (λ _. Opened self.new offsets.entry heap.entry mask.entry dtype.nullable dtype.utf8) (λ _. self.new ≡ self.old) }
    {
        let rows = offsets.len().saturating_sub(1);
        let heap_bytes = heap.len() as u64;
        check_limits(rows, heap_bytes)?;
        check_some(offsets.len())?;
        check_validity(dtype.nullable, mask, rows)?;
        check_layout(offsets, heap_bytes)?;
        let validity = row_validity(mask, rows);
        if dtype.utf8 {
            check_text(offsets, heap, validity)?;
        }
        *self = VarBinArray {
            offsets,
            heap,
            validity,
            dtype,
        };
        Ok(())
    }
}

// The mask, or all rows valid where there is none.
fn row_validity<'a>(mask: Option<Mask<'a>>, rows: u64) -> Mask<'a>
    ensures { flags result ≡ row_flags mask.entry rows }
{
    mask.unwrap_or(Mask::new_true(rows))
}
