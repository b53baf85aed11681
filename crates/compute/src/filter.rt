// SPDX-License-Identifier: Apache-2.0
// SPDX-FileCopyrightText: Copyright the Vortex contributors
// Changed: compute/filter.rs of vortex-array 0.89.0, written anew in Rattle; the mask's length is compared with the source's.
//
// Selecting by mask.
ghost use Rattle.std.specs.Iterator.{YieldsFirst, item_count};
ghost use Rattle.std.specs.Prelude.{◌≡◌, length};
ghost use Rattle.builder.specs.States.{state_with, SameMemory};
ghost use Rattle.mask.specs.Masks.{flags, covered};
ghost use Rattle.refusal.specs.Refusals.{answer, first_refusal};
ghost use Rattle.compute.specs.Left.{left_of_mask};
ghost use Rattle.compute.specs.Selections.{by_mask, selection_checks, select_answer, selected};

use crate::index::RowIndices;
use crate::select::select;
use builder::builder::VarBinBuilder;
use builder::memory::Memory;
use mask::mask::Mask;
use offsets::store::OffsetStore;
use refusal::Refusal;
use rows::source::RowSource;

// The set rows of a mask, from a place on.
#[derive(Clone, Copy)]
pub struct MaskIndices<'a> {
    mask: Mask<'a>,
    from: u64,
}

impl Iterator for MaskIndices<'_> {
    type Item = Option<u64>;

    ghost next_gives = { YieldsFirst left_of_mask };

    ghost remaining = { item_count left_of_mask };

    fn next(&mut self) -> Option<Option<u64>> {
        // the length bounds the row that is found, so that there is a place behind it
        if self.from >= self.mask.len() {
            return None;
        }
        let row = self.mask.next_set(self.from)?;
        self.from = row + 1;
        Some(Some(row))
    }
}

impl RowIndices for MaskIndices<'_> {
    ghost left = { left_of_mask };

    ghost reads = { λ s item t h. h };

    ghost may_read = { λ s. tt };

    ghost ends = { λ s. tt };
}

// 6 where the mask has too few bytes, 12 where it is not as long as the source.
fn check_mask(count: u64, mask: Mask<'_>) -> Result<(), Refusal>
    ensures { answer result ≡ first_refusal (selection_checks count (by_mask (flags mask.entry) (covered mask.entry))) }
{
    if !mask.is_covered() {
        return Err(Refusal::CountsDiffer);
    }
    if mask.len() != count {
        return Err(Refusal::MaskLengthDiffers);
    }
    Ok(())
}

// Appends the rows of the source whose flag is set.
pub fn filter<S: OffsetStore, R: RowSource>(
    builder: &mut VarBinBuilder,
    memory: &mut Memory<'_, S>,
    source: &R,
    mask: Mask<'_>,
) -> Result<(), Refusal>
    ensures answer { answer result ≡ select_answer (state_with S.offsets S.free S.top builder.old memory.old) (R.rows source.now) (by_mask (flags mask.entry) (covered mask.entry)) }
    ensures after { state_with S.offsets S.free S.top builder.new memory.new ≡ selected (state_with S.offsets S.free S.top builder.old memory.old) (R.rows source.now) (by_mask (flags mask.entry) (covered mask.entry)) (answer result) }
    ensures same { SameMemory memory.old memory.new }
{
    memory.check_memory(builder)?;
    check_mask(source.len() as u64, mask)?;
    select(builder, memory, source, MaskIndices { mask, from: 0 })
}
