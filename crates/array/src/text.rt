// SPDX-License-Identifier: Apache-2.0
// SPDX-FileCopyrightText: Copyright the Vortex contributors
// Changed: `validate_utf8` and `bytes_at` of array.rs in vortex-array 0.89.0, written anew in Rattle; a row that is not UTF-8 is named with the place of its bad character.
//
// Inner: the slots of a column whose offsets are known to never fall and to stay in the heap, and the check of their text.
ghost use Rattle.std.specs.Prelude.{◌≡◌, ◌+◌, ◌^◌, ◌<◌, false, length, is_some};
ghost use Rattle.mask.specs.Masks.{flags};
ghost use Rattle.ptype.specs.Integers.{amount_at};
ghost use Rattle.ptype.specs.Searches.{first_fall};
ghost use Rattle.integers.specs.Slices.{integers};
ghost use Rattle.refusal.specs.Refusals.{answer};
ghost use Rattle.array.specs.Columns.{slot_bytes};
ghost use Rattle.array.specs.Opening.{text_check};

use integers::slices::IntegerSlice;
use mask::mask::Mask;
use refusal::Refusal;
use utf8::validate::validate_utf8;

// Slot i of a column whose offsets never fall and stay in the heap: a part of the heap.
pub fn slot_at<'a>(offsets: IntegerSlice<'_>, heap: &'a [u8], i: u64) -> &'a [u8]
    requires rising { is_some (first_fall (length heap.now) 0 0 (integers offsets)) ≡ false }
    requires inside { i + 1 < length (integers offsets) }
    requires small { i + 1 < 2 ^ 64 }
    ensures bytes { result.now ≡ slot_bytes (integers offsets.entry) heap.now i }
    ensures place { result.ref_ptr ≡ (heap.entry.ref_ptr.0, heap.entry.ref_ptr.1 + amount_at (integers offsets.entry) i) }
{
    let from = offsets.amount(i);
    let to = offsets.amount(i + 1);
    &heap[from as usize..to as usize]
}

// 18 at the first valid row that is not UTF-8, with the heap place of its bad character.
#[tactic(auto, using(crate::proofs::Texts::rest_null, crate::proofs::Texts::rest_text))]
pub fn check_text(offsets: IntegerSlice<'_>, heap: &[u8], validity: Mask<'_>) -> Result<(), Refusal>
    requires { is_some (first_fall (length heap.now) 0 0 (integers offsets)) ≡ false }
    ensures { answer result ≡ text_check (integers offsets.entry) heap.now (flags validity.entry) }
{
    // by number, since a row is read by two offsets and a flag, and is named where it is refused
    for i in 0..offsets.len().saturating_sub(1) {
        if validity.value(i) {
            if let Err(bad) = validate_utf8(slot_at(offsets, heap, i)) {
                let from = offsets.amount(i);
                return Err(Refusal::NotUtf8 {
                    entry: i,
                    byte: from + bad.valid_up_to,
                });
            }
        }
    }
    Ok(())
}
