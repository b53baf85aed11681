// SPDX-License-Identifier: Apache-2.0
// SPDX-FileCopyrightText: Copyright the Vortex contributors
// Changed: `VarBinData::validate` and its parts, of array.rs in vortex-array 0.89.0, written anew in Rattle as checks that refuse with a number and a place.
//
// The checks of opening, each a part that can be called apart.
ghost use Rattle.std.specs.Prelude.{◌≡◌};
ghost use Rattle.integers.specs.Slices.{integers};
ghost use Rattle.refusal.specs.Refusals.{answer};
ghost use Rattle.array.specs.Opening.{limits_check, some_check, validity_check, layout_check};

use integers::slices::IntegerSlice;
use mask::mask::Mask;
use refusal::Refusal;
pub use slots::limits::{MOST_HEAP_BYTES, MOST_ROWS};

// 14 where there are too many rows or heap bytes.
pub fn check_limits(rows: u64, heap_bytes: u64) -> Result<(), Refusal>
    ensures { answer result ≡ limits_check rows heap_bytes }
{
    if rows > MOST_ROWS {
        return Err(Refusal::OverLimit);
    }
    if heap_bytes > MOST_HEAP_BYTES {
        return Err(Refusal::OverLimit);
    }
    Ok(())
}

// 15 where there are no offsets.
pub fn check_some(offsets: u64) -> Result<(), Refusal>
    ensures { answer result ≡ some_check offsets }
{
    if offsets == 0 {
        Err(Refusal::NoOffsets)
    } else {
        Ok(())
    }
}

// 16 where the validity does not fit the nullability or the rows.
pub fn check_validity(nullable: bool, mask: Option<Mask<'_>>, rows: u64) -> Result<(), Refusal>
    ensures { answer result ≡ validity_check nullable mask.entry rows }
{
    match mask {
        None => {
            if nullable {
                return Err(Refusal::ValidityMismatch);
            }
        }
        Some(m) => {
            if !nullable {
                return Err(Refusal::ValidityMismatch);
            }
            if m.len() != rows {
                return Err(Refusal::ValidityMismatch);
            }
            if !m.is_covered() {
                return Err(Refusal::ValidityMismatch);
            }
        }
    }
    Ok(())
}

// 17 at the first offset that is negative, falls or leaves the heap.
pub fn check_layout(offsets: IntegerSlice<'_>, heap_bytes: u64) -> Result<(), Refusal>
    ensures { answer result ≡ layout_check (integers offsets.entry) heap_bytes }
{
    match offsets.first_fall(0, heap_bytes) {
        Some(entry) => Err(Refusal::BadOffset { entry }),
        None => Ok(()),
    }
}
