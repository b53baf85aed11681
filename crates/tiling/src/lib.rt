// SPDX-License-Identifier: Apache-2.0
// SPDX-FileCopyrightText: Copyright the Vortex contributors
// Changed: `offsets_tile_utf8` of array.rs in vortex-array 0.89.0, written anew in Rattle; negative offsets are told apart, and nothing panics.
//
// The tiling check: whether offsets cut a heap into strings of UTF-8, in one pass over the bytes.
#![tactic(auto)]

ghost use Rattle.std.specs.Prelude.{◌≡◌, ℕ, ◌<◌, ◌≤◌, length, Decides};
ghost use Rattle.ptype.specs.Integers.{amount_at};
ghost use Rattle.integers.specs.Slices.{integers};
ghost use Rattle.tiling.specs.Tiling.{Boundary, Tiles, TilingLaw, TilingExamples};

use integers::slices::IntegerSlice;
use utf8::validate::validate_utf8;

// Whether a character can begin at `index`, or the bytes end there.
fn is_char_boundary_at(bytes: &[u8], index: u64) -> bool
    ensures { index ≤ length bytes.now → Decides result (Boundary bytes.now index) }
{
    match bytes.get(index as usize) {
        Some(byte) => *byte < 0x80 || *byte > 0xBF,
        None => true,
    }
}

// Whether each offset is a boundary.
fn all_boundaries(offsets: IntegerSlice<'_>, bytes: &[u8]) -> bool
    requires { (i : ℕ) → i < length (integers offsets) → amount_at (integers offsets) i ≤ length bytes.now }
    ensures { Decides result ((i : ℕ) → i < length (integers offsets.entry) → Boundary bytes.now (amount_at (integers offsets.entry) i)) }
{
    // by number: `all` over the numbers was tried, and that each offset was tried did not follow from it
    for i in 0..offsets.len() {
        if !is_char_boundary_at(bytes, offsets.amount(i)) {
            return false;
        }
    }
    true
}

// Whether the offsets never fall, end within the heap, and delimit UTF-8 strings, those at null rows too.
#[tactic(auto, using(crate::proofs::Law::tiling_law, crate::proofs::Examples::examples, crate::proofs::Decided::falls, crate::proofs::Decided::none_there, crate::proofs::Decided::some_there))]
pub fn offsets_tile_utf8(offsets: IntegerSlice<'_>, bytes: &[u8]) -> bool
    ensures answer { Decides result (Tiles (integers offsets.entry) bytes.now) }
    ensures law { TilingLaw }
    ensures examples { TilingExamples }
{
    if offsets.first_fall(0, bytes.len() as u64).is_some() {
        return false;
    }
    match offsets.get(0) {
        Some(first) => {
            let last = offsets.get(offsets.len() - 1).unwrap_or(first);
            match validate_utf8(&bytes[first as usize..last as usize]) {
                Ok(()) => all_boundaries(offsets, bytes),
                Err(_) => false,
            }
        }
        None => false,
    }
}
