// SPDX-License-Identifier: Apache-2.0
// SPDX-FileCopyrightText: Copyright the Vortex contributors
// Changed: making and finishing a `VarBinBuilder`, of builder.rs in vortex-array 0.89.0, written anew in Rattle over lent memory; finishing spends the builder and looks at no memory.
//
// Making a builder, and ending it.
ghost use Rattle.std.specs.Prelude.{◌≡◌, length, MatchResult};
ghost use Rattle.refusal.specs.Refusals.{answer};
ghost use Rattle.builder.specs.Finishing.{record_of};
ghost use Rattle.builder.specs.Making.{make_answer, made};
ghost use Rattle.builder.specs.States.{state_of};

use crate::builder::VarBinBuilder;
use crate::finished::{Finished, Validity};
use offsets::store::OffsetStore;
use refusal::Refusal;
use slots::dtype::DType;
pub use slots::limits::{MOST_HEAP_BYTES, MOST_ROWS};

impl VarBinBuilder {
    // A builder over an empty store, a heap and bytes for bits; it pushes offset 0. They come apart here and not as a `Memory`: heap and bits are only measured, so shared references are enough.
    pub fn new<S: OffsetStore>(
        dtype: DType,
        store: &mut S,
        heap: &[u8],
        bits: &[u8],
    ) -> Result<VarBinBuilder, Refusal>
        ensures answer { answer result ≡ make_answer (length (S.offsets store.old)) (S.free store.old) (length heap.now) }
        ensures after { MatchResult result (λ b. state_of S.offsets S.free S.top b store.new heap.now bits.now ≡ made dtype.nullable (S.free store.old) (S.top store.old) heap.now bits.now) (λ _. store.new ≡ store.old) }
    {
        let heap_left = heap.len() as u64;
        if heap_left > MOST_HEAP_BYTES {
            return Err(Refusal::OverLimit);
        }
        if store.len() != 0 {
            return Err(Refusal::StoreNotFresh);
        }
        if !store.push(0) {
            return Err(Refusal::StoreNotFresh);
        }
        let free_left = store.free();
        let bits_left = bits.len() as u64;
        let capacity = free_left.min(bits_left.saturating_mul(8).min(MOST_ROWS));
        Ok(VarBinBuilder {
            dtype,
            rows: 0,
            used: 0,
            valid: 0,
            capacity,
            free_left,
            heap_left,
            bits_left,
        })
    }

    // Ends the builder with the record of its column.
    pub fn finish(self) -> Finished
        ensures { result ≡ record_of self.dtype.nullable self.rows self.used self.valid }
    {
        let VarBinBuilder {
            dtype,
            rows,
            used,
            valid,
            capacity: _,
            free_left: _,
            heap_left: _,
            bits_left: _,
        } = self;
        let validity = if !dtype.nullable {
            Validity::NonNullable
        } else if valid == rows {
            Validity::AllValid
        } else if valid == 0 {
            Validity::AllInvalid
        } else {
            Validity::Bits
        };
        Finished {
            rows,
            bytes: used,
            valid,
            validity,
        }
    }

    // Ends the builder and tells how many rows it drops.
    pub fn discard(self) -> u64
        ensures { result ≡ self.rows }
    {
        let VarBinBuilder {
            dtype: _,
            rows: dropped,
            used: _,
            valid: _,
            capacity: _,
            free_left: _,
            heap_left: _,
            bits_left: _,
        } = self;
        dropped
    }
}
