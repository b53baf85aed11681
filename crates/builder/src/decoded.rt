// SPDX-License-Identifier: Apache-2.0
// SPDX-FileCopyrightText: Copyright the Vortex contributors
// Changed: `append_decoded` of builder.rs in vortex-array 0.89.0, written anew in Rattle; the decoder is an interface, and what it leaves unused is zeroed.
//
// Many slots at once, decoded straight into the heap and cut by their lengths.
ghost use Rattle.std.specs.Prelude.{◌≡◌, ◌+◌, ◌≤◌, map, length};
ghost use Rattle.integers.specs.Slices.{integers};
ghost use Rattle.mask.specs.Masks.{flags};
ghost use Rattle.ptype.specs.Integers.{amount};
ghost use Rattle.ptype.specs.Searches.{total};
ghost use Rattle.refusal.specs.Refusals.{answer, first_refusal};
ghost use Rattle.builder.specs.Bulk.{checks_before, decode_checks, decoded_slots, decoded_part, decoded_answer, decoded, zeroed_from};
ghost use Rattle.builder.specs.Calls.{RowsFit};
ghost use Rattle.builder.specs.States.{state_with, SameMemory, add_rows};

use crate::builder::VarBinBuilder;
use crate::memory::Memory;
use crate::place::place_row;
use crate::values::{check_counts, survey_flags};
use decoder::decoder::Decoder;
use integers::slices::IntegerSlice;
use mask::mask::Mask;
use offsets::store::OffsetStore;
use refusal::Refusal;

// A guard over the part that a decoder is lent: on every way out it zeroes the bytes behind those that are kept.
struct SpareBytes<'a> {
    part: &'a mut [u8],
    keep: usize,
}

impl Drop for SpareBytes<'_> {
    fn drop(self)
        requires { self.keep ≤ length self.part.now }
        ensures { self.exit.0.now ≡ zeroed_from self.entry.keep self.entry.part.now }
    {
        let keep = self.keep;
        self.part[keep..].fill(0);
        let SpareBytes { part: _, keep: _ } = self;
    }
}

// Decodes into a part: 9, 10, 7 or 8 where the decoder's list is not what the lengths cut. What is not kept of the part is zero.
fn decode_part<D: Decoder>(
    decoder: &mut D,
    part: &mut [u8],
    num_bytes: u64,
    lengths: IntegerSlice<'_>,
) -> Result<(), Refusal>
    ensures answer { answer result ≡ first_refusal (decode_checks (D.means decoder.old) (length part.old) num_bytes (integers lengths.entry)) }
    ensures part { part.new ≡ decoded_part (D.means decoder.old) (answer result) (length part.old) }
    ensures kept { D.means decoder.new ≡ D.means decoder.old }
{
    let mut spare = SpareBytes { part, keep: 0 };
    let told = decoder.decode(spare.part).ok_or(Refusal::DecoderRefused)?;
    if told != num_bytes {
        return Err(Refusal::DecodedCountDiffers);
    }
    if let Some(entry) = lengths.first_overrun(num_bytes) {
        return Err(Refusal::BadEnd { entry });
    }
    if lengths.total() != Some(num_bytes) {
        return Err(Refusal::TotalDiffers);
    }
    spare.keep = told as usize;
    Ok(())
}

// Places rows that are known to fit, whose bytes stand in the heap already.
fn place_lengths<S: OffsetStore>(
    b: &mut VarBinBuilder,
    memory: &mut Memory<'_, S>,
    lengths: IntegerSlice<'_>,
    validity: Mask<'_>,
)
    requires fit { RowsFit (state_with S.offsets S.free S.top b.old memory.old) (length (integers lengths)) (total (integers lengths)) }
    requires counts { length (integers lengths) ≡ length (flags validity) }
    ensures after { state_with S.offsets S.free S.top b.new memory.new ≡ add_rows (state_with S.offsets S.free S.top b.old memory.old) (flags validity.entry) (map amount (integers lengths.entry)) }
    ensures same { SameMemory memory.old memory.new }
{
    // by number: neither the lengths nor the mask is a slice, and a `zip` of two iterators of our own is longer than this loop
    for i in 0..lengths.len() {
        let size = lengths.amount(i);
        place_row(b, memory.store, memory.bits, validity.value(i), size);
    }
}

// 1, 6, 5, 2, 3 or 4, before the decoder is asked.
fn check_decode<S: OffsetStore>(
    b: &VarBinBuilder,
    memory: &Memory<'_, S>,
    num_bytes: u64,
    slack: u64,
    lengths: IntegerSlice<'_>,
    validity: Mask<'_>,
) -> Result<(), Refusal>
    ensures { answer result ≡ first_refusal (checks_before (state_with S.offsets S.free S.top b.now memory.now) num_bytes slack (integers lengths.entry) validity.entry) }
{
    memory.check_memory(b)?;
    check_counts(lengths, validity)?;
    let survey = survey_flags(validity, num_bytes);
    memory.check_space(b, survey, num_bytes.saturating_add(slack))
}

impl VarBinBuilder {
    // Appends the slots that the lengths cut from the decoder's list, valid where the mask is set. The decoder is lent the next `num_bytes` plus `slack` heap bytes.
    pub fn append_decoded<S: OffsetStore, D: Decoder>(
        &mut self,
        memory: &mut Memory<'_, S>,
        num_bytes: u64,
        slack: u64,
        lengths: IntegerSlice<'_>,
        validity: Mask<'_>,
        decoder: &mut D,
    ) -> Result<(), Refusal>
        ensures answer { answer result ≡ decoded_answer (state_with S.offsets S.free S.top self.old memory.old) num_bytes slack (integers lengths.entry) validity.entry (D.means decoder.old) }
        ensures after { state_with S.offsets S.free S.top self.new memory.new ≡ decoded (state_with S.offsets S.free S.top self.old memory.old) (first_refusal (checks_before (state_with S.offsets S.free S.top self.old memory.old) num_bytes slack (integers lengths.entry) validity.entry)) (answer result) (num_bytes + slack) (decoded_slots (D.means decoder.old) (integers lengths.entry) validity.entry) }
        ensures same { SameMemory memory.old memory.new }
        ensures kept { D.means decoder.new ≡ D.means decoder.old }
    {
        check_decode(self, memory, num_bytes, slack, lengths, validity)?;
        let from = self.used as usize;
        let to = from + (num_bytes + slack) as usize;
        // no `?`, so that an edit can do something wrong where the decode is refused
        if let Err(refusal) = decode_part(decoder, &mut memory.heap[from..to], num_bytes, lengths) {
            return Err(refusal);
        }
        place_lengths(self, memory, lengths, validity);
        Ok(())
    }
}
