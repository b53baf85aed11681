// SPDX-License-Identifier: Apache-2.0
// SPDX-FileCopyrightText: Copyright the Vortex contributors
// Changed: `append_values` of builder.rs in vortex-array 0.89.0, written anew in Rattle; ends come as a slice of any kind, and a null that is not allowed is refused.
//
// Many slots at once, cut from bytes by their ends.
ghost use Rattle.std.specs.Prelude.{◌≡◌, length, None};
ghost use Rattle.integers.specs.Slices.{integers};
ghost use Rattle.mask.specs.Masks.{flags, covered};
ghost use Rattle.ptype.specs.Searches.{first_fall};
ghost use Rattle.refusal.specs.Refusals.{answer, first_refusal};
ghost use Rattle.builder.specs.Bulk.{counts_check, flags_survey, last_end, values_checks, value_slots};
ghost use Rattle.builder.specs.Calls.{append_answer, appended, Fits};
ghost use Rattle.builder.specs.Samples.{ValuesExamples};
ghost use Rattle.builder.specs.States.{state_with, SameMemory, add_slots};

use crate::builder::VarBinBuilder;
use crate::memory::Memory;
use crate::place::place;
use crate::survey::Survey;
use integers::slices::IntegerSlice;
use mask::mask::Mask;
use offsets::store::OffsetStore;
use refusal::Refusal;
use slots::slot::SlotRef;

// 6 where numbers and mask differ in count, or the mask has too few bytes. The two stay apart, as the calls take them: each is used without the other too.
pub fn check_counts(numbers: IntegerSlice<'_>, mask: Mask<'_>) -> Result<(), Refusal>
    ensures { answer result ≡ counts_check (integers numbers.entry) (flags mask.entry) (covered mask.entry) }
{
    if numbers.len() != mask.len() {
        return Err(Refusal::CountsDiffer);
    }
    if !mask.is_covered() {
        return Err(Refusal::CountsDiffer);
    }
    Ok(())
}

// What slots with these flags and so many bytes come to.
pub fn survey_flags(validity: Mask<'_>, bytes: u64) -> Survey
    ensures { result ≡ flags_survey (flags validity.entry) bytes }
{
    let rows = validity.len();
    Survey {
        rows,
        nulls: rows - validity.true_count(),
        bytes,
    }
}

// The last end, 0 where there is none.
fn last_end(ends: IntegerSlice<'_>) -> u64
    ensures { result ≡ last_end 0 (integers ends.entry) }
{
    let count = ends.len();
    if count == 0 {
        0
    } else {
        ends.amount(count - 1)
    }
}

// 6, 7 or 8 where the ends do not cut the bytes.
fn check_ends(values: &[u8], ends: IntegerSlice<'_>, validity: Mask<'_>) -> Result<(), Refusal>
    ensures { answer result ≡ first_refusal (values_checks values.now (integers ends.entry) validity.entry) }
{
    check_counts(ends, validity)?;
    let bytes = values.len() as u64;
    if let Some(entry) = ends.first_fall(0, bytes) {
        return Err(Refusal::BadEnd { entry });
    }
    if last_end(ends) != bytes {
        return Err(Refusal::TotalDiffers);
    }
    Ok(())
}

// Places slots that are known to fit, by ends that are known to rise.
fn place_values<S: OffsetStore>(
    b: &mut VarBinBuilder,
    memory: &mut Memory<'_, S>,
    values: &[u8],
    ends: IntegerSlice<'_>,
    validity: Mask<'_>,
)
    requires fit { Fits (state_with S.offsets S.free S.top b.old memory.old) (value_slots values.now (integers ends) validity) }
    requires rise { first_fall (length values.now) 0 0 (integers ends) ≡ None }
    requires counts { length (integers ends) ≡ length (flags validity) }
    ensures after { state_with S.offsets S.free S.top b.new memory.new ≡ add_slots (state_with S.offsets S.free S.top b.old memory.old) (value_slots values.now (integers ends.entry) validity.entry) }
    ensures same { SameMemory memory.old memory.new }
{
    let mut from = 0;
    // by number: neither the ends nor the mask is a slice, and a `zip` of two iterators of our own is longer than this loop
    for i in 0..ends.len() {
        let end = ends.amount(i);
        let slot = SlotRef {
            valid: validity.value(i),
            bytes: &values[from as usize..end as usize],
        };
        place(b, memory, slot);
        from = end;
    }
}

impl VarBinBuilder {
    // Appends the slots that the ends cut from the bytes, valid where the mask is set.
    pub fn append_values<S: OffsetStore>(
        &mut self,
        memory: &mut Memory<'_, S>,
        values: &[u8],
        ends: IntegerSlice<'_>,
        validity: Mask<'_>,
    ) -> Result<(), Refusal>
        ensures answer { answer result ≡ append_answer (state_with S.offsets S.free S.top self.old memory.old) (values_checks values.now (integers ends.entry) validity.entry) (value_slots values.now (integers ends.entry) validity.entry) }
        ensures after { state_with S.offsets S.free S.top self.new memory.new ≡ appended (state_with S.offsets S.free S.top self.old memory.old) (answer result) (value_slots values.now (integers ends.entry) validity.entry) }
        ensures same { SameMemory memory.old memory.new }
        ensures examples { ValuesExamples }
    {
        memory.check_memory(self)?;
        check_ends(values, ends, validity)?;
        let survey = survey_flags(validity, values.len() as u64);
        memory.check_space(self, survey, survey.bytes)?;
        place_values(self, memory, values, ends, validity);
        Ok(())
    }
}
