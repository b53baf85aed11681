// SPDX-License-Identifier: Apache-2.0
// SPDX-FileCopyrightText: Copyright the Vortex contributors
// Changed: `append_value`, `append_n_values` and `push_nulls` of builder.rs in vortex-array 0.89.0, written anew in Rattle; each refuses with a number where the Rust panics or accepts too much.
//
// Appends of equal slots: values and nulls.
ghost use Rattle.std.specs.Prelude.{◌≡◌, true, false, [], ◌∷◌, length, replicate};
ghost use Rattle.refusal.specs.Refusals.{answer};
ghost use Rattle.slots.specs.Slots.{slot, slot_of};
ghost use Rattle.builder.specs.Calls.{append_answer, appended, Fits};
ghost use Rattle.builder.specs.Samples.{TopExamples};
ghost use Rattle.builder.specs.States.{state_with, SameMemory, add_slots};
ghost use Rattle.builder.specs.Surveys.{survey_of};

use crate::builder::VarBinBuilder;
use crate::memory::Memory;
use crate::place::place;
use crate::survey::Survey;
use offsets::store::OffsetStore;
use refusal::Refusal;
use slots::slot::SlotRef;

// Places n equal slots that are known to fit.
fn place_n<S: OffsetStore>(
    b: &mut VarBinBuilder,
    memory: &mut Memory<'_, S>,
    slot: SlotRef<'_>,
    n: u64,
)
    requires { Fits (state_with S.offsets S.free S.top b.old memory.old) (replicate n (slot_of slot)) }
    ensures after { state_with S.offsets S.free S.top b.new memory.new ≡ add_slots (state_with S.offsets S.free S.top b.old memory.old) (replicate n (slot_of slot.entry)) }
    ensures same { SameMemory memory.old memory.new }
{
    for _i in 0..n {
        place(b, memory, slot);
    }
}

// What n equal slots come to.
fn survey_repeated(slot: SlotRef<'_>, n: u64) -> Survey
    ensures { result ≡ survey_of (replicate n (slot_of slot.entry)) }
{
    Survey {
        rows: n,
        nulls: if slot.valid { 0 } else { n },
        bytes: n.saturating_mul(slot.bytes.len() as u64),
    }
}

// Appends n equal slots.
fn append_repeated<S: OffsetStore>(
    b: &mut VarBinBuilder,
    memory: &mut Memory<'_, S>,
    slot: SlotRef<'_>,
    n: u64,
) -> Result<(), Refusal>
    ensures answer { answer result ≡ append_answer (state_with S.offsets S.free S.top b.old memory.old) [] (replicate n (slot_of slot.entry)) }
    ensures after { state_with S.offsets S.free S.top b.new memory.new ≡ appended (state_with S.offsets S.free S.top b.old memory.old) (answer result) (replicate n (slot_of slot.entry)) }
    ensures same { SameMemory memory.old memory.new }
{
    memory.check_memory(b)?;
    let survey = survey_repeated(slot, n);
    memory.check_space(b, survey, survey.bytes)?;
    place_n(b, memory, slot, n);
    Ok(())
}

impl VarBinBuilder {
    // Appends one valid slot.
    pub fn append_value<S: OffsetStore>(
        &mut self,
        memory: &mut Memory<'_, S>,
        value: &[u8],
    ) -> Result<(), Refusal>
        ensures answer { answer result ≡ append_answer (state_with S.offsets S.free S.top self.old memory.old) [] (slot true value.now ∷ []) }
        ensures after { state_with S.offsets S.free S.top self.new memory.new ≡ appended (state_with S.offsets S.free S.top self.old memory.old) (answer result) (slot true value.now ∷ []) }
        ensures same { SameMemory memory.old memory.new }
        ensures examples { TopExamples }
    {
        append_repeated(self, memory, SlotRef::value(value), 1)
    }

    // Appends the same valid slot n times.
    pub fn append_n_values<S: OffsetStore>(
        &mut self,
        memory: &mut Memory<'_, S>,
        value: &[u8],
        n: u64,
    ) -> Result<(), Refusal>
        ensures answer { answer result ≡ append_answer (state_with S.offsets S.free S.top self.old memory.old) [] (replicate n (slot true value.now)) }
        ensures after { state_with S.offsets S.free S.top self.new memory.new ≡ appended (state_with S.offsets S.free S.top self.old memory.old) (answer result) (replicate n (slot true value.now)) }
        ensures same { SameMemory memory.old memory.new }
    {
        append_repeated(self, memory, SlotRef::value(value), n)
    }

    // Appends n nulls without bytes.
    pub fn push_nulls<S: OffsetStore>(
        &mut self,
        memory: &mut Memory<'_, S>,
        n: u64,
    ) -> Result<(), Refusal>
        ensures answer { answer result ≡ append_answer (state_with S.offsets S.free S.top self.old memory.old) [] (replicate n (slot false [])) }
        ensures after { state_with S.offsets S.free S.top self.new memory.new ≡ appended (state_with S.offsets S.free S.top self.old memory.old) (answer result) (replicate n (slot false [])) }
        ensures same { SameMemory memory.old memory.new }
    {
        append_repeated(self, memory, SlotRef::null(), n)
    }
}
