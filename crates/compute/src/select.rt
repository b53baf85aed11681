// Inner: appending the rows at some indices, however they came about. The source is read twice: once to sum up, once to copy.
ghost use Rattle.std.specs.Prelude.{◌≡◌, length, None};
ghost use Rattle.builder.specs.Calls.{space_for, appended, Fits};
ghost use Rattle.builder.specs.Space.{memory_check};
ghost use Rattle.builder.specs.States.{state_with, SameMemory, add_slots};
ghost use Rattle.builder.specs.Surveys.{survey_of};
ghost use Rattle.refusal.specs.Refusals.{answer, first_refusal};
ghost use Rattle.slots.specs.Rows.{row_of};
ghost use Rattle.slots.specs.Slots.{slot_of};
ghost use Rattle.std.specs.Option.{option_map};
ghost use Rattle.compute.specs.Indices.{picked_row, picked_slot, picked_slots};

use crate::index::RowIndices;
use builder::builder::VarBinBuilder;
use builder::memory::Memory;
use builder::place::place;
use builder::survey::Survey;
use offsets::store::OffsetStore;
use refusal::Refusal;
use rows::row::RowRef;
use rows::source::RowSource;
use slots::slot::SlotRef;

// The row at an index: none for a null, and none that the source does not have, since selections are refused before they read one.
fn row_at<R: RowSource>(source: &R, index: Option<u64>) -> RowRef<'_>
    ensures { row_of (option_map (λ part. part.now) result) ≡ picked_row (R.rows source.now) index }
{
    source.row(index?)?
}

// What the row at an index is appended as.
fn slot_at<R: RowSource>(source: &R, index: Option<u64>) -> SlotRef<'_>
    ensures { slot_of result ≡ picked_slot (R.rows source.now) index }
{
    match row_at(source, index) {
        Some(bytes) => SlotRef::value(bytes),
        None => SlotRef::null(),
    }
}

// What the rows at these indices come to.
fn survey_rows<R: RowSource, N: RowIndices>(source: &R, indices: N) -> Survey
    ensures { result ≡ survey_of (picked_slots (R.rows source.now) (N.left indices)) }
{
    let mut rows = 0u64;
    let mut nulls = 0u64;
    let mut bytes = 0u64;
    for index in indices {
        rows = rows.saturating_add(1);
        match row_at(source, index) {
            Some(value) => bytes = bytes.saturating_add(value.len() as u64),
            None => nulls = nulls.saturating_add(1),
        }
    }
    Survey { rows, nulls, bytes }
}

// Places the rows at these indices, which are known to fit.
fn place_rows<S: OffsetStore, R: RowSource, N: RowIndices>(
    b: &mut VarBinBuilder,
    memory: &mut Memory<'_, S>,
    source: &R,
    indices: N,
)
    requires { Fits (state_with S.offsets S.free S.top b.old memory.old) (picked_slots (R.rows source.now) (N.left indices)) }
    ensures after { state_with S.offsets S.free S.top b.new memory.new ≡ add_slots (state_with S.offsets S.free S.top b.old memory.old) (picked_slots (R.rows source.now) (N.left indices)) }
    ensures same { SameMemory memory.old memory.new }
{
    for index in indices {
        place(b, memory, slot_at(source, index));
    }
}

// Appends the rows at these indices to a builder whose memory is its own: 5, 2, 3 or 4 where there is no space.
pub fn select<S: OffsetStore, R: RowSource, N: RowIndices>(
    b: &mut VarBinBuilder,
    memory: &mut Memory<'_, S>,
    source: &R,
    indices: N,
) -> Result<(), Refusal>
    requires { None ≡ memory_check (state_with S.offsets S.free S.top b.old memory.old) }
    ensures answer { answer result ≡ first_refusal (space_for (state_with S.offsets S.free S.top b.old memory.old) (picked_slots (R.rows source.now) (N.left indices))) }
    ensures after { state_with S.offsets S.free S.top b.new memory.new ≡ appended (state_with S.offsets S.free S.top b.old memory.old) (answer result) (picked_slots (R.rows source.now) (N.left indices)) }
    ensures same { SameMemory memory.old memory.new }
{
    let survey = survey_rows(source, indices);
    memory.check_space(b, survey, survey.bytes)?;
    place_rows(b, memory, source, indices);
    Ok(())
}
