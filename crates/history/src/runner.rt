// Carrying out a whole history: a builder is made, its calls are carried out in order, and it is finished.
ghost use Rattle.std.specs.Prelude.{◌≡◌, ℕ, min, map, length, take, MatchResult};
ghost use Rattle.builder.specs.Making.{make_answer, made};
ghost use Rattle.builder.specs.States.{state_with, SameMemory};
ghost use Rattle.refusal.specs.Refusals.{answer};
ghost use Rattle.history.specs.Requests.{request_of};
ghost use Rattle.history.specs.Runs.{run_of, answers_of};
ghost use Rattle.history.specs.Running.{Carried, RunsTo};
ghost use Rattle.history.specs.Theorem.{HistoriesFollow};

use crate::call::{Call, Outcome};
use crate::carry::carry_out;
use builder::builder::VarBinBuilder;
use builder::finished::Finished;
use builder::memory::Memory;
use decoder::decoder::Decoder;
use offsets::store::OffsetStore;
use refusal::Refusal;
use rows::source::RowSource;
use slots::dtype::DType;

// What a history came to: the record of its column, and how many of its calls were carried out.
#[derive(Clone, Copy)]
pub struct Ran {
    pub finished: Finished,
    pub carried: u64,
}

// Carries out the calls in order, as many as there are places for outcomes, and tells how many.
fn carry_all<S: OffsetStore, R: RowSource, D: Decoder + Copy>(
    builder: &mut VarBinBuilder,
    memory: &mut Memory<'_, S>,
    calls: &[Call<'_, R, D>],
    outcomes: &mut [Outcome],
) -> u64
    ensures count { result ≡ min (length calls.now) (length outcomes.old) }
    ensures memory { state_with S.offsets S.free S.top builder.new memory.new ≡ run_of (state_with S.offsets S.free S.top builder.old memory.old) (map (request_of R.RowSource.rows D.Decoder.means) (take result calls.now)) }
    ensures told { Carried result (answers_of (state_with S.offsets S.free S.top builder.old memory.old) (map (request_of R.RowSource.rows D.Decoder.means) (take result calls.now))) outcomes.old outcomes.new }
    ensures same { SameMemory memory.old memory.new }
{
    let count = calls.len().min(outcomes.len());
    // outcomes by number: what a `zip` over `iter_mut` leaves behind is not followed by the check
    for (i, call) in calls[..count].iter().enumerate() {
        outcomes[i] = carry_out(builder, memory, call);
    }
    count as u64
}

// Makes a builder, carries out the calls on it, keeping each outcome, and finishes it. Where making is refused, nothing is carried out.
// Store, heap and bits come apart, as making takes them, and are a `Memory` from then on.
pub fn run_history<S: OffsetStore, R: RowSource, D: Decoder + Copy>(
    dtype: DType,
    store: &mut S,
    heap: &mut [u8],
    bits: &mut [u8],
    calls: &[Call<'_, R, D>],
    outcomes: &mut [Outcome],
) -> Result<Ran, Refusal>
    ensures answer { answer result ≡ make_answer (length (S.offsets store.old)) (S.free store.old) (length heap.old) }
    ensures run { MatchResult result (λ ran. RunsTo ran (made dtype.nullable (S.free store.old) (S.top store.old) heap.old bits.old) (map (request_of R.RowSource.rows D.Decoder.means) calls.now) outcomes.old outcomes.new (S.offsets store.new) (S.free store.new) (S.top store.new) heap.new bits.new) (λ _. (store.new ≡ store.old) × (heap.new ≡ heap.old) × (bits.new ≡ bits.old) × (outcomes.new ≡ outcomes.old)) }
    ensures theorem { HistoriesFollow }
{
    let mut builder = VarBinBuilder::new(dtype, store, heap, bits)?;
    let mut memory = Memory { store, heap, bits };
    let carried = carry_all(&mut builder, &mut memory, calls, outcomes);
    Ok(Ran {
        finished: builder.finish(),
        carried,
    })
}
