// Carrying out one call on a builder with its memory.
ghost use Rattle.std.specs.Prelude.{◌≡◌};
ghost use Rattle.builder.specs.States.{state_with, SameMemory};
ghost use Rattle.refusal.specs.Refusals.{answer};
ghost use Rattle.history.specs.Requests.{request_of, request_answer, request_after};

use crate::call::{Call, Outcome};
use builder::builder::VarBinBuilder;
use builder::memory::Memory;
use compute::filter::filter;
use compute::gather::gather_slices;
use compute::take::take;
use decoder::decoder::Decoder;
use offsets::store::OffsetStore;
use rows::source::RowSource;

// Carries out a call on a builder with the memory that it is given.
pub fn carry_out<S: OffsetStore, R: RowSource, D: Decoder + Copy>(
    builder: &mut VarBinBuilder,
    memory: &mut Memory<'_, S>,
    call: &Call<'_, R, D>,
) -> Outcome
    ensures answer { answer result ≡ request_answer (state_with S.offsets S.free S.top builder.old memory.old) (request_of R.RowSource.rows D.Decoder.means call.now) }
    ensures after { state_with S.offsets S.free S.top builder.new memory.new ≡ request_after (state_with S.offsets S.free S.top builder.old memory.old) (request_of R.RowSource.rows D.Decoder.means call.now) (answer result) }
    ensures same { SameMemory memory.old memory.new }
{
    // a switch: a call is a value that can be kept and read, which a closure is not
    match call {
        Call::AppendValue { value } => builder.append_value(memory, value),
        Call::AppendNValues { value, n } => builder.append_n_values(memory, value, *n),
        Call::PushNulls { n } => builder.push_nulls(memory, *n),
        Call::AppendValues {
            values,
            ends,
            validity,
        } => builder.append_values(memory, values, *ends, *validity),
        Call::AppendDecoded {
            num_bytes,
            slack,
            lengths,
            validity,
            decoder,
        } => {
            let mut decoder = *decoder;
            builder.append_decoded(
                memory,
                *num_bytes,
                *slack,
                *lengths,
                *validity,
                &mut decoder,
            )
        }
        Call::Take {
            source,
            indices,
            validity,
        } => take(builder, memory, *source, *indices, *validity),
        Call::GatherSlices {
            source,
            starts,
            lengths,
            declared,
        } => gather_slices(builder, memory, *source, *starts, *lengths, *declared),
        Call::Filter { source, mask } => filter(builder, memory, *source, *mask),
    }
}
