// Inner: the checks that every append and selection shares. They take the parts of the memory, since shared references are enough to measure them; `Memory` hands them on as methods.
ghost use Rattle.std.specs.Prelude.{◌≡◌, length};
ghost use Rattle.refusal.specs.Refusals.{answer, first_refusal};
ghost use Rattle.builder.specs.Space.{memory_check, space_checks};
ghost use Rattle.builder.specs.States.{state_of};

use crate::builder::VarBinBuilder;
use crate::survey::Survey;
use offsets::store::OffsetStore;
use refusal::Refusal;

// 1 where the memory is not as the builder was left.
pub fn check_memory<S: OffsetStore>(
    b: &VarBinBuilder,
    store: &S,
    heap: &[u8],
    bits: &[u8],
) -> Result<(), Refusal>
    ensures { answer result ≡ memory_check (state_of S.offsets S.free S.top b.now store.now heap.now bits.now) }
{
    if store.len() != b.rows + 1 {
        return Err(Refusal::OtherMemory);
    }
    if store.get(b.rows).unwrap_or(0) != b.used {
        return Err(Refusal::OtherMemory);
    }
    if store.free() != b.free_left {
        return Err(Refusal::OtherMemory);
    }
    if heap.len() as u64 != b.heap_left {
        return Err(Refusal::OtherMemory);
    }
    if bits.len() as u64 != b.bits_left {
        return Err(Refusal::OtherMemory);
    }
    Ok(())
}

// 5, 2, 3 or 4 where what was surveyed has no space; `asked` heap bytes have to be there.
pub fn check_space<S: OffsetStore>(
    b: &VarBinBuilder,
    store: &S,
    heap: &[u8],
    survey: Survey,
    asked: u64,
) -> Result<(), Refusal>
    ensures { answer result ≡ first_refusal (space_checks b.now.dtype.nullable b.now.capacity b.now.rows b.now.used (length heap.now) (S.top store.now) survey.rows survey.nulls survey.bytes asked) }
{
    if !b.dtype.nullable {
        if survey.nulls > 0 {
            return Err(Refusal::NullNotAllowed);
        }
    }
    if survey.rows > b.capacity - b.rows {
        return Err(Refusal::RowsOverCapacity);
    }
    let heap_bytes = heap.len() as u64;
    if b.used > heap_bytes {
        return Err(Refusal::BytesOverHeap);
    }
    if asked > heap_bytes - b.used {
        return Err(Refusal::BytesOverHeap);
    }
    let most = store.top();
    if b.used > most {
        return Err(Refusal::BytesOverTop);
    }
    if survey.bytes > most - b.used {
        return Err(Refusal::BytesOverTop);
    }
    Ok(())
}
