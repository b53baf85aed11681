// Inner: placing one slot that is known to fit.
ghost use Rattle.std.specs.Prelude.{◌≡◌, ℕ, ◌+◌, ◌≤◌, List, [], length};
ghost use Rattle.slots.specs.Slots.{slot_of};
ghost use Rattle.builder.specs.Space.{Room, RowRoom};
ghost use Rattle.builder.specs.States.{state_of, state_with, SameMemory, put_bytes, add_row, add_slot};

use crate::builder::VarBinBuilder;
use crate::memory::Memory;
use mask::bits::put_bit;
use offsets::store::OffsetStore;
use slots::slot::SlotRef;

// Copies bytes into the heap from a place on.
pub fn put_bytes(heap: &mut [u8], at: u64, value: &[u8])
    requires { at + length value.now ≤ length heap.old }
    ensures { heap.new ≡ put_bytes heap.old at value.now }
{
    let at = at as usize;
    let end = at + value.len();
    heap[at..end].copy_from_slice(value);
}

// One row more of `size` bytes, which stand behind the used ones: its end and its bit. No heap is looked at, so the promise is for each. It is given a size and no slot, since the bytes of decoded rows stand in the heap already.
pub fn place_row<S: OffsetStore>(
    b: &mut VarBinBuilder,
    store: &mut S,
    bits: &mut [u8],
    valid: bool,
    size: u64,
)
    requires { RowRoom (state_of S.offsets S.free S.top b.old store.old [] bits.old) size }
    ensures { (heap : List ℕ) → state_of S.offsets S.free S.top b.new store.new heap bits.new ≡ add_row (state_of S.offsets S.free S.top b.old store.old heap bits.old) valid size }
{
    let rows = b.rows;
    let end = b.used + size;
    let _ = store.push(end);
    put_bit(bits, rows, valid);
    b.used = end;
    b.rows = rows + 1;
    b.valid += valid as u64;
    b.free_left -= 1;
}

// One slot more: its bytes, then its row.
pub fn place<S: OffsetStore>(b: &mut VarBinBuilder, memory: &mut Memory<'_, S>, slot: SlotRef<'_>)
    requires { Room (state_with S.offsets S.free S.top b.old memory.old) (length slot.bytes.now) }
    ensures after { state_with S.offsets S.free S.top b.new memory.new ≡ add_slot (state_with S.offsets S.free S.top b.old memory.old) (slot_of slot.entry) }
    ensures same { SameMemory memory.old memory.new }
{
    put_bytes(memory.heap, b.used, slot.bytes);
    let size = slot.bytes.len() as u64;
    place_row(b, memory.store, memory.bits, slot.valid, size);
}
