// The memory that comes with a call.
ghost use Rattle.std.specs.Prelude.{◌≡◌, length};
ghost use Rattle.refusal.specs.Refusals.{answer, first_refusal};
ghost use Rattle.builder.specs.Space.{memory_check, space_checks};
ghost use Rattle.builder.specs.States.{state_with};

use crate::builder::VarBinBuilder;
use crate::space::{check_memory, check_space};
use crate::survey::Survey;
use offsets::store::OffsetStore;
use refusal::Refusal;

// The store of offsets, the heap, and the bytes for bits. All of it is lent. It has no `Model`: a model's value cannot name what a store in a type parameter means.
#[derive(Drop)]
pub struct Memory<'a, S> {
    pub store: &'a mut S,
    pub heap: &'a mut [u8],
    pub bits: &'a mut [u8],
}

impl<S: OffsetStore> Memory<'_, S> {
    // Inner: 1 where this is not the memory as the builder was left.
    pub fn check_memory(&self, b: &VarBinBuilder) -> Result<(), Refusal>
        ensures { answer result ≡ memory_check (state_with S.offsets S.free S.top b.now self.now) }
    {
        check_memory(b, self.store, self.heap, self.bits)
    }

    // Inner: 5, 2, 3 or 4 where what was surveyed has no space here.
    pub fn check_space(&self, b: &VarBinBuilder, survey: Survey, asked: u64) -> Result<(), Refusal>
        ensures { answer result ≡ first_refusal (space_checks b.now.dtype.nullable b.now.capacity b.now.rows b.now.used (length self.now.heap.now) (S.top self.now.store.now) survey.rows survey.nulls survey.bytes asked) }
    {
        check_space(b, self.store, self.heap, survey, asked)
    }
}
