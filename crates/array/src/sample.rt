// Sample column K: three rows, the middle one null over two hidden bytes.
ghost use Rattle.std.specs.Prelude.{◌≡◌};
ghost use Rattle.array.specs.Samples.{sample_k, OpeningExamples};

#[derive(Clone, Copy)]
pub struct Sample {
    pub offsets: [i32; 4],
    pub heap: [u8; 7],
    pub bits: [u8; 1],
}

pub const K: Sample = Sample {
    offsets: [0, 2, 4, 7],
    heap: [0x47, 0x37, 0x58, 0x58, 0xC2, 0xB5, 0x6D],
    bits: [5],
};

// Sample column K, with what is proved of it.
#[tactic(auto, using(crate::proofs::Samples::opening_examples))]
pub fn sample_k() -> Sample
    ensures value { result ≡ sample_k }
    ensures examples { OpeningExamples }
{
    K
}
