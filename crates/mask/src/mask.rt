// A mask over rows: all set, all unset, or bits. Every other crate asks a mask by these calls alone and never touches its bytes.
ghost use Rattle.std.specs.Prelude.{◌≡◌, true, false, length, replicate, slice_index_or};
ghost use Rattle.mask.specs.Masks.{flags, covered, set_count, next_set};

use crate::bits;

#[derive(Clone, Copy)]
pub enum Mask<'a> {
    AllTrue(u64),
    AllFalse(u64),
    Values { len: u64, bytes: &'a [u8] },
}

impl<'a> Mask<'a> {
    // len flags, all set. Two functions in place of one with a flag, under the names that the Rust has for them.
    pub fn new_true(len: u64) -> Mask<'a>
        ensures { flags result ≡ replicate len true }
    {
        Mask::AllTrue(len)
    }

    // len flags, all unset.
    pub fn new_false(len: u64) -> Mask<'a>
        ensures { flags result ≡ replicate len false }
    {
        Mask::AllFalse(len)
    }
}

impl Mask<'_> {
    // The number of flags.
    #[tactic(auto, using(crate::proofs::Flags::length_bits))]
    pub fn len(self) -> u64
        ensures { result ≡ length (flags self.entry) }
    {
        match self {
            Mask::AllTrue(n) | Mask::AllFalse(n) => n,
            Mask::Values { len, .. } => len,
        }
    }

    // Whether the mask has a bit for each of its flags.
    pub fn is_covered(self) -> bool
        ensures { result ≡ covered self.entry }
    {
        match self {
            Mask::AllTrue(_) | Mask::AllFalse(_) => true,
            Mask::Values { len, bytes } => len.div_ceil(8) <= bytes.len() as u64,
        }
    }

    // The flag at i: unset from the length on, and where the bytes end.
    #[tactic(auto, using(crate::proofs::Flags::flag_at, crate::proofs::Flags::flag_past))]
    pub fn value(self, i: u64) -> bool
        ensures { result ≡ slice_index_or (flags self.entry) i false }
    {
        match self {
            Mask::AllTrue(n) => i < n,
            Mask::AllFalse(_) => false,
            Mask::Values { len, bytes } => i < len && bits::bit(bytes, i),
        }
    }

    // How many flags are set.
    #[tactic(auto, using(crate::proofs::Flags::count_replicate))]
    pub fn true_count(self) -> u64
        ensures { result ≡ set_count (flags self.entry) }
    {
        match self {
            Mask::AllTrue(n) => n,
            Mask::AllFalse(_) => 0,
            Mask::Values { len, bytes } => bits::count_ones(bytes, len),
        }
    }

    // The first set flag at `from` or after it.
    #[tactic(auto, using(crate::proofs::Flags::next_replicate))]
    pub fn next_set(self, from: u64) -> Option<u64>
        ensures { result ≡ next_set from (flags self.entry) }
    {
        match self {
            Mask::AllTrue(n) => if from < n { Some(from) } else { None },
            Mask::AllFalse(_) => None,
            Mask::Values { len, bytes } => bits::next_one(bytes, from, len),
        }
    }
}
