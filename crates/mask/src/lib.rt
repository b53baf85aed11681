// Masks over rows, and bits in lent bytes, the lowest bit of a byte first.
#![tactic(auto)]

pub mod bits;
pub mod mask;
