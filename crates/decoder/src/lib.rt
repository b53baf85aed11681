// Decoders: the interface, a copy, and a hexadecimal one.
#![tactic(auto)]

pub mod copy;
pub mod decoder;
pub mod hex;
