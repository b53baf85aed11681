// Offset stores: the interface, a store of one kind, and one that widens from 32 to 64 bits.
#![tactic(auto)]

pub mod entry;
pub mod fixed;
pub mod store;
pub mod widening;
