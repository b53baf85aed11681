// The choice of kind: a lent slice of any of the eight integer kinds, above the one generic text.
#![tactic(auto)]

pub mod slices;
pub mod unsigned;
