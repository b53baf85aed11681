// Records of a fixed size, and the listing that the program `fields` prints.
#![tactic(auto)]

pub mod listing;
pub mod records;
