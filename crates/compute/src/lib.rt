// Selections: rows of a source picked by number, by run and by mask, and appended to a builder.
#![tactic(auto)]

pub mod filter;
pub mod gather;
pub mod index;
pub mod select;
pub mod take;
