// Row sources: the interface, one row repeated, and a join of two sources.
#![tactic(auto)]

pub mod join;
pub mod repeat;
pub mod row;
pub mod source;
