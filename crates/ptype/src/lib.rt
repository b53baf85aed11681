// Numbers of the eight integer kinds, read by one generic text.
#![tactic(auto)]

pub mod entries;
pub mod native;
