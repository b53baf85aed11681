// Histories: calls as values, a builder's calls carried out one after the other, and the theorem over all of them.
#![tactic(auto)]

pub mod call;
pub mod carry;
pub mod runner;
