// What a column may hold, its limits, and a slot as it is appended. The meanings of rows and slots stand in specs/; the code that answers with a row is the source's.
#![tactic(auto)]

pub mod dtype;
pub mod limits;
pub mod slot;
