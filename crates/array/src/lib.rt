// Columns over lent memory: opening one, its rows, and its tally.
#![tactic(auto)]

pub mod checks;
pub mod completeness;
pub mod opening;
pub mod reading;
pub mod sample;
pub mod tally;
pub mod text;
pub mod view;
