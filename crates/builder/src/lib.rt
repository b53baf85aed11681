// The builder of columns: making, finishing, and the checks and steps that every append and selection shares.
#![tactic(auto)]

pub mod builder;
pub mod decoded;
pub mod finished;
pub mod making;
pub mod memory;
pub mod place;
pub mod repeat;
pub mod space;
pub mod survey;
pub mod values;
