// UTF-8 by RFC 3629: the table of its nine rows, a reader that takes one byte at a time, and the check of a slice.
#![tactic(auto)]

pub mod lead;
pub mod reader;
pub mod validate;
