// Tests of the crate utf8: against RFC 3629's prose, at the bounds of the table, and on given texts.
#![tactic(auto)]

mod prose;
#[cfg(test)]
mod tests;
