// The tally of a column.
#[derive(Clone, Copy, Debug, PartialEq, Eq)]
pub struct Tally {
    pub rows: u64,
    pub valid: u64,
    pub bytes: u64,
    pub longest: u64,
    pub complete: u64,
}
