// The most rows and the most heap bytes of a column, opened or built.
pub const MOST_ROWS: u64 = 16_777_216;

pub const MOST_HEAP_BYTES: u64 = 68_719_476_736;
