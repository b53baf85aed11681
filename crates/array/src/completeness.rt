// The one place where thousandths are rounded.
ghost use Rattle.std.specs.Prelude.{◌≡◌, ◌≤◌};
ghost use Rattle.array.specs.Tallies.{completeness};

// Thousandths of the rows that are valid, the half rounded up; 1000 without rows.
pub fn thousandths(valid: u32, rows: u32) -> u64
    ensures { result ≡ completeness valid rows }
{
    if rows == 0 {
        1000
    } else {
        (2000 * valid as u64 + rows as u64) / (2 * rows as u64)
    }
}
