// One row, or null, repeated.
ghost use Rattle.std.specs.Prelude.{◌≡◌, replicate};
ghost use Rattle.std.specs.Option.{option_map};
ghost use Rattle.slots.specs.Rows.{row_of};

use crate::row::RowRef;
use crate::source::RowSource;

#[derive(Clone, Copy)]
pub struct RepeatedRow<'a> {
    pub row: RowRef<'a>,
    pub len: u32,
}

impl RowSource for RepeatedRow<'_> {
    ghost rows = { λ s. replicate s.len (row_of (option_map (λ x. x.now) s.row)) };

    fn len(&self) -> u32 {
        self.len
    }

    fn row(&self, i: u64) -> Option<RowRef<'_>> {
        if i < self.len as u64 {
            Some(self.row)
        } else {
            None
        }
    }
}
