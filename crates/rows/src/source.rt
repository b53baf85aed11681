// The interface of a row source: a list of rows, told by its count and row by row.
ghost use Rattle.std.specs.Prelude.{◌≡◌, List, length};
ghost use Rattle.std.specs.List.{slice_get};
ghost use Rattle.slots.specs.Rows.{Row};
ghost use Rattle.rows.specs.Sources.{shown};

use crate::row::RowRef;

pub trait RowSource {
    ghost rows: { Self → List Row };

    // How many rows there are.
    fn len(&self) -> u32
        ensures { result ≡ length (rows self.now) };

    // Row i, none from the count on.
    fn row(&self, i: u64) -> Option<RowRef<'_>>
        ensures { shown result ≡ slice_get (rows self.now) i };
}
