// A join of any two sources: the rows of the first and then those of the second, cut at the most that a source shows.
ghost use Rattle.std.specs.Prelude.{◌≡◌};
ghost use Rattle.rows.specs.Sources.{joined_rows, JoinLaw};

use crate::row::RowRef;
use crate::source::RowSource;

// The most rows that a source shows. A column has at most 16,777,216.
pub const MOST_ROWS: u64 = 4_294_967_295;

#[derive(Drop)]
pub struct Join<A, B> {
    first: A,
    second: B,
}

impl<A: RowSource, B: RowSource> Join<A, B> {
    #[tactic(auto, using(crate::proofs::Places::join_law))]
    pub fn new(first: A, second: B) -> Join<A, B>
        ensures parts { (result.first ≡ first) × (result.second ≡ second) }
        ensures law { JoinLaw }
    {
        Join { first, second }
    }
}

impl<A: RowSource, B: RowSource> RowSource for Join<A, B> {
    ghost rows = { λ s. joined_rows (A.RowSource.rows s.first) (B.RowSource.rows s.second) };

    #[tactic(auto, using(crate::proofs::Places::length_joined))]
    fn len(&self) -> u32 {
        self.first.len().saturating_add(self.second.len())
    }

    #[tactic(auto, using(crate::proofs::Places::joined_first, crate::proofs::Places::joined_second))]
    fn row(&self, i: u64) -> Option<RowRef<'_>> {
        if i >= MOST_ROWS {
            return None;
        }
        let count = self.first.len() as u64;
        if i < count {
            self.first.row(i)
        } else {
            self.second.row(i - count)
        }
    }
}
