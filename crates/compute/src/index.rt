// What a selection picks: a list of row indices, each the number of a row of the source, or none for a null.
ghost use Rattle.std.specs.Prelude.{ℕ, List, Option as Maybe};
ghost use Rattle.std.specs.Iterator.{IsFinite, YieldsFirst};

// Inner: an iterator over row indices that are a list. Each way of selecting is one of these; a copy of it reads the same list again.
pub trait RowIndices: Iterator<Item = Option<u64>> + Copy {
    ghost left: { Self → List (Maybe ℕ) };

    ghost reads: { (s : Self) (item : Maybe (Maybe ℕ)) (t : Self) → Self.Iterator.next_gives s item t → YieldsFirst left s item t };

    ghost may_read: { (s : Self) → Self.Iterator.can_next s };

    ghost ends: { (s : Self) → IsFinite (Self.Iterator.remaining s) };
}
