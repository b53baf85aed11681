// The interface of an offset store: a list of offsets, a number of free entries, and a top.
ghost use Rattle.std.specs.Prelude.{◌≡◌, ℕ, ◌+◌, false, List, [], ◌∷◌, ◌++◌, length, if◌then◌else◌};
ghost use Rattle.std.specs.List.{slice_get};
ghost use Rattle.offsets.specs.Stores.{takes};

pub trait OffsetStore {
    ghost offsets: { Self → List ℕ };

    ghost free: { Self → ℕ };

    ghost top: { Self → ℕ };

    // How many entries are free.
    fn free(&self) -> u64
        ensures { result ≡ free self.now };

    // The greatest offset that the store takes.
    fn top(&self) -> u64
        ensures { result ≡ top self.now };

    // How many offsets the store holds.
    fn len(&self) -> u64
        ensures { result ≡ length (offsets self.now) };

    // The offset at a place, absent from the length on.
    fn get(&self, i: u64) -> Option<u64>
        ensures { result ≡ slice_get (offsets self.now) i };

    // Takes one offset more where an entry is free and the offset is at most the top; else nothing changes.
    fn push(&mut self, offset: u64) -> bool
        ensures test { result ≡ takes (free self.old) (top self.old) offset }
        ensures after { offsets self.new ≡ (if result then offsets self.old ++ offset ∷ [] else offsets self.old) }
        ensures spent { free self.new + (if result then 1 else 0) ≡ free self.old }
        ensures level { top self.new ≡ top self.old }
        ensures same { result ≡ false → self.new ≡ self.old };
}
