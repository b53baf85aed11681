// Inner: reading and writing one entry of a lent slice of any kind.
ghost use Rattle.std.specs.Prelude.{◌≡◌, ◌<◌, ◌≤◌, map, length, pos, slice_set};
ghost use Rattle.ptype.specs.Integers.{amount_at};
ghost use Rattle.offsets.specs.Stores.{held, HandedOut};

use ptype::native::IntegerPType;

// The offset in entry i: 0 where it is negative.
pub fn read_entry<T: IntegerPType>(entries: &[T], i: usize) -> u64
    requires { i < length entries.now }
    ensures value { result ≡ amount_at (map T.IntegerPType.value entries.now) i }
    ensures bound { result ≤ T.IntegerPType.greatest }
{
    entries[i].to_u64().unwrap_or(0)
}

// Puts an offset that the kind can hold into entry i.
pub fn write_entry<T: IntegerPType>(entries: &mut [T], i: usize, offset: u64)
    requires { offset ≤ T.IntegerPType.greatest }
    ensures { map T.IntegerPType.value entries.new ≡ slice_set (map T.IntegerPType.value entries.old) i (pos offset) }
{
    if let Some(entry) = T::from_u64(offset)
        && i < entries.len()
    {
        entries[i] = entry;
    }
}

// The first n entries, or none where one of them is negative.
pub fn natural_part<T: IntegerPType>(entries: &[T], n: usize) -> Option<&[T]>
    ensures { HandedOut T.IntegerPType.value (held T.IntegerPType.value n entries.now) result }
{
    let part = &entries[..n.min(entries.len())];
    part.iter()
        .all(|entry| entry.to_u64().is_some())
        .then_some(part)
}
