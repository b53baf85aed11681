// Inner: bits in lent bytes, for the crates of this repository. A read past the last byte is false, a write there does nothing.
ghost use Rattle.std.specs.Prelude.{◌≡◌, ℕ, ◌+◌, ◌*◌, ◌^◌, ◌<◌, ◌&&◌, length, replicate, if◌then◌else◌, nat_eq, nat_le, nat_lt};
ghost use Rattle.mask.specs.Bits.{bit_at, with_bit, put_bit, put_bits};
ghost use Rattle.mask.specs.Masks.{bit_flags, set_count, next_set};

// Bit i.
pub fn bit(bytes: &[u8], i: u64) -> bool
    ensures { result ≡ bit_at bytes.now i }
{
    match bytes.get((i / 8) as usize) {
        Some(byte) => (byte >> (i % 8)) % 2 == 1,
        None => false,
    }
}

// Byte b with its bit j made v.
#[tactic(auto, using(crate::proofs::Bytes::or_bit, crate::proofs::Bytes::and_bit))]
fn with_bit(b: u8, j: u32, v: bool) -> u8
    requires { j < 8 }
    ensures { result ≡ with_bit b j v }
{
    if v { b | 1 << j } else { b & !(1 << j) }
}

// Makes bit i v; every other bit stays.
#[tactic(auto, using(crate::proofs::Flags::bit_put))]
pub fn put_bit(bytes: &mut [u8], i: u64, v: bool)
    ensures after { bytes.new ≡ put_bit bytes.old i v }
    ensures each { (k : ℕ) → bit_at bytes.new k ≡ (if nat_eq k i && nat_lt k (8 * length bytes.old) then v else bit_at bytes.old k) }
{
    let at = (i / 8) as usize;
    if at < bytes.len() {
        bytes[at] = with_bit(bytes[at], (i % 8) as u32, v);
    }
}

// Makes the n bits from `from` on v; every other bit stays.
#[tactic(auto, using(crate::proofs::Flags::fill_more, crate::proofs::Flags::bit_fill), unfolding(crate::specs::Bits::put_bits))]
pub fn put_bits(bytes: &mut [u8], from: u64, n: u64, v: bool)
    requires { from + n < 2 ^ 64 }
    ensures after { bytes.new ≡ put_bits bytes.old from (replicate n v) }
    ensures each { (k : ℕ) → bit_at bytes.new k ≡ (if nat_le from k && (nat_lt k (from + n) && nat_lt k (8 * length bytes.old)) then v else bit_at bytes.old k) }
{
    // by bit number, since bits are no elements of the slice
    for i in from..from + n {
        put_bit(bytes, i, v);
    }
}

// How many of the first n bits are set, by ones per byte.
pub fn count_ones(bytes: &[u8], n: u64) -> u64
    ensures { result ≡ set_count (bit_flags n bytes.now) }
{
    let whole = (n / 8) as usize;
    let mut total = 0;
    for byte in bytes.iter().take(whole) {
        total += byte.count_ones() as u64;
    }
    if let Some(byte) = bytes.get(whole) {
        total += (byte & (1u8 << (n % 8)) - 1).count_ones() as u64;
    }
    total
}

// The first set bit at `from` or after it, below n, by trailing zeros.
pub fn next_one(bytes: &[u8], from: u64, n: u64) -> Option<u64>
    ensures { result ≡ next_set from (bit_flags n bytes.now) }
{
    // The bits before `from` do not count, which are in the first byte.
    let mut keep = 255u8 << (from % 8);
    // by byte number, which tells the bit number too; the range may end behind the bytes
    for i in from / 8..n.div_ceil(8) {
        let byte = bytes.get(i as usize)? & keep;
        if byte != 0 {
            let place = 8 * i + byte.trailing_zeros() as u64;
            return (place < n).then_some(place);
        }
        keep = 255;
    }
    None
}
