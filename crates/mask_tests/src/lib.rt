// Tests of masks and of bits in lent bytes. What is expected is written by hand, the lowest bit of a byte first.
#![tactic(auto)]

ghost use Rattle.std.specs.Prelude.{◌+◌, ◌<◌};

use mask::bits;
use mask::mask::Mask;
use std::process::Abort;
use std::test::Fail;

// The first of some rising places that is at `from` or after it.
fn first_from(set: &[u64], from: u64) -> Option<u64> {
    for p in set {
        if *p >= from {
            return Some(*p);
        }
    }
    None
}

// Every call of a mask of `len` flags, of which those at the places `set` are set, asked at each place and at two past the end.
#[cfg(test)]
fn expect(rt: &impl Abort, mask: Mask, len: u64, covered: bool, set: &[u64]) -> Result<(), Fail>
    requires { len < 1000 }
{
    assert_eq!(rt; mask.len(), len);
    assert_eq!(rt; mask.is_covered(), covered);
    assert_eq!(rt; mask.true_count(), set.len() as u64);
    for i in 0..len + 2 {
        assert_eq!(rt; mask.next_set(i), first_from(set, i));
        assert_eq!(rt; mask.value(i), first_from(set, i) == Some(i));
    }
    Ok(())
}

// The same of a mask over bytes.
#[cfg(test)]
fn expect_bits(
    rt: &impl Abort,
    len: u64,
    bytes: &[u8],
    covered: bool,
    set: &[u64],
) -> Result<(), Fail>
    requires { len < 1000 }
{
    expect(rt, Mask::Values { len, bytes }, len, covered, set)
}

#[test]
fn flags_of_bits(rt: HostRuntime) -> Result<(), Fail> {
    expect_bits(&rt, 0, &[], true, &[])?;
    expect_bits(&rt, 1, &[0x01], true, &[0])?;
    expect_bits(&rt, 1, &[0xFE], true, &[])?;
    expect_bits(&rt, 7, &[0xC1], true, &[0, 6])?;
    expect_bits(&rt, 8, &[0xC1], true, &[0, 6, 7])?;
    expect_bits(&rt, 9, &[0x80, 0x03], true, &[7, 8])?;
    let bytes = [0x01, 0x80, 0x00, 0x00, 0x18, 0x00, 0x00, 0xC0];
    expect_bits(&rt, 64, &bytes, true, &[0, 15, 35, 36, 62, 63])
}

#[test]
fn surplus_bytes(rt: HostRuntime) -> Result<(), Fail> {
    expect_bits(&rt, 0, &[0xFF], true, &[])?;
    expect_bits(&rt, 1, &[0xFF, 0xFF], true, &[0])?;
    expect_bits(&rt, 7, &[0xFF, 0xFF], true, &[0, 1, 2, 3, 4, 5, 6])?;
    expect_bits(&rt, 8, &[0x81, 0xFF], true, &[0, 7])?;
    expect_bits(&rt, 9, &[0x00, 0xFF, 0xFF], true, &[8])
}

// A mask of as many flags as there can be, of which the one at 4 is set. Its length is no number here, since the check would count flag by flag.
#[cfg(test)]
fn expect_one_of_most(rt: &impl Abort, most: Mask) {
    assert_eq!(rt; most.is_covered(), false);
    assert_eq!(rt; most.true_count(), 1);
    assert_eq!(rt; most.next_set(4), Some(4));
    assert_eq!(rt; most.next_set(5), None);
    assert_eq!(rt; most.value(u64::MAX), false);
}

#[test]
fn too_few_bytes(rt: HostRuntime) -> Result<(), Fail> {
    expect_bits(&rt, 1, &[], false, &[])?;
    expect_bits(&rt, 9, &[0x82], false, &[1, 7])?;
    expect_bits(&rt, 64, &[0x00, 0x40], false, &[14])?;
    expect_one_of_most(
        &rt,
        Mask::Values {
            len: u64::MAX,
            bytes: &[0x10],
        },
    );
    Ok(())
}

// A mask whose n flags are all set, or all unset. The check covers a mask without bytes where a call gives it.
fn all(n: u64, v: bool) -> Mask<'static> {
    if v {
        Mask::AllTrue(n)
    } else {
        Mask::AllFalse(n)
    }
}

#[test]
fn all_set_or_unset(rt: HostRuntime) -> Result<(), Fail> {
    expect(&rt, all(0, true), 0, true, &[])?;
    expect(&rt, all(1, true), 1, true, &[0])?;
    expect(&rt, all(9, true), 9, true, &[0, 1, 2, 3, 4, 5, 6, 7, 8])?;
    expect(&rt, all(0, false), 0, true, &[])?;
    expect(&rt, all(1, false), 1, true, &[])?;
    expect(&rt, all(64, false), 64, true, &[])?;
    let most = all(u64::MAX, true);
    assert_eq!(rt; most.next_set(u64::MAX - 1), Some(u64::MAX - 1));
    assert_eq!(rt; most.next_set(u64::MAX), None);
    Ok(())
}

// The bits of a byte that is 0xA5, lowest first.
const OLD: [bool; 8] = [true, false, true, false, false, true, false, true];

// That of three bytes, each 0xA5 before, the n bits from `from` on are v, and every other bit is as it was.
#[cfg(test)]
fn expect_written(rt: &impl Abort, bytes: &[u8], from: u64, n: u64, v: bool) -> Result<(), Fail>
    requires { from + n < 1000 }
{
    for k in 0..26u64 {
        let old = OLD[(k % 8) as usize];
        let now = if k >= from && k < from + n { v } else { old };
        assert_eq!(rt; bits::bit(bytes, k), k < 24 && now);
    }
    Ok(())
}

#[test]
fn put_bit_leaves_others(rt: HostRuntime) -> Result<(), Fail> {
    for i in 0..26u64 {
        let mut bytes = [0xA5, 0xA5, 0xA5];
        bits::put_bit(&mut bytes, i, true);
        expect_written(&rt, &bytes, i, 1, true)?;
        let mut bytes = [0xA5, 0xA5, 0xA5];
        bits::put_bit(&mut bytes, i, false);
        expect_written(&rt, &bytes, i, 1, false)?;
    }
    Ok(())
}

// The n bits from `from` on, set in bytes that are 0 and cleared in bytes that are 0xFF.
#[cfg(test)]
fn expect_filled(rt: &impl Abort, from: u64, n: u64, expected: [u8; 3]) -> Result<(), Fail>
    requires { from + n < 1000 }
{
    let mut set = [0x00, 0x00, 0x00];
    bits::put_bits(&mut set, from, n, true);
    let mut cleared = [0xFF, 0xFF, 0xFF];
    bits::put_bits(&mut cleared, from, n, false);
    assert_eq!(rt; set, expected);
    for (byte, expected) in cleared.iter().zip(expected.iter()) {
        assert_eq!(rt; *byte, !*expected);
    }
    let mut mixed = [0xA5, 0xA5, 0xA5];
    bits::put_bits(&mut mixed, from, n, true);
    expect_written(rt, &mixed, from, n, true)
}

#[test]
fn put_bits_leaves_others(rt: HostRuntime) -> Result<(), Fail> {
    expect_filled(&rt, 0, 0, [0x00, 0x00, 0x00])?;
    expect_filled(&rt, 0, 24, [0xFF, 0xFF, 0xFF])?;
    expect_filled(&rt, 3, 5, [0xF8, 0x00, 0x00])?;
    expect_filled(&rt, 7, 2, [0x80, 0x01, 0x00])?;
    expect_filled(&rt, 8, 8, [0x00, 0xFF, 0x00])?;
    expect_filled(&rt, 5, 14, [0xE0, 0xFF, 0x07])?;
    expect_filled(&rt, 20, 10, [0x00, 0x00, 0xF0])?;
    expect_filled(&rt, 24, 3, [0x00, 0x00, 0x00])
}
