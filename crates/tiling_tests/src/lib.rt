// Tests of the tiling check: tables of offsets, a heap, and whether the offsets tile it.
#![tactic(auto)]

use integers::slices::IntegerSlice;
use std::process::Abort;
use std::test::Fail;
use tiling::offsets_tile_utf8;

#[cfg(test)]
fn expect_of(rt: &impl Abort, offsets: IntegerSlice, heap: &[u8], tiles: bool) -> Result<(), Fail> {
    assert_eq!(rt; offsets_tile_utf8(offsets, heap), tiles);
    Ok(())
}

#[cfg(test)]
fn expect(rt: &impl Abort, offsets: &[u8], heap: &[u8], tiles: bool) -> Result<(), Fail> {
    expect_of(rt, IntegerSlice::U8(offsets), heap, tiles)
}

#[test]
fn characters_stay_whole(rt: HostRuntime) -> Result<(), Fail> {
    expect(&rt, &[0, 2], &[0xC2, 0xB5], true)?;
    expect(&rt, &[0, 1, 2], &[0xC2, 0xB5], false)?;
    expect(&rt, &[0, 1], &[0xC2, 0xB5], false)?;
    expect(&rt, &[0, 0], &[0xC2, 0xB5], true)?;
    expect(&rt, &[0, 0], &[0xB5], false)?;
    expect(&rt, &[0, 1, 2], &[0x41, 0x7F], true)?;
    expect(&rt, &[0, 1, 2], &[0x41, 0x80], false)
}

#[test]
fn characters_of_each_length(rt: HostRuntime) -> Result<(), Fail> {
    let heap = [0x24, 0xC2, 0xA2, 0xE2, 0x82, 0xAC, 0xF0, 0x90, 0x8D, 0x88];
    expect(&rt, &[0, 1, 3, 6, 10], &heap, true)?;
    expect(&rt, &[0, 10], &heap, true)?;
    expect(&rt, &[0, 3, 3, 10], &heap, true)?;
    expect(&rt, &[3, 6], &heap, true)?;
    expect(&rt, &[0, 5, 10], &heap, false)?;
    expect(&rt, &[0, 1, 3, 6, 9], &heap, false)?;
    expect(&rt, &[0, 8, 8, 10], &heap, false)
}

#[test]
fn few_offsets(rt: HostRuntime) -> Result<(), Fail> {
    expect(&rt, &[], &[], false)?;
    expect(&rt, &[], &[0x41], false)?;
    expect(&rt, &[0], &[], true)?;
    expect(&rt, &[2], &[0x41, 0x42], true)?;
    expect(&rt, &[1], &[0xC2, 0xB5], false)
}

#[test]
fn offsets_rise_within_the_heap(rt: HostRuntime) -> Result<(), Fail> {
    let heap = [0x41, 0x42, 0x43];
    expect(&rt, &[0, 1, 1, 3], &heap, true)?;
    expect(&rt, &[2, 1], &heap, false)?;
    expect(&rt, &[0, 2, 1, 3], &heap, false)?;
    expect(&rt, &[0, 4], &heap, false)?;
    expect(&rt, &[4], &heap, false)?;
    expect_of(&rt, IntegerSlice::I8(&[-1, 3]), &heap, false)?;
    expect_of(&rt, IntegerSlice::I8(&[0, -1]), &heap, false)
}

#[test]
fn bytes_before_and_behind(rt: HostRuntime) -> Result<(), Fail> {
    expect(&rt, &[2, 3], &[0xFF, 0xB5, 0x41], true)?;
    expect(&rt, &[1, 3], &[0xFF, 0xB5, 0x41], false)?;
    expect(&rt, &[0, 1], &[0x41, 0xFF], true)?;
    expect(&rt, &[0, 1], &[0x41, 0x80], false)?;
    expect(&rt, &[0, 1], &[0x41, 0xBF], false)?;
    expect(&rt, &[0, 1], &[0x41, 0xC0], true)
}

#[test]
fn every_kind_tiles(rt: HostRuntime) -> Result<(), Fail> {
    let heap = [0x41, 0xC2, 0xB5];
    expect_of(&rt, IntegerSlice::U8(&[0, 1, 3]), &heap, true)?;
    expect_of(&rt, IntegerSlice::U16(&[0, 1, 3]), &heap, true)?;
    expect_of(&rt, IntegerSlice::U32(&[0, 1, 3]), &heap, true)?;
    expect_of(&rt, IntegerSlice::U64(&[0, 1, 3]), &heap, true)?;
    expect_of(&rt, IntegerSlice::I8(&[0, 1, 3]), &heap, true)?;
    expect_of(&rt, IntegerSlice::I16(&[0, 1, 3]), &heap, true)?;
    expect_of(&rt, IntegerSlice::I32(&[0, 1, 3]), &heap, true)?;
    expect_of(&rt, IntegerSlice::I64(&[0, 1, 3]), &heap, true)
}

#[test]
fn every_kind_is_cut(rt: HostRuntime) -> Result<(), Fail> {
    let heap = [0x41, 0xC2, 0xB5];
    expect_of(&rt, IntegerSlice::U8(&[0, 2, 3]), &heap, false)?;
    expect_of(&rt, IntegerSlice::U16(&[0, 2, 3]), &heap, false)?;
    expect_of(&rt, IntegerSlice::U32(&[0, 2, 3]), &heap, false)?;
    expect_of(&rt, IntegerSlice::U64(&[0, 2, 3]), &heap, false)?;
    expect_of(&rt, IntegerSlice::I8(&[0, 2, 3]), &heap, false)?;
    expect_of(&rt, IntegerSlice::I16(&[0, 2, 3]), &heap, false)?;
    expect_of(&rt, IntegerSlice::I32(&[0, 2, 3]), &heap, false)?;
    expect_of(&rt, IntegerSlice::I64(&[0, 2, 3]), &heap, false)
}
