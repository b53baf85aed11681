// Tests of the offset stores: which pushes each takes, what it then holds, and when it widens.
#![tactic(auto)]

use offsets::fixed::FixedOffsets;
use offsets::store::OffsetStore;
use offsets::widening::Offsets;
use std::process::Abort;
use std::test::Fail;

// Each push is taken or refused as its flag says; then the store holds these offsets and no more, and has so many entries free.
#[cfg(test)]
fn expect<S: OffsetStore>(
    rt: &impl Abort,
    store: &mut S,
    pushes: &[(u64, bool)],
    held: &[u64],
    free: u64,
) -> Result<(), Fail> {
    for (offset, taken) in pushes {
        assert_eq!(rt; store.push(*offset), *taken);
    }
    assert_eq!(rt; store.len(), held.len() as u64);
    assert_eq!(rt; store.free(), free);
    for (i, offset) in held.iter().enumerate() {
        assert_eq!(rt; store.get(i as u64), Some(*offset));
    }
    assert_eq!(rt; store.get(held.len() as u64), None);
    Ok(())
}

#[test]
fn a_fixed_store_fills(rt: HostRuntime) -> Result<(), Fail> {
    let mut entries: [u8; 3] = [9, 9, 9];
    let mut store = FixedOffsets::new(&mut entries);
    expect(&rt, &mut store, &[], &[], 3)?;
    expect(
        &rt,
        &mut store,
        &[(0, true), (7, true), (255, true), (8, false)],
        &[0, 7, 255],
        0,
    )
}

#[test]
fn a_fixed_store_of_nothing(rt: HostRuntime) -> Result<(), Fail> {
    let mut entries: [u8; 0] = [];
    let mut store = FixedOffsets::new(&mut entries);
    expect(&rt, &mut store, &[(0, false)], &[], 0)
}

#[test]
fn the_top_of_a_fixed_store(rt: HostRuntime) -> Result<(), Fail> {
    let mut entries: [i8; 3] = [-1, -1, -1];
    let mut store = FixedOffsets::new(&mut entries);
    assert_eq!(rt; store.top(), 127);
    expect(
        &rt,
        &mut store,
        &[(128, false), (18_446_744_073_709_551_615, false)],
        &[],
        3,
    )?;
    expect(&rt, &mut store, &[(127, true), (128, false)], &[127], 2)
}

#[test]
fn what_a_fixed_store_hands_out(rt: HostRuntime) -> Result<(), Fail> {
    let mut entries: [i8; 3] = [-1, -1, -1];
    let mut store = FixedOffsets::new(&mut entries);
    expect(&rt, &mut store, &[(5, true), (6, true)], &[5, 6], 1)?;
    let Some(held) = store.as_slice() else {
        return Err(Fail::new("none"));
    };
    assert!(rt; held == [5, 6].as_slice());
    Ok(())
}

#[test]
fn few_wide_entries(rt: HostRuntime) -> Result<(), Fail> {
    let mut narrow: [i32; 3] = [-1, -1, -1];
    let mut wide: [i64; 2] = [-1, -1];
    let mut store = Offsets::new(&mut narrow, &mut wide);
    expect(&rt, &mut store, &[], &[], 2)?;
    expect(
        &rt,
        &mut store,
        &[(3, true), (4, true), (5, false)],
        &[3, 4],
        0,
    )
}

#[test]
fn few_narrow_entries(rt: HostRuntime) -> Result<(), Fail> {
    let mut narrow: [i32; 1] = [-1];
    let mut wide: [i64; 4] = [-1, -1, -1, -1];
    let mut store = Offsets::new(&mut narrow, &mut wide);
    expect(
        &rt,
        &mut store,
        &[(2_147_483_648, true), (0, false)],
        &[2_147_483_648],
        0,
    )
}

#[test]
fn no_wide_entry(rt: HostRuntime) -> Result<(), Fail> {
    let mut narrow: [u32; 2] = [0, 0];
    let mut wide: [u64; 0] = [];
    let mut store = Offsets::new(&mut narrow, &mut wide);
    expect(
        &rt,
        &mut store,
        &[(0, false), (4_294_967_296, false)],
        &[],
        0,
    )?;
    assert_eq!(rt; store.width(), 32);
    Ok(())
}

#[test]
fn the_first_offset_widens(rt: HostRuntime) -> Result<(), Fail> {
    let mut narrow: [i32; 2] = [-1, -1];
    let mut wide: [i64; 2] = [-1, -1];
    let mut store = Offsets::new(&mut narrow, &mut wide);
    expect(
        &rt,
        &mut store,
        &[(2_147_483_648, true)],
        &[2_147_483_648],
        1,
    )?;
    assert_eq!(rt; store.width(), 64);
    Ok(())
}

#[test]
fn the_second_offset_widens(rt: HostRuntime) -> Result<(), Fail> {
    let mut narrow: [i32; 3] = [-1, -1, -1];
    let mut wide: [i64; 3] = [-1, -1, -1];
    let mut store = Offsets::new(&mut narrow, &mut wide);
    expect(
        &rt,
        &mut store,
        &[(2_147_483_647, true)],
        &[2_147_483_647],
        2,
    )?;
    assert_eq!(rt; store.width(), 32);
    expect(
        &rt,
        &mut store,
        &[(2_147_483_648, true)],
        &[2_147_483_647, 2_147_483_648],
        1,
    )?;
    assert_eq!(rt; store.width(), 64);
    expect(
        &rt,
        &mut store,
        &[(1, true), (1, false)],
        &[2_147_483_647, 2_147_483_648, 1],
        0,
    )?;
    assert_eq!(rt; store.width(), 64);
    Ok(())
}

#[test]
fn many_offsets_before_it_widens(rt: HostRuntime) -> Result<(), Fail> {
    let mut narrow: [u32; 7] = [9; 7];
    let mut wide: [u64; 7] = [9; 7];
    let mut store = Offsets::new(&mut narrow, &mut wide);
    expect(
        &rt,
        &mut store,
        &[
            (0, true),
            (1, true),
            (2, true),
            (4_294_967_294, true),
            (4_294_967_295, true),
        ],
        &[0, 1, 2, 4_294_967_294, 4_294_967_295],
        2,
    )?;
    assert_eq!(rt; store.width(), 32);
    let held = [
        0,
        1,
        2,
        4_294_967_294,
        4_294_967_295,
        4_294_967_296,
        18_446_744_073_709_551_615,
    ];
    expect(
        &rt,
        &mut store,
        &[(4_294_967_296, true), (18_446_744_073_709_551_615, true)],
        &held,
        0,
    )?;
    assert_eq!(rt; store.width(), 64);
    Ok(())
}

#[test]
fn the_last_entry_widens(rt: HostRuntime) -> Result<(), Fail> {
    let mut narrow: [u32; 2] = [9, 9];
    let mut wide: [u64; 2] = [9, 9];
    let mut store = Offsets::new(&mut narrow, &mut wide);
    expect(
        &rt,
        &mut store,
        &[(5, true), (4_294_967_296, true), (6, false)],
        &[5, 4_294_967_296],
        0,
    )?;
    assert_eq!(rt; store.width(), 64);
    Ok(())
}

#[test]
fn a_refused_push_does_not_widen(rt: HostRuntime) -> Result<(), Fail> {
    let mut narrow: [i32; 1] = [-1];
    let mut wide: [i64; 1] = [-1];
    let mut store = Offsets::new(&mut narrow, &mut wide);
    expect(
        &rt,
        &mut store,
        &[(2_147_483_647, true), (2_147_483_648, false)],
        &[2_147_483_647],
        0,
    )?;
    assert_eq!(rt; store.width(), 32);
    Ok(())
}

#[test]
fn the_top_of_a_widening_store(rt: HostRuntime) -> Result<(), Fail> {
    let mut narrow: [i32; 2] = [-1, -1];
    let mut wide: [i64; 2] = [-1, -1];
    let mut store = Offsets::new(&mut narrow, &mut wide);
    assert_eq!(rt; store.top(), 9_223_372_036_854_775_807);
    expect(
        &rt,
        &mut store,
        &[(9_223_372_036_854_775_808, false)],
        &[],
        2,
    )?;
    assert_eq!(rt; store.width(), 32);
    expect(
        &rt,
        &mut store,
        &[
            (9_223_372_036_854_775_807, true),
            (9_223_372_036_854_775_808, false),
        ],
        &[9_223_372_036_854_775_807],
        1,
    )?;
    assert_eq!(rt; store.width(), 64);
    Ok(())
}

#[test]
fn what_a_narrow_store_hands_out(rt: HostRuntime) -> Result<(), Fail> {
    let mut narrow: [i32; 3] = [-1, -1, -1];
    let mut wide: [i64; 3] = [-1, -1, -1];
    let mut store = Offsets::new(&mut narrow, &mut wide);
    expect(&rt, &mut store, &[(0, true), (4, true)], &[0, 4], 1)?;
    assert!(rt; store.as_wide().is_none());
    let Some(held) = store.as_narrow() else {
        return Err(Fail::new("none"));
    };
    assert!(rt; held == [0, 4].as_slice());
    Ok(())
}

#[test]
fn what_a_wide_store_hands_out(rt: HostRuntime) -> Result<(), Fail> {
    let mut narrow: [i32; 3] = [-1, -1, -1];
    let mut wide: [i64; 3] = [-1, -1, -1];
    let mut store = Offsets::new(&mut narrow, &mut wide);
    expect(
        &rt,
        &mut store,
        &[(3, true), (2_147_483_648, true)],
        &[3, 2_147_483_648],
        1,
    )?;
    assert!(rt; store.as_narrow().is_none());
    let Some(held) = store.as_wide() else {
        return Err(Fail::new("none"));
    };
    assert!(rt; held == [3, 2_147_483_648].as_slice());
    Ok(())
}
