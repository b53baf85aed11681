// `append_decoded`: each refusal in its order and at its first place, the slack, and which spare bytes are zero after.
use crate::told;
use builder::builder::VarBinBuilder;
use builder::finished::{Finished, Validity};
use builder::memory::Memory;
use decoder::copy::CopyDecoder;
use decoder::decoder::Decoder;
use decoder::hex::HexDecoder;
use integers::slices::IntegerSlice;
use mask::mask::Mask;
use offsets::fixed::FixedOffsets;
use offsets::store::OffsetStore;
use refusal::Refusal;
use slots::dtype::DType;
use std::process::Abort;
use std::test::Fail;

// The answer to one call behind a row `x`, and the record.
fn second_call<S: OffsetStore, D: Decoder>(
    nullable: bool,
    store: &mut S,
    heap: &mut [u8],
    bits: &mut [u8],
    num_bytes: u64,
    slack: u64,
    lengths: IntegerSlice<'_>,
    validity: Mask<'_>,
    decoder: &mut D,
) -> Result<((u8, u64), Finished), Refusal> {
    let mut builder = VarBinBuilder::new(
        DType {
            utf8: true,
            nullable,
        },
        store,
        heap,
        bits,
    )?;
    let mut memory = Memory { store, heap, bits };
    let first = builder.append_value(&mut memory, b"x");
    let answer = told(builder.append_decoded(
        &mut memory,
        num_bytes,
        slack,
        lengths,
        validity,
        decoder,
    ));
    let finished = builder.finish();
    first?;
    Ok((answer, finished))
}

// A call on a builder that has 3 rows and 7 heap bytes left is refused with this number and entry; it leaves this heap, and changes nothing else.
fn refused<D: Decoder>(
    rt: &impl Abort,
    nullable: bool,
    num_bytes: u64,
    slack: u64,
    lengths: IntegerSlice<'_>,
    validity: Mask<'_>,
    decoder: &mut D,
    number: u8,
    entry: u64,
    left: [u8; 8],
) -> Result<(), Fail> {
    let mut entries = [0u8; 5];
    let mut heap = [0xA5u8; 8];
    let mut bits = [0x50u8; 1];
    let mut store = FixedOffsets::new(&mut entries);
    match second_call(
        nullable, &mut store, &mut heap, &mut bits, num_bytes, slack, lengths, validity, decoder,
    ) {
        Ok((answer, f)) => {
            assert_eq!(rt; answer, (number, entry));
            assert_eq!(rt; (f.rows, f.bytes, f.valid), (1, 1, 1));
            assert_eq!(rt; heap, left);
            assert_eq!(rt; bits, [0x51]);
            assert_eq!(rt;
                (store.get(1), store.get(2), store.free()),
                (Some(1), None, 3)
            );
            Ok(())
        }
        Err(_) => Err(Fail::new("refused")),
    }
}

// Each call would be refused by a later rule too.
#[test]
fn refusals_before_decoding(rt: HostRuntime) -> Result<(), Fail> {
    let untouched = [b'x', 0xA5, 0xA5, 0xA5, 0xA5, 0xA5, 0xA5, 0xA5];
    let mut odd = HexDecoder { digits: b"414" };
    refused(
        &rt,
        false,
        9,
        0,
        IntegerSlice::U8(&[1, 1, 1, 1]),
        Mask::new_false(5),
        &mut odd,
        6,
        0,
        untouched,
    )?;
    refused(
        &rt,
        false,
        9,
        0,
        IntegerSlice::I8(&[1, 1, 1, 1, 1, 1, 1, 1, 1]),
        Mask::Values {
            len: 9,
            bytes: &[0],
        },
        &mut odd,
        6,
        0,
        untouched,
    )?;
    refused(
        &rt,
        false,
        9,
        0,
        IntegerSlice::I16(&[1, 1, 1, 1]),
        Mask::Values {
            len: 4,
            bytes: &[0xF7],
        },
        &mut odd,
        5,
        0,
        untouched,
    )?;
    refused(
        &rt,
        true,
        9,
        0,
        IntegerSlice::I16(&[1, 1, 1, 1]),
        Mask::new_false(4),
        &mut odd,
        2,
        0,
        untouched,
    )?;
    refused(
        &rt,
        true,
        8,
        0,
        IntegerSlice::I32(&[-1]),
        Mask::new_true(1),
        &mut odd,
        3,
        0,
        untouched,
    )?;
    refused(
        &rt,
        true,
        3,
        5,
        IntegerSlice::I32(&[-1]),
        Mask::new_true(1),
        &mut odd,
        3,
        0,
        untouched,
    )?;
    refused(
        &rt,
        true,
        3,
        u64::MAX,
        IntegerSlice::U8(&[3]),
        Mask::new_true(1),
        &mut odd,
        3,
        0,
        untouched,
    )
}

// Each call but the last two would be refused by a later rule too.
#[test]
fn refusals_after_decoding(rt: HostRuntime) -> Result<(), Fail> {
    let untouched = [b'x', 0xA5, 0xA5, 0xA5, 0xA5, 0xA5, 0xA5, 0xA5];
    let wiped = [b'x', 0, 0, 0, 0, 0, 0xA5, 0xA5];
    let mut three = CopyDecoder { bytes: b"abc" };
    refused(
        &rt,
        true,
        3,
        2,
        IntegerSlice::I8(&[-1]),
        Mask::new_true(1),
        &mut HexDecoder { digits: b"41424" },
        9,
        0,
        wiped,
    )?;
    refused(
        &rt,
        true,
        3,
        2,
        IntegerSlice::I8(&[-1]),
        Mask::new_true(1),
        &mut HexDecoder { digits: b"41424g" },
        9,
        0,
        wiped,
    )?;
    refused(
        &rt,
        true,
        3,
        2,
        IntegerSlice::I8(&[-1]),
        Mask::new_true(1),
        &mut CopyDecoder { bytes: b"abcdef" },
        9,
        0,
        wiped,
    )?;
    refused(
        &rt,
        true,
        3,
        2,
        IntegerSlice::I8(&[-1]),
        Mask::new_true(1),
        &mut CopyDecoder { bytes: b"abcde" },
        10,
        0,
        wiped,
    )?;
    refused(
        &rt,
        true,
        3,
        2,
        IntegerSlice::I8(&[-1]),
        Mask::new_true(1),
        &mut CopyDecoder { bytes: b"ab" },
        10,
        0,
        wiped,
    )?;
    refused(
        &rt,
        true,
        3,
        2,
        IntegerSlice::I8(&[1, -1, 3]),
        Mask::new_false(3),
        &mut three,
        7,
        1,
        wiped,
    )?;
    refused(
        &rt,
        true,
        3,
        2,
        IntegerSlice::U16(&[2, 2, 0]),
        Mask::new_true(3),
        &mut three,
        7,
        1,
        wiped,
    )?;
    refused(
        &rt,
        true,
        3,
        2,
        IntegerSlice::U64(&[u64::MAX, 4]),
        Mask::new_true(2),
        &mut three,
        7,
        0,
        wiped,
    )?;
    refused(
        &rt,
        true,
        3,
        2,
        IntegerSlice::I64(&[1, 1]),
        Mask::new_true(2),
        &mut three,
        8,
        0,
        wiped,
    )?;
    refused(
        &rt,
        true,
        0,
        0,
        IntegerSlice::U8(&[]),
        Mask::new_true(0),
        &mut three,
        9,
        0,
        untouched,
    )
}

// A call on a builder that has 3 rows and 7 heap bytes left is accepted; it leaves this heap, these bits, and so many rows, bytes and valid rows.
fn accepted<D: Decoder>(
    rt: &impl Abort,
    num_bytes: u64,
    slack: u64,
    lengths: IntegerSlice<'_>,
    validity: Mask<'_>,
    decoder: &mut D,
    left: [u8; 8],
    bits_left: u8,
    counts: (u64, u64, u64),
) -> Result<(), Fail> {
    let mut entries = [0u8; 5];
    let mut heap = [0xA5u8; 8];
    let mut bits = [0x56u8; 1];
    let mut store = FixedOffsets::new(&mut entries);
    match second_call(
        true, &mut store, &mut heap, &mut bits, num_bytes, slack, lengths, validity, decoder,
    ) {
        Ok((answer, f)) => {
            assert_eq!(rt; answer, (0, 0));
            assert_eq!(rt; (f.rows, f.bytes, f.valid), counts);
            assert_eq!(rt; heap, left);
            assert_eq!(rt; bits, [bits_left]);
            assert_eq!(rt;
                (store.get(f.rows), store.len()),
                (Some(f.bytes), f.rows.saturating_add(1))
            );
            Ok(())
        }
        Err(_) => Err(Fail::new("refused")),
    }
}

#[test]
fn slack_and_nulls(rt: HostRuntime) -> Result<(), Fail> {
    let mut hex = HexDecoder { digits: b"47fFa0" };
    let mut nothing = CopyDecoder { bytes: b"" };
    accepted(
        &rt,
        3,
        2,
        IntegerSlice::I32(&[1, 2]),
        Mask::Values {
            len: 2,
            bytes: &[0xFE],
        },
        &mut hex,
        [b'x', 0x47, 0xFF, 0xA0, 0, 0, 0xA5, 0xA5],
        0x55,
        (3, 4, 2),
    )?;
    accepted(
        &rt,
        3,
        0,
        IntegerSlice::U64(&[3, 0, 0]),
        Mask::new_false(3),
        &mut hex,
        [b'x', 0x47, 0xFF, 0xA0, 0xA5, 0xA5, 0xA5, 0xA5],
        0x51,
        (4, 4, 1),
    )?;
    accepted(
        &rt,
        3,
        4,
        IntegerSlice::U8(&[3]),
        Mask::new_true(1),
        &mut hex,
        [b'x', 0x47, 0xFF, 0xA0, 0, 0, 0, 0],
        0x57,
        (2, 4, 2),
    )?;
    accepted(
        &rt,
        0,
        0,
        IntegerSlice::I64(&[]),
        Mask::new_true(0),
        &mut nothing,
        [b'x', 0xA5, 0xA5, 0xA5, 0xA5, 0xA5, 0xA5, 0xA5],
        0x57,
        (1, 1, 1),
    )?;
    accepted(
        &rt,
        0,
        2,
        IntegerSlice::I8(&[0, 0]),
        Mask::new_true(2),
        &mut nothing,
        [b'x', 0, 0, 0xA5, 0xA5, 0xA5, 0xA5, 0xA5],
        0x57,
        (3, 1, 3),
    )
}

// The answers to bytes over heap and top, to bytes over the top, and to as many as the top with slack behind them.
fn at_the_top<S: OffsetStore>(
    store: &mut S,
    heap: &mut [u8],
    bits: &mut [u8],
    list: &[u8],
) -> Result<(u8, u8, u8), Refusal> {
    let mut builder = VarBinBuilder::new(
        DType {
            utf8: false,
            nullable: false,
        },
        store,
        heap,
        bits,
    )?;
    let mut memory = Memory { store, heap, bits };
    let mut decoder = CopyDecoder { bytes: list };
    let a = told(builder.append_decoded(
        &mut memory,
        128,
        3,
        IntegerSlice::U8(&[128]),
        Mask::new_true(1),
        &mut decoder,
    ));
    let b = told(builder.append_decoded(
        &mut memory,
        128,
        2,
        IntegerSlice::U8(&[128]),
        Mask::new_true(1),
        &mut decoder,
    ));
    let c = told(builder.append_decoded(
        &mut memory,
        127,
        3,
        IntegerSlice::I8(&[127]),
        Mask::new_true(1),
        &mut decoder,
    ));
    let _ = builder.discard();
    Ok((a.0, b.0, c.0))
}

#[test]
fn greatest_offset(rt: HostRuntime) -> Result<(), Fail> {
    let mut entries = [0i8; 4];
    let mut heap = [0xA5u8; 130];
    let mut bits = [0u8; 1];
    let mut store = FixedOffsets::new(&mut entries);
    match at_the_top(&mut store, &mut heap, &mut bits, &[7; 127]) {
        Ok(answers) => {
            assert_eq!(rt; answers, (3, 4, 0));
            assert_eq!(rt; (store.get(1), store.get(2)), (Some(127), None));
            assert_eq!(rt; (heap[126], heap[127], heap[128], heap[129]), (7, 0, 0, 0));
            Ok(())
        }
        Err(_) => Err(Fail::new("refused")),
    }
}

// The answers to two good calls and, between them, to one on another heap and one on other bits, whose counts differ too; and the record.
fn four_calls<'a, S: OffsetStore, D: Decoder>(
    store: &'a mut S,
    heap: &'a mut [u8],
    bits: &'a mut [u8],
    other: &'a mut [u8],
    decoder: &mut D,
) -> Result<((u8, u8, u8, u8), Finished), Refusal> {
    let mut builder = VarBinBuilder::new(
        DType {
            utf8: true,
            nullable: true,
        },
        store,
        heap,
        bits,
    )?;
    let mut memory = Memory { store, heap, bits };
    let a = told(builder.append_decoded(
        &mut memory,
        3,
        2,
        IntegerSlice::U8(&[1, 2]),
        Mask::new_true(2),
        decoder,
    ));
    let Memory { store, heap, bits } = memory;
    let mut other_heap = Memory {
        store,
        heap: other,
        bits,
    };
    let b = told(builder.append_decoded(
        &mut other_heap,
        3,
        0,
        IntegerSlice::U8(&[3]),
        Mask::new_true(2),
        decoder,
    ));
    let Memory {
        store,
        heap: other,
        bits,
    } = other_heap;
    let mut other_bits = Memory {
        store,
        heap,
        bits: other,
    };
    let c = told(builder.append_decoded(
        &mut other_bits,
        3,
        0,
        IntegerSlice::U8(&[3]),
        Mask::new_true(2),
        decoder,
    ));
    let Memory {
        store,
        heap,
        bits: _,
    } = other_bits;
    let mut memory = Memory { store, heap, bits };
    let d = told(builder.append_decoded(
        &mut memory,
        3,
        1,
        IntegerSlice::I16(&[0, 3]),
        Mask::Values {
            len: 2,
            bytes: &[0x01],
        },
        decoder,
    ));
    Ok(((a.0, b.0, c.0, d.0), builder.finish()))
}

#[test]
fn other_memory(rt: HostRuntime) -> Result<(), Fail> {
    let mut entries = [0u8; 9];
    let mut heap = [0xA5u8; 8];
    let mut bits = [0x58u8; 1];
    let mut other = [0xA5u8; 9];
    let mut store = FixedOffsets::new(&mut entries);
    match four_calls(
        &mut store,
        &mut heap,
        &mut bits,
        &mut other,
        &mut HexDecoder { digits: b"C2b56d" },
    ) {
        Ok((answers, f)) => {
            assert_eq!(rt; answers, (0, 1, 1, 0));
            assert_eq!(rt;
                f,
                Finished {
                    rows: 4,
                    bytes: 6,
                    valid: 3,
                    validity: Validity::Bits
                }
            );
            assert_eq!(rt; heap, [0xC2, 0xB5, 0x6D, 0xC2, 0xB5, 0x6D, 0, 0xA5]);
            assert_eq!(rt; bits, [0x57]);
            assert_eq!(rt; other, [0xA5; 9]);
            assert_eq!(rt;
                (store.get(1), store.get(2), store.get(3), store.get(4)),
                (Some(1), Some(3), Some(3), Some(6))
            );
            Ok(())
        }
        Err(_) => Err(Fail::new("refused")),
    }
}
