// `append_values`: each refusal in its order and at its first place, ends of several kinds, and what every byte and bit holds after.
use crate::told;
use builder::builder::VarBinBuilder;
use builder::finished::{Finished, Validity};
use builder::memory::Memory;
use integers::slices::IntegerSlice;
use mask::mask::Mask;
use offsets::fixed::FixedOffsets;
use offsets::store::OffsetStore;
use refusal::Refusal;
use slots::dtype::DType;
use std::process::Abort;
use std::test::Fail;

// The answer to one call behind a row `ab`, and the record.
fn second_call<S: OffsetStore>(
    nullable: bool,
    store: &mut S,
    heap: &mut [u8],
    bits: &mut [u8],
    values: &[u8],
    ends: IntegerSlice<'_>,
    validity: Mask<'_>,
) -> Result<((u8, u64), Finished), Refusal> {
    let mut builder = VarBinBuilder::new(
        DType {
            utf8: true,
            nullable,
        },
        store,
        heap,
        bits,
    )?;
    let mut memory = Memory { store, heap, bits };
    let first = builder.append_value(&mut memory, b"ab");
    let answer = told(builder.append_values(&mut memory, values, ends, validity));
    let finished = builder.finish();
    first?;
    Ok((answer, finished))
}

// A call on a builder that has 3 rows and 4 heap bytes left is refused with this number and entry, and changes nothing.
fn refused(
    rt: &impl Abort,
    nullable: bool,
    values: &[u8],
    ends: IntegerSlice<'_>,
    validity: Mask<'_>,
    number: u8,
    entry: u64,
) -> Result<(), Fail> {
    let mut entries = [0u8; 5];
    let mut heap = [0xA5u8; 6];
    let mut bits = [0x50u8; 1];
    let mut store = FixedOffsets::new(&mut entries);
    match second_call(
        nullable, &mut store, &mut heap, &mut bits, values, ends, validity,
    ) {
        Ok((answer, f)) => {
            assert_eq!(rt; answer, (number, entry));
            assert_eq!(rt; (f.rows, f.bytes, f.valid), (1, 2, 1));
            assert_eq!(rt; heap, [b'a', b'b', 0xA5, 0xA5, 0xA5, 0xA5]);
            assert_eq!(rt; bits, [0x51]);
            assert_eq!(rt;
                (store.get(1), store.get(2), store.free()),
                (Some(2), None, 3)
            );
            Ok(())
        }
        Err(_) => Err(Fail::new("refused")),
    }
}

// Each call but the last would be refused by a later rule too.
#[test]
fn refusals_in_order(rt: HostRuntime) -> Result<(), Fail> {
    refused(
        &rt,
        false,
        b"abc",
        IntegerSlice::I8(&[-1, 3]),
        Mask::new_false(3),
        6,
        0,
    )?;
    refused(
        &rt,
        false,
        b"abc",
        IntegerSlice::U8(&[4, 1, 1, 1, 1, 1, 1, 1, 1]),
        Mask::Values {
            len: 9,
            bytes: &[0],
        },
        6,
        0,
    )?;
    refused(
        &rt,
        false,
        b"abc",
        IntegerSlice::I8(&[1, -1, 0]),
        Mask::new_false(3),
        7,
        1,
    )?;
    refused(
        &rt,
        false,
        b"abc",
        IntegerSlice::I32(&[2, 1]),
        Mask::new_false(2),
        7,
        1,
    )?;
    refused(
        &rt,
        true,
        b"abcde",
        IntegerSlice::U64(&[1, 2, u64::MAX, 6]),
        Mask::new_true(4),
        7,
        2,
    )?;
    refused(
        &rt,
        true,
        b"abcde",
        IntegerSlice::U16(&[6]),
        Mask::new_true(1),
        7,
        0,
    )?;
    refused(
        &rt,
        false,
        b"abcde",
        IntegerSlice::U8(&[1, 2]),
        Mask::new_false(2),
        8,
        0,
    )?;
    refused(
        &rt,
        true,
        b"abcde",
        IntegerSlice::I64(&[]),
        Mask::new_true(0),
        8,
        0,
    )?;
    refused(
        &rt,
        false,
        b"abcde",
        IntegerSlice::U16(&[1, 2, 3, 5]),
        Mask::Values {
            len: 4,
            bytes: &[0xF7],
        },
        5,
        0,
    )?;
    refused(
        &rt,
        true,
        b"abcde",
        IntegerSlice::I64(&[1, 2, 3, 5]),
        Mask::new_false(4),
        2,
        0,
    )?;
    refused(
        &rt,
        true,
        b"abcde",
        IntegerSlice::U64(&[1, 2, 5]),
        Mask::new_false(3),
        3,
        0,
    )
}

// The answers to more bytes than heap and top have, to more than the top, and to as many as the top.
fn at_the_top<S: OffsetStore>(
    store: &mut S,
    heap: &mut [u8],
    bits: &mut [u8],
    over_heap: &[u8],
    over_top: &[u8],
    fitting: &[u8],
) -> Result<(u8, u8, u8), Refusal> {
    let mut builder = VarBinBuilder::new(
        DType {
            utf8: false,
            nullable: false,
        },
        store,
        heap,
        bits,
    )?;
    let mut memory = Memory { store, heap, bits };
    let a = told(builder.append_values(
        &mut memory,
        over_heap,
        IntegerSlice::I16(&[131]),
        Mask::new_true(1),
    ));
    let b = told(builder.append_values(
        &mut memory,
        over_top,
        IntegerSlice::U8(&[1, 128]),
        Mask::new_true(2),
    ));
    let c = told(builder.append_values(
        &mut memory,
        fitting,
        IntegerSlice::U8(&[0, 127]),
        Mask::new_true(2),
    ));
    let _ = builder.discard();
    Ok((a.0, b.0, c.0))
}

#[test]
fn greatest_offset(rt: HostRuntime) -> Result<(), Fail> {
    let mut entries = [0i8; 4];
    let mut heap = [0u8; 130];
    let mut bits = [0u8; 1];
    let mut store = FixedOffsets::new(&mut entries);
    match at_the_top(
        &mut store, &mut heap, &mut bits, &[7; 131], &[7; 128], &[7; 127],
    ) {
        Ok(answers) => {
            assert_eq!(rt; answers, (3, 4, 0));
            assert_eq!(rt;
                (store.get(1), store.get(2), store.get(3)),
                (Some(0), Some(127), None)
            );
            assert_eq!(rt; (heap[126], heap[127]), (7, 0));
            Ok(())
        }
        Err(_) => Err(Fail::new("refused")),
    }
}

// The number that a call with this memory is answered by, whose counts differ too.
fn one_value<S: OffsetStore>(
    builder: &mut VarBinBuilder,
    store: &mut S,
    heap: &mut [u8],
    bits: &mut [u8],
) -> u8 {
    let mut memory = Memory { store, heap, bits };
    let answer = builder.append_values(
        &mut memory,
        b"z",
        IntegerSlice::U8(&[1]),
        Mask::new_true(2),
    );
    told(answer).0
}

// The answers to the rows of sample K, to five rows more in two calls, and then to none and to an empty one; those to three calls
// between, on other memory, whose counts differ too; and the record.
fn until_full<S: OffsetStore, T: OffsetStore>(
    store: &mut S,
    heap: &mut [u8],
    bits: &mut [u8],
    other: &mut T,
    other_bytes: &mut [u8],
) -> Result<((u8, u8, u8), (u8, u8), (u8, u8, u8), Finished), Refusal> {
    let mut builder = VarBinBuilder::new(
        DType {
            utf8: true,
            nullable: true,
        },
        store,
        heap,
        bits,
    )?;
    let mut memory = Memory { store, heap, bits };
    let rows_of_k = told(builder.append_values(
        &mut memory,
        &[0x47, 0x37, 0x58, 0x58, 0xC2, 0xB5, 0x6D],
        IntegerSlice::I32(&[2, 4, 7]),
        Mask::Values {
            len: 3,
            bytes: &[0xFD],
        },
    ));
    let Memory { store, heap, bits } = memory;
    let others = (
        one_value(&mut builder, other, heap, bits),
        one_value(&mut builder, store, other_bytes, bits),
        one_value(&mut builder, store, heap, other_bytes),
    );
    let mut memory = Memory { store, heap, bits };
    let three_rows = told(builder.append_values(
        &mut memory,
        b"r",
        IntegerSlice::U16(&[0, 1, 1]),
        Mask::Values {
            len: 3,
            bytes: &[0x05],
        },
    ));
    let two_rows = told(builder.append_values(
        &mut memory,
        b"s",
        IntegerSlice::U64(&[1, 1]),
        Mask::Values {
            len: 2,
            bytes: &[0xF1],
        },
    ));
    let no_more = told(builder.append_values(
        &mut memory,
        b"",
        IntegerSlice::I64(&[]),
        Mask::Values { len: 0, bytes: &[] },
    ));
    let one_more = told(builder.append_values(
        &mut memory,
        b"",
        IntegerSlice::I64(&[0]),
        Mask::new_true(1),
    ));
    Ok((
        (rows_of_k.0, three_rows.0, two_rows.0),
        (no_more.0, one_more.0),
        others,
        builder.finish(),
    ))
}

// Heap, store and bits are then full. Each bit stood the other way before.
#[test]
fn calls_in_a_row(rt: HostRuntime) -> Result<(), Fail> {
    let mut entries = [0u8; 9];
    let mut heap = [0xA5u8; 9];
    let mut bits = [0x92u8; 1];
    let mut other_entries = [0u8; 9];
    let mut other_bytes = [0x33u8; 8];
    let mut store = FixedOffsets::new(&mut entries);
    let mut other = FixedOffsets::new(&mut other_entries);
    match until_full(
        &mut store,
        &mut heap,
        &mut bits,
        &mut other,
        &mut other_bytes,
    ) {
        Ok((rows, last, others, f)) => {
            assert_eq!(rt; rows, (0, 0, 0));
            assert_eq!(rt; last, (0, 2));
            assert_eq!(rt; others, (1, 1, 1));
            assert_eq!(rt;
                f,
                Finished {
                    rows: 8,
                    bytes: 9,
                    valid: 5,
                    validity: Validity::Bits
                }
            );
            assert_eq!(rt;
                heap,
                [0x47, 0x37, 0x58, 0x58, 0xC2, 0xB5, 0x6D, b'r', b's']
            );
            assert_eq!(rt; bits, [0x6D]);
            assert_eq!(rt;
                (store.get(1), store.get(2), store.get(3), store.get(4)),
                (Some(2), Some(4), Some(7), Some(7))
            );
            assert_eq!(rt;
                (store.get(5), store.get(6), store.get(7), store.get(8)),
                (Some(8), Some(8), Some(9), Some(9))
            );
            assert_eq!(rt; (store.free(), other.len(), other.free()), (0, 0, 9));
            assert_eq!(rt; other_bytes, [0x33; 8]);
            Ok(())
        }
        Err(_) => Err(Fail::new("refused")),
    }
}

// Bytes and bits behind the last row stay, and a mask's bits behind its last flag are not looked at.
#[test]
fn behind_the_rows(rt: HostRuntime) -> Result<(), Fail> {
    let mut entries = [0u8; 5];
    let mut heap = [0xA5u8; 7];
    let mut bits = [0xF2u8, 0xC3];
    let mut store = FixedOffsets::new(&mut entries);
    match second_call(
        false,
        &mut store,
        &mut heap,
        &mut bits,
        b"cde",
        IntegerSlice::I64(&[2, 3]),
        Mask::Values {
            len: 2,
            bytes: &[0x03],
        },
    ) {
        Ok((answer, f)) => {
            assert_eq!(rt; answer, (0, 0));
            assert_eq!(rt;
                f,
                Finished {
                    rows: 3,
                    bytes: 5,
                    valid: 3,
                    validity: Validity::NonNullable
                }
            );
            assert_eq!(rt; heap, [b'a', b'b', b'c', b'd', b'e', 0xA5, 0xA5]);
            assert_eq!(rt; bits, [0xF7, 0xC3]);
            assert_eq!(rt;
                (store.get(1), store.get(2), store.get(3), store.get(4)),
                (Some(2), Some(4), Some(5), None)
            );
            Ok(())
        }
        Err(_) => Err(Fail::new("refused")),
    }
}
