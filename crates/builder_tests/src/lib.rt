// The builder on small memory: capacity, each refusal of its calls in order, what every byte and bit holds after.
#![tactic(auto)]

#[cfg(test)]
mod decoded;
#[cfg(test)]
mod values;

use builder::builder::VarBinBuilder;
use builder::finished::{Finished, Validity};
use builder::memory::Memory;
use offsets::store::OffsetStore;
use refusal::Refusal;
use slots::dtype::DType;

// A column of one value. The gate tries two misuses of this function: a builder that is let go, and one that is used after it ended.
fn one_value<S: OffsetStore>(
    store: &mut S,
    heap: &mut [u8],
    bits: &mut [u8],
    value: &[u8],
) -> Result<Finished, Refusal> {
    let mut builder = VarBinBuilder::new(
        DType {
            utf8: false,
            nullable: true,
        },
        store,
        heap,
        bits,
    )?;
    let mut memory = Memory { store, heap, bits };
    let appended = builder.append_value(&mut memory, value);
    let finished = builder.finish();
    appended?;
    Ok(finished)
}

// The number and the entry of an answer, both 0 where the call was accepted.
#[cfg(test)]
fn told(r: Result<(), Refusal>) -> (u8, u64) {
    match r {
        Ok(()) => (0, 0),
        Err(e) => (e.number(), e.entry()),
    }
}

#[cfg(test)]
mod tests {
    use super::*;
    use offsets::fixed::FixedOffsets;
    use std::test::Fail;

    #[test]
    fn one(rt: HostRuntime) -> Result<(), Fail> {
        let mut entries = [0u8; 3];
        let mut heap = [0xA5u8; 4];
        let mut bits = [0x5Au8; 1];
        let mut store = FixedOffsets::new(&mut entries);
        match one_value(&mut store, &mut heap, &mut bits, b"ab") {
            Ok(f) => {
                assert_eq!(rt;
                    f,
                    Finished {
                        rows: 1,
                        bytes: 2,
                        valid: 1,
                        validity: Validity::AllValid
                    }
                );
                assert_eq!(rt; heap, [97, 98, 0xA5, 0xA5]);
                assert_eq!(rt; bits, [0x5B]);
                assert_eq!(rt;
                    (store.get(0), store.get(1), store.get(2)),
                    (Some(0), Some(2), None)
                );
                Ok(())
            }
            Err(_) => Err(Fail::new("refused")),
        }
    }

    // One value, and then a mark on the last byte of four, by way of the memory that was lent: its heap is as long as it was.
    fn marked<S: OffsetStore>(
        store: &mut S,
        heap: &mut [u8],
        bits: &mut [u8],
    ) -> Result<Finished, Refusal> {
        let dtype = DType {
            utf8: false,
            nullable: true,
        };
        let mut builder = VarBinBuilder::new(dtype, store, heap, bits)?;
        let mut memory = Memory { store, heap, bits };
        if memory.heap.len() == 4 {
            let _ = builder.append_value(&mut memory, b"ab");
            memory.heap[3] = 0x11;
        }
        Ok(builder.finish())
    }

    #[test]
    fn memory_after_a_call(rt: HostRuntime) -> Result<(), Fail> {
        let mut entries = [0u8; 3];
        let mut heap = [0xA5u8; 4];
        let mut bits = [0x5Au8; 1];
        let mut store = FixedOffsets::new(&mut entries);
        match marked(&mut store, &mut heap, &mut bits) {
            Ok(f) => {
                assert_eq!(rt; f.bytes, 2);
                assert_eq!(rt; heap, [97, 98, 0xA5, 0x11]);
                Ok(())
            }
            Err(_) => Err(Fail::new("refused")),
        }
    }

    // The answers of six calls on one builder, and its record.
    fn six_calls<'a, S: OffsetStore>(
        nullable: bool,
        store: &'a mut S,
        heap: &'a mut [u8],
        bits: &'a mut [u8],
        other: &'a mut [u8],
    ) -> Result<((u8, u8, u8), (u8, u8, u8), Finished), Refusal> {
        let mut builder = VarBinBuilder::new(
            DType {
                utf8: true,
                nullable,
            },
            store,
            heap,
            bits,
        )?;
        let mut memory = Memory { store, heap, bits };
        let a = told(builder.append_value(&mut memory, b"xy")).0;
        let b = told(builder.push_nulls(&mut memory, 1)).0;
        let Memory { store, heap, bits } = memory;
        let mut memory = Memory {
            store,
            heap: other,
            bits,
        };
        let c = told(builder.append_value(&mut memory, b"z")).0;
        let Memory {
            store,
            heap: _,
            bits,
        } = memory;
        let mut memory = Memory { store, heap, bits };
        let d = told(builder.append_n_values(&mut memory, b"k", 2)).0;
        let e = told(builder.append_n_values(&mut memory, b"", u64::MAX)).0;
        let f = told(builder.append_value(&mut memory, b"too long")).0;
        Ok(((a, b, c), (d, e, f), builder.finish()))
    }

    #[test]
    fn calls_in_a_row(rt: HostRuntime) -> Result<(), Fail> {
        let mut entries = [0u8; 9];
        let mut heap = [0xA5u8; 6];
        let mut other = [0u8; 5];
        let mut bits = [0x50u8; 1];
        let mut store = FixedOffsets::new(&mut entries);
        match six_calls(true, &mut store, &mut heap, &mut bits, &mut other) {
            Ok((first, last, f)) => {
                assert_eq!(rt; first, (0, 0, 1));
                assert_eq!(rt; last, (0, 2, 3));
                assert_eq!(rt;
                    f,
                    Finished {
                        rows: 4,
                        bytes: 4,
                        valid: 3,
                        validity: Validity::Bits
                    }
                );
                assert_eq!(rt; heap, [b'x', b'y', b'k', b'k', 0xA5, 0xA5]);
                assert_eq!(rt; bits, [0x5D]);
                Ok(())
            }
            Err(_) => Err(Fail::new("refused")),
        }
    }

    #[test]
    fn not_nullable(rt: HostRuntime) -> Result<(), Fail> {
        let mut entries = [0u8; 9];
        let mut heap = [0u8; 6];
        let mut other = [0u8; 5];
        let mut bits = [0u8; 1];
        let mut store = FixedOffsets::new(&mut entries);
        match six_calls(false, &mut store, &mut heap, &mut bits, &mut other) {
            Ok((first, last, f)) => {
                assert_eq!(rt; first, (0, 5, 1));
                assert_eq!(rt; last, (0, 2, 3));
                assert_eq!(rt;
                    f,
                    Finished {
                        rows: 3,
                        bytes: 4,
                        valid: 3,
                        validity: Validity::NonNullable
                    }
                );
                Ok(())
            }
            Err(_) => Err(Fail::new("refused")),
        }
    }

    // The number with which making is refused, 0 where it is not.
    fn making<S: OffsetStore>(store: &mut S, heap: &[u8], bits: &[u8]) -> u8 {
        match VarBinBuilder::new(
            DType {
                utf8: false,
                nullable: true,
            },
            store,
            heap,
            bits,
        ) {
            Ok(builder) => {
                let _ = builder.discard();
                0
            }
            Err(e) => e.number(),
        }
    }

    #[test]
    fn made_once(rt: HostRuntime) {
        let mut entries = [0i8; 1];
        let mut store = FixedOffsets::new(&mut entries);
        assert_eq!(rt; making(&mut store, &[], &[]), 0);
        assert_eq!(rt; making(&mut store, &[], &[]), 13);
        let mut none: [i8; 0] = [];
        let mut full = FixedOffsets::new(&mut none);
        assert_eq!(rt; making(&mut full, &[], &[]), 13);
    }

    // The answers to 127 bytes and then one more in a store of 8-bit signed entries.
    fn at_the_top<S: OffsetStore>(
        store: &mut S,
        heap: &mut [u8],
        bits: &mut [u8],
        value: &[u8],
    ) -> Result<(u8, u8), Refusal> {
        let mut builder = VarBinBuilder::new(
            DType {
                utf8: false,
                nullable: false,
            },
            store,
            heap,
            bits,
        )?;
        let mut memory = Memory { store, heap, bits };
        let a = told(builder.append_value(&mut memory, value)).0;
        let b = told(builder.append_value(&mut memory, b"x")).0;
        let _ = builder.discard();
        Ok((a, b))
    }

    #[test]
    fn greatest_offset(rt: HostRuntime) -> Result<(), Fail> {
        let mut entries = [0i8; 4];
        let mut heap = [0u8; 200];
        let mut bits = [0u8; 1];
        let mut store = FixedOffsets::new(&mut entries);
        match at_the_top(&mut store, &mut heap, &mut bits, &[7; 127]) {
            Ok(answers) => {
                assert_eq!(rt; answers, (0, 4));
                Ok(())
            },
            Err(_) => Err(Fail::new("refused")),
        }
    }
}
