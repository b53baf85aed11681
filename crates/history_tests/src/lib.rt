// Histories on small memory: selections from sample column K, and calls that are accepted and refused in turn.
#![tactic(auto)]

#[cfg(test)]
mod tests {
    use array::sample::sample_k;
    use array::view::VarBinArray;
    use builder::finished::Finished;
    use compute::gather::RunLengths;
    use decoder::copy::CopyDecoder;
    use decoder::hex::HexDecoder;
    use history::call::{Call, Outcome};
    use history::runner::run_history;
    use integers::slices::IntegerSlice;
    use integers::unsigned::UnsignedSlice;
    use mask::mask::Mask;
    use offsets::fixed::FixedOffsets;
    use offsets::store::OffsetStore;
    use refusal::Refusal;
    use rows::repeat::RepeatedRow;
    use rows::source::RowSource;
    use slots::dtype::DType;
    use std::process::Abort;
    use std::test::Fail;

    const NULLABLE_TEXT: DType = DType {
        utf8: true,
        nullable: true,
    };

    // The number and the entry of an outcome, both 0 where the call was accepted.
    fn told(outcome: Outcome) -> (u8, u64) {
        match outcome {
            Ok(()) => (0, 0),
            Err(refusal) => (refusal.number(), refusal.entry()),
        }
    }

    // One call on a nullable builder for text.
    fn one_call<R: RowSource, S: OffsetStore>(
        store: &mut S,
        heap: &mut [u8],
        bits: &mut [u8],
        call: &Call<'_, R, CopyDecoder<'_>>,
    ) -> Result<((u8, u64), Finished), Refusal> {
        let mut outcomes = [Err(Refusal::OtherMemory)];
        let calls = std::slice::from_ref(call);
        let ran = run_history(NULLABLE_TEXT, store, heap, bits, calls, &mut outcomes)?;
        Ok((told(outcomes[0]), ran.finished))
    }

    // What a call is to be answered, by number and entry, and what it is to leave: the offsets, the used bytes, how many valid rows, the bit byte.
    #[derive(Clone, Copy)]
    struct Expected<'a> {
        answer: (u8, u64),
        offsets: &'a [u64],
        bytes: &'a [u8],
        valid: u64,
        bits: u8,
    }

    // A call that adds nothing: refused with this number at entry 0, or accepted where the number is 0.
    fn nothing(number: u8) -> Expected<'static> {
        Expected {
            answer: (number, 0),
            offsets: &[0],
            bytes: &[],
            valid: 0,
            bits: 0,
        }
    }

    fn expect<R: RowSource>(
        rt: &impl Abort,
        call: &Call<'_, R, CopyDecoder<'_>>,
        expected: Expected<'_>,
    ) -> Result<(), Fail> {
        let mut entries = [-1i32; 9];
        let mut heap = [0xA5u8; 16];
        let mut bits = [0u8; 1];
        let mut store = FixedOffsets::new(&mut entries);
        let Ok((told, finished)) = one_call(&mut store, &mut heap, &mut bits, call) else {
            return Err(Fail::new("refused"));
        };
        assert_eq!(rt; told, expected.answer);
        assert_eq!(rt;
            (finished.bytes, finished.valid),
            (expected.bytes.len() as u64, expected.valid)
        );
        assert_eq!(rt; bits, [expected.bits]);
        for (i, byte) in expected.bytes.iter().enumerate() {
            assert_eq!(rt; heap.get(i).copied(), Some(*byte));
        }
        assert_eq!(rt; store.len(), expected.offsets.len() as u64);
        for (i, offset) in expected.offsets.iter().enumerate() {
            assert_eq!(rt; store.get(i as u64), Some(*offset));
        }
        Ok(())
    }

    fn take_from<R: RowSource>(
        rt: &impl Abort,
        source: &R,
        indices: IntegerSlice<'_>,
        validity: Mask<'_>,
        expected: Expected<'_>,
    ) -> Result<(), Fail> {
        let call = Call::Take {
            source,
            indices,
            validity,
        };
        expect(rt, &call, expected)
    }

    // One run, of a declared length that is its own.
    fn gather_one<'a, R: RowSource>(
        rt: &impl Abort,
        source: &'a R,
        starts: UnsignedSlice<'a>,
        len: u64,
        expected: Expected<'_>,
    ) -> Result<(), Fail> {
        let call = Call::GatherSlices {
            source,
            starts,
            lengths: RunLengths::Same(len),
            declared: len,
        };
        expect(rt, &call, expected)
    }

    fn filter_from<R: RowSource>(
        rt: &impl Abort,
        source: &R,
        mask: Mask<'_>,
        expected: Expected<'_>,
    ) -> Result<(), Fail> {
        let call = Call::Filter { source, mask };
        expect(rt, &call, expected)
    }

    // Selections from sample column K: rows 47 37, null, C2 B5 6D.
    fn select_from<R: RowSource>(rt: &impl Abort, k: &R) -> Result<(), Fail> {
        let ends = Mask::Values {
            len: 3,
            bytes: &[0x05],
        };
        let last = Expected {
            answer: (0, 0),
            offsets: &[0, 0, 0, 3],
            bytes: &[0xC2, 0xB5, 0x6D],
            valid: 1,
            bits: 0x04,
        };
        let one_null = Expected {
            answer: (0, 0),
            offsets: &[0, 0],
            bytes: &[],
            valid: 0,
            bits: 0,
        };
        let all = Expected {
            answer: (0, 0),
            offsets: &[0, 2, 2, 5],
            bytes: &[0x47, 0x37, 0xC2, 0xB5, 0x6D],
            valid: 2,
            bits: 0x05,
        };
        let both_ends = Expected {
            answer: (0, 0),
            offsets: &[0, 2, 5],
            bytes: &[0x47, 0x37, 0xC2, 0xB5, 0x6D],
            valid: 2,
            bits: 0x03,
        };
        take_from(rt, k, IntegerSlice::U8(&[1, 7, 2]), ends, last)?;
        take_from(
            rt,
            k,
            IntegerSlice::I8(&[-1]),
            Mask::new_true(1),
            nothing(11),
        )?;
        take_from(
            rt,
            k,
            IntegerSlice::U64(&[99]),
            Mask::new_false(1),
            one_null,
        )?;
        gather_one(rt, k, UnsignedSlice::U8(&[0]), 3, all)?;
        gather_one(rt, k, UnsignedSlice::U16(&[99]), 0, nothing(0))?;
        gather_one(rt, k, UnsignedSlice::U32(&[1]), 3, nothing(11))?;
        filter_from(rt, k, ends, both_ends)?;
        filter_from(rt, k, Mask::new_true(4), nothing(12))
    }

    #[test]
    fn selections_from_sample_k(rt: HostRuntime) -> Result<(), Fail> {
        let k = sample_k();
        let mut view = VarBinArray::empty();
        let validity = Mask::Values {
            len: 3,
            bytes: &k.bits,
        };
        match view.open(
            IntegerSlice::I32(&k.offsets),
            &k.heap,
            Some(validity),
            NULLABLE_TEXT,
        ) {
            Ok(()) => select_from(&rt, &view),
            Err(_) => Err(Fail::new("not opened")),
        }
    }

    // Eight calls, of which seven have a place for an outcome, on a builder with eight rows, 16 heap bytes and a bit byte.
    #[test]
    fn accepted_and_refused_in_turn(rt: HostRuntime) -> Result<(), Fail> {
        let mut entries = [0u8; 9];
        let mut heap = [0xA5u8; 16];
        let mut bits = [0u8; 1];
        let mut store = FixedOffsets::new(&mut entries);
        let source = RepeatedRow {
            row: Some(b"k"),
            len: 3,
        };
        let calls = [
            Call::AppendValues {
                values: b"abc",
                ends: IntegerSlice::U8(&[1, 3]),
                validity: Mask::new_true(2),
            },
            Call::AppendValues {
                values: b"abc",
                ends: IntegerSlice::U8(&[2, 1]),
                validity: Mask::new_true(2),
            },
            Call::AppendValues {
                values: b"abc",
                ends: IntegerSlice::U8(&[1, 2]),
                validity: Mask::new_true(2),
            },
            Call::AppendDecoded {
                num_bytes: 3,
                slack: 6,
                lengths: IntegerSlice::I8(&[1, 2]),
                validity: Mask::Values {
                    len: 2,
                    bytes: &[0x01],
                },
                decoder: HexDecoder { digits: b"C2b56D" },
            },
            Call::PushNulls { n: 5 },
            Call::AppendNValues { value: b"z", n: 2 },
            Call::Filter {
                source: &source,
                mask: Mask::Values {
                    len: 3,
                    bytes: &[0x05],
                },
            },
            Call::AppendValue { value: b"" },
        ];
        let mut outcomes = [Err(Refusal::OtherMemory); 7];
        let Ok(ran) = run_history(
            NULLABLE_TEXT,
            &mut store,
            &mut heap,
            &mut bits,
            &calls,
            &mut outcomes,
        ) else {
            return Err(Fail::new("refused"));
        };
        let expected = [(0, 0), (7, 1), (8, 0), (0, 0), (2, 0), (0, 0), (0, 0)];
        for (outcome, answer) in outcomes.iter().zip(expected.iter()) {
            assert_eq!(rt; told(*outcome), *answer);
        }
        let f = ran.finished;
        assert_eq!(rt; ran.carried, 7);
        assert_eq!(rt;
            (f.rows, f.bytes, f.valid, f.validity.number()),
            (8, 10, 7, 3)
        );
        assert_eq!(rt; &heap[..12], b"abc\xC2\xB5mzzkk\0\0".as_slice());
        assert_eq!(rt; &heap[12..], [0xA5u8; 4].as_slice());
        assert_eq!(rt; bits, [0xF7]);
        let offsets = [0, 1, 3, 4, 6, 7, 8, 9, 10];
        assert_eq!(rt; store.len(), 9);
        for (i, offset) in offsets.iter().enumerate() {
            assert_eq!(rt; store.get(i as u64), Some(*offset));
        }
        Ok(())
    }
}
