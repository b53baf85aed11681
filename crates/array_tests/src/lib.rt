// Opening and the tally on small columns: each refusal at its first place, the order of checks, all kinds, every form of mask.
#![tactic(auto)]

#[cfg(test)]
mod tests {
    use array::checks::{check_limits, check_validity};
    use array::sample::sample_k;
    use array::tally::Tally;
    use array::view::VarBinArray;
    use integers::slices::IntegerSlice;
    use mask::mask::Mask;
    use refusal::Refusal;
    use rows::row::RowRef;
    use rows::source::RowSource;
    use slots::dtype::DType;
    use std::process::Abort;

    const TEXT: DType = DType {
        utf8: true,
        nullable: false,
    };

    const NULLABLE_TEXT: DType = DType {
        utf8: true,
        nullable: true,
    };

    const BYTES: DType = DType {
        utf8: false,
        nullable: false,
    };

    const NULLABLE_BYTES: DType = DType {
        utf8: false,
        nullable: true,
    };

    // Number, entry and byte of a refusal; zeros where there is none.
    fn code(r: Result<(), Refusal>) -> (u8, u64, u64) {
        match r {
            Ok(()) => (0, 0, 0),
            Err(e) => (e.number(), e.entry(), e.byte()),
        }
    }

    // What opening answers for text that is not nullable.
    fn text<'a>(offsets: IntegerSlice<'a>, heap: &'a [u8]) -> (u8, u64, u64) {
        let mut view = VarBinArray::empty();
        code(view.open(offsets, heap, None, TEXT))
    }

    // What opening answers for nullable text with these bits.
    fn nullable_text<'a>(
        offsets: IntegerSlice<'a>,
        heap: &'a [u8],
        len: u64,
        bytes: &'a [u8],
    ) -> (u8, u64, u64) {
        let mut view = VarBinArray::empty();
        code(view.open(
            offsets,
            heap,
            Some(Mask::Values { len, bytes }),
            NULLABLE_TEXT,
        ))
    }

    #[test]
    fn refusals_in_order(rt: HostRuntime) {
        assert_eq!(rt; text(IntegerSlice::U8(&[]), &[]), (15, 0, 0));
        assert_eq!(rt; text(IntegerSlice::U8(&[0, 2, 1]), &[65, 65]), (17, 2, 0));
        assert_eq!(rt; text(IntegerSlice::U8(&[0, 3]), &[65, 65]), (17, 1, 0));
        assert_eq!(rt; text(IntegerSlice::I8(&[-1, 3]), &[65, 65]), (17, 0, 0));
        assert_eq!(rt;
            text(IntegerSlice::U8(&[0, 1, 3]), &[65, 65, 0xC2]),
            (18, 1, 2)
        );
        assert_eq!(rt; text(IntegerSlice::U8(&[0, 2, 9]), &[0xC0, 65]), (17, 2, 0));
        assert_eq!(rt;
            nullable_text(IntegerSlice::U8(&[0, 2, 9]), &[65, 65], 3, &[7]),
            (16, 0, 0)
        );
        assert_eq!(rt;
            nullable_text(IntegerSlice::U8(&[0, 1]), &[65], 1, &[]),
            (16, 0, 0)
        );
        assert_eq!(rt;
            nullable_text(IntegerSlice::U8(&[]), &[], 1, &[]),
            (15, 0, 0)
        );
    }

    #[test]
    fn columns_that_open(rt: HostRuntime) {
        assert_eq!(rt; text(IntegerSlice::U8(&[0, 0]), &[0xB5]), (0, 0, 0));
        assert_eq!(rt; text(IntegerSlice::U16(&[1, 2]), &[0xB5, 65]), (0, 0, 0));
        assert_eq!(rt; text(IntegerSlice::U32(&[0, 1]), &[65]), (0, 0, 0));
        assert_eq!(rt; text(IntegerSlice::U64(&[0, 1]), &[65]), (0, 0, 0));
        assert_eq!(rt; text(IntegerSlice::I8(&[0, 1]), &[65]), (0, 0, 0));
        assert_eq!(rt; text(IntegerSlice::I16(&[0, 1]), &[65]), (0, 0, 0));
        assert_eq!(rt; text(IntegerSlice::I32(&[0, 1]), &[65]), (0, 0, 0));
        assert_eq!(rt; text(IntegerSlice::I64(&[0, 1]), &[65]), (0, 0, 0));
        assert_eq!(rt;
            nullable_text(IntegerSlice::U8(&[0, 1, 2]), &[65, 0xC2], 2, &[1]),
            (0, 0, 0)
        );
        assert_eq!(rt;
            nullable_text(IntegerSlice::U8(&[0, 1, 2]), &[65, 0xC2], 2, &[3]),
            (18, 1, 1)
        );
    }

    // What opening answers for nullable bytes under a mask, and how many rows are then valid.
    fn masked<'a>(
        offsets: IntegerSlice<'a>,
        heap: &'a [u8],
        mask: Mask<'a>,
    ) -> ((u8, u64, u64), u64) {
        let mut view = VarBinArray::empty();
        let answer = code(view.open(offsets, heap, Some(mask), NULLABLE_BYTES));
        (answer, view.tally().valid)
    }

    #[test]
    fn masks_of_every_form(rt: HostRuntime) {
        let offsets = IntegerSlice::U8(&[0, 0, 1]);
        assert_eq!(rt; masked(offsets, &[0xC2], Mask::new_true(2)), ((0, 0, 0), 2));
        assert_eq!(rt;
            masked(offsets, &[0xC2], Mask::new_false(2)),
            ((0, 0, 0), 0)
        );
        assert_eq!(rt;
            masked(
                offsets,
                &[0xC2],
                Mask::Values {
                    len: 2,
                    bytes: &[0xFE]
                }
            ),
            ((0, 0, 0), 1)
        );
        assert_eq!(rt;
            masked(offsets, &[0xC2], Mask::new_true(3)),
            ((16, 0, 0), 0)
        );
        assert_eq!(rt;
            masked(offsets, &[0xC2], Mask::new_false(1)),
            ((16, 0, 0), 0)
        );
        assert_eq!(rt;
            masked(offsets, &[0xC2], Mask::Values { len: 2, bytes: &[] }),
            ((16, 0, 0), 0)
        );
    }

    fn fits(nullable: bool, mask: Mask<'_>, rows: u64) -> (u8, u64, u64) {
        code(check_validity(nullable, Some(mask), rows))
    }

    #[test]
    fn limits(rt: HostRuntime) {
        assert_eq!(rt; code(check_limits(16_777_216, 68_719_476_736)), (0, 0, 0));
        assert_eq!(rt; code(check_limits(16_777_217, 0)), (14, 0, 0));
        assert_eq!(rt; code(check_limits(0, 68_719_476_737)), (14, 0, 0));
        assert_eq!(rt; fits(false, Mask::new_true(1), 1), (16, 0, 0));
        assert_eq!(rt; fits(true, Mask::new_true(1), 1), (0, 0, 0));
        assert_eq!(rt; text(IntegerSlice::U8(&[0]), &[]), (0, 0, 0));
    }

    // The length of a row, or 99 for null and 100 for absent.
    fn row_len(row: Option<RowRef<'_>>) -> u64 {
        match row {
            None => 100,
            Some(None) => 99,
            Some(Some(bytes)) => bytes.len() as u64,
        }
    }

    // The rows of K.
    fn check_rows<R: RowSource>(rt: &impl Abort, source: &R) {
        assert_eq!(rt; source.len(), 3);
        assert_eq!(rt; row_len(source.row(0)), 2);
        assert_eq!(rt; row_len(source.row(1)), 99);
        assert_eq!(rt; row_len(source.row(2)), 3);
        assert_eq!(rt; row_len(source.row(3)), 100);
    }

    // K opens; a refused opening then leaves the view as it was.
    fn opened<'a>(
        rt: &impl Abort,
        offsets: &'a [i32],
        bad: &'a [i32],
        heap: &'a [u8],
        bytes: &'a [u8],
    ) {
        let mut view = VarBinArray::empty();
        assert_eq!(rt;
            code(view.open(
                IntegerSlice::I32(offsets),
                heap,
                Some(Mask::Values { len: 3, bytes }),
                NULLABLE_TEXT
            )),
            (0, 0, 0)
        );
        assert_eq!(rt;
            code(view.open(IntegerSlice::I32(bad), heap, None, BYTES)),
            (17, 1, 0)
        );
        check_rows(rt, &view);
        assert_eq!(rt;
            view.tally(),
            Tally {
                rows: 3,
                valid: 2,
                bytes: 7,
                longest: 3,
                complete: 667
            }
        );
    }

    #[test]
    fn sample_rows(rt: HostRuntime) {
        let k = sample_k();
        opened(&rt, &k.offsets, &[0, 8], &k.heap, &k.bits);
    }

    #[test]
    fn no_rows(rt: HostRuntime) {
        let view = VarBinArray::empty();
        assert_eq!(rt;
            view.tally(),
            Tally {
                rows: 0,
                valid: 0,
                bytes: 0,
                longest: 0,
                complete: 1000
            }
        );
    }
}
