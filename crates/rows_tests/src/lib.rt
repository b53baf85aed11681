// Repeated rows and joins, row by row, and the cut at the most that a source shows.
#![tactic(auto)]

#[cfg(test)]
mod tests {
    use rows::join::Join;
    use rows::repeat::RepeatedRow;
    use rows::row::RowRef;
    use rows::source::RowSource;
    use std::process::Abort;

    // The first byte of a row, 256 for an empty row, 257 for null, 258 for absent.
    fn first(row: Option<RowRef<'_>>) -> u16 {
        match row {
            None => 258,
            Some(None) => 257,
            Some(Some([])) => 256,
            Some(Some([b, ..])) => u16::from(*b),
        }
    }

    fn check_row<R: RowSource>(rt: &impl Abort, source: &R, i: u64, expected: u16) {
        assert_eq!(rt; first(source.row(i)), expected);
    }

    #[test]
    fn repeated(rt: HostRuntime) {
        let a = RepeatedRow {
            row: Some(b"a"),
            len: 2,
        };
        assert_eq!(rt; a.len(), 2);
        check_row(&rt, &a, 0, 97);
        check_row(&rt, &a, 1, 97);
        check_row(&rt, &a, 2, 258);
        check_row(&rt, &RepeatedRow { row: None, len: 1 }, 0, 257);
        check_row(
            &rt,
            &RepeatedRow {
                row: Some(b""),
                len: 1,
            },
            0,
            256,
        );
        check_row(
            &rt,
            &RepeatedRow {
                row: Some(b"a"),
                len: 0,
            },
            0,
            258,
        );
    }

    #[test]
    fn join_of_joins(rt: HostRuntime) {
        let a = RepeatedRow {
            row: Some(b"a"),
            len: 1,
        };
        let n = RepeatedRow { row: None, len: 2 };
        let b = RepeatedRow {
            row: Some(b"b"),
            len: 1,
        };
        let left = Join::new(Join::new(a, n), b);
        let right = Join::new(a, Join::new(n, b));
        assert_eq!(rt; left.len(), 4);
        assert_eq!(rt; right.len(), 4);
        for (i, expected) in [97, 257, 257, 98, 258].iter().enumerate() {
            check_row(&rt, &left, i as u64, *expected);
            check_row(&rt, &right, i as u64, *expected);
        }
    }

    #[test]
    fn cut_at_the_most(rt: HostRuntime) {
        let a = RepeatedRow {
            row: Some(b"a"),
            len: u32::MAX,
        };
        let b = RepeatedRow {
            row: Some(b"b"),
            len: 3,
        };
        let long = Join::new(a, b);
        assert_eq!(rt; long.len(), u32::MAX);
        check_row(&rt, &long, 4_294_967_294, 97);
        check_row(&rt, &long, 4_294_967_295, 258);
        let other = Join::new(b, a);
        check_row(&rt, &other, 2, 98);
        check_row(&rt, &other, 4_294_967_294, 97);
        check_row(&rt, &other, 4_294_967_295, 258);
        check_row(&rt, &other, u64::MAX, 258);
    }
}
