// Numbers of the eight kinds at their least and greatest, and the searches over them.
#![tactic(auto)]

#[cfg(test)]
mod tests {
    use integers::slices::IntegerSlice;
    use integers::unsigned::UnsignedSlice;
    use mask::mask::Mask;
    use ptype::native::*;
    use std::process::Abort;
    use std::test::Fail;

    // The least number (none where it is negative), the greatest, and none past the end.
    fn ends(rt: &impl Abort, slice: IntegerSlice<'_>, least: Option<u64>, greatest: u64) {
        assert_eq!(rt; slice.len(), 2);
        assert_eq!(rt; slice.get(0), least);
        assert_eq!(rt; slice.get(1), Some(greatest));
        assert_eq!(rt; slice.get(2), None);
        assert_eq!(rt; slice.get(u64::MAX), None);
    }

    #[test]
    fn least_and_greatest(rt: HostRuntime) {
        ends(&rt, IntegerSlice::U8(&[0, u8::MAX]), Some(0), 255);
        ends(&rt, IntegerSlice::U16(&[0, u16::MAX]), Some(0), 65_535);
        ends(
            &rt,
            IntegerSlice::U32(&[0, u32::MAX]),
            Some(0),
            4_294_967_295,
        );
        ends(
            &rt,
            IntegerSlice::U64(&[0, u64::MAX]),
            Some(0),
            18_446_744_073_709_551_615,
        );
        ends(&rt, IntegerSlice::I8(&[i8::MIN, i8::MAX]), None, 127);
        ends(&rt, IntegerSlice::I16(&[i16::MIN, i16::MAX]), None, 32_767);
        ends(
            &rt,
            IntegerSlice::I32(&[i32::MIN, i32::MAX]),
            None,
            2_147_483_647,
        );
        ends(
            &rt,
            IntegerSlice::I64(&[i64::MIN, i64::MAX]),
            None,
            9_223_372_036_854_775_807,
        );
    }

    // A kind takes its greatest number and not the next one.
    fn takes<T: IntegerPType>(rt: &impl Abort, greatest: u64) -> Result<(), Fail> {
        assert_eq!(rt; T::max_value_as_u64(), greatest);
        assert!(rt; T::from_u64(greatest).is_some());
        assert!(rt; T::from_u64(0).is_some());
        match greatest.checked_add(1) {
            Some(next) => {
                assert!(rt; T::from_u64(next).is_none());
                Ok(())
            },
            None => Ok(()),
        }
    }

    #[test]
    fn made_from_numbers(rt: HostRuntime) -> Result<(), Fail> {
        takes::<u8>(&rt, 255)?;
        takes::<u16>(&rt, 65_535)?;
        takes::<u32>(&rt, 4_294_967_295)?;
        takes::<u64>(&rt, 18_446_744_073_709_551_615)?;
        takes::<i8>(&rt, 127)?;
        takes::<i16>(&rt, 32_767)?;
        takes::<i32>(&rt, 2_147_483_647)?;
        takes::<i64>(&rt, 9_223_372_036_854_775_807)
    }

    // The first index below the limit or not, under a mask of these bits.
    fn not_below<'a>(slice: IntegerSlice<'a>, bytes: &'a [u8], limit: u64) -> Option<u64> {
        slice.first_not_below(
            Mask::Values {
                len: slice.len(),
                bytes,
            },
            limit,
        )
    }

    #[test]
    fn searches(rt: HostRuntime) {
        assert_eq!(rt; not_below(IntegerSlice::I8(&[2, -1, 3]), &[7], 3), Some(1));
        assert_eq!(rt; not_below(IntegerSlice::I8(&[2, -1, 3]), &[5], 3), Some(2));
        assert_eq!(rt; not_below(IntegerSlice::I8(&[2, -1, 3]), &[1], 3), None);
        assert_eq!(rt; IntegerSlice::U8(&[0, 2, 2, 7]).first_fall(0, 7), None);
        assert_eq!(rt; IntegerSlice::U8(&[0, 2, 1, 9]).first_fall(0, 7), Some(2));
        assert_eq!(rt; IntegerSlice::U8(&[0, 2, 2, 8]).first_fall(0, 7), Some(3));
        assert_eq!(rt; IntegerSlice::I16(&[-1]).first_fall(0, 7), Some(0));
        assert_eq!(rt; IntegerSlice::U8(&[1]).first_fall(2, 7), Some(0));
        assert_eq!(rt; IntegerSlice::U8(&[1, 2]).first_overrun(3), None);
        assert_eq!(rt; IntegerSlice::U8(&[1, 2]).first_overrun(2), Some(1));
        assert_eq!(rt; IntegerSlice::I8(&[1, -2]).first_overrun(9), Some(1));
        assert_eq!(rt; IntegerSlice::I8(&[1, -2, 4]).total(), Some(5));
        assert_eq!(rt; IntegerSlice::U64(&[u64::MAX]).total(), Some(u64::MAX));
        assert_eq!(rt; IntegerSlice::U64(&[u64::MAX, 1]).total(), None);
        assert_eq!(rt;
            IntegerSlice::from(UnsignedSlice::U16(&[1, 65_535])).total(),
            Some(65_536)
        );
    }
}
