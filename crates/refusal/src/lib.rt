// The refusals: why a call was turned down, with the place where a rule names one. Shown to people, a refusal is its number, the rule, and the place.
#![tactic(auto)]

ghost use Rattle.std.specs.Prelude.{◌≡◌};
ghost use Rattle.refusal.specs.Refusals.{code_of};

use thiserror::Error;

#[derive(Clone, Copy, Debug, PartialEq, Eq, Error)]
pub enum Refusal {
    // 1: the store, heap or bit bytes are not as the builder left them
    #[error("refused {number}: the memory is not as the builder left it", number = self.number())]
    OtherMemory,
    // 2: more rows than the capacity
    #[error("refused {number}: more rows than the capacity", number = self.number())]
    RowsOverCapacity,
    // 3: more bytes than the heap has
    #[error("refused {number}: more bytes than the heap has", number = self.number())]
    BytesOverHeap,
    // 4: more bytes than the store's greatest offset
    #[error("refused {number}: more bytes than the greatest offset", number = self.number())]
    BytesOverTop,
    // 5: a null where there may be none
    #[error("refused {number}: a null where there may be none", number = self.number())]
    NullNotAllowed,
    // 6: two counts that have to agree differ, or a mask has too few bytes
    #[error("refused {number}: counts differ", number = self.number())]
    CountsDiffer,
    // 7: an end or a length that is negative, falls or runs past the bytes
    #[error("refused {number}: a bad end or length, entry {entry}", number = self.number())]
    BadEnd { entry: u64 },
    // 8: the parts do not add up to the whole that was told
    #[error("refused {number}: another total", number = self.number())]
    TotalDiffers,
    // 9: the decoder refused
    #[error("refused {number}: the decoder refused", number = self.number())]
    DecoderRefused,
    // 10: the decoder wrote another count of bytes
    #[error("refused {number}: the decoder wrote another count", number = self.number())]
    DecodedCountDiffers,
    // 11: a row that the source does not have
    #[error("refused {number}: a row that is not there, entry {entry}", number = self.number())]
    RowAbsent { entry: u64 },
    // 12: a mask that is not as long as the source
    #[error("refused {number}: a mask of another length", number = self.number())]
    MaskLengthDiffers,
    // 13: a store that holds an offset or has no free entry
    #[error("refused {number}: a store that is not fresh", number = self.number())]
    StoreNotFresh,
    // 14: more rows or heap bytes than the limits allow
    #[error("refused {number}: over a limit", number = self.number())]
    OverLimit,
    // 15: no offsets
    #[error("refused {number}: no offsets", number = self.number())]
    NoOffsets,
    // 16: validity that does not fit the rows or the nullability
    #[error("refused {number}: validity that does not fit", number = self.number())]
    ValidityMismatch,
    // 17: an offset that is negative, falls or leaves the heap
    #[error("refused {number}: a bad offset, entry {entry}", number = self.number())]
    BadOffset { entry: u64 },
    // 18: a row of text that is not UTF-8, and the heap place of its first bad character
    #[error("refused {number}: not UTF-8, row {entry}, byte {byte}", number = self.number())]
    NotUtf8 { entry: u64, byte: u64 },
    // 19: a record that is short or malformed
    #[error("refused {number}: a malformed record, entry {entry}", number = self.number())]
    MalformedRecord { entry: u64 },
}

impl Refusal {
    // The number of the rule, by a match: `as` reads no number of a variant that has fields.
    pub fn number(self) -> u8
        ensures { result ≡ (code_of self).number }
    {
        match self {
            Refusal::OtherMemory => 1,
            Refusal::RowsOverCapacity => 2,
            Refusal::BytesOverHeap => 3,
            Refusal::BytesOverTop => 4,
            Refusal::NullNotAllowed => 5,
            Refusal::CountsDiffer => 6,
            Refusal::BadEnd { .. } => 7,
            Refusal::TotalDiffers => 8,
            Refusal::DecoderRefused => 9,
            Refusal::DecodedCountDiffers => 10,
            Refusal::RowAbsent { .. } => 11,
            Refusal::MaskLengthDiffers => 12,
            Refusal::StoreNotFresh => 13,
            Refusal::OverLimit => 14,
            Refusal::NoOffsets => 15,
            Refusal::ValidityMismatch => 16,
            Refusal::BadOffset { .. } => 17,
            Refusal::NotUtf8 { .. } => 18,
            Refusal::MalformedRecord { .. } => 19,
        }
    }

    // The entry, row, run or record, 0 where the rule names none.
    pub fn entry(self) -> u64
        ensures { result ≡ (code_of self).entry }
    {
        match self {
            Refusal::BadEnd { entry }
            | Refusal::RowAbsent { entry }
            | Refusal::BadOffset { entry }
            | Refusal::NotUtf8 { entry, .. }
            | Refusal::MalformedRecord { entry } => entry,
            _ => 0,
        }
    }

    // The byte, 0 where the rule names none.
    pub fn byte(self) -> u64
        ensures { result ≡ (code_of self).byte }
    {
        match self {
            Refusal::NotUtf8 { byte, .. } => byte,
            _ => 0,
        }
    }
}

#[cfg(test)]
mod tests {
    use super::*;
    use std::alloc::Global;
    use std::process::Abort;
    use std::test::Fail;

    // The text of a refusal, compared.
    fn expect(rt: &impl Abort, heap: Global, refusal: Refusal, text: &str) -> Result<(), Fail> {
        assert_eq!(rt; refusal.to_string(heap)?.as_str(), text);
        Ok(())
    }

    #[test]
    fn displayed(rt: HostRuntime) -> Result<(), Fail> {
        let texts = [
            (
                Refusal::OtherMemory,
                "refused 1: the memory is not as the builder left it",
            ),
            (
                Refusal::RowsOverCapacity,
                "refused 2: more rows than the capacity",
            ),
            (
                Refusal::BytesOverHeap,
                "refused 3: more bytes than the heap has",
            ),
            (
                Refusal::BytesOverTop,
                "refused 4: more bytes than the greatest offset",
            ),
            (
                Refusal::NullNotAllowed,
                "refused 5: a null where there may be none",
            ),
            (Refusal::CountsDiffer, "refused 6: counts differ"),
            (
                Refusal::BadEnd { entry: 7 },
                "refused 7: a bad end or length, entry 7",
            ),
            (Refusal::TotalDiffers, "refused 8: another total"),
            (Refusal::DecoderRefused, "refused 9: the decoder refused"),
            (
                Refusal::DecodedCountDiffers,
                "refused 10: the decoder wrote another count",
            ),
            (
                Refusal::RowAbsent { entry: 3 },
                "refused 11: a row that is not there, entry 3",
            ),
            (
                Refusal::MaskLengthDiffers,
                "refused 12: a mask of another length",
            ),
            (
                Refusal::StoreNotFresh,
                "refused 13: a store that is not fresh",
            ),
            (Refusal::OverLimit, "refused 14: over a limit"),
            (Refusal::NoOffsets, "refused 15: no offsets"),
            (
                Refusal::ValidityMismatch,
                "refused 16: validity that does not fit",
            ),
            (
                Refusal::BadOffset { entry: 5 },
                "refused 17: a bad offset, entry 5",
            ),
            (
                Refusal::NotUtf8 { entry: 2, byte: 70 },
                "refused 18: not UTF-8, row 2, byte 70",
            ),
            (
                Refusal::MalformedRecord { entry: 255 },
                "refused 19: a malformed record, entry 255",
            ),
        ];
        for (refusal, text) in texts {
            expect(&rt, rt.alloc(), refusal, text)?;
        }
        Ok(())
    }
}
