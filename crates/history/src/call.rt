// A call on a builder as a value: which one, with its arguments. A decoder stands in it by value, and a copy of it decodes.
use compute::gather::RunLengths;
use integers::slices::IntegerSlice;
use integers::unsigned::UnsignedSlice;
use mask::mask::Mask;
use refusal::Refusal;

#[derive(Clone, Copy)]
pub enum Call<'a, R, D> {
    AppendValue {
        value: &'a [u8],
    },
    AppendNValues {
        value: &'a [u8],
        n: u64,
    },
    PushNulls {
        n: u64,
    },
    AppendValues {
        values: &'a [u8],
        ends: IntegerSlice<'a>,
        validity: Mask<'a>,
    },
    AppendDecoded {
        num_bytes: u64,
        slack: u64,
        lengths: IntegerSlice<'a>,
        validity: Mask<'a>,
        decoder: D,
    },
    Take {
        source: &'a R,
        indices: IntegerSlice<'a>,
        validity: Mask<'a>,
    },
    GatherSlices {
        source: &'a R,
        starts: UnsignedSlice<'a>,
        lengths: RunLengths<'a>,
        declared: u64,
    },
    Filter {
        source: &'a R,
        mask: Mask<'a>,
    },
}

// What came of a call.
pub type Outcome = Result<(), Refusal>;
