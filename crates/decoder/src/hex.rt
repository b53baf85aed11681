// A decoder of hexadecimal digits, in either case.
ghost use Rattle.std.specs.Prelude.{◌≡◌, ◌<◌, IfSome};
ghost use Rattle.decoder.specs.Hexadecimal.{digit_value, hex_bytes};

use crate::decoder::Decoder;

#[derive(Clone, Copy)]
pub struct HexDecoder<'a> {
    pub digits: &'a [u8],
}

// The value of a digit, which is below 16.
pub fn digit_value(digit: u8) -> Option<u8>
    ensures value { result ≡ digit_value digit }
    ensures bound { IfSome result (λ v. v < 16) }
{
    match digit {
        b'0'..=b'9' => Some(digit - b'0'),
        b'A'..=b'F' => Some(digit - b'A' + 10),
        b'a'..=b'f' => Some(digit - b'a' + 10),
        _ => None,
    }
}

impl Decoder for HexDecoder<'_> {
    ghost means = { λ s. hex_bytes s.digits.now };

    fn decode(&mut self, part: &mut [u8]) -> Option<u64> {
        let (pairs, rest) = self.digits.as_chunks::<2>();
        if !rest.is_empty() || pairs.len() > part.len() {
            return None;
        }
        // written by number: what a `zip` over `iter_mut` leaves behind is not followed by the check
        for (i, [first, second]) in pairs.iter().enumerate() {
            let high = digit_value(*first)?;
            let low = digit_value(*second)?;
            part[i] = high * 16 + low;
        }
        Some(pairs.len() as u64)
    }
}
