// A decoder that copies.
ghost use Rattle.std.specs.Prelude.{Some};

use crate::decoder::Decoder;

#[derive(Clone, Copy)]
pub struct CopyDecoder<'a> {
    pub bytes: &'a [u8],
}

impl Decoder for CopyDecoder<'_> {
    ghost means = { λ s. Some s.bytes.now };

    fn decode(&mut self, part: &mut [u8]) -> Option<u64> {
        let n = self.bytes.len();
        if n > part.len() {
            return None;
        }
        part[..n].copy_from_slice(self.bytes);
        Some(n as u64)
    }
}
