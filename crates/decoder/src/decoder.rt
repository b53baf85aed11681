// The interface of a decoder: a list of bytes, or a fault.
ghost use Rattle.std.specs.Prelude.{◌≡◌, ℕ, List, length, Option as Maybe};
ghost use Rattle.decoder.specs.Decoding.{decode_answer, Begins};

pub trait Decoder {
    ghost means: { Self → Maybe (List ℕ) };

    // Writes the list at the front of the part and tells its length; refuses on a fault, or where the part is shorter.
    fn decode(&mut self, part: &mut [u8]) -> Option<u64>
        ensures answer { result ≡ decode_answer (means self.old) (length part.old) }
        ensures written { Begins (means self.old) result part.new }
        ensures kept { means self.new ≡ means self.old };
}
