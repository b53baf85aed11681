// UTF-8 by the prose of RFC 3629, section 3, with no table: octets by the lead's high bits, then the code point's range.
ghost use Rattle.std.specs.Prelude.{◌<◌};

// How many octets the character has that begins with this one, or none if no character does.
fn octets(lead: u8) -> usize {
    if lead & 0x80 == 0 {
        1
    } else if lead & 0xE0 == 0xC0 {
        2
    } else if lead & 0xF0 == 0xE0 {
        3
    } else if lead & 0xF8 == 0xF0 {
        4
    } else {
        0
    }
}

fn continues(octet: u8) -> bool {
    octet & 0xC0 == 0x80
}

fn low_bits(octet: u8, mask: u8) -> u32
    ensures { result < 256 }
{
    (octet & mask) as u32
}

// No surrogate, no longer form than is needed, and at most U+10FFFF.
fn in_range(code: u32, least: u32) -> bool {
    least <= code && code <= 0x10FFFF && !(0xD800 <= code && code <= 0xDFFF)
}

// Are these octets one character? The lead's high bits say how many there are.
fn is_character(c: &[u8]) -> bool {
    match c {
        [a] => octets(*a) == 1,
        [a, b] => {
            octets(*a) == 2
                && continues(*b)
                && in_range(low_bits(*a, 0x1F) * 64 + low_bits(*b, 0x3F), 0x80)
        }
        [a, b, c] => {
            let code = low_bits(*a, 0x0F) * 4096 + low_bits(*b, 0x3F) * 64 + low_bits(*c, 0x3F);
            octets(*a) == 3 && continues(*b) && continues(*c) && in_range(code, 0x800)
        }
        [a, b, c, d] => {
            let code = low_bits(*a, 0x07) * 262144
                + low_bits(*b, 0x3F) * 4096
                + low_bits(*c, 0x3F) * 64
                + low_bits(*d, 0x3F);
            octets(*a) == 4
                && continues(*b)
                && continues(*c)
                && continues(*d)
                && in_range(code, 0x10000)
        }
        _ => false,
    }
}

// Where the first character begins that is none, if there is one.
pub(crate) fn first_wrong(bytes: &[u8]) -> Option<u64> {
    let mut at = 0;
    // by place, since each step is as long as the character
    while at < bytes.len() {
        let n = octets(bytes[at]);
        if n == 0 || n > bytes.len() - at || !is_character(&bytes[at..at + n]) {
            return Some(at as u64);
        }
        at += n;
    }
    None
}
