// The nine rows of RFC 3629's syntax: lead bytes, bounds of the second byte, and how many bytes follow the lead.
#[derive(Clone, Copy)]
pub struct Lead {
    pub first: u8,
    pub last: u8,
    pub low: u8,
    pub high: u8,
    pub tails: u8,
}

pub const ROWS: [Lead; 9] = [
    Lead {
        first: 0x00,
        last: 0x7F,
        low: 0x80,
        high: 0xBF,
        tails: 0,
    },
    Lead {
        first: 0xC2,
        last: 0xDF,
        low: 0x80,
        high: 0xBF,
        tails: 1,
    },
    Lead {
        first: 0xE0,
        last: 0xE0,
        low: 0xA0,
        high: 0xBF,
        tails: 2,
    },
    Lead {
        first: 0xE1,
        last: 0xEC,
        low: 0x80,
        high: 0xBF,
        tails: 2,
    },
    Lead {
        first: 0xED,
        last: 0xED,
        low: 0x80,
        high: 0x9F,
        tails: 2,
    },
    Lead {
        first: 0xEE,
        last: 0xEF,
        low: 0x80,
        high: 0xBF,
        tails: 2,
    },
    Lead {
        first: 0xF0,
        last: 0xF0,
        low: 0x90,
        high: 0xBF,
        tails: 3,
    },
    Lead {
        first: 0xF1,
        last: 0xF3,
        low: 0x80,
        high: 0xBF,
        tails: 3,
    },
    Lead {
        first: 0xF4,
        last: 0xF4,
        low: 0x80,
        high: 0x8F,
        tails: 3,
    },
];
