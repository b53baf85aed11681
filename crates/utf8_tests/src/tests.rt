// The tests: every short input, the bounds of each row, and texts that are given with their answers.
use crate::prose::first_wrong;
use std::process::Abort;
use utf8::reader::Utf8Reader;
use utf8::validate::validate_utf8;

// Where the check finds the first bad character.
fn first_bad(bytes: &[u8]) -> Option<u64> {
    validate_utf8(bytes).err().map(|e| e.valid_up_to)
}

// The check and the prose answer alike.
fn agrees(rt: &impl Abort, bytes: &[u8]) {
    assert_eq!(rt; first_bad(bytes), first_wrong(bytes));
}

fn good(rt: &impl Abort, bytes: &[u8]) {
    assert_eq!(rt; first_bad(bytes), None);
    agrees(rt, bytes);
}

fn bad(rt: &impl Abort, bytes: &[u8], place: u64) {
    assert_eq!(rt; first_bad(bytes), Some(place));
    agrees(rt, bytes);
}

#[test]
fn one_and_two_bytes(rt: HostRuntime) {
    agrees(&rt, &[]);
    for a in 0..=u8::MAX {
        agrees(&rt, &[a]);
        for b in 0..=u8::MAX {
            agrees(&rt, &[a, b]);
        }
    }
}

// Every lead, with each bound of a second byte and of a tail byte, and its neighbour outside.
#[test]
fn three_and_four_bytes(rt: HostRuntime) {
    let tails = [0x00, 0x7F, 0x80, 0xBF, 0xC0, 0xFF];
    for a in 0..=u8::MAX {
        for b in [0x00, 0x7F, 0x80, 0x8F, 0x90, 0x9F, 0xA0, 0xBF, 0xC0, 0xFF] {
            for c in tails {
                agrees(&rt, &[a, b, c]);
                for d in tails {
                    agrees(&rt, &[a, b, c, d]);
                }
            }
        }
    }
}

#[test]
fn bounds_of_rows(rt: HostRuntime) {
    good(&rt, &[0x00, 0x7F]);
    good(&rt, &[0xC2, 0x80, 0xDF, 0xBF]);
    good(&rt, &[0xE0, 0xA0, 0x80, 0xE0, 0xBF, 0xBF]);
    good(&rt, &[0xE1, 0x80, 0x80, 0xEC, 0xBF, 0xBF]);
    good(&rt, &[0xED, 0x80, 0x80, 0xED, 0x9F, 0xBF]);
    good(&rt, &[0xEE, 0x80, 0x80, 0xEF, 0xBF, 0xBF]);
    good(&rt, &[0xF0, 0x90, 0x80, 0x80, 0xF0, 0xBF, 0xBF, 0xBF]);
    good(&rt, &[0xF1, 0x80, 0x80, 0x80, 0xF3, 0xBF, 0xBF, 0xBF]);
    good(&rt, &[0xF4, 0x80, 0x80, 0x80, 0xF4, 0x8F, 0xBF, 0xBF]);
}

// Longer forms than are needed, surrogates, code points above U+10FFFF, and bytes that begin no character.
#[test]
fn not_characters(rt: HostRuntime) {
    bad(&rt, &[0xC0, 0x80], 0);
    bad(&rt, &[0x41, 0xC1, 0xBF], 1);
    bad(&rt, &[0x41, 0xE0, 0x9F, 0xBF], 1);
    bad(&rt, &[0xC2, 0xB5, 0xF0, 0x8F, 0xBF, 0xBF], 2);
    bad(&rt, &[0xED, 0xA0, 0x80], 0);
    bad(&rt, &[0xED, 0xBF, 0xBF, 0x41], 0);
    bad(&rt, &[0x41, 0xF4, 0x90, 0x80, 0x80], 1);
    bad(&rt, &[0x41, 0x80], 1);
    bad(&rt, &[0xF5, 0x80, 0x80, 0x80], 0);
    bad(&rt, &[0x41, 0x42, 0xFF, 0xC0], 2);
}

// A character that is cut off is bad at its lead byte.
#[test]
fn cut_short(rt: HostRuntime) {
    bad(&rt, &[0x41, 0xC2], 1);
    bad(&rt, &[0x41, 0xE2], 1);
    bad(&rt, &[0x41, 0xE2, 0x89], 1);
    bad(&rt, &[0xC2, 0xB5, 0xF0], 2);
    bad(&rt, &[0xC2, 0xB5, 0xF0, 0xA3], 2);
    bad(&rt, &[0xC2, 0xB5, 0xF0, 0xA3, 0x8E], 2);
    bad(&rt, &[0xE2, 0x89, 0x41, 0x41], 0);
}

// The examples of RFC 3629, section 7, and a heap of several strings.
#[test]
fn given_texts(rt: HostRuntime) {
    good(&rt, &[0x41, 0xE2, 0x89, 0xA2, 0xCE, 0x91, 0x2E]);
    good(&rt, &[0xED, 0x95, 0x9C, 0xEA, 0xB5, 0xAD, 0xEC, 0x96, 0xB4]);
    good(&rt, &[0xE6, 0x97, 0xA5, 0xE6, 0x9C, 0xAC, 0xE8, 0xAA, 0x9E]);
    good(&rt, &[0xEF, 0xBB, 0xBF, 0xF0, 0xA3, 0x8E, 0xB4]);
    good(&rt, &[0x47, 0x37, 0x58, 0x58, 0xC2, 0xB5, 0x6D]);
}

// The reader byte by byte: within a character, at its end, and past a bad byte.
#[test]
fn reader_by_bytes(rt: HostRuntime) {
    let mut reader = Utf8Reader::new();
    assert_eq!(rt; reader.first_bad(), None);
    reader.step(0, 0x6D);
    reader.step(1, 0xC2);
    assert_eq!(rt; reader.first_bad(), Some(1));
    reader.step(2, 0xB5);
    assert_eq!(rt; reader.first_bad(), None);
    reader.step(3, 0xB5);
    reader.step(4, 0x6D);
    assert_eq!(rt; reader.first_bad(), Some(3));
}
