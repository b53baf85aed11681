// The check of a slice, in one pass.
ghost use Rattle.std.specs.Prelude.{◌≡◌, MatchResult};
ghost use Rattle.utf8.specs.Grammar.{ValidUtf8, FirstBad};
ghost use Rattle.utf8.specs.Reading.{first_fault, checked};
ghost use Rattle.utf8.specs.Laws.{RowsAsWritten, ReaderDecides};

use crate::reader::Utf8Reader;
use thiserror::Error;

// Bytes that are not UTF-8, and where the first bad character begins: as far as there they are valid.
#[derive(Clone, Copy, Debug, PartialEq, Eq, Error)]
#[error("not UTF-8 from byte {valid_up_to} on")]
pub struct Utf8Error {
    pub valid_up_to: u64,
}

// Accepts valid UTF-8; else tells where the first bad character begins.
pub fn validate_utf8(bytes: &[u8]) -> Result<(), Utf8Error>
    ensures value { checked result ≡ first_fault bytes.now }
    ensures grammar { MatchResult result (λ _. ValidUtf8 bytes.now) (λ e. FirstBad bytes.now e.valid_up_to × (ValidUtf8 bytes.now → ⊥)) }
    ensures decides { ReaderDecides }
    ensures written { RowsAsWritten }
{
    let mut reader = Utf8Reader::new();
    for (i, byte) in bytes.iter().enumerate() {
        reader.step(i as u64, *byte);
    }
    match reader.first_bad() {
        None => Ok(()),
        Some(valid_up_to) => Err(Utf8Error { valid_up_to }),
    }
}
