// Reading one record: a row, or malformed.
ghost use Rattle.std.specs.Prelude.{◌≡◌, Some, None, MatchResult};
ghost use Rattle.std.specs.Option.{option_map};
ghost use Rattle.refusal.specs.Refusals.{code, code_of};
ghost use Rattle.slots.specs.Rows.{row_of};
ghost use Rattle.listing.specs.Records.{all_zero, record_row};

use refusal::Refusal;

pub const RECORD_BYTES: usize = 16;

// The longest value that a record holds.
pub const MOST_VALUE_BYTES: u8 = 14;

fn all_zero(bytes: &[u8]) -> bool
    ensures { result ≡ all_zero bytes.now }
{
    bytes.iter().all(|b| *b == 0)
}

// The row of record `entry`: its bytes, or none for a null; refused where it is short or malformed.
pub fn read_record(entry: u64, bytes: &[u8]) -> Result<Option<&[u8]>, Refusal>
    ensures { MatchResult result (λ o. record_row bytes.now ≡ Some (row_of (option_map (λ x. x.now) o))) (λ e. (record_row bytes.now ≡ None) × (code_of e ≡ code 19 entry 0)) }
{
    if bytes.len() != RECORD_BYTES {
        return Err(Refusal::MalformedRecord { entry });
    }
    let kind = bytes[0];
    let len = bytes[1];
    if len > MOST_VALUE_BYTES {
        return Err(Refusal::MalformedRecord { entry });
    }
    let end = 2 + len as usize;
    if !all_zero(&bytes[end..]) {
        return Err(Refusal::MalformedRecord { entry });
    }
    if kind == 1 {
        Ok(Some(&bytes[2..end]))
    } else if kind == 0 && len == 0 {
        Ok(None)
    } else {
        Err(Refusal::MalformedRecord { entry })
    }
}
