// The listing of records: a tally line, then a line for each row; or the one line of a refusal.
ghost use Rattle.std.specs.Prelude.{◌≡◌, true};
ghost use Rattle.listing.specs.Errors.{is_memory};

use crate::records::{RECORD_BYTES, read_record};
use array::tally::Tally;
use array::view::VarBinArray;
use builder::builder::VarBinBuilder;
use builder::finished::{Finished, Validity};
use builder::memory::Memory;
use integers::slices::IntegerSlice;
use mask::mask::Mask;
use offsets::store::OffsetStore;
use offsets::widening::Offsets;
use refusal::Refusal;
use rows::row::RowRef;
use rows::source::RowSource;
use slots::dtype::DType;
use std::alloc::{AllocError, Global};
use std::fmt;
use std::fmt::Write;
use thiserror::Error;

// What the listing's column holds.
const NULLABLE_TEXT: DType = DType {
    utf8: true,
    nullable: true,
};

// The heap bytes of 256 records.
pub const HEAP_BYTES: usize = 3584;

// Why there is no listing: a record or a row was refused, or there was no memory for it.
#[derive(Clone, Copy, Debug, Error)]
pub enum ListingError {
    #[error("record {entry} refused {number}", number = .refusal.number())]
    Record { entry: u64, refusal: Refusal },
    #[error("row {entry} refused {number}", number = .refusal.number())]
    Row { entry: u64, refusal: Refusal },
    #[error("no memory")]
    Memory(#[from(alloc)] AllocError),
}

// Written by hand: what is derived converts from a failed allocation only.
impl From<fmt::Error> for ListingError {
    ghost from_gives = { λ _e error. is_memory error ≡ true };

    fn from(_e: fmt::Error) -> ListingError {
        ListingError::Memory(AllocError)
    }
}

// Appends the row of each record.
fn append_records<S: OffsetStore>(
    builder: &mut VarBinBuilder,
    memory: &mut Memory<'_, S>,
    input: &[u8],
) -> Result<(), ListingError> {
    for (i, record) in input.chunks(RECORD_BYTES).enumerate() {
        let entry = i as u64;
        let refused = |refusal| ListingError::Record { entry, refusal };
        let appended = match read_record(entry, record).map_err(refused)? {
            Some(value) => builder.append_value(memory, value),
            None => builder.push_nulls(memory, 1),
        };
        appended.map_err(refused)?;
    }
    Ok(())
}

// Builds a column of nullable text from the records. Store, heap and bits come apart, as making takes them.
fn build<S: OffsetStore>(
    store: &mut S,
    heap: &mut [u8],
    bits: &mut [u8],
    input: &[u8],
) -> Result<Finished, ListingError> {
    let mut builder = VarBinBuilder::new(NULLABLE_TEXT, store, heap, bits).map_err(
        |refusal| ListingError::Record { entry: 0, refusal },
    )?;
    let mut memory = Memory { store, heap, bits };
    match append_records(&mut builder, &mut memory, input) {
        Ok(()) => Ok(builder.finish()),
        Err(error) => {
            let _ = builder.discard();
            Err(error)
        }
    }
}

fn write_row(text: &mut String, i: u32, row: RowRef<'_>) -> Result<(), ListingError> {
    match row {
        None => writeln!(text, "{i} null")?,
        Some(bytes) => {
            write!(text, "{i} value")?;
            if !bytes.is_empty() {
                text.push(' ')?;
            }
            for byte in bytes {
                write!(text, "{byte:02x}")?;
            }
            text.push('\n')?;
        }
    }
    Ok(())
}

// The text of the listing: the tally and the width of the offsets, then a line for each row.
fn write_listing<R: RowSource>(
    memory: Global,
    source: &R,
    tally: Tally,
    width: u32,
) -> Result<String, ListingError> {
    let Tally {
        rows,
        valid,
        bytes,
        longest,
        complete,
    } = tally;
    let mut text = String::new(memory);
    writeln!(
        text,
        "rows {rows} valid {valid} bytes {bytes} longest {longest} complete {complete} width {width}"
    )?;
    // by number, as a source tells its rows
    for i in 0..source.len() {
        if let Some(row) = source.row(i as u64) {
            write_row(&mut text, i, row)?;
        }
    }
    Ok(text)
}

// Opens the column as nullable text and lists it.
fn list_column<'a>(
    memory: Global,
    offsets: IntegerSlice<'a>,
    heap: &'a [u8],
    validity: Mask<'a>,
    width: u32,
) -> Result<String, ListingError> {
    let mut view = VarBinArray::empty();
    view.open(offsets, heap, Some(validity), NULLABLE_TEXT)
        .map_err(|refusal| ListingError::Row {
            entry: refusal.entry(),
            refusal,
        })?;
    let tally = view.tally();
    write_listing(memory, &view, tally, width)
}

// The listing of the records in `input`, over memory of a fixed size that is lent to the store and the builder.
pub fn list_fields(memory: Global, input: &[u8]) -> Result<String, ListingError> {
    let mut narrow = [0i32; 257];
    let mut wide = [0i64; 257];
    let mut heap = [0u8; HEAP_BYTES];
    let mut bits = [0u8; 32];
    let mut store = Offsets::new(&mut narrow, &mut wide);
    let finished = build(&mut store, &mut heap, &mut bits, input)?;
    list_store(memory, &store, &heap, &bits, finished)
}

// The validity of a finished column, over its bit bytes.
fn validity_mask<'a>(finished: Finished, bytes: &'a [u8]) -> Mask<'a> {
    match finished.validity {
        Validity::NonNullable | Validity::AllValid => Mask::new_true(finished.rows),
        Validity::AllInvalid => Mask::new_false(finished.rows),
        Validity::Bits => Mask::Values {
            len: finished.rows,
            bytes,
        },
    }
}

// Lists the finished column that a store, a heap and bits hold.
fn list_store<'a>(
    memory: Global,
    store: &'a Offsets<'a, i32>,
    heap: &'a [u8],
    bits: &'a [u8],
    finished: Finished,
) -> Result<String, ListingError> {
    let width = store.width();
    let validity = validity_mask(finished, bits);
    let used = (heap.len() as u64).min(finished.bytes) as usize;
    let heap = &heap[..used];
    let narrow = store.as_narrow().map(IntegerSlice::I32);
    let wide = store.as_wide().map(IntegerSlice::I64);
    let offsets = narrow.or(wide).unwrap_or(IntegerSlice::I32(&[]));
    list_column(memory, offsets, heap, validity, width)
}
