//! The rows of an input, as the crate `csv` reads its records. In contracts `rows_left` is the list of the rows that a reader of `csv` has
//! not read yet, and `rows_ahead` that of the rows of an input.

ghost use Rattle.std.specs.Prelude.{◌≡◌, ◌≤◌, length, option_map, IfOk, IsSome, true};
ghost use Rattle.csv.specs.Records.{fields_of};
ghost use Rattle.ucl_screen.specs.Rows.{IsReading, ReadsRow, four_of, four_seen, rows_left, rows_of};
ghost use Rattle.ucl_screen.specs.RowsAhead.{IsOpen, ReadsNext, rows_ahead};

use crate::plain::{FirstRow, first_row, without_mark};
use csv::{ByteRecord, Reader, ReaderBuilder};
use std::alloc::{AllocError, Global};

/// The four fields of a row, borrowed from it.
#[derive(Clone, Copy)]
pub struct Four<'a> {
    /// The first field.
    pub first: &'a [u8],
    /// The second field.
    pub second: &'a [u8],
    /// The third field.
    pub third: &'a [u8],
    /// The fourth field.
    pub fourth: &'a [u8],
}

/// The fields of a row.
#[derive(Clone, Copy)]
pub enum RowFields<'a> {
    /// These four fields.
    Four(Four<'a>),
    /// Fewer fields, or more.
    Other,
}

/// Creates a reader of the rows of a text. The first row is no heading, and rows may have any number of fields.
#[tactic(auto, using(crate::proofs::RowFacts::few_rows), unfolding(crate::specs::Rows::rows_from))]
pub fn open_rows(alloc: Global, text: &[u8]) -> Reader<&[u8]>
    ensures reading { IsReading result }
    ensures rows { rows_left result ≡ rows_of text.now }
    ensures few { length (rows_left result) ≤ length text.now }
{
    ReaderBuilder::new()
        .has_headers(false)
        .flexible(true)
        .from_reader(alloc, text)
}

/// Reads the next row into `row` and returns true, or returns false if there is none. It fails only if an allocation is refused.
pub fn next_row(rows: &mut Reader<&[u8]>, row: &mut ByteRecord) -> Result<bool, AllocError>
    requires { IsReading rows.old }
    ensures reading { IfOk result (λ found. found ≡ true → IsReading rows.new) }
    ensures reads { IfOk result
        (λ found. ReadsRow found (rows_left rows.old) (fields_of row.new) (rows_left rows.new)) }
{
    let Ok(found) = rows.read_byte_record(row) else {
        return Err(AllocError);
    };
    Ok(found)
}

/// Returns the four fields of a row, or `None` if it has more or fewer.
#[tactic(auto, using(crate::proofs::RowFacts::four_by))]
pub fn four_fields(row: &ByteRecord) -> Option<Four<'_>>
    ensures { option_map four_seen result ≡ four_of (fields_of row.now) }
{
    let first = row.get(0)?;
    let second = row.get(1)?;
    let third = row.get(2)?;
    let fourth = row.get(3)?;
    match row.get(4) {
        Some(_) => None,
        None => Some(Four {
            first,
            second,
            third,
            fourth,
        }),
    }
}

/// Reads the next row by `csv` into `record`; `None` if there is none.
fn next_by_csv<'r>(
    rows: &mut Reader<&[u8]>,
    record: &'r mut ByteRecord,
) -> Result<Option<RowFields<'r>>, AllocError>
    requires { IsReading rows.old }
    ensures reading { IfOk result (λ row. IsSome row → IsReading rows.new) }
    ensures reads { IfOk result (λ row. ReadsNext row (rows_left rows.old) (rows_left rows.new)) }
{
    if !next_row(rows, record)? {
        return Ok(None);
    }
    match four_fields(record) {
        Some(four) => Ok(Some(RowFields::Four(four))),
        None => Ok(Some(RowFields::Other)),
    }
}

/// The rows of an input that are ahead. They are read where they lie, up to the first that only `csv` can read, and from there on by `csv`.
#[derive(Drop)]
pub(crate) enum Rows<'a> {
    /// The rows of this text.
    Plain(&'a [u8]),
    /// The rows that this reader has left.
    Csv(Reader<&'a [u8]>),
}

impl<'a> Rows<'a> {
    /// Reads the first row of a text by a new reader of `csv`, which reads the later rows too from then on; `None` if there is no row. It is kept
    /// out of line, since a reader takes many bytes of the stack. Open are rows of which the next can be read.
    #[cold]
    #[inline(never)]
    fn first_by_csv<'r>(
        &mut self,
        alloc: Global,
        text: &'a [u8],
        record: &'r mut ByteRecord,
    ) -> Result<Option<RowFields<'r>>, AllocError>
    where
        'a: 'r,
        ensures open { IfOk result (λ row. IsSome row → IsOpen self.new) }
        ensures reads { IfOk result (λ row. ReadsNext row (rows_of text.now) (rows_ahead self.new)) }
    {
        let mut reader = open_rows(alloc, text);
        let row = next_by_csv(&mut reader, record)?;
        *self = Rows::Csv(reader);
        Ok(row)
    }

    /// Reads the next row, by `csv` into `record`; `None` if there is none. It fails only if an allocation is refused.
    pub fn next<'r>(
        &mut self,
        alloc: Global,
        record: &'r mut ByteRecord,
    ) -> Result<Option<RowFields<'r>>, AllocError>
    where
        'a: 'r,
        requires { IsOpen self.old }
        ensures open { IfOk result (λ row. IsSome row → IsOpen self.new) }
        ensures reads { IfOk result (λ row. ReadsNext row (rows_ahead self.old) (rows_ahead self.new)) }
    {
        match self {
            Rows::Plain(text) => match first_row(without_mark(*text)) {
                FirstRow::None => Ok(None),
                FirstRow::Four(four, rest) => {
                    *text = rest;
                    Ok(Some(RowFields::Four(four)))
                }
                FirstRow::Other | FirstRow::Unread => {
                    let text = *text;
                    self.first_by_csv(alloc, text, record)
                }
            },
            Rows::Csv(reader) => next_by_csv(reader, record),
        }
    }
}
