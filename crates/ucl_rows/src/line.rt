//! What a line says: the row on it, as the crate `csv` reads in its default dialect, or nothing. A line with more than 256 bytes before its
//! end is not read, and counts as one of several rows. In contracts `said_on` is what a line says.

ghost use Rattle.std.specs.Prelude.{◌≡◌, ◌+◌, ◌≤◌, ◌∷◌, [], ◌++◌, IfErr, IfOk, IfSome, IsSome, false, length, true};
ghost use Rattle.csv.specs.Reading.{default_config, records};
ghost use Rattle.ucl_screen.specs.PlainRows.{has_quote};
ghost use Rattle.ucl_screen.specs.Rows.{four_seen, rows_of};
ghost use Rattle.ucl_rows.specs.Rows.{Row, fits, line_seen, of_rows, rows_on, said_on};

use arrayvec::ArrayVec;
use csv::ByteRecord;
use std::alloc::{AllocError, Global};
use ucl_screen::{
    FirstRow, Four, RowFields, first_row, four_fields, next_row, open_rows, without_mark,
};

/// The most bytes of a line before its end.
const MAX_ROW_BYTES: usize = 256;

/// The most bytes that are read of a line: 256, and the two of its end.
pub const MAX_ROW_LINE_BYTES: usize = 258;

/// Returns whether a line, given without its line feed, has at most 256 bytes before its end, to which a last carriage return belongs.
fn fits(line: &[u8]) -> bool
    ensures value { result ≡ fits (line.now ++ 10 ∷ []) }
    ensures short { result ≡ true → length line.now ≤ 257 }
{
    let len = line.len();
    if len > 0 && line[len - 1] == b'\r' {
        len <= MAX_ROW_BYTES + 1
    } else {
        len <= MAX_ROW_BYTES
    }
}

/// Returns what a text, given without its line feed, says: `Some(None)` if it has no row, `None` if only `csv` can read one of its rows.
fn plain_text(text: &[u8]) -> Option<Option<RowFields<'_>>>
    ensures said { IfSome result (λ said.
        line_seen said ≡ of_rows (records default_config (text.now ++ 10 ∷ []))) }
    ensures plain { has_quote text.now ≡ false → IsSome result }
{
    match first_row(text) {
        FirstRow::None => Some(None),
        FirstRow::Four(four, rest) => match first_row(rest) {
            FirstRow::None => Some(Some(RowFields::Four(four))),
            FirstRow::Four(_, _) | FirstRow::Other => Some(Some(RowFields::Other)),
            FirstRow::Unread => None,
        },
        FirstRow::Other => Some(Some(RowFields::Other)),
        FirstRow::Unread => None,
    }
}

/// Returns the fields of the line with this number, if it is a row of four fields that lie in the line as they are, also in quotes. For any
/// other line, and for line 1, which may begin with a byte order mark, the answer is `None`.
pub fn plain_row(row: u64, line: &[u8]) -> Option<Four<'_>>
    ensures { IfSome result (λ four. said_on row line.now ≡ Row (four_seen four)) }
{
    if row > 1 && fits(line) {
        if let Some(Some(RowFields::Four(four))) = plain_text(line) {
            return Some(four);
        }
    }
    None
}

/// Returns the line with this number, given without its line feed, without the byte order mark that line 1 may begin with.
fn unmarked(row: u64, line: &[u8]) -> &[u8]
    ensures rows { rows_on row (line.now ++ 10 ∷ []) ≡ records default_config (result.now ++ 10 ∷ []) }
    ensures plain { has_quote line.now ≡ false → has_quote result.now ≡ false }
{
    if row == 1 { without_mark(line) } else { line }
}

/// Joins `before`, a line and a line feed.
fn fed(before: &[u8], line: &[u8]) -> ArrayVec<u8, 259>
    requires { length before.now + length line.now ≤ 258 }
    ensures { result.items ≡ (before.now ++ line.now) ++ 10 ∷ [] }
{
    let mut text = ArrayVec::new();
    let _room = text.try_extend_from_slice(before);
    let _room = text.try_extend_from_slice(line);
    text.push(b'\n');
    text
}

/// Returns what a text says, as `csv` reads its rows, the first into `record`; `None` if it has no row. It fails only without memory.
fn read_text<'a>(
    alloc: Global,
    text: &[u8],
    record: &'a mut ByteRecord,
) -> Result<Option<RowFields<'a>>, AllocError>
    ensures { IfOk result (λ said. line_seen said ≡ of_rows (rows_of text.now)) }
{
    let mut rows = open_rows(alloc, text);
    if !next_row(&mut rows, record)? {
        return Ok(None);
    }
    let mut other = ByteRecord::new(alloc);
    if next_row(&mut rows, &mut other)? {
        return Ok(Some(RowFields::Other));
    }
    match four_fields(record) {
        Some(four) => Ok(Some(RowFields::Four(four))),
        None => Ok(Some(RowFields::Other)),
    }
}

/// Returns what the line with this number says, given without its line feed, as `csv` reads it into `record`; `None` if it has no row.
///
/// # Errors
///
/// If there is no memory. Only a line needs any in which a field begins with a quote and `csv` has to read it: another quote is within, none
/// closes it, or something else than a comma or the end of the line is behind it.
#[tactic(auto, using(ucl_screen::proofs::PlainRows::rows_after_feed), unfolding(crate::specs::Rows::said_by_text))]
pub fn read_row<'a>(
    alloc: Global,
    row: u64,
    line: &'a [u8],
    record: &'a mut ByteRecord,
) -> Result<Option<RowFields<'a>>, AllocError>
    ensures said { IfOk result (λ said. line_seen said ≡ said_on row line.now) }
    ensures memory { IfErr result
        (λ _. (fits (line.now ++ 10 ∷ []) ≡ true) × (has_quote line.now ≡ true)) }
{
    if !fits(line) {
        return Ok(Some(RowFields::Other));
    }
    if let Some(said) = plain_text(unmarked(row, line)) {
        return Ok(said);
    }
    if row == 1 {
        let text = fed(b"".as_slice(), line);
        return read_text(alloc, text.as_slice(), record);
    }
    // A line feed before it, since a byte order mark counts in line 1 alone.
    let text = fed(b"\n".as_slice(), line);
    read_text(alloc, text.as_slice(), record)
}
