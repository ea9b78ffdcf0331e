//! Scripts and sheets, read from a source. In contracts `gives` says that the result is the defined one unless memory ran out, and `kinds`
//! which faults there can be: `BadRow`, `BadRoster`, `TooLong` and `OutOfMemory`.

ghost use Rattle.std.specs.Prelude.{◌≡◌, ◌+◌, ◌≤◌, length, Some, option_map, IfErr, IfOk, OnOk};
ghost use Rattle.ucl_order.specs.Roster.{club_lent, club_seen};
ghost use Rattle.ucl_screen.specs.Input.{Reads, CallsRead, max_bytes};
ghost use Rattle.ucl_screen.specs.Rows.{four_seen, rows_of};
ghost use Rattle.ucl_screen.specs.RowsAhead.{IsOpen, rows_ahead};
ghost use Rattle.ucl_screen.specs.Events.{event_of};
ghost use Rattle.ucl_screen.specs.Script.{club_of, club_at, roster_at, events_from, first_event_row, word_of_row, words_from, night_of, night_of_rows, sheet_of_rows, IsFaultOfScript};
ghost use Rattle.ucl_screen.specs.Parsing.{AnswersAsSaid, MeansNight, MeansSheet, night_seen, sheet_seen};

use crate::fault::InputFault;
use crate::fields::{call_of_fields, hex_word, number, reporter_of_field};
use crate::night::Night;
use crate::rows::{Four, RowFields, Rows};
use crate::sheet::Sheet;
use crate::transfer::{MAX_INPUT_BYTES, read_all};
use csv::ByteRecord;
use std::alloc::{AllocError, Global};
use ucl_board::{Board, NightEvent};
use ucl_io::Source;
use ucl_order::{Club, LentClub, Roster};

/// The number of the first row of a script that is an event: rows 1 to 4 are clubs.
pub const FIRST_EVENT_ROW: u8 = 5;

/// Parses a club, whose name stays borrowed, from the four fields of row `row`, 1 to 4: `club`, the row, name, coefficient; else `None`.
pub fn lent_club<'f>(row: u8, fields: &Four<'f>) -> Option<LentClub<'f>>
    requires { row ≤ 9 }
    ensures { option_map club_lent result ≡ club_of row (four_seen fields.now) }
{
    if fields.first != b"club".as_slice() || fields.second != [b'0' + row].as_slice() {
        return None;
    }
    Some(LentClub {
        name: fields.third,
        coefficient: number(fields.fourth, 9)?,
    })
}

/// Parses a club from the four fields of row `row`, 1 to 4, and copies its name; `None` if they are no club. It fails only without memory.
pub fn club_of_fields(alloc: Global, row: u8, fields: &Four<'_>) -> Result<Option<Club>, AllocError>
    requires { row ≤ 9 }
    ensures { IfOk result (λ club. option_map club_seen club ≡ club_of row (four_seen fields.now)) }
{
    let Some(club) = lent_club(row, fields) else {
        return Ok(None);
    };
    Ok(Some(Club {
        name: Vec::from_slice(alloc, club.name)?,
        coefficient: club.coefficient,
    }))
}

/// Reads the next row, which has this number, 1 to 4, and parses its club. `BadRow` with the number, if the row is missing or is no club.
#[tactic(auto, unfolding(crate::specs::Script::club_at))]
fn club_at(alloc: Global, number: u8, rows: &mut Rows<'_>) -> Result<Club, InputFault>
    requires digit { number ≤ 9 }
    requires open { IsOpen rows.old }
    ensures open { OnOk result (IsOpen rows.new) }
    ensures shorter { OnOk result (length (rows_ahead rows.new) ≤ length (rows_ahead rows.old)) }
    ensures gives { AnswersAsSaid (λ club. (club_seen club, rows_ahead rows.new)) result
        (club_at number (rows_ahead rows.old)) }
    ensures kinds { IfErr result IsFaultOfScript }
{
    let bad = InputFault::BadRow {
        row: u32::from(number),
    };
    let mut record = ByteRecord::new(alloc);
    let Some(RowFields::Four(fields)) = rows.next(alloc, &mut record)? else {
        return Err(bad);
    };
    match club_of_fields(alloc, number, &fields)? {
        Some(club) => Ok(club),
        None => Err(bad),
    }
}

/// Reads the next four rows, which are rows 1 to 4, and makes the roster of their clubs. `BadRow` if one is missing or is no club,
/// `BadRoster` if a name or a coefficient is out of range.
#[tactic(auto, unfolding(crate::specs::Script::roster_at))]
fn roster_at(alloc: Global, rows: &mut Rows<'_>) -> Result<Roster, InputFault>
    requires { IsOpen rows.old }
    ensures open { OnOk result (IsOpen rows.new) }
    ensures shorter { OnOk result (length (rows_ahead rows.new) ≤ length (rows_ahead rows.old)) }
    ensures gives { AnswersAsSaid (λ roster. (roster, rows_ahead rows.new)) result
        (roster_at (rows_ahead rows.old)) }
    ensures kinds { IfErr result IsFaultOfScript }
{
    let first = club_at(alloc, 1, rows)?;
    let second = club_at(alloc, 2, rows)?;
    let third = club_at(alloc, 3, rows)?;
    let fourth = club_at(alloc, 4, rows)?;
    match Roster::new([first, second, third, fourth]) {
        Ok(roster) => Ok(roster),
        Err(bad) => Err(InputFault::BadRoster { slot: bad.slot }),
    }
}

/// Parses an event from four fields: reporter, match, expected event number and event word, such as `goal-home`; `None` if one is bad.
pub fn event_of_fields(fields: &Four<'_>) -> Option<NightEvent>
    ensures { result ≡ event_of (four_seen fields.now) }
{
    let reporter = reporter_of_field(fields.first)?;
    let call = call_of_fields(fields.second, fields.third, fields.fourth)?;
    Some(NightEvent { reporter, call })
}

/// Reads the rows that are left, which are those of a script from row 5 on, and parses their events. `BadRow` with the first row that is
/// no event.
fn events_at(alloc: Global, rows: &mut Rows<'_>) -> Result<Vec<NightEvent>, InputFault>
    requires open { IsOpen rows.old }
    requires few { length (rows_ahead rows.old) ≤ max_bytes }
    ensures gives { AnswersAsSaid (λ v. v.items) result
        (events_from first_event_row (rows_ahead rows.old)) }
    ensures kinds { IfErr result IsFaultOfScript }
    ensures few { IfOk result (λ v. length v.items ≤ max_bytes) }
{
    let mut record = ByteRecord::new(alloc);
    let mut events = Vec::new(alloc);
    let mut number = u32::from(FIRST_EVENT_ROW);
    'rows: while let Some(row) = rows.next(alloc, &mut record)? {
        let RowFields::Four(fields) = row else {
            return Err(InputFault::BadRow { row: number });
        };
        match event_of_fields(&fields) {
            None => return Err(InputFault::BadRow { row: number }),
            Some(event) => events.push(event)?,
        }
        number += 1;
    }
    Ok(events)
}

/// Parses a script: clubs in rows 1 to 4, and then a row for each event. An error is the first fault of a row or a club, or `OutOfMemory`.
#[tactic(auto, using(crate::proofs::RowFacts::few_rows), unfolding(crate::specs::Script::night_of_rows))]
fn night_of(alloc: Global, text: &[u8]) -> Result<Night, InputFault>
    requires { length text.now ≤ max_bytes }
    ensures gives { AnswersAsSaid night_seen result (night_of_rows (rows_of text.now)) }
    ensures kinds { IfErr result IsFaultOfScript }
    ensures few { IfOk result (λ night. length night.events.items ≤ max_bytes) }
{
    let mut rows = Rows::Plain(text);
    let roster = roster_at(alloc, &mut rows)?;
    let events = events_at(alloc, &mut rows)?;
    Ok(Night { roster, events })
}

/// Parses a script that lies in memory. The script, or its first fault, is what [`read_night`] returns of a source of the same bytes.
///
/// # Errors
///
/// The first fault: `TooLong`, `BadRow` with a row that is missing or bad, or `BadRoster`. `OutOfMemory` can come in place of any answer.
pub fn night_of_bytes(alloc: Global, bytes: &[u8]) -> Result<Night, InputFault>
    ensures gives { AnswersAsSaid night_seen result (night_of bytes.now) }
    ensures kinds { IfErr result IsFaultOfScript }
    ensures few { IfOk result (λ night. length night.events.items ≤ max_bytes) }
{
    if bytes.len() > MAX_INPUT_BYTES {
        return Err(InputFault::TooLong);
    }
    night_of(alloc, bytes)
}

/// Reads a script from a source to its end: four rows of clubs, and a row for each event.
///
/// The input is read whole before it is parsed. The source is called at most 4,194,306 times, at most once for each byte and once more.
///
/// Rows are the records that the crate `csv` reads in its default dialect, with no heading and with records of any
/// length; each has to have four fields. Rows 1 to 4 are `club`, the row's number as one digit, the name, and the
/// coefficient in 1 to 9 digits. Every row from row 5 on is a reporter in 1 to 3 digits, a match in 1 or 2, an
/// expected number in 1 to 5, each in its range, and an event word.
///
/// # Errors
///
/// `ReadFailed` if the source fails, with the number of bytes that it had given; `TooLong` if it gives more than 4,194,304 bytes; `BadRow`
/// with the first row that is missing or is not of this form; `BadRoster` if no roster takes in a club, found once row 4 is good and before
/// row 5 is read. `OutOfMemory` can come in place of any answer. A fault leaves nothing but a source that has given bytes.
pub fn read_night<S: Source>(alloc: Global, source: &mut S) -> Result<Night, InputFault>
    ensures reads { Reads MeansNight night_seen (S.left source.old) (S.left source.new)
        (S.failed source.new) result }
    ensures calls { S.calls source.new ≤ S.calls source.old + max_bytes + 2 }
    ensures each { CallsRead (S.left source.old) (S.calls source.old) (S.calls source.new) result }
    ensures few { IfOk result (λ night. length night.events.items ≤ max_bytes) }
{
    let bytes = read_all(alloc, source)?;
    night_of(alloc, &bytes)
}

/// Parses a match word from four fields: `word`, this match, 16 hexadecimal digits, and an empty field; `None` if they are anything else.
fn word_of_fields(game: u8, fields: &Four<'_>) -> Option<u64>
    ensures { result ≡ word_of_row game (four_seen fields.now) }
{
    if fields.first != b"word".as_slice() || !fields.fourth.is_empty() {
        return None;
    }
    if number(fields.second, 2)? != u32::from(game) {
        return None;
    }
    hex_word(fields.third)
}

/// Reads the rows that are left, which are rows 5 to 16, and parses the match words of matches 1 to 12. `BadRow` with the first row that is
/// missing or bad, or 17 if there is a row more.
fn words_at(alloc: Global, rows: &mut Rows<'_>) -> Result<[u64; 12], InputFault>
    requires { IsOpen rows.old }
    ensures gives { AnswersAsSaid (λ words. words) result (words_from 12 1 (rows_ahead rows.old)) }
    ensures kinds { IfErr result IsFaultOfScript }
{
    let mut record = ByteRecord::new(alloc);
    let mut words = [0; 12];
    'games: for game in 1..13u8 {
        let bad = InputFault::BadRow {
            row: u32::from(game) + 4,
        };
        let Some(row) = rows.next(alloc, &mut record)? else {
            return Err(bad);
        };
        let RowFields::Four(fields) = row else {
            return Err(bad);
        };
        match word_of_fields(game, &fields) {
            Some(word) => words[usize::from(game - 1)] = word,
            None => return Err(bad),
        }
    }
    match rows.next(alloc, &mut record)? {
        Some(_) => Err(InputFault::BadRow { row: 17 }),
        None => Ok(words),
    }
}

/// Parses the clubs, in rows 1 to 4, and the match words, in rows 5 to 16, of a sheet. An error is the first fault, or `OutOfMemory`.
#[tactic(auto, unfolding(crate::specs::Script::sheet_of_rows))]
fn roster_and_words(alloc: Global, text: &[u8]) -> Result<(Roster, [u64; 12]), InputFault>
    ensures gives { AnswersAsSaid (λ p. record { clubs = p.0; words = p.1 }) result
        (sheet_of_rows (rows_of text.now)) }
    ensures kinds { IfErr result IsFaultOfScript }
{
    let mut rows = Rows::Plain(text);
    let roster = roster_at(alloc, &mut rows)?;
    let words = words_at(alloc, &mut rows)?;
    Ok((roster, words))
}

/// Reads a sheet from a source to its end: four rows of clubs, and twelve rows of match words.
///
/// The input is read whole and taken apart into rows as by [`read_night`], and rows 1 to 4 are clubs as in a script. The rows of the
/// twelve matches follow, row m + 4 for match m: `word`, the match in 1 or 2 digits, its word in 16 hexadecimal digits
/// of either case, and an empty field. Once all rows are good, the words are read by [`Board::of_words`], so words of the first layout are
/// taken too.
///
/// # Errors
///
/// `ReadFailed`, `TooLong`, `BadRow` and `BadRoster` as for [`read_night`]; a row 17 is `BadRow`. `BadWordAt`, once all rows are good, has
/// the least match whose word is of neither layout, as old boards or new ones have it.
/// `OutOfMemory` can come in place of any answer. A fault leaves nothing but a source that has given bytes.
pub fn read_words<S: Source>(alloc: Global, source: &mut S) -> Result<Sheet, InputFault>
    ensures reads { Reads MeansSheet sheet_seen (S.left source.old) (S.left source.new)
        (S.failed source.new) result }
    ensures calls { S.calls source.new ≤ S.calls source.old + max_bytes + 2 }
    ensures each { CallsRead (S.left source.old) (S.calls source.old) (S.calls source.new) result }
{
    let bytes = read_all(alloc, source)?;
    let (roster, words) = roster_and_words(alloc, &bytes)?;
    match Board::of_words(&words) {
        Ok(board) => Ok(Sheet { roster, board }),
        Err(bad) => Err(InputFault::BadWordAt { index: bad.index }),
    }
}
