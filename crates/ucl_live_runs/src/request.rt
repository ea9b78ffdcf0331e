//! What a row of `ucl_live` asks for: to enter an event (`3,7,0,kickoff`), to show the board (`screen,,,`, `words,,,`, `matches,,,`), or a
//! mend: of a row (`mend,17,,`), of the edition (`mend,,15,`), or of a club (`club,2,Bravo,95000`).

ghost use Rattle.std.specs.Prelude.{◌≡◌};
ghost use Rattle.ucl_screen.specs.Numbers.{number};
ghost use Rattle.ucl_screen.specs.Rows.{four_seen};
ghost use Rattle.ucl_live_runs.specs.Requests.{asked_by, mend_by, request_of, named_row};
ghost use Rattle.ucl_rows.specs.Rows.{fields_seen};

use crate::clubs::NewClub;
use ucl_rows::{BadField, RowFields, bad_field};
use ucl_screen::{Four, NightEvent, event_of_fields, expected_of_field};

/// What a mend does. The edition rises with it.
#[derive(Drop)]
pub enum Mend<'f> {
    /// The board becomes that of the events that stand without the one of this row.
    Without(u32),
    /// The board stays, in this edition.
    As(u16),
    /// This club takes its slot, and the board stays.
    Club(NewClub<'f>),
}

/// What a row asks for, once the board is open.
#[derive(Drop)]
pub enum Request<'f> {
    /// Nothing that there is: this is the first field that no row of an event can have.
    Bad(BadField),
    /// To enter this event, with its reporter.
    Event(NightEvent),
    /// To show the screen of the board.
    Screen,
    /// To show the twelve words of the board, one for each match.
    Words,
    /// To show the twelve matches of the board.
    Matches,
    /// To mend the board.
    Mends(Mend<'f>),
}

/// Returns the number that at most ten decimal digits spell, of which there is at least one; else None.
fn number(text: &[u8]) -> Option<u64>
    ensures { result ≡ number 10 text.now }
{
    if text.is_empty() || text.len() > 10 {
        return None;
    }
    let mut n: u64 = 0;
    for b in text {
        if *b < b'0' || *b > b'9' {
            return None;
        }
        n = 10 * n + u64::from(*b - b'0');
    }
    Some(n)
}

/// Returns the number of a row that a field names, 1 to 4,294,967,295 in one to ten digits; else None.
fn named_row(text: &[u8]) -> Option<u32>
    ensures { result ≡ named_row text.now }
{
    let row = number(text)?;
    if row == 0 || row > u64::from(u32::MAX) {
        return None;
    }
    Some(row as u32)
}

/// Returns the mend that a row of four fields names; None if it names none.
fn mend_by<'f>(four: &Four<'f>) -> Option<Mend<'f>>
    ensures { result ≡ mend_by (four_seen four.now) }
{
    if four.first == b"club".as_slice() {
        return match NewClub::of(four) {
            Some(club) => Some(Mend::Club(club)),
            None => None,
        };
    }
    if four.first != b"mend".as_slice() || !four.fourth.is_empty() {
        return None;
    }
    if four.third.is_empty() {
        Some(Mend::Without(named_row(four.second)?))
    } else if four.second.is_empty() {
        Some(Mend::As(expected_of_field(four.third)?))
    } else {
        None
    }
}

/// Returns what a row of four fields asks for; `Bad` with the first wrong field if it asks for nothing that there is.
#[tactic(auto, unfolding(crate::specs::Requests::asked_by))]
fn asked_by<'f>(four: &Four<'f>) -> Request<'f>
    ensures { result ≡ asked_by (four_seen four.now) }
{
    if four.second.is_empty() && four.third.is_empty() && four.fourth.is_empty() {
        return if four.first == b"screen".as_slice() {
            Request::Screen
        } else if four.first == b"words".as_slice() {
            Request::Words
        } else if four.first == b"matches".as_slice() {
            Request::Matches
        } else {
            Request::Bad(bad_field(four))
        };
    }
    if let Some(event) = event_of_fields(four) {
        return Request::Event(event);
    }
    match mend_by(four) {
        Some(mend) => Request::Mends(mend),
        None => Request::Bad(bad_field(four)),
    }
}

/// Returns what a row asks for; `Bad` if it has not four fields, or asks for nothing that there is.
pub(crate) fn request_of<'f>(row: &RowFields<'f>) -> Request<'f>
    ensures { result ≡ request_of (fields_seen row.now) }
{
    match row {
        RowFields::Other => Request::Bad(BadField::Count),
        RowFields::Four(four) => asked_by(four),
    }
}
