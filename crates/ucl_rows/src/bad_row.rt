//! What an answer in JSON reports of a bad row: its first bad field, and the start of its text.

ghost use Rattle.std.specs.Prelude.{◌≡◌, ◌≤◌, length, take, true};
ghost use Rattle.std.specs.List.{list_all};
ghost use Rattle.ucl_order.specs.Roster.{is_printed};
ghost use Rattle.ucl_screen.specs.Rows.{four_seen};
ghost use Rattle.ucl_rows.specs.BadRows.{bad_field, field_name, shown_text};

use std::str;
use ucl_screen::{Four, expected_of_field, match_of_field, reporter_of_field};

/// The most bytes of the text of a row that an answer shows.
const MAX_SHOWN: usize = 64;

/// The first field of a bad row that no row of an event can have.
#[derive(Clone, Copy, Debug, PartialEq, Eq)]
pub enum BadField {
    /// The count of fields, which is not four.
    Count,
    /// The reporter.
    Reporter,
    /// The match.
    Match,
    /// The expected event number.
    Expected,
    /// The event.
    Event,
}

impl BadField {
    /// Returns the name of the field in an answer in JSON.
    pub(crate) fn name(self) -> &'static str
        ensures { result.now ≡ field_name self }
    {
        match self {
            BadField::Count => "fields",
            BadField::Reporter => "reporter",
            BadField::Match => "match",
            BadField::Expected => "expected",
            BadField::Event => "event",
        }
    }
}

/// Returns the first of the four fields of a bad row that does not parse as a field of an event; the event word, if the first three parse.
pub fn bad_field(four: &Four<'_>) -> BadField
    ensures { result ≡ bad_field (four_seen four.now) }
{
    if reporter_of_field(four.first).is_none() {
        BadField::Reporter
    } else if match_of_field(four.second).is_none() {
        BadField::Match
    } else if expected_of_field(four.third).is_none() {
        BadField::Expected
    } else {
        BadField::Event
    }
}

/// Returns whether a byte is printable ASCII: a letter, a digit, a sign or the space.
fn is_printed(b: u8) -> bool
    ensures { result ≡ is_printed b }
{
    0x20 <= b && b <= 0x7e
}

/// Returns how many bytes of the text of a bad row an answer shows: those before the first that is not printable ASCII, and at most 64.
#[tactic(auto, using(crate::proofs::LiveShown::shown_at))]
fn shown_length(text: &[u8]) -> usize
    ensures within { result ≤ length text.now }
    ensures shown { take result text.now ≡ shown_text text.now }
    ensures printed { list_all is_printed (take result text.now) ≡ true }
{
    for at in 0..text.len() {
        if at == MAX_SHOWN || !is_printed(text[at]) {
            return at;
        }
    }
    text.len()
}

/// Returns what an answer shows of the text of a bad row: the bytes before the first that is not printable ASCII, and at most 64.
#[tactic(auto, using(ucl_screen::proofs::Columns::printed_utf8))]
pub(crate) fn shown_text(text: &[u8]) -> &str
    ensures { result.now ≡ shown_text text.now }
{
    match str::from_utf8(&text[..shown_length(text)]) {
        Ok(shown) => shown,
        Err(_) => unreachable!(),
    }
}
