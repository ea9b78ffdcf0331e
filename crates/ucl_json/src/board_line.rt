//! Reads a board state from a line of JSON. `None` says that a member is missing or is not what it should be.

ghost use Rattle.std.specs.Prelude.{◌≡◌, ◌<◌, ◌≤◌, [], ◌∷◌, Some, IfErr, IfOk, IfSome, length, map, option_map};
ghost use Rattle.serde_json.specs.View.{items_view, view};
ghost use Rattle.ucl_order.specs.Roster.{bad_slot, club_lent};
ghost use Rattle.ucl_screen.specs.Screen.{IsGroup};
ghost use Rattle.ucl_board.specs.Words.{read_words};
ghost use Rattle.ucl_json.specs.BoardLines.{parse_board, parse_club, parse_clubs, parse_each, edition_in, parse_edition, if_read, just, list_at, parse_board_line, parse_board_state, parse_roster, text_at, parse_header, unless_bad, parse_word};

use crate::board_state::BoardState;
use crate::header::BoardHeader;
use arrayvec::ArrayVec;
use serde_json::Value;
use std::alloc::{AllocError, Global};
use ucl_board::Board;
use ucl_order::{LentClub, Profile, Roster};
use ucl_screen::{hex_word, letter_in};

/// The most bytes of a line that is read.
const MAX_ANSWER_BYTES: usize = 4096;

/// The greatest edition that a board has.
const MAX_EDITION: u64 = 65_535;

/// The greatest coefficient of a club.
const MAX_COEFFICIENT: u64 = 999_999;

/// Returns the text that is the member of an object under this name, or `None` if there is no such text.
fn text_in<'v>(value: &'v Value, name: &str) -> Option<&'v str>
    ensures { option_map (λ text. text.now) result ≡ text_at name.now (view value.now) }
{
    value.get(name)?.as_str()
}

/// Returns the edition that a value is, or `None` if it is no whole number from 0 to 65,535.
fn edition_of(value: &Value) -> Option<u16>
    ensures { result ≡ edition_in (Some (view value.now)) }
{
    let edition = value.as_u64()?;
    if edition > MAX_EDITION {
        return None;
    }
    Some(edition as u16)
}

/// Returns the edition that the member `edition` of a value is, or 0 if there is no such member.
fn edition_in(value: &Value) -> Option<u16>
    ensures { result ≡ parse_edition (view value.now) }
{
    match value.get("edition") {
        None => Some(0),
        Some(edition) => edition_of(edition),
    }
}

/// Returns the header of a board, from the members `group`, `order` and `edition` of a value.
fn header_in(value: &Value) -> Option<BoardHeader>
    ensures parsed { result ≡ parse_header (view value.now) }
    ensures letter { IfSome result (λ header. IsGroup header.group) }
{
    let group = letter_in(text_in(value, "group")?.as_bytes())?;
    let profile = Profile::from_name(text_in(value, "order")?.as_bytes())?;
    let edition = edition_in(value)?;
    Some(BoardHeader {
        group,
        profile,
        edition,
    })
}

/// Returns the club that a value is, from its members `club`, the name, and `coefficient`, which is at most 999,999.
fn club_in<'v>(value: &'v Value) -> Option<LentClub<'v>>
    ensures { option_map club_lent result ≡ parse_club (view value.now) }
{
    let name = text_in(value, "club")?;
    let coefficient = value.get("coefficient")?.as_u64()?;
    if coefficient > MAX_COEFFICIENT {
        return None;
    }
    Some(LentClub {
        name: name.as_bytes(),
        coefficient: coefficient as u32,
    })
}

/// Returns the elements of the array that is the member of an object under this name, or `None` if there is no such array.
#[tactic(auto, using(crate::proofs::Members::listed_view))]
fn values_in<'v>(value: &'v Value, name: &str) -> Option<&'v [Value]>
    ensures { option_map (λ values. map view values.now) result
        ≡ list_at name.now (view value.now) }
{
    let values = value.get(name)?.as_array()?;
    Some(values.as_slice())
}

/// Returns the roster of four clubs, one for each slot, or `None` if a name or a coefficient is not allowed.
#[tactic(auto, using(crate::proofs::Members::roster_good, crate::proofs::Members::roster_bad))]
fn roster_with(clubs: &[LentClub<'_>; 4]) -> Option<Roster>
    ensures { result ≡ unless_bad (map club_lent clubs.now) (bad_slot (map club_lent clubs.now)) }
{
    match Roster::of_lent(clubs) {
        Ok(roster) => Some(roster),
        Err(_) => None,
    }
}

/// Returns the roster of the clubs that these values are, or `None` if one is no club.
#[tactic(auto, unfolding(crate::specs::BoardLines::parse_each))]
fn roster_of_four(first: &Value, second: &Value, third: &Value, fourth: &Value) -> Option<Roster>
    ensures { result ≡ parse_roster (view first.now ∷ view second.now ∷ view third.now ∷ view fourth.now ∷ []) }
{
    let clubs = [
        club_in(first)?,
        club_in(second)?,
        club_in(third)?,
        club_in(fourth)?,
    ];
    roster_with(&clubs)
}

/// Returns the roster of the clubs that four values are, or `None` if they are not four or one is no club.
fn roster_of(values: &[Value]) -> Option<Roster>
    ensures { result ≡ parse_roster (map view values.now) }
{
    match values {
        [first, second, third, fourth] => roster_of_four(first, second, third, fourth),
        _ => None,
    }
}

/// Returns the roster of the four clubs in the member `clubs` of a value.
fn clubs_in(value: &Value) -> Option<Roster>
    ensures { result ≡ parse_clubs (view value.now) }
{
    roster_of(values_in(value, "clubs")?)
}

/// Returns the match word that a value spells in sixteen hexadecimal digits.
fn word_in(value: &Value) -> Option<u64>
    ensures { result ≡ parse_word (view value.now) }
{
    hex_word(value.as_str()?.as_bytes())
}

/// Returns the match words that twelve values spell, or `None` if they are not twelve or one spells none.
fn twelve_words(values: &[Value]) -> Option<[u64; 12]>
    ensures { result ≡ just 12 parse_word (map view values.now) }
{
    if values.len() != 12 {
        return None;
    }
    let mut words = ArrayVec::new();
    for value in values {
        words.push(word_in(value)?);
    }
    words.into_inner().ok()
}

/// Returns the board of twelve match words, or `None` if one is the word of no match.
#[tactic(auto, using(crate::proofs::Members::words_read, crate::proofs::Members::words_bad))]
fn read_board(words: &[u64; 12]) -> Option<Board>
    ensures { result ≡ if_read (read_words 1 words.now) }
{
    match Board::of_words(words) {
        Ok(board) => Some(board),
        Err(_) => None,
    }
}

/// Returns the board of the twelve match words in the member `words` of a value.
fn board_in(value: &Value) -> Option<Board>
    ensures { result ≡ parse_board (view value.now) }
{
    let words = twelve_words(values_in(value, "words")?)?;
    read_board(&words)
}

/// Returns the board state in the members of a value, or `None` if one of them is missing or bad.
#[tactic(auto, unfolding(crate::specs::BoardLines::parse_board_state))]
fn board_state_in(value: &Value) -> Option<BoardState>
    ensures parsed { result ≡ parse_board_state (view value.now) }
    ensures letter { IfSome result (λ board_state. IsGroup board_state.header.group) }
{
    let header = header_in(value)?;
    let roster = clubs_in(value)?;
    let board = board_in(value)?;
    Some(BoardState {
        header,
        roster,
        board,
    })
}

/// Returns the board state in the members of a line, if it is JSON of at most 4,096 bytes and has one, and else `None`.
///
/// # Errors
///
/// If there is no memory.
pub fn parse_board_line(alloc: Global, line: &[u8]) -> Result<Option<BoardState>, AllocError>
    ensures parsed { IfOk result (λ board_state. board_state ≡ parse_board_line line.now) }
    ensures memory { IfErr result (λ _. length line.now ≤ 4096) }
    ensures letter { IfOk result (λ parsed. IfSome parsed (λ board_state. IsGroup board_state.header.group)) }
{
    if line.len() > MAX_ANSWER_BYTES {
        return Ok(None);
    }
    match Value::from_slice(alloc, line) {
        Ok(value) => Ok(board_state_in(&value)),
        Err(error) if error.is_memory() => Err(AllocError),
        Err(_) => Ok(None),
    }
}
