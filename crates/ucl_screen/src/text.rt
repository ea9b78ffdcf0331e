//! The screen of a board as text. A function that writes appends to `out`; it fails only if an allocation is refused.

ghost use Rattle.std.specs.Prelude.{◌≡◌, ◌↔◌, ◌++◌, IsTrue, IfOk, IfSome, OnOk, true, All, flat_map, string_bytes};
ghost use Rattle.ucl_order.specs.Roster.{is_name};
ghost use Rattle.ucl_order.specs.Rows.{IsWithinTable};
ghost use Rattle.ucl_screen.specs.Screen.{IsGroup, in_play, letter_in, row_line, screen_text};

use crate::lines::{push_header, push_row};
use std::alloc::{AllocError, Global};
use std::str;
use ucl_board::Board;
use ucl_order::{Profile, Roster, Row, standings};
use ucl_word::{OutOfMemory, State, record_of};

/// The second line of the screen: the names of the columns, 53 bytes and a line feed.
const COLUMNS: &str = "    Club                  P  W  D  L  GF  GA   GD Pts\n";

/// Returns whether a byte is the letter of a group: `A` to `H`, in upper case.
pub fn is_group(letter: u8) -> bool
    ensures { IsTrue result ↔ IsGroup letter }
{
    b'A' <= letter && letter <= b'H'
}

/// Parses the letter of a group: one byte, `A` to `H`; `None` if the text is anything else.
#[tactic(auto, using(crate::proofs::Letters::is_letter, crate::proofs::Letters::no_letter, crate::proofs::Letters::many_letters, crate::proofs::Letters::other_letter))]
pub fn letter_in(text: &[u8]) -> Option<u8>
    ensures told { result ≡ letter_in text.now }
    ensures letter { IfSome result IsGroup }
{
    match text {
        [letter] if is_group(*letter) => Some(*letter),
        _ => None,
    }
}

/// Counts the matches of the board that are in play.
pub fn matches_in_play(board: &Board) -> u8
    ensures { result ≡ in_play board.now }
{
    let words = board.words();
    let mut count = 0;
    for word in &words {
        if record_of(*word).state == State::InPlay {
            count += 1;
        }
    }
    count
}

/// Returns the name of a club, 1 to 20 bytes of printable ASCII, as text.
#[tactic(auto, using(crate::proofs::Columns::name_text))]
pub fn text_of(name: &[u8]) -> &str
    requires { is_name name.now ≡ true }
    ensures { result.now ≡ name.now }
{
    match str::from_utf8(name) {
        Ok(text) => text,
        Err(_) => unreachable!(),
    }
}

/// Writes a line for each row of the table, with the name of its club from the roster.
fn push_rows(out: &mut String, rows: &[Row], roster: &Roster) -> Result<(), AllocError>
    requires { All IsWithinTable rows.now }
    ensures { OnOk result (string_bytes out.new ≡ string_bytes out.old
        ++ flat_map (row_line roster.now) rows.now) }
{
    for row in rows {
        push_row(out, row, text_of(roster.name(row.slot)))?;
    }
    Ok(())
}

/// Formats the screen of a group, six lines: its letter, the board's version and how many matches are in play; the names of the columns;
/// and a line for each place of the table, with the clubs ordered under the profile. `group` has to be a letter from `A` to `H`.
///
/// # Errors
///
/// [`OutOfMemory`] if an allocation was refused.
#[tactic(auto, unfolding(crate::specs::Screen::screen_text))]
pub fn screen(
    alloc: Global,
    board: &Board,
    roster: &Roster,
    group: u8,
    profile: Profile,
) -> Result<String, OutOfMemory>
    requires { IsGroup group }
    ensures { IfOk result (λ text. string_bytes text
        ≡ screen_text profile board.now roster.now group) }
{
    let rows = standings(board, roster, profile);
    let mut text = String::new(alloc);
    push_header(&mut text, group, board.version(), matches_in_play(board))?;
    text.push_str(COLUMNS)?;
    push_rows(&mut text, &rows, roster)?;
    Ok(text)
}
