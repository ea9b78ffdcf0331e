//! The matches of a board, as text, a line each. A function that writes appends to `out`, and fails only if an allocation is refused. A
//! standing yellow is a yellow card that no second one turned into an expulsion.

ghost use Rattle.std.specs.Prelude.{◌≡◌, ◌++◌, IfOk, OnOk, string_bytes};
ghost use Rattle.ucl_screen.specs.Matches.{clubs_text, counts_text, match_line, matches_text, sides_text, state_name, state_text};

use crate::lines::{push_left, push_number, push_right, push_zeros_before};
use crate::text::text_of;
use std::alloc::{AllocError, Global};
use ucl_board::{Board, away_of, home_of};
use ucl_order::Roster;
use ucl_word::{MatchNo, MatchRecord, OutOfMemory, State};

/// Returns the name of the state of a match, as its line shows it.
pub fn state_name(state: State) -> &'static str
    ensures { result.now ≡ state_name state }
{
    match state {
        State::Scheduled => "SCHEDULED",
        State::InPlay => "IN PLAY",
        State::Finished => "FINISHED",
    }
}

/// Writes the number of the home side, a hyphen, and the number of the visiting side: standing yellows or expulsions.
fn push_sides(out: &mut String, home: u8, away: u8) -> Result<(), AllocError>
    ensures { OnOk result (string_bytes out.new ≡ string_bytes out.old ++ sides_text home away) }
{
    push_number(out, u16::from(home))?;
    out.push_str("-")?;
    push_number(out, u16::from(away))
}

/// Writes the first part of the line of a match: its number, the number of its last event, and its state.
#[tactic(auto, unfolding(crate::specs::Matches::state_text))]
fn push_state(out: &mut String, game: u8, m: &MatchRecord) -> Result<(), AllocError>
    ensures { OnOk result (string_bytes out.new ≡ string_bytes out.old ++ state_text game m.now) }
{
    out.push_str("match ")?;
    push_right(out, 2, u16::from(game))?;
    out.push_str(" v")?;
    push_zeros_before(out, 4, m.number)?;
    out.push_str(" ")?;
    push_left(out, 9, state_name(m.state))?;
    Ok(())
}

/// Writes the second part of the line of a match: goals, standing yellows and expulsions, each of the home side and the visiting side.
#[tactic(auto, unfolding(crate::specs::Matches::counts_text))]
fn push_counts(out: &mut String, m: &MatchRecord) -> Result<(), AllocError>
    ensures { OnOk result (string_bytes out.new ≡ string_bytes out.old ++ counts_text m.now) }
{
    push_right(out, 2, u16::from(m.home_goals))?;
    out.push_str("-")?;
    push_number(out, u16::from(m.away_goals))?;
    out.push_str(" Y ")?;
    push_sides(out, m.home_yellows, m.away_yellows)?;
    out.push_str(" E ")?;
    push_sides(out, m.home_expulsions, m.away_expulsions)?;
    Ok(())
}

/// Writes the last part of the line of a match: the reporter of its last event, 0 if there is none, and the names of its clubs.
#[tactic(auto, unfolding(crate::specs::Matches::clubs_text))]
fn push_clubs(out: &mut String, m: &MatchRecord, home: &str, away: &str) -> Result<(), AllocError>
    ensures { OnOk result (string_bytes out.new ≡ string_bytes out.old
        ++ clubs_text m.now home.now away.now) }
{
    out.push_str("by ")?;
    push_right(out, 3, u16::from(m.reporter))?;
    out.push_str(" ")?;
    out.push_str(home)?;
    out.push_str(" v ")?;
    out.push_str(away)?;
    Ok(())
}

/// Writes the line of the match with this number, and a line feed, with the names of its clubs from the roster.
#[tactic(auto, unfolding(crate::specs::Matches::match_line))]
fn push_match(
    out: &mut String,
    board: &Board,
    roster: &Roster,
    game: MatchNo,
) -> Result<(), AllocError>
    ensures { OnOk result (string_bytes out.new ≡ string_bytes out.old
        ++ match_line board.now roster.now game) }
{
    let m = board.game(game);
    let home = text_of(roster.name(home_of(game)));
    let away = text_of(roster.name(away_of(game)));
    push_state(out, game.get(), &m)?;
    out.push_str(" ")?;
    push_counts(out, &m)?;
    out.push_str(" ")?;
    push_clubs(out, &m, home, away)?;
    out.push_str("\n")?;
    Ok(())
}

/// Formats the twelve matches of a board, a line each: its number, that of its last event, state, goals, standing yellows, expulsions, the
/// reporter of its last event, and its clubs.
///
/// # Errors
///
/// [`OutOfMemory`] if an allocation was refused.
pub fn matches(alloc: Global, board: &Board, roster: &Roster) -> Result<String, OutOfMemory>
    ensures { IfOk result (λ text. string_bytes text ≡ matches_text board.now roster.now) }
{
    let mut text = String::new(alloc);
    for number in 1..13u8 {
        if let Some(game) = MatchNo::new(number) {
            push_match(&mut text, board, roster, game)?;
        }
    }
    Ok(text)
}
