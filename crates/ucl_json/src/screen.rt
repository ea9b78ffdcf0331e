//! The screen of a board as JSON. `row` is the number of the row that asks for it. `Err` says that there is no memory.

ghost use Rattle.std.specs.Prelude.{◌≡◌, ◌≤◌, ◌-ℤ◌, pos, All, [], ◌∷◌, IfOk, length, string_bytes};
ghost use Rattle.serde_json.specs.View.{items_view, view};
ghost use Rattle.ucl_order.specs.Rows.{IsWithinTable, rows_of};
ghost use Rattle.ucl_screen.specs.Screen.{IsGroup};
ghost use Rattle.ucl_json.specs.Lines.{IsLineOf};
ghost use Rattle.ucl_json.specs.Values.{difference_value, edition_screen_value, mark_name, place_items, place_value, screen_value};

use crate::answer_parts::{club_values, letter_of, match_values, word_values};
use crate::header::BoardHeader;
use crate::line::{format_line, with_member};
use serde_json::{Value, json};
use std::alloc::{AllocError, Global};
use ucl_board::Board;
use ucl_order::{Mark, Profile, Roster, Row, standings};
use ucl_screen::{matches_in_play, text_of};

/// Returns the sign of a mark: `+` if a club is sure to be among the first two, `-` if it is sure not to be, and else nothing.
fn mark_name(mark: Mark) -> &'static str
    ensures { result.now ≡ mark_name mark }
{
    match mark {
        Mark::Plus => "+",
        Mark::Minus => "-",
        Mark::Blank => "",
    }
}

/// Returns the goals of a club less those against it, as a value of JSON.
fn difference_value(row: &Row) -> Value
    requires { IsWithinTable row.now }
    ensures { view result ≡ difference_value row.now }
{
    Value::from(i32::from(row.goals_for) - i32::from(row.goals_against))
}

/// Returns a row of the table as a value of JSON, with the name of its club.
#[tactic(auto, unfolding(crate::specs::Values::place_value))]
fn place_value(alloc: Global, row: &Row, roster: &Roster) -> Result<Value, AllocError>
    requires { IsWithinTable row.now }
    ensures { IfOk result (λ value. view value ≡ place_value roster.now row.now) }
{
    json!(in alloc; {
        "place": row.place,
        "mark": mark_name(row.mark),
        "slot": row.slot,
        "club": text_of(roster.name(row.slot)),
        "played": row.played,
        "won": row.wins,
        "drawn": row.draws,
        "lost": row.losses,
        "goals_for": row.goals_for,
        "goals_against": row.goals_against,
        "goal_difference": difference_value(row),
        "points": row.points
    })
}

/// Returns the rows of the table as values of JSON, in their order.
fn place_values(alloc: Global, rows: &[Row], roster: &Roster) -> Result<Vec<Value>, AllocError>
    requires { All IsWithinTable rows.now }
    ensures { IfOk result (λ values. items_view values.items ≡ place_items roster.now rows.now) }
{
    let mut values = Vec::new(alloc);
    for row in rows {
        values.push(place_value(alloc, row, roster)?)?;
    }
    Ok(values)
}

/// Returns the screen of a board, for a group and by the tie-break order `profile`, as a value of JSON.
#[tactic(auto, unfolding(crate::specs::Values::screen_value))]
fn screen_value(
    alloc: Global,
    row: u64,
    board: &Board,
    roster: &Roster,
    group: u8,
    profile: Profile,
) -> Result<Value, AllocError>
    requires { IsGroup group }
    ensures { IfOk result (λ value. view value
        ≡ screen_value row profile board.now roster.now group) }
{
    json!(in alloc; {
        "row": row,
        "reply": "screen",
        "in_play": matches_in_play(board),
        "table": place_values(alloc, &standings(board, roster, profile), roster)?,
        "group": letter_of(group),
        "order": profile.name(),
        "version": board.version(),
        "clubs": club_values(alloc, roster)?,
        "words": word_values(alloc, board.words().as_slice())?
    })
}

/// Returns the line of the screen of a board, for a group and by the tie-break order `profile`. The clubs and the words are in it.
///
/// # Errors
///
/// If there is no memory.
pub fn screen_json(
    alloc: Global,
    row: u64,
    board: &Board,
    roster: &Roster,
    group: u8,
    profile: Profile,
) -> Result<String, AllocError>
    requires { IsGroup group }
    ensures { IfOk result
        (λ line. IsLineOf (screen_value row profile board.now roster.now group)
        (string_bytes line)) }
{
    let value = screen_value(alloc, row, board, roster, group, profile)?;
    format_line(alloc, &value)
}

/// Returns the screen of a board as a value of JSON, by the group and the order of `header`, with its edition and the twelve matches.
#[tactic(auto, unfolding(crate::specs::Values::edition_screen_value))]
fn edition_screen_value(
    alloc: Global,
    row: u64,
    board: &Board,
    roster: &Roster,
    header: BoardHeader,
) -> Result<Value, AllocError>
    requires { IsGroup header.group }
    ensures { IfOk result (λ value. view value
        ≡ edition_screen_value row header board.now roster.now) }
{
    let screen = screen_value(alloc, row, board, roster, header.group, header.profile)?;
    let dated = with_member(alloc, screen, "edition", Value::from(header.edition))?;
    let matches = Value::Array(match_values(alloc, board)?);
    Ok(with_member(alloc, dated, "matches", matches)?)
}

/// Returns the line of the screen of a board, by the group and the order of `header`, with its edition and the twelve matches.
///
/// # Errors
///
/// If there is no memory.
pub fn edition_screen_json(
    alloc: Global,
    row: u64,
    board: &Board,
    roster: &Roster,
    header: BoardHeader,
) -> Result<String, AllocError>
    requires { IsGroup header.group }
    ensures { IfOk result
        (λ line. IsLineOf (edition_screen_value row header board.now roster.now)
        (string_bytes line)) }
{
    let value = edition_screen_value(alloc, row, board, roster, header)?;
    format_line(alloc, &value)
}
