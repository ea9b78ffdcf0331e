//! What several answers in JSON have among their members: clubs, matches and words. `Err` says that there is no memory.

ghost use Rattle.std.specs.Prelude.{◌≡◌, ◌≤◌, [], ◌∷◌, IfOk};
ghost use Rattle.serde_json.specs.Data.{string};
ghost use Rattle.serde_json.specs.View.{items_view, view};
ghost use Rattle.ucl_board.specs.Fixtures.{IsSlot, match_numbers};
ghost use Rattle.ucl_screen.specs.Numbers.{hex_digits};
ghost use Rattle.ucl_screen.specs.Screen.{IsGroup};
ghost use Rattle.ucl_json.specs.Values.{club_items, club_value, match_items, match_value, sides_value, word_items};

use serde_json::{Value, json};
use std::alloc::{AllocError, Global};
use ucl_board::{Board, away_of, home_of};
use ucl_order::Roster;
use ucl_screen::{state_name, text_of};
use ucl_word::{MatchNo, MatchRecord};

/// Returns the letter of a group, as text.
pub(crate) fn letter_of(group: u8) -> &'static str
    requires { IsGroup group }
    ensures { result.now ≡ group ∷ [] }
{
    match group {
        b'A' => "A",
        b'B' => "B",
        b'C' => "C",
        b'D' => "D",
        b'E' => "E",
        b'F' => "F",
        b'G' => "G",
        _ => "H",
    }
}

/// Returns the club of a slot as a value: its name and its coefficient.
fn club_value(alloc: Global, roster: &Roster, slot: u8) -> Result<Value, AllocError>
    requires { IsSlot slot }
    ensures { IfOk result (λ value. view value ≡ club_value roster.now slot) }
{
    let coefficient = roster.coefficient(slot);
    json!(in alloc; {"club": text_of(roster.name(slot)), "coefficient": coefficient})
}

/// Returns the four clubs as values, in the order of their slots.
pub(crate) fn club_values(alloc: Global, roster: &Roster) -> Result<Vec<Value>, AllocError>
    ensures { IfOk result (λ values. items_view values.items ≡ club_items roster.now) }
{
    let mut values = Vec::new(alloc);
    values.push(club_value(alloc, roster, 1)?)?;
    values.push(club_value(alloc, roster, 2)?)?;
    values.push(club_value(alloc, roster, 3)?)?;
    values.push(club_value(alloc, roster, 4)?)?;
    Ok(values)
}

/// Returns a word as a value: the text of its sixteen hexadecimal digits.
fn word_value(alloc: Global, word: u64) -> Result<Value, AllocError>
    ensures { IfOk result (λ value. view value ≡ string (hex_digits word)) }
{
    Ok(Value::String(format!(in alloc; "{word:016x}")?))
}

/// Returns each of these words as a value, in their order.
pub(crate) fn word_values(alloc: Global, words: &[u64]) -> Result<Vec<Value>, AllocError>
    ensures { IfOk result (λ values. items_view values.items ≡ word_items words.now) }
{
    let mut values = Vec::new(alloc);
    for word in words {
        values.push(word_value(alloc, *word)?)?;
    }
    Ok(values)
}

/// Returns two counts as a value, first that of the home side.
fn sides_value(alloc: Global, home: u8, away: u8) -> Result<Value, AllocError>
    ensures { IfOk result (λ value. view value ≡ sides_value home away) }
{
    json!(in alloc; [home, away])
}

/// Returns a match as a value: `game` is its number among the twelve, and `stands` what has happened in it so far. Its clubs are told by
/// their slots.
pub(crate) fn match_value(
    alloc: Global,
    game: MatchNo,
    stands: &MatchRecord,
) -> Result<Value, AllocError>
    ensures { IfOk result (λ value. view value ≡ match_value game stands.now) }
{
    json!(in alloc; {
        "match": game.get(),
        "home": home_of(game),
        "away": away_of(game),
        "number": stands.number,
        "state": state_name(stands.state),
        "score": sides_value(alloc, stands.home_goals, stands.away_goals)?,
        "yellows": sides_value(alloc, stands.home_yellows, stands.away_yellows)?,
        "expulsions": sides_value(alloc, stands.home_expulsions, stands.away_expulsions)?,
        "reporter": stands.reporter
    })
}

/// Returns the twelve matches of a board as values, each as it stands.
pub(crate) fn match_values(alloc: Global, board: &Board) -> Result<Vec<Value>, AllocError>
    ensures { IfOk result
        (λ values. items_view values.items ≡ match_items board.now match_numbers) }
{
    let mut values = Vec::new(alloc);
    for number in 1..13u8 {
        if let Some(game) = MatchNo::new(number) {
            values.push(match_value(alloc, game, &board.game(game))?)?;
        }
    }
    Ok(values)
}
