//! The lines of JSON that answer rows: the reply to an event or to a bad row, the board's words, and its matches. `row` is the number of
//! the row. `Err` says that there is no memory.

ghost use Rattle.std.specs.Prelude.{◌≡◌, IfOk, string_bytes};
ghost use Rattle.serde_json.specs.View.{view};
ghost use Rattle.ucl_word.specs.Names.{refusal_code, refusal_name};
ghost use Rattle.ucl_board.specs.Words.{game_at, version_of};
ghost use Rattle.ucl_json.specs.Lines.{IsLineOf};
ghost use Rattle.ucl_json.specs.Values.{accepted_value, bad_row_value, coded_value, matches_value, refused_value, reply_value, words_value};

use crate::answer_parts::{club_values, match_value, match_values, word_values};
use crate::line::{format_line, with_member};
use serde_json::{Value, json};
use std::alloc::{AllocError, Global};
use ucl_board::Board;
use ucl_order::Roster;
use ucl_screen::NightEvent;
use ucl_word::{Accepted, Refusal};

/// What an event came to: its row, the reply, and the board after it.
#[derive(Drop)]
pub struct EventReply<'r> {
    /// The number of the row on which the event came.
    pub row: u64,
    /// The event, as its row asks for it.
    pub event: &'r NightEvent,
    /// What the board answered to it.
    pub outcome: Result<Accepted, Refusal>,
    /// The edition of the board.
    pub edition: u16,
    /// The board after the event.
    pub board: &'r Board,
}

/// Returns the reply to an event that was accepted, as a value of JSON: with its event number, and the version of the board after it.
fn accepted_value(alloc: Global, reply: &EventReply<'_>, number: u16) -> Result<Value, AllocError>
    ensures { IfOk result (λ value. view value ≡ accepted_value reply.now.row reply.now.event.now
        number reply.now.edition (version_of reply.now.board.now)) }
{
    let event = reply.event;
    json!(in alloc; {
        "row": reply.row,
        "reply": "ok",
        "reporter": event.reporter.get(),
        "match": event.call.game.get(),
        "expected": event.call.expected,
        "event": event.call.kind.name(),
        "number": number,
        "version": reply.board.version(),
        "edition": reply.edition
    })
}

/// Returns the reply to an event that is refused, as a value of JSON, without the members that only the reply to a stale event has.
fn coded_value(alloc: Global, reply: &EventReply<'_>, refusal: Refusal) -> Result<Value, AllocError>
    ensures { IfOk result (λ value. view value ≡ coded_value reply.now.row reply.now.event.now
        (refusal_code refusal) (refusal_name refusal)) }
{
    let event = reply.event;
    json!(in alloc; {
        "row": reply.row,
        "reply": "refused",
        "reporter": event.reporter.get(),
        "match": event.call.game.get(),
        "expected": event.call.expected,
        "event": event.call.kind.name(),
        "code": refusal.code(),
        "name": refusal.name()
    })
}

/// Returns the reply to an event that is refused, as a value of JSON; if it is stale, with its match as it stands.
fn refused_value(
    alloc: Global,
    reply: &EventReply<'_>,
    refusal: Refusal,
) -> Result<Value, AllocError>
    ensures { IfOk result (λ value. view value ≡ refused_value reply.now.row reply.now.event.now
        refusal (game_at reply.now.board.now reply.now.event.now.call.game)) }
{
    let coded = coded_value(alloc, reply, refusal)?;
    match refusal.found() {
        Some(found) => {
            let numbered = with_member(alloc, coded, "number", Value::from(found))?;
            let game = reply.event.call.game;
            let stands = match_value(alloc, game, &reply.board.game(game))?;
            Ok(with_member(alloc, numbered, "stands", stands)?)
        }
        None => Ok(coded),
    }
}

/// Returns the line of the reply to an event. If the event was accepted, it has the version and the edition of the board then; if it is
/// stale, its match as it stands.
///
/// # Errors
///
/// If there is no memory.
pub fn reply_json(alloc: Global, reply: &EventReply<'_>) -> Result<String, AllocError>
    ensures { IfOk result (λ line. IsLineOf (reply_value reply.now.row reply.now.event.now
        reply.now.outcome reply.now.edition reply.now.board.now) (string_bytes line)) }
{
    let outcome = reply.outcome;
    let value = match outcome {
        Ok(accepted) => accepted_value(alloc, reply, accepted.number)?,
        Err(refusal) => refused_value(alloc, reply, refusal)?,
    };
    format_line(alloc, &value)
}

/// Returns the reply to a bad row, as a value of JSON: `field` is the name of its first bad field, and `text` the start of its text.
fn bad_row_value(alloc: Global, row: u64, field: &str, text: &str) -> Result<Value, AllocError>
    ensures { IfOk result (λ value. view value ≡ bad_row_value row field.now text.now) }
{
    json!(in alloc; {
        "row": row,
        "reply": "refused",
        "code": 20u8,
        "name": "bad-row",
        "field": field,
        "text": text
    })
}

/// Returns the line of the reply to a bad row: `field` is the name of its first bad field, and `text` the start of its text.
///
/// # Errors
///
/// If there is no memory.
pub fn bad_row_json(alloc: Global, row: u64, field: &str, text: &str) -> Result<String, AllocError>
    ensures { IfOk result (λ line. IsLineOf (bad_row_value row field.now text.now)
        (string_bytes line)) }
{
    let value = bad_row_value(alloc, row, field, text)?;
    format_line(alloc, &value)
}

/// Returns the answer with the twelve words of a board, as a value of JSON.
fn words_value(alloc: Global, row: u64, board: &Board) -> Result<Value, AllocError>
    ensures { IfOk result (λ value. view value ≡ words_value row board.now) }
{
    let words = word_values(alloc, board.words().as_slice())?;
    json!(in alloc; {"row": row, "reply": "words", "words": words})
}

/// Returns the line of the answer with the twelve words of a board.
///
/// # Errors
///
/// If there is no memory.
pub fn words_json(alloc: Global, row: u64, board: &Board) -> Result<String, AllocError>
    ensures { IfOk result (λ line. IsLineOf (words_value row board.now) (string_bytes line)) }
{
    let value = words_value(alloc, row, board)?;
    format_line(alloc, &value)
}

/// Returns the answer with the twelve matches of a board as they stand, and the clubs that play them, as a value of JSON.
#[tactic(auto, unfolding(crate::specs::Values::matches_value))]
fn matches_value(
    alloc: Global,
    row: u64,
    board: &Board,
    roster: &Roster,
) -> Result<Value, AllocError>
    ensures { IfOk result (λ value. view value ≡ matches_value row board.now roster.now) }
{
    json!(in alloc; {
        "row": row,
        "reply": "matches",
        "matches": match_values(alloc, board)?,
        "clubs": club_values(alloc, roster)?
    })
}

/// Returns the line of the answer with the twelve matches of a board as they stand, and the clubs that play them.
///
/// # Errors
///
/// If there is no memory.
pub fn matches_json(
    alloc: Global,
    row: u64,
    board: &Board,
    roster: &Roster,
) -> Result<String, AllocError>
    ensures { IfOk result (λ line.
        IsLineOf (matches_value row board.now roster.now) (string_bytes line)) }
{
    let value = matches_value(alloc, row, board, roster)?;
    format_line(alloc, &value)
}
