//! The lines of JSON that answer a mend: each event that the rules then refuse, that the mend is done, or why it is refused. `row` is the
//! number of a row.

ghost use Rattle.std.specs.Prelude.{◌≡◌, IfOk, string_bytes};
ghost use Rattle.serde_json.specs.View.{view};
ghost use Rattle.ucl_json.specs.Lines.{IsLineOf};
ghost use Rattle.ucl_json.specs.Mended.{left_out_value, mend_refused_value, mended_value};

use crate::line::format_line;
use serde_json::{Value, json};
use std::alloc::{AllocError, Global};
use ucl_board::Entry;
use ucl_word::Refusal;

/// What a mend came to: its row, the row whose event it takes back, if any, and how many events then stand, in which edition.
#[derive(Clone, Copy, Debug, PartialEq, Eq)]
pub struct MendReply {
    /// The number of the row on which the mend came.
    pub row: u64,
    /// The row whose event the mend takes back, if it names one.
    pub without: Option<u32>,
    /// How many events the rules then refuse.
    pub left_out: u16,
    /// The version of the board after the mend.
    pub version: u16,
    /// The edition of the board after the mend.
    pub edition: u16,
}

/// Returns an event that a mend leaves out, as a value of JSON: `row` is the row that entered it, and `refusal` why the rules then refuse it.
fn left_out_value(
    alloc: Global,
    row: u32,
    entry: &Entry,
    refusal: Refusal,
) -> Result<Value, AllocError>
    ensures { IfOk result (λ value. view value ≡ left_out_value row entry.now refusal) }
{
    json!(in alloc; {
        "row": row,
        "reply": "left-out",
        "reporter": entry.reporter.get(),
        "match": entry.game.get(),
        "event": entry.kind.name(),
        "code": refusal.code(),
        "name": refusal.name()
    })
}

/// Returns the line for an event that a mend leaves out: `row` is the row that entered it, and `refusal` why the rules then refuse it.
///
/// # Errors
///
/// If there is no memory.
pub fn left_out_json(
    alloc: Global,
    row: u32,
    entry: &Entry,
    refusal: Refusal,
) -> Result<String, AllocError>
    ensures { IfOk result (λ line.
        IsLineOf (left_out_value row entry.now refusal) (string_bytes line)) }
{
    let value = left_out_value(alloc, row, entry, refusal)?;
    format_line(alloc, &value)
}

/// Returns the answer to a mend, as a value of JSON.
fn mended_value(alloc: Global, reply: &MendReply) -> Result<Value, AllocError>
    ensures { IfOk result (λ value. view value ≡ mended_value reply.now.row reply.now.without
        reply.now.left_out reply.now.edition reply.now.version) }
{
    match reply.without {
        Some(without) => json!(in alloc; {
            "row": reply.row,
            "reply": "mended",
            "without": without,
            "left_out": reply.left_out,
            "version": reply.version,
            "edition": reply.edition
        }),
        None => json!(in alloc; {
            "row": reply.row,
            "reply": "mended",
            "left_out": reply.left_out,
            "version": reply.version,
            "edition": reply.edition
        }),
    }
}

/// Returns the line that answers a mend.
///
/// # Errors
///
/// If there is no memory.
#[tactic(auto, using(crate::proofs::Places::mended_flat))]
pub fn mended_json(alloc: Global, reply: &MendReply) -> Result<String, AllocError>
    ensures { IfOk result (λ line. IsLineOf (mended_value reply.now.row reply.now.without
        reply.now.left_out reply.now.edition reply.now.version) (string_bytes line)) }
{
    let value = mended_value(alloc, reply)?;
    format_line(alloc, &value)
}

/// Returns a mend that is refused, as a value of JSON, by the code and the name of its refusal.
fn mend_refused_value(alloc: Global, row: u64, code: u8, name: &str) -> Result<Value, AllocError>
    ensures { IfOk result (λ value. view value ≡ mend_refused_value row code name.now) }
{
    json!(in alloc; {"row": row, "reply": "refused", "code": code, "name": name})
}

/// Returns the line of a mend that is refused, by the code and the name of its refusal.
///
/// # Errors
///
/// If there is no memory.
pub fn mend_refused_json(
    alloc: Global,
    row: u64,
    code: u8,
    name: &str,
) -> Result<String, AllocError>
    ensures { IfOk result (λ line.
        IsLineOf (mend_refused_value row code name.now) (string_bytes line)) }
{
    let value = mend_refused_value(alloc, row, code, name)?;
    format_line(alloc, &value)
}
