//! The answers to single rows of an input, as text or as a line of JSON; `row` is the number of the row.

ghost use Rattle.std.specs.Prelude.{◌≡◌, ◌≢◌, ◌⊎◌, ◌<◌, ◌≤◌, ◌-◌, ◌^◌, ◌++◌, [], IfErr, IfOk, string_bytes};
ghost use Rattle.ucl_command.specs.declared.options.Format.TheVariants.{Json};
ghost use Rattle.arrayvec.specs.ArrayString.{array_string_len};
ghost use Rattle.ucl_word.specs.Names.{refusal_text};
ghost use Rattle.ucl_screen.specs.Screen.{IsGroup};
ghost use Rattle.ucl_rows.specs.Lines.{line_of_reply};
ghost use Rattle.ucl_rows.specs.BadRows.{shown_text};
ghost use Rattle.ucl_rows.specs.Answers.{bytes_of, bad_answer, matches_answer, reply_answer, screen_answer, words_answer};

use crate::bad_row::{BadField, shown_text};
use crate::words::word_lines;
use arrayvec::ArrayString;
use itoa::Buffer;
use std::alloc::{AllocError, Global};
use ucl_board::Board;
use ucl_command::Format;
use ucl_io::Text;
use ucl_json::{
    BoardHeader, EventReply, bad_row_json, edition_screen_json, matches_json, reply_json,
    words_json,
};
use ucl_order::Roster;
use ucl_screen::{matches, screen};
use ucl_word::{Accepted, OutOfMemory, Refusal};

/// The line that answers an event, in at most 64 bytes; it takes no memory of an allocator.
pub type ReplyLine = ArrayString<64>;

/// The text that answers a row.
#[derive(Drop)]
pub enum Answer {
    /// The line that answers an event, or no byte.
    Short(ReplyLine),
    /// Any text.
    Long(String),
    /// The twelve lines of the words of a board. They are not kept in place: each answer would be as large.
    Words(Vec<u8>),
}

impl Text for Answer {
    ghost bytes = { bytes_of };

    /// Creates an answer of no byte.
    fn new() -> Answer {
        Answer::nothing()
    }

    /// Returns the bytes of the answer.
    fn text(&self) -> &[u8] {
        match self {
            Answer::Short(line) => line.as_str().as_bytes(),
            Answer::Long(text) => text.as_str().as_bytes(),
            Answer::Words(lines) => lines.as_slice(),
        }
    }
}

impl Answer {
    /// Creates an answer of no byte.
    pub fn nothing() -> Answer
        ensures { bytes_of result ≡ [] }
    {
        Answer::Short(ReplyLine::new())
    }
}

/// Adds to a line the code of a refusal, its name and, if the event was stale, the event number that its match has.
fn push_refusal(line: &mut ReplyLine, refusal: Refusal)
    requires { array_string_len line.old ≤ 30 }
    ensures text { line.new.bytes ≡ line.old.bytes ++ refusal_text refusal }
    ensures short { array_string_len line.new ≤ 60 }
{
    line.push_str(Buffer::new().format(refusal.code()));
    line.push_str(" ");
    line.push_str(refusal.name());
    if let Some(found) = refusal.found() {
        line.push_str(" ");
        line.push_str(Buffer::new().format(found));
    }
}

/// Returns the line that answers the event of this row, of match `game`, if `before` events were accepted before it. It asks for no memory.
pub fn reply_line(row: u64, game: u8, before: u16, reply: Result<Accepted, Refusal>) -> ReplyLine
    requires { before < 2 ^ 16 - 1 }
    ensures { result.bytes ≡ line_of_reply row game before reply }
{
    let mut line = ArrayString::new();
    line.push_str(Buffer::new().format(row));
    match reply {
        Ok(accepted) => {
            line.push_str(" ok ");
            line.push_str(Buffer::new().format(game));
            line.push_str(" ");
            line.push_str(Buffer::new().format(accepted.number));
            line.push_str(" ");
            line.push_str(Buffer::new().format(before + 1));
            line.push_str("\n");
            line
        }
        Err(refusal) => {
            line.push_str(" refused ");
            push_refusal(&mut line, refusal);
            line.push_str("\n");
            line
        }
    }
}

/// Returns the answer that is this line and then a text, which may be empty. Only a text that is not empty needs memory.
///
/// # Errors
///
/// If there is no memory.
pub fn line_answer(alloc: Global, line: ReplyLine, more: &str) -> Result<Answer, AllocError>
    ensures text { IfOk result (λ answer. bytes_of answer ≡ line.bytes ++ more.now) }
    ensures memory { IfErr result (λ _. more.now ≢ []) }
{
    if more.is_empty() {
        return Ok(Answer::Short(line));
    }
    let mut text = String::new(alloc);
    text.push_str(line.as_str())?;
    text.push_str(more)?;
    Ok(Answer::Long(text))
}

/// Returns the answer to an event, before which `before` events were accepted: its reply, and then `screen`, which may be empty.
///
/// # Errors
///
/// If there is no memory. As text, an answer without a screen needs none.
pub fn reply_answer(
    alloc: Global,
    format: Format,
    before: u16,
    reply: &EventReply<'_>,
    screen: &str,
) -> Result<Answer, AllocError>
    requires before { before < 2 ^ 16 - 1 }
    ensures text { IfOk result (λ answer. bytes_of answer
        ≡ reply_answer format reply.now.edition reply.now.row reply.now.event.now before reply.now.outcome reply.now.board.now ++ screen.now) }
    ensures memory { IfErr result (λ _. (format ≡ Json) ⊎ (screen.now ≢ [])) }
{
    match format {
        Format::Text => {
            let line = reply_line(
                reply.row,
                reply.event.call.game.get(),
                before,
                reply.outcome,
            );
            line_answer(alloc, line, screen)
        }
        Format::Json => {
            let mut text = reply_json(alloc, reply)?;
            text.push_str(screen)?;
            Ok(Answer::Long(text))
        }
    }
}

/// Returns the answer to a bad row: as text a line with its number, in JSON also its first bad field and the start of its text.
///
/// # Errors
///
/// If there is no memory. As text, the answer needs none.
pub fn bad_answer(
    alloc: Global,
    format: Format,
    row: u64,
    field: BadField,
    text: &[u8],
) -> Result<Answer, AllocError>
    ensures text { IfOk result
        (λ answer. bytes_of answer ≡ bad_answer format row field (shown_text text.now)) }
    ensures memory { IfErr result (λ _. format ≡ Json) }
{
    match format {
        Format::Text => {
            let mut line = ArrayString::new();
            line.push_str(Buffer::new().format(row));
            line.push_str(" refused 20 bad-row\n");
            Ok(Answer::Short(line))
        }
        Format::Json => Ok(Answer::Long(bad_row_json(alloc, row, field.name(), shown_text(text))?)),
    }
}

/// Returns the text that is the screen of a board, the table of the group as it stands, as text or as a line of JSON.
///
/// # Errors
///
/// If there is no memory.
pub fn screen_text(
    alloc: Global,
    format: Format,
    header: BoardHeader,
    row: u64,
    board: &Board,
    roster: &Roster,
) -> Result<String, OutOfMemory>
    requires { IsGroup header.group }
    ensures { IfOk result (λ text.
        string_bytes text ≡ screen_answer format header row roster.now board.now) }
{
    match format {
        Format::Text => screen(alloc, board, roster, header.group, header.profile),
        Format::Json => Ok(edition_screen_json(alloc, row, board, roster, header)?),
    }
}

/// Returns the answer that lists the twelve matches of a board as they stand.
///
/// # Errors
///
/// If there is no memory.
pub fn matches_answer(
    alloc: Global,
    format: Format,
    row: u64,
    board: &Board,
    roster: &Roster,
) -> Result<Answer, OutOfMemory>
    ensures { IfOk result (λ answer.
        bytes_of answer ≡ matches_answer format row roster.now board.now) }
{
    let text = match format {
        Format::Text => matches(alloc, board, roster)?,
        Format::Json => matches_json(alloc, row, board, roster)?,
    };
    Ok(Answer::Long(text))
}

/// Returns the answer that lists the twelve words of a board.
///
/// # Errors
///
/// If there is no memory.
pub fn words_answer(
    alloc: Global,
    format: Format,
    row: u64,
    board: &Board,
) -> Result<Answer, OutOfMemory>
    ensures { IfOk result (λ answer. bytes_of answer ≡ words_answer format row board.now) }
{
    match format {
        Format::Text => {
            let mut lines = Vec::new(alloc);
            lines.extend_from_slice(word_lines(board).as_slice())?;
            Ok(Answer::Words(lines))
        }
        Format::Json => Ok(Answer::Long(words_json(alloc, row, board)?)),
    }
}
