//! The run of `ucl_night feed`, which enters a script on a board of its own.

ghost use Rattle.std.specs.Prelude.{◌≡◌, ◌≤◌, ◌++◌, List, length, IfOk, OnOk};
ghost use Rattle.ucl_board.specs.declared.entry.Entry.{Entry};
ghost use Rattle.ucl_board.specs.Words.{max_version};
ghost use Rattle.ucl_board.specs.History.{after_attempt};
ghost use Rattle.ucl_screen.specs.Input.{max_bytes};
ghost use Rattle.ucl_screen.specs.Events.{IsBoardAfter, attempt_of};
ghost use Rattle.ucl_rows.specs.Lines.{reply_line};
ghost use Rattle.ucl_runs.specs.Feed.{feed_text};
ghost use Rattle.ucl_runs.specs.Program.{IsRun, feed_task, streams_at};

use std::alloc::{AllocError, Global};
use ucl_board::Board;
use ucl_rows::{RunFault, put_text, reply_line, word_lines};
use ucl_screen::{FIRST_EVENT_ROW, NightEvent, Sink, Source, read_night};

/// Room for a reply line, in bytes, which few exceed.
const REPLY_BYTES: usize = 32;

/// Enters the event of a row on a board of this version, appends a line with the reply to `out`, and returns the version afterwards.
#[tactic(auto, unfolding(ucl_rows::specs::Lines::reply_line))]
fn push_reply(
    out: &mut Vec<u8>,
    board: &mut Board,
    version: u16,
    row: u64,
    event: &NightEvent,
) -> Result<u16, AllocError>
    requires { version ≤ max_version }
    ensures line { (h : List Entry) → IsBoardAfter h board.old version → OnOk result
        (out.new.items ≡ out.old.items ++ reply_line row h event.now.call) }
    ensures after { (h : List Entry) → IsBoardAfter h board.old version → IfOk result
        (IsBoardAfter (after_attempt h (attempt_of event.now)) board.new) }
{
    let reply = board.report(event.reporter, &event.call);
    let line = reply_line(row, event.call.game.get(), version, reply);
    out.extend_from_slice(line.as_str().as_bytes())?;
    match reply {
        Ok(_) => Ok(version + 1),
        Err(_) => Ok(version),
    }
}

/// Returns the text of `feed`: a line with the reply to each of these events, entered in turn on a fresh board, and the lines of its words.
fn feed_text(alloc: Global, events: &[NightEvent]) -> Result<Vec<u8>, AllocError>
    requires { length events.now ≤ max_bytes }
    ensures { IfOk result (λ text. text.items ≡ feed_text events.now) }
{
    let mut text = Vec::with_capacity(alloc, REPLY_BYTES * events.len())?;
    let mut board = Board::fresh();
    let mut version = 0;
    let mut row = u64::from(FIRST_EVENT_ROW);
    for event in events {
        version = push_reply(&mut text, &mut board, version, row, event)?;
        row += 1;
    }
    text.extend_from_slice(word_lines(&board).as_slice())?;
    Ok(text)
}

/// Reads a script from the source, enters its events on a fresh board, and writes the text of `feed` to the sink: a line with the reply to
/// each event, and then the lines of the twelve match words.
///
/// The whole input is read, by at most 4,194,306 calls of the source, before anything is written.
///
/// # Errors
///
/// If the source has failed, the input is refused or there is no memory, nothing is written. `WriteFailed` comes only if the sink has
/// failed: then exactly the first `written` bytes of the text went out.
pub fn feed_run<S: Source, W: Sink>(
    alloc: Global,
    source: &mut S,
    sink: &mut W,
) -> Result<(), RunFault>
    ensures { IsRun W.Sink feed_task (streams_at S.Source source.old sink.old)
        (streams_at S.Source source.new sink.new) result }
{
    let night = read_night(alloc, source)?;
    let text = feed_text(alloc, &night.events)?;
    put_text(sink, text.as_slice())
}
