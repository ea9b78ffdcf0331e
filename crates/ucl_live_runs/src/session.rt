//! A session of `ucl_live`, which answers the row on each line of its input. Its first rows name its header (group, tie-break order,
//! edition) and its four clubs; then its board is open. A mend takes an accepted event back, or puts a club in its slot, in a later edition.

ghost use Rattle.std.specs.Prelude.{◌≡◌, ◌+◌, ⊤, IfErr, IfOk, OnOk};
ghost use Rattle.ucl_rows.specs.Answers.{bytes_of};
ghost use Rattle.ucl_rows.specs.BadRows.{shown_text};
ghost use Rattle.ucl_rows.specs.Rows.{said_on};
ghost use Rattle.ucl_live_runs.specs.SessionRuns.{Closes, HasNoAnswer, HasNoEnd, session_due, session_of};
ghost use Rattle.ucl_live_runs.specs.LiveText.{answer_said, next, start_of};
ghost use Rattle.ucl_live_runs.specs.Driven.{IsDriven};

use crate::config::{Config, Line};
use crate::header::{HeaderState, asked_header};
use crate::live_fault::LiveFault;
use crate::phase::{Phase, with_club, with_first};
use csv::ByteRecord;
use std::alloc::Global;
use std::mem;
use ucl_command::LiveArgs;
use ucl_io::{LineHandler, LoggedIo, ServeFault, serve_lines};
use ucl_rows::{Answer, MAX_ROW_LINE_BYTES, RowFields, plain_row, read_row};
use ucl_screen::{Sink, Source};

/// A session between two lines: its options, the header of its board, and its phase (how far its first rows are).
#[derive(Drop)]
pub struct Session {
    config: Config,
    heading: HeaderState,
    phase: Phase,
}

impl Session {
    /// Creates the session before the first line, with these options: no club is named.
    pub fn new(alloc: Global, options: LiveArgs) -> Session
        ensures { session_of result 1 ≡ start_of options }
    {
        let heading = HeaderState {
            header: asked_header(&options),
        };
        Session {
            config: Config { alloc, options },
            heading,
            phase: Phase::AwaitingHeader,
        }
    }

    /// Answers a line of any form. Before the board is open, the line has to name the group or a club, and its answer is empty.
    fn answer_other(&mut self, row: u64, text: &[u8], answer: &mut Answer) -> Result<(), LiveFault>
        ensures next { OnOk result (session_of self.new (row + 1) ≡ next (session_of self.old row) (said_on row text.now)) }
        ensures text { OnOk result (bytes_of answer.new
            ≡ answer_said (session_of self.old row) (said_on row text.now) (shown_text text.now)) }
        ensures stops { IfErr result (HasNoAnswer (session_of self.old row) text.now) }
    {
        let mut record = ByteRecord::new(self.config.alloc);
        let Some(said) = read_row(self.config.alloc, row, text, &mut record)? else {
            *answer = Answer::nothing();
            return Ok(());
        };
        let line = Line { row, said, text };
        if let Phase::Open(table) = &mut self.phase {
            table.answer(&self.config, &mut self.heading, &line, answer)?;
            return Ok(());
        }
        *answer = Answer::nothing();
        self.phase = match mem::replace(&mut self.phase, Phase::AwaitingHeader) {
            Phase::AwaitingHeader => with_first(&self.config, &line, &mut self.heading)?,
            Phase::AwaitingClubs(clubs) => with_club(self.config.alloc, &line, clubs)?,
            Phase::Open(table) => Phase::Open(table),
        };
        Ok(())
    }
}

impl LineHandler for Session {
    /// The answer to a line.
    type Answer = Answer;

    /// Why there is no answer to a line: out of memory, or a club or the group is not named as it has to be.
    type Fault = LiveFault;

    ghost ready = { λ _. ⊤ };

    ghost answers = { λ m row line n text.
        (session_of n (row + 1) ≡ next (session_of m row) (said_on row line))
        × (text ≡ answer_said (session_of m row) (said_on row line) (shown_text line)) };

    ghost stops = { λ m row line _ fault. HasNoAnswer (session_of m row) line fault };

    ghost ends = { λ m row begun _ text. Closes (session_of m row) begun text };

    ghost stops_at_end = { λ m row begun _ fault. HasNoEnd (session_of m row) begun fault };

    /// Answers a line: an empty one gets an empty answer, and one of several rows, or too long, is a bad row. Until the board is open a row
    /// names the group or a club, and its answer is empty.
    fn answer(&mut self, row: u64, text: &[u8], answer: &mut Answer) -> Result<(), LiveFault> {
        if let Phase::Open(table) = &mut self.phase {
            if let Some(four) = plain_row(row, text) {
                let said = RowFields::Four(four);
                let line = Line { row, said, text };
                table.answer(&self.config, &mut self.heading, &line, answer)?;
                return Ok(());
            }
        }
        self.answer_other(row, text, answer)
    }

    /// Answers `begun`, a last line without a line feed, if it has a byte. Fails if a club is missing at the end.
    fn end(&mut self, row: u64, begun: &[u8], answer: &mut Answer) -> Result<(), LiveFault> {
        if begun.is_empty() {
            *answer = Answer::nothing();
            return match self.phase.missing(row) {
                Some(fault) => Err(fault),
                None => Ok(()),
            };
        }
        self.answer(row, begun, answer)?;
        match self.phase.missing(row.saturating_add(1)) {
            Some(fault) => Err(fault),
            None => Ok(()),
        }
    }
}

/// Answers the rows of a source until it ends: each at once, before it asks for more.
///
/// The first four lines that are not empty name the clubs; the row of a group may come before them. Then come events and requests to show
/// the board, in any order and without an end, and mends.
///
/// # Errors
///
/// If the source fails, the answers before are out, and the error says how many bytes came. If the sink fails, it says how many bytes of
/// the answers are out. If there is no memory for the answer to a line, those before it are out, whole. Memory is needed only for the names
/// of clubs, at the fourth club for all events that can stand, for screens, words and matches, for each answer in JSON, and to read a line
/// with a field that begins with a quote and does not end at the next one. If the clubs have a fault, nothing is out. `TooLong` comes after
/// more than 2^62 bytes, which no session has.
pub fn live_run<S: Source, W: Sink>(
    alloc: Global,
    options: LiveArgs,
    logged_io: &mut LoggedIo<S, W, Session>,
) -> Result<(), ServeFault<LiveFault>>
    ensures { IsDriven (session_due (start_of options)) S.Source W.Sink logged_io.old logged_io.new result }
{
    let mut session = Session::new(alloc, options);
    serve_lines(&mut session, MAX_ROW_LINE_BYTES, logged_io)?;
    Ok(())
}
