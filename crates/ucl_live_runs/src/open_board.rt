//! The board of a session whose four clubs are named, and what it answers to a row: the row enters an event, asks to show the board, or
//! mends it.

ghost use Rattle.std.specs.Prelude.{◌≡◌, ◌⊎◌, ◌+◌, ◌≤◌, ◌++◌, if◌then◌else◌, [], IfErr, IfOk, Ok, OnOk, length, string_bytes, true};
ghost use Rattle.ucl_command.specs.declared.options.Format.TheVariants.{Json};
ghost use Rattle.ucl_screen.specs.Screen.{IsGroup};
ghost use Rattle.ucl_rows.specs.Answers.{bytes_of};
ghost use Rattle.ucl_rows.specs.BadRows.{shown_text};
ghost use Rattle.ucl_rows.specs.Rows.{fields_seen};
ghost use Rattle.ucl_live_runs.specs.SessionRuns.{RequestNeedsMemory, RowNeedsMemory, session_at};
ghost use Rattle.ucl_live_runs.specs.LiveText.{answer_said, mend_answer, mended_stage, next, screen_if, stage};
ghost use Rattle.ucl_live_runs.specs.Mends.{board_in, clubs_after, edition_after, edition_reply, events_after, left_by_format, mended_answer, row_named};
ghost use Rattle.ucl_live_runs.specs.Phases.{open_at};
ghost use Rattle.ucl_mends.specs.declared.mend_refusal.MendRefusal.{MendRefusal};
ghost use Rattle.ucl_live_runs.specs.declared.phase.Phase.TheVariants.{Open};
ghost use Rattle.ucl_live_runs.specs.declared.request.Request.TheVariants.{Mends};

use crate::config::{Config, Line};
use crate::header::HeaderState;
use crate::mend_answer::{left_out_lines, mend_refused_answer, mended_line};
use crate::request::{Mend, Request, request_of};
use ucl_command::Format;
use ucl_json::{BoardHeader, EventReply, MendReply, mended_json};
use ucl_mends::{LeftOut, MendRefusal, StandingEvents};
use ucl_order::Roster;
use ucl_rows::{
    Answer, bad_answer, line_answer, matches_answer, reply_answer, screen_text, words_answer,
};
use ucl_word::OutOfMemory;

/// The board of a session: its roster, and the events that stand.
#[derive(Drop)]
pub(crate) struct OpenBoard {
    pub(crate) roster: Roster,
    pub(crate) events: StandingEvents,
}

/// Returns the edition after this one. `LastEdition` if this is the last.
fn edition_after(edition: u16) -> Result<u16, MendRefusal>
    ensures { result ≡ edition_after edition }
{
    if edition == u16::MAX {
        return Err(MendRefusal::LastEdition);
    }
    Ok(edition + 1)
}

impl OpenBoard {
    /// Returns the edition after a mend, or why it is refused.
    fn mend_reply(&self, edition: u16, mend: &Mend<'_>) -> Result<u16, MendRefusal>
        ensures { result ≡ edition_reply edition self.now.events mend.now }
    {
        match mend {
            Mend::Without(row) => self.events.mend_reply(edition, *row),
            Mend::As(later) if edition < *later => Ok(*later),
            Mend::As(_) => Err(MendRefusal::LastEdition),
            Mend::Club(_) => edition_after(edition),
        }
    }

    /// Does a mend that is not refused, and returns the events that it leaves out, if the answers are in JSON; else none. Fails only if out
    /// of memory, and only in JSON.
    fn change(&mut self, config: &Config, mend: &Mend<'_>) -> Result<Vec<LeftOut>, OutOfMemory>
        ensures done { OnOk result (self.new ≡ record self.old {
          roster = clubs_after self.old.roster mend.now;
          events = events_after self.old.events mend.now;
        }) }
        ensures left { IfOk result (λ left. left.items ≡ left_by_format config.now.options.format self.old.events mend.now) }
        ensures few { IfOk result (λ left. length left.items ≤ 49140) }
        ensures memory { IfErr result (λ _. config.now.options.format ≡ Json) }
    {
        let alloc = config.alloc;
        match mend {
            Mend::Without(row) => {
                let listed = matches!(config.options.format, Format::Json);
                Ok(self.events.mend(alloc, *row, listed)?)
            }
            Mend::As(_) => Ok(Vec::new(alloc)),
            Mend::Club(club) => {
                club.put(&mut self.roster);
                Ok(Vec::new(alloc))
            }
        }
    }

    /// Returns the screen that follows an answer; an empty text if it is not `wanted`, or the options ask for none.
    fn screen_after(
        &self,
        config: &Config,
        header: BoardHeader,
        row: u64,
        wanted: bool,
    ) -> Result<String, OutOfMemory>
        requires { IsGroup header.group }
        ensures memory { IfErr result (λ _. (config.now.options.screens ≡ true) × (wanted ≡ true)) }
        ensures text { IfOk result (λ text. string_bytes text
            ≡ (if wanted then screen_if config.now.options header row self.now.roster (board_in self.now.events) else [])) }
    {
        if !wanted || !config.options.screens {
            return Ok(String::new(config.alloc));
        }
        screen_text(
            config.alloc,
            config.options.format,
            header,
            row,
            self.events.board(),
            &self.roster,
        )
    }

    /// Returns the answer to a mend that was done, in the edition of `header`. Fails only if out of memory.
    fn mended_answer(
        &self,
        config: &Config,
        header: BoardHeader,
        row: u64,
        mend: &Mend<'_>,
        left: &[LeftOut],
    ) -> Result<Answer, OutOfMemory>
        requires letter { IsGroup header.group }
        requires few { length left.now ≤ 49140 }
        ensures memory { IfErr result (λ _. (config.now.options.format ≡ Json) ⊎ (config.now.options.screens ≡ true)) }
        ensures text { IfOk result (λ answer. bytes_of answer
            ≡ mended_answer config.now.options.format row header.edition left.now (row_named mend.now) self.now.events
            ++ screen_if config.now.options header row self.now.roster (board_in self.now.events)) }
    {
        let screen = self.screen_after(config, header, row, true)?;
        match config.options.format {
            Format::Text => {
                let line = mended_line(row, header.edition, self.events.version());
                Ok(line_answer(config.alloc, line, screen.as_str())?)
            }
            Format::Json => {
                let mut text = left_out_lines(config.alloc, left)?;
                let reply = MendReply {
                    row,
                    without: match mend {
                        Mend::Without(named) => Some(*named),
                        _ => None,
                    },
                    left_out: left.len() as u16,
                    version: self.events.version(),
                    edition: header.edition,
                };
                text.push_str(mended_json(config.alloc, &reply)?.as_str())?;
                text.push_str(screen.as_str())?;
                Ok(Answer::Long(text))
            }
        }
    }

    /// Mends the board, and returns the answer. Fails only if out of memory.
    fn mend(
        &mut self,
        config: &Config,
        heading: &mut HeaderState,
        row: u64,
        mend: &Mend<'_>,
    ) -> Result<Answer, OutOfMemory>
        ensures header { OnOk result (heading.new.header ≡ (mended_stage heading.old.header self.old.roster self.old.events mend.now
            (edition_reply heading.old.header.edition self.old.events mend.now)).header) }
        ensures board { OnOk result (open_at self.new.roster self.new.events ≡ (mended_stage heading.old.header self.old.roster self.old.events mend.now
            (edition_reply heading.old.header.edition self.old.events mend.now)).phase) }
        ensures text { IfOk result (λ answer. bytes_of answer ≡ mend_answer config.now.options heading.old.header row self.old.roster self.old.events
            mend.now (edition_reply heading.old.header.edition self.old.events mend.now)) }
        ensures memory { IfErr result (λ _. (config.now.options.format ≡ Json)
            ⊎ RequestNeedsMemory config.now.options heading.old.header self.old.events (Mends mend.now)) }
    {
        match self.mend_reply(heading.header.edition, mend) {
            Err(refusal) => Ok(mend_refused_answer(
                config.alloc,
                config.options.format,
                row,
                refusal,
            )?),
            Ok(later) => {
                let left = self.change(config, mend)?;
                let mut header = heading.header;
                header.edition = later;
                *heading = HeaderState { header };
                self.mended_answer(config, header, row, mend, &left)
            }
        }
    }

    /// Puts the answer to a row in `answer`. Fails only if out of memory.
    pub(crate) fn answer(
        &mut self,
        config: &Config,
        heading: &mut HeaderState,
        line: &Line<'_, '_>,
        answer: &mut Answer,
    ) -> Result<(), OutOfMemory>
        ensures next { OnOk result (session_at config.now.options heading.new (line.now.row + 1) (Open self.new)
            ≡ next (session_at config.now.options heading.old line.now.row (Open self.old)) (fields_seen line.now.said)) }
        ensures text { OnOk result (bytes_of answer.new
            ≡ answer_said (session_at config.now.options heading.old line.now.row (Open self.old))
            (fields_seen line.now.said) (shown_text line.now.text.now)) }
        ensures memory { IfErr result (λ _. RowNeedsMemory (session_at config.now.options heading.old line.now.row (Open self.old))
            (Ok (Open self.old)) (fields_seen line.now.said)) }
    {
        let alloc = config.alloc;
        let format = config.options.format;
        let header = heading.header;
        let row = line.row;
        *answer = match request_of(&line.said) {
            Request::Event(event) => {
                let before = self.events.version();
                let outcome = self.events.report(row, &event);
                let screen = self.screen_after(config, header, row, outcome.is_ok())?;
                let reply = EventReply {
                    row,
                    event: &event,
                    outcome,
                    edition: header.edition,
                    board: self.events.board(),
                };
                reply_answer(alloc, format, before, &reply, screen.as_str())?
            }
            Request::Bad(field) => bad_answer(alloc, format, row, field, line.text)?,
            Request::Screen => Answer::Long(screen_text(
                alloc,
                format,
                header,
                row,
                self.events.board(),
                &self.roster,
            )?),
            Request::Matches => {
                matches_answer(alloc, format, row, self.events.board(), &self.roster)?
            }
            Request::Words => words_answer(alloc, format, row, self.events.board())?,
            Request::Mends(mend) => self.mend(config, heading, row, &mend)?,
        };
        Ok(())
    }
}
