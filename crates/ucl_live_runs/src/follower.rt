//! A follower (`ucl_follow`): it reads lines, and shows each board state that is newer than all before.

ghost use Rattle.std.specs.Prelude.{◌≡◌, ◌≤◌, ⊤, [], false, length, replicate, IfOk};
ghost use Rattle.ucl_rows.specs.declared.fault.RunFault.TheVariants.{OutOfMemory};
ghost use Rattle.ucl_screen.specs.Screen.{IsGroup};
ghost use Rattle.ucl_rows.specs.Answers.{bytes_of};
ghost use Rattle.ucl_live_runs.specs.Follow.{is_later, is_newer, line_output, output_text, unseen};
ghost use Rattle.ucl_live_runs.specs.FollowerRuns.{IsHandled, follow_state_of, shape_of, follow_due};
ghost use Rattle.ucl_json.specs.BoardLines.{parse_board_line};
ghost use Rattle.ucl_live_runs.specs.Driven.{IsDriven};

use crate::header::is_asked;
use crate::passed_over::report_once;
use std::alloc::Global;
use ucl_command::{FollowArgs, FollowShape, Format};
use ucl_io::{LineHandler, LoggedIo, MAX_KEPT_BYTES, ServeFault, serve_lines};
use ucl_json::{BoardState, parse_board_line};
use ucl_order::Profile;
use ucl_rows::{Answer, RunFault, matches_answer, screen_text};
use ucl_screen::{Sink, Source};
use ucl_word::OutOfMemory;

/// Returns the text that shows the board state of line `row`: its screen, as text or JSON, or its matches. Fails only if out of memory.
fn show(
    alloc: Global,
    shape: FollowShape,
    row: u64,
    board_state: &BoardState,
) -> Result<Answer, OutOfMemory>
    requires { IsGroup board_state.now.header.group }
    ensures { IfOk result (λ answer. bytes_of answer ≡ output_text shape row board_state.now) }
{
    let header = board_state.header;
    let board = &board_state.board;
    let roster = &board_state.roster;
    match shape {
        FollowShape::Text => {
            let text = screen_text(alloc, Format::Text, header, row, board, roster)?;
            Ok(Answer::Long(text))
        }
        FollowShape::Json => {
            let text = screen_text(alloc, Format::Json, header, row, board, roster)?;
            Ok(Answer::Long(text))
        }
        FollowShape::Matches => matches_answer(alloc, Format::Text, row, board, roster),
    }
}

/// A follower between two lines: the form in which it shows board states, what it has followed, and the sink `others`, which gets a line
/// for each group and tie-break order that is passed over, once: `reported` marks them.
#[derive(Drop)]
pub struct Follower<T> {
    alloc: Global,
    shape: FollowShape,
    pub(crate) follow_state: FollowState,
    others: T,
    reported: [bool; 16],
}

impl<T> Follower<T> {
    /// Creates the follower before its first line, with the group and the tie-break order that the arguments ask for, if any.
    pub(crate) fn new(alloc: Global, args: FollowArgs, others: T) -> Follower<T>
        ensures follow_state { follow_state_of result ≡ unseen args }
        ensures shape { shape_of result ≡ args.shape }
        ensures reported { result.reported ≡ replicate 16 false }
    {
        Follower {
            alloc,
            shape: args.shape,
            follow_state: FollowState {
                group: args.group,
                profile: args.profile,
                newest: None,
                lines: 0,
                shown: 0,
            },
            others,
            reported: [false; 16],
        }
    }
}

impl<T: Sink> LineHandler for Follower<T> {
    /// What it writes for a line.
    type Answer = Answer;

    /// Why it cannot write for a line: it is out of memory.
    type Fault = RunFault;

    ghost ready = { λ _. ⊤ };

    ghost answers = { λ m row line n text. IsHandled T.Sink m n line
        × (text ≡ line_output (shape_of m) (follow_state_of m) line) };

    ghost stops = { λ m _ line n fault. (fault ≡ OutOfMemory) × (length line ≤ 4096) × (n ≡ m) };

    ghost ends = { λ m row begun n text. (n ≡ m) × (text ≡ []) };

    ghost stops_at_end = { λ _ _ _ _ _. ⊥ };

    /// Shows the line's board state if it is newer than all before; reports it if of another group or order. Fails if out of memory.
    fn answer(&mut self, _row: u64, line: &[u8], text: &mut Answer) -> Result<(), RunFault> {
        let told = parse_board_line(self.alloc, line)?;
        let row = self.follow_state.lines.saturating_add(1);
        let (group, profile) = (self.follow_state.group, self.follow_state.profile);
        match told {
            Some(board_state) if !is_asked(group, profile, board_state.header) => {
                report_once(
                    &mut self.reported,
                    &mut self.others,
                    row,
                    board_state.header,
                );
                *text = Answer::nothing();
                self.follow_state.lines = row;
            }
            Some(board_state) if is_newer(&self.follow_state.newest, &board_state) => {
                *text = show(self.alloc, self.shape, row, &board_state)?;
                self.follow_state.group = Some(board_state.header.group);
                self.follow_state.profile = Some(board_state.header.profile);
                self.follow_state.newest = Some(board_state);
                self.follow_state.lines = row;
                self.follow_state.shown = self.follow_state.shown.saturating_add(1);
            }
            _ => {
                *text = Answer::nothing();
                self.follow_state.lines = row;
            }
        }
        Ok(())
    }

    /// Writes nothing for `begun`, a last line without a line feed: it is not followed.
    fn end(&mut self, _row: u64, _begun: &[u8], text: &mut Answer) -> Result<(), RunFault> {
        *text = Answer::nothing();
        Ok(())
    }
}

/// What a follower has followed: the group and the tie-break order, if they were asked for or a board state was shown; the newest board
/// state; how many lines came, and how many of them were shown, each at most `u64::MAX`.
#[derive(Drop)]
pub(crate) struct FollowState {
    pub(crate) group: Option<u8>,
    pub(crate) profile: Option<Profile>,
    pub(crate) newest: Option<BoardState>,
    pub(crate) lines: u64,
    pub(crate) shown: u64,
}

/// Returns whether `board_state` is of a later edition than `other`, or of the same edition and a higher version.
fn is_later(board_state: &BoardState, other: &BoardState) -> bool
    ensures { result ≡ is_later board_state.now other.now }
{
    let (edition, version) = (board_state.header.edition, board_state.board.version());
    let (other_edition, other_version) = (other.header.edition, other.board.version());
    other_edition < edition || (other_edition == edition && other_version < version)
}

/// Returns whether a board state is later than `newest`, the newest that was shown, or none was shown.
pub(crate) fn is_newer(newest: &Option<BoardState>, board_state: &BoardState) -> bool
    ensures { result ≡ is_newer newest.now board_state.now }
{
    match newest {
        None => true,
        Some(newest) => is_later(board_state, newest),
    }
}

/// How many lines a follower has read, and how many of them it has shown: all others were passed over. Each number is at most `u64::MAX`.
#[derive(Clone, Copy, Debug, PartialEq, Eq)]
pub struct FollowSummary {
    /// The lines that had an end, a line feed.
    pub lines: u64,
    /// The lines whose board state was shown.
    pub shown: u64,
}

/// Follows the lines of a source until it ends: shows each board state that is newer than all before at once, before it asks for more, and
/// passes over each other line. No clause says that `others` gets nothing before the first line or after the last.
///
/// The group and the tie-break order are those that `args` asks for, else those of the first board state. A board state of another group or
/// order is passed over, and the sink `others` gets a line for each such pair, at once. A line carries a board state if it is JSON of at
/// most 4,096 bytes whose members `group`, `order`, `clubs` and `words` are those of a board: each screen of a session. Memory is taken for
/// one line at a time, and none is kept.
///
/// # Errors
///
/// Nothing that comes in is an error. If the source fails, all lines that had an end are followed. If the sink fails, a prefix of the text
/// is out, and the error has its length. If there is no memory for a line, the lines before are followed. `TooLong` comes after more than
/// 2^62 bytes, which no input has.
pub fn follow_run<S: Source, W: Sink, T: Sink + Drop>(
    alloc: Global,
    args: FollowArgs,
    others: T,
    logged_io: &mut LoggedIo<S, W, Follower<T>>,
) -> Result<FollowSummary, ServeFault<RunFault>>
    ensures { IsDriven (follow_due args) S.Source W.Sink logged_io.old logged_io.new result }
{
    let mut follower = Follower::new(alloc, args, others);
    serve_lines(&mut follower, MAX_KEPT_BYTES, logged_io)?;
    Ok(FollowSummary {
        lines: follower.follow_state.lines,
        shown: follower.follow_state.shown,
    })
}
