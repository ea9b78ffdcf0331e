//! `LiveBoard`: what every board is that threads share.

ghost use Rattle.std.specs.Prelude.{◌≡◌, MatchResult, Result, ⊤};
ghost use Rattle.ucl_word.specs.declared.event.EventCall.{EventCall};
ghost use Rattle.ucl_word.specs.declared.event.Accepted.{Accepted};
ghost use Rattle.ucl_word.specs.declared.refusal.Refusal.{Refusal};
ghost use Rattle.ucl_live_board.specs.LiveRecords.{LiveReported, LiveRead, LiveSplit, LiveFull, LiveMet};
ghost use Rattle.ucl_live_board.specs.Passes.{PassView, Enlistment, reporter_figures};

use crate::errors::TooManyReporters;
use std::sync::Wait;
use ucl_board::Reading;
use ucl_word::{Accepted, EventCall, Refusal, ReporterNo};

/// The greatest number of reporters that a board can have: there are as many values of `ReporterNo`.
pub const MAX_REPORTERS: u64 = 255;

/// A board that threads share. Each thread holds a pass, and what a call answers is said of what its pass has seen: a prefix
/// of one history of accepted events, the same for all passes (Herlihy and Wing, Linearizability).
///
/// A condition of every call is that its passes are of this board: they came, by `split` or `enlist`, from the pass that its `open` gave.
/// The calls that take `rt` may wait, and what they promise holds if they return.
pub trait LiveBoard: Sync {
    /// The pass of a reader: it reads, and can be split or enlisted.
    type ReaderPass: Send + Drop;

    /// The pass of a reporter: it enters events under its own number, and reads.
    type ReporterPass: Send + Drop;

    // A reader's pass is one of this board, and some state that satisfies the invariant of such boards has it.
    ghost is_reader: { Self → Self.ReaderPass → Type 0 };

    // A reporter's pass is one of this board, and some state that satisfies the invariant of such boards has it.
    ghost is_reporter: { Self → Self.ReporterPass → Type 0 };

    // What contracts know of a reader's pass.
    ghost reader: { Self.ReaderPass → PassView };

    // What contracts know of a reporter's pass.
    ghost reporter: { Self.ReporterPass → PassView };

    // What this kind of board promises of one report: the pass before it, the event, the reply, and the pass after it.
    ghost reported: { Self.ReporterPass → EventCall → Result Accepted Refusal → Self.ReporterPass → Type 0 } = { λ _ _ _ _. ⊤ };

    /// Enters an event under the number of the pass. An accepted event is the last that the pass has then seen.
    ///
    /// # Errors
    ///
    /// Returns the refusal of a board of one thread after all that the pass has then seen. Nothing is entered, and the pass may have seen more.
    ///
    /// ```rust
    /// let (board, pass) = CellBoard::open(&rt, rt.alloc())?;
    /// let mut reporter = board.enlist(&rt, pass).ok().ok_or("no number")?;
    /// let kick_off = EventCall {
    ///     game: MatchNo::new(1).ok_or("no match")?,
    ///     expected: 0,
    ///     kind: Kind::KickOff,
    /// };
    /// let reply = board.report(&rt, &mut reporter, &kick_off);
    /// assert_eq!(rt; reply, Ok(Accepted { number: 1 }));
    /// ```
    fn report<R: Wait>(
        &self,
        rt: &R,
        pass: &mut Self::ReporterPass,
        call: &EventCall,
    ) -> Result<Accepted, Refusal>
        requires { is_reporter self.now pass.old }
        ensures own { is_reporter self.now pass.new }
        ensures says { LiveReported (reporter pass.old) call.now result (reporter pass.new) }
        ensures reported { reported pass.old call.now result pass.new };

    /// Reads the board after a prefix of the history, no shorter than what the pass had seen, with the prefix's length as its version.
    ///
    /// ```rust
    /// let (board, mut reader) = CellBoard::open(&rt, rt.alloc())?;
    /// let reading = board.read(&rt, &mut reader);
    /// assert_eq!(rt; reading.version, 0);
    /// assert_eq!(rt; reading.board.words(), [0x2000000000000000; 12]);
    /// ```
    fn read<R: Wait>(&self, rt: &R, pass: &mut Self::ReaderPass) -> Reading
        requires { is_reader self.now pass.old }
        ensures own { is_reader self.now pass.new }
        ensures says { LiveRead (reader pass.old) result (reader pass.new) };

    /// Reads the board by a reporter's pass: after a prefix of the history, no shorter than the pass had seen, whose length is the version.
    ///
    /// ```rust
    /// let (board, pass) = CellBoard::open(&rt, rt.alloc())?;
    /// let mut reporter = board.enlist(&rt, pass).ok().ok_or("no number")?;
    /// let kick_off = EventCall {
    ///     game: MatchNo::new(1).ok_or("no match")?,
    ///     expected: 0,
    ///     kind: Kind::KickOff,
    /// };
    /// let accepted = board.report(&rt, &mut reporter, &kick_off).is_ok();
    /// let reading = board.read_own(&rt, &mut reporter);
    /// assert_eq!(rt; (accepted, reading.version), (true, 1));
    /// ```
    fn read_own<R: Wait>(&self, rt: &R, pass: &mut Self::ReporterPass) -> Reading
        requires { is_reporter self.now pass.old }
        ensures own { is_reporter self.now pass.new }
        ensures says { LiveRead (reporter pass.old) result (reporter pass.new) };

    /// Splits a second pass off a reader's, for another thread. The second is a reader's too, and has seen as much as the first.
    ///
    /// ```rust
    /// let (board, mut reader) = CellBoard::open(&rt, rt.alloc())?;
    /// let mut other = board.split(&rt, &mut reader);
    /// let reading = board.read(&rt, &mut reader);
    /// assert_eq!(rt; board.read(&rt, &mut other), reading);
    /// ```
    fn split<R: Wait>(&self, rt: &R, pass: &mut Self::ReaderPass) -> Self::ReaderPass
        requires { is_reader self.now pass.old }
        ensures own { is_reader self.now pass.new × is_reader self.now result }
        ensures says { LiveSplit (reader pass.old) (reader pass.new) (reader result) };

    /// Enlists: makes a reader's pass a reporter's, under a number that no other pass has.
    ///
    /// # Errors
    ///
    /// Returns `TooManyReporters` with the pass if 255 reporters are enlisted. The pass may have seen more.
    ///
    /// ```rust
    /// let (board, pass) = CellBoard::open(&rt, rt.alloc())?;
    /// let version = match board.enlist(&rt, pass) {
    ///     Ok(mut reporter) => board.read_own(&rt, &mut reporter).version,
    ///     Err(TooManyReporters(mut reader)) => board.read(&rt, &mut reader).version,
    /// };
    /// assert_eq!(rt; version, 0);
    /// ```
    fn enlist<R: Wait>(
        &self,
        rt: &R,
        pass: Self::ReaderPass,
    ) -> Result<Self::ReporterPass, TooManyReporters<Self::ReaderPass>>
        requires { is_reader self.now pass }
        ensures own { MatchResult result (λ enlisted. is_reporter self.now enlisted)
            (λ full. is_reader self.now full.0) }
        ensures says { MatchResult result
            (λ enlisted. Enlistment (reader pass) (reporter enlisted))
            (λ full. LiveFull (reader pass) (reader full.0)) };

    /// Tells the second pass all that the first has seen: it has then seen all that either had seen. The first is as it was.
    ///
    /// ```rust
    /// let (board, mut pass) = CellBoard::open(&rt, rt.alloc())?;
    /// let other = board.split(&rt, &mut pass);
    /// let mut first = board.enlist(&rt, pass).ok().ok_or("no number")?;
    /// let mut second = board.enlist(&rt, other).ok().ok_or("no number")?;
    /// board.meet(&rt, &mut first, &mut second);
    /// assert_eq!(rt; board.read_own(&rt, &mut second).version, 0);
    /// ```
    fn meet<R: Wait>(&self, rt: &R, first: &mut Self::ReporterPass, second: &mut Self::ReporterPass)
        requires { is_reporter self.now first.old × is_reporter self.now second.old }
        ensures own { is_reporter self.now first.new × is_reporter self.now second.new }
        ensures says { LiveMet (reporter first.old) (reporter first.new) (reporter second.old)
            (reporter second.new) };

    /// Returns the number of a reporter's pass, 1 to 255, under which it enters events.
    ///
    /// ```rust
    /// let (board, mut pass) = CellBoard::open(&rt, rt.alloc())?;
    /// let other = board.split(&rt, &mut pass);
    /// let first = board.enlist(&rt, pass).ok().ok_or("no number")?;
    /// let second = board.enlist(&rt, other).ok().ok_or("no number")?;
    /// assert_eq!(rt; CellBoard::number_of(&first).get(), 1);
    /// assert_eq!(rt; CellBoard::number_of(&second).get(), 2);
    /// ```
    fn number_of(pass: &Self::ReporterPass) -> ReporterNo
        ensures { result ≡ (reporter_figures (reporter pass.now)).number };

    /// Returns how many events of a reporter's pass were accepted.
    ///
    /// ```rust
    /// let (board, pass) = CellBoard::open(&rt, rt.alloc())?;
    /// let mut reporter = board.enlist(&rt, pass).ok().ok_or("no number")?;
    /// let kick_off = EventCall {
    ///     game: MatchNo::new(1).ok_or("no match")?,
    ///     expected: 0,
    ///     kind: Kind::KickOff,
    /// };
    /// assert!(rt; board.report(&rt, &mut reporter, &kick_off).is_ok());
    /// assert!(rt; board.report(&rt, &mut reporter, &kick_off).is_err());
    /// assert_eq!(rt; CellBoard::accepted_of(&reporter), 1);
    /// ```
    fn accepted_of(pass: &Self::ReporterPass) -> u16
        ensures { result ≡ (reporter_figures (reporter pass.now)).accepted };
}
