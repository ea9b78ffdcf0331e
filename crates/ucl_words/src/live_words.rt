//! The word board is a `LiveBoard`. None of these calls waits.

ghost use Rattle.std.specs.Prelude.{◌≡◌, MatchResult};
ghost use Rattle.ucl_live_board.specs.Passes.{reporter_figures};
ghost use Rattle.ucl_words.specs.WordViews.{pass_view_of};
ghost use Rattle.ucl_words.specs.WordRecords.{WordReported, WordRead, WordSplit, WordEnlisted, WordFull, WordMet, IsWordPassOf};

use crate::board::WordBoard;
use crate::passes::{WordReaderPass, WordReporterPass};
use std::sync::Wait;
use ucl_board::Reading;
use ucl_live_board::{LiveBoard, TooManyReporters};
use ucl_word::{Accepted, EventCall, Refusal, ReporterNo};

/// Each call calls the board's own one of the name with `_now`, which takes no `rt` and cannot wait, and promises what that one does.
impl LiveBoard for WordBoard {
    type ReaderPass = WordReaderPass;

    type ReporterPass = WordReporterPass;

    ghost is_reader = { IsWordPassOf };

    ghost is_reporter = { IsWordPassOf };

    ghost reader = { λ pass. pass_view_of pass.pass };

    ghost reporter = { λ pass. pass_view_of pass.pass };

    ghost reported = { WordReported };

    /// Enters the event `call` under the number of the pass, by `report_now`; answers the refusal if the rules of a match refuse it.
    fn report<R: Wait>(
        &self,
        _rt: &R,
        pass: &mut WordReporterPass,
        call: &EventCall,
    ) -> Result<Accepted, Refusal>
        requires { pass.old.board ≡ self.now }
        ensures own { IsWordPassOf self.now pass.new }
        ensures reported { WordReported pass.old call.now result pass.new }
    {
        self.report_now(pass, call)
    }

    /// Reads the board and its version by a reader's pass, by `read_now`.
    fn read<R: Wait>(&self, _rt: &R, pass: &mut WordReaderPass) -> Reading
        requires { pass.old.board ≡ self.now }
        ensures own { IsWordPassOf self.now pass.new }
        ensures read { WordRead pass.old result pass.new }
    {
        self.read_now(pass)
    }

    /// Reads the board and its version by a reporter's pass, by `read_own_now`.
    fn read_own<R: Wait>(&self, _rt: &R, pass: &mut WordReporterPass) -> Reading
        requires { pass.old.board ≡ self.now }
        ensures own { IsWordPassOf self.now pass.new }
        ensures read { WordRead pass.old result pass.new }
    {
        self.read_own_now(pass)
    }

    /// Splits a second reader's pass, for another thread, off `pass`, by `split_now`.
    fn split<R: Wait>(&self, _rt: &R, pass: &mut WordReaderPass) -> WordReaderPass
        requires { IsWordPassOf self.now pass.old }
        ensures own { IsWordPassOf self.now pass.new × IsWordPassOf self.now result }
        ensures split { WordSplit pass.old pass.new result }
    {
        self.split_now(pass)
    }

    /// Makes a reader's pass a reporter's, with a number of its own, by `enlist_now`; returns it as an error if 255 reporters are enlisted.
    fn enlist<R: Wait>(
        &self,
        _rt: &R,
        pass: WordReaderPass,
    ) -> Result<WordReporterPass, TooManyReporters<WordReaderPass>>
        requires { pass.board ≡ self.now }
        ensures own { MatchResult result (λ enlisted. IsWordPassOf self.now enlisted)
            (λ full. IsWordPassOf self.now full.0) }
        ensures enlisted { MatchResult result (WordEnlisted pass) (λ full. WordFull pass full.0) }
    {
        self.enlist_now(pass)
    }

    /// Tells the second pass all events that the first has seen, by `meet_now`.
    fn meet<R: Wait>(&self, _rt: &R, first: &mut WordReporterPass, second: &mut WordReporterPass)
        requires { IsWordPassOf self.now first.old × IsWordPassOf self.now second.old }
        ensures own { IsWordPassOf self.now first.new × IsWordPassOf self.now second.new }
        ensures met { WordMet first.old first.new second.old second.new }
    {
        self.meet_now(first, second);
    }

    /// Returns the number under which the pass enters events.
    fn number_of(pass: &WordReporterPass) -> ReporterNo
        ensures { result ≡ (reporter_figures (pass_view_of pass.now.pass)).number }
    {
        pass.number
    }

    /// Returns how many events of the pass were accepted.
    fn accepted_of(pass: &WordReporterPass) -> u16
        ensures { result ≡ (reporter_figures (pass_view_of pass.now.pass)).accepted }
    {
        pass.accepted
    }
}
