//! A pass together with its board, so that no call can be given a pass of another board.

ghost use Rattle.std.specs.Prelude.{◌≡◌, IfOk, IfErr, MatchResult, None, Some};
ghost use Rattle.std.specs.Arc.{arc_value};
ghost use Rattle.ucl_c.specs.declared.board_pass.AnyPass.TheVariants.{Nobody};
ghost use Rattle.ucl_c.specs.declared.fault.Fault.TheVariants.{OutOfMemory};
ghost use Rattle.ucl_c.specs.BoardPasses.{IsPassOf, IsOpened, IsSplit, IsEnlisted, IsNotEnlisted, IsReported, IsRead, IsNumberOf, fault_of_split, fault_of_report, fault_of_read, or_memory};

use crate::fault::Fault;
use std::alloc::Global;
use std::marker::Model;
use std::sync::Arc;
use ucl_board::Reading;
use ucl_live_board::LiveBoard;
use ucl_word::{Accepted, EventCall, Refusal, ReporterNo};
use ucl_words::{WordBoard, WordReaderPass, WordReporterPass};

/// A reader's or a reporter's pass of a board, or no pass.
#[derive(Drop)]
pub enum AnyPass {
    /// No pass.
    Nobody,
    /// The pass of a reader.
    Reader(WordReaderPass),
    /// The pass of a reporter.
    Reporter(WordReporterPass),
}

/// A counted reference to a board, with a pass of that board or none. Contracts see the identity of the board, and the pass.
#[derive(Drop)]
pub struct BoardPass {
    board: Arc<WordBoard, Global>,
    pass: AnyPass,
}

impl Model for BoardPass {
    ghost use Rattle.std.specs.Arc.{arc_value};
    ghost use Rattle.ucl_c.specs.BoardPasses.{PassHeld, IsPassOf};

    ghost Value = { PassHeld };

    ghost view = { λ s. record { board = arc_value s.board; pass = s.pass } };

    ghost invariant = { λ s. IsPassOf (arc_value s.board) s.pass };
}

impl BoardPass {
    /// Opens a board that has no events, and returns it with its first pass, a reader's; `OutOfMemory` if memory is refused.
    pub fn open(alloc: Global) -> Result<Box<BoardPass>, Fault>
        ensures { MatchResult result (λ opened. IsOpened opened.value.pass) (λ fault. fault ≡ OutOfMemory) }
    {
        let (board, pass) = WordBoard::open(&(), alloc)?;
        let board = Arc::new(alloc, board)?;
        let pass = AnyPass::Reader(pass);
        Ok(Box::new(alloc, BoardPass { board, pass })?)
    }

    /// Returns a new reference to this board, without a pass yet; `OutOfMemory` if memory is refused or there are too many references.
    fn room(board: &Arc<WordBoard, Global>, alloc: Global) -> Result<Box<BoardPass>, Fault>
        ensures { MatchResult result
            (λ room. room.value ≡ record { board = arc_value board.now; pass = Nobody })
            (λ fault. fault ≡ OutOfMemory) }
    {
        let board = Arc::try_clone(board)?;
        let pass = AnyPass::Nobody;
        Ok(Box::new(alloc, BoardPass { board, pass })?)
    }

    /// Puts this pass, which is of the same board, in the place of the pass held here.
    fn hold(&mut self, pass: AnyPass)
        requires { IsPassOf self.old.board pass }
        ensures { self.new ≡ record { board = self.old.board; pass = pass } }
    {
        self.pass = pass;
    }

    /// Splits the reader's pass held here, and returns the second pass, which has seen as much of the board's history. `NotAReader` for a
    /// reporter's pass, `NoPass` for none and `OutOfMemory` change nothing.
    pub fn split_off(&mut self, alloc: Global) -> Result<Box<BoardPass>, Fault>
        ensures board { self.new.board ≡ self.old.board }
        ensures given { IfOk result (λ second.
            IsSplit self.old.pass self.new.pass second.value.pass) }
        ensures refused { IfErr result (λ fault. (self.new ≡ self.old)
            × (fault ≡ or_memory (fault_of_split self.old.pass))) }
    {
        match &mut self.pass {
            AnyPass::Reader(pass) => {
                let mut second = BoardPass::room(&self.board, alloc)?;
                let split = self.board.split_now(pass);
                second.hold(AnyPass::Reader(split));
                Ok(second)
            }
            AnyPass::Reporter(_) => Err(Fault::NotAReader),
            AnyPass::Nobody => Err(Fault::NoPass),
        }
    }

    /// Enlists a reporter of the same board by the reader's pass held here, and returns the reporter's pass. `NotAReader` for a reporter's
    /// pass, `NoPass` for none and `OutOfMemory` change nothing; `FullBoard` if all 255 numbers are given.
    pub fn enlist_another(&mut self, alloc: Global) -> Result<Box<BoardPass>, Fault>
        ensures board { self.new.board ≡ self.old.board }
        ensures given { IfOk result (λ second.
            IsEnlisted self.old.pass self.new.pass second.value.pass) }
        ensures refused { IfErr result (λ fault.
            IsNotEnlisted fault self.old.pass self.new.pass) }
    {
        match &mut self.pass {
            AnyPass::Reader(pass) => {
                let mut room = BoardPass::room(&self.board, alloc)?;
                let split = self.board.split_now(pass);
                match self.board.enlist_now(split) {
                    Ok(reporter) => {
                        room.hold(AnyPass::Reporter(reporter));
                        Ok(room)
                    }
                    Err(_) => Err(Fault::FullBoard),
                }
            }
            AnyPass::Reporter(_) => Err(Fault::NotAReader),
            AnyPass::Nobody => Err(Fault::NoPass),
        }
    }

    /// Enters an event by the reporter's pass held here, and returns the board's reply; `NotAReporter` for a reader's, `NoPass` for none.
    pub fn report(&mut self, call: &EventCall) -> Result<Result<Accepted, Refusal>, Fault>
        ensures board { self.new.board ≡ self.old.board }
        ensures judged { IfOk result (λ reply.
            IsReported self.old.pass call.now reply self.new.pass) }
        ensures refused { IfErr result (λ fault. (self.new ≡ self.old)
            × (fault_of_report self.old.pass ≡ Some fault)) }
    {
        match &mut self.pass {
            AnyPass::Reporter(pass) => Ok(self.board.report_now(pass, call)),
            AnyPass::Reader(_) => Err(Fault::NotAReporter),
            AnyPass::Nobody => Err(Fault::NoPass),
        }
    }

    /// Returns the number of the reporter's pass held here; `NotAReporter` for a reader's pass and `NoPass` for none.
    pub fn number(&self) -> Result<ReporterNo, Fault>
        ensures number { IfOk result (IsNumberOf self.now.pass) }
        ensures refused { IfErr result (λ fault. fault_of_report self.now.pass ≡ Some fault) }
    {
        match &self.pass {
            AnyPass::Reporter(pass) => Ok(WordBoard::number_of(pass)),
            AnyPass::Reader(_) => Err(Fault::NotAReporter),
            AnyPass::Nobody => Err(Fault::NoPass),
        }
    }

    /// Returns a snapshot of the board, read by the pass held here, a reader's or a reporter's; `NoPass` for none.
    pub fn read(&mut self) -> Result<Reading, Fault>
        ensures board { self.new.board ≡ self.old.board }
        ensures reading { IfOk result (λ reading. IsRead self.old.pass reading self.new.pass) }
        ensures refused { IfErr result (λ fault. (self.new ≡ self.old)
            × (fault_of_read self.old.pass ≡ Some fault)) }
    {
        match &mut self.pass {
            AnyPass::Reader(pass) => Ok(self.board.read_now(pass)),
            AnyPass::Reporter(pass) => Ok(self.board.read_own_now(pass)),
            AnyPass::Nobody => Err(Fault::NoPass),
        }
    }
}
