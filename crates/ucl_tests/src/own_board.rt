//! A board of one's own: it is written from what `LiveBoard` asks alone, and hands each call on to another board, of any kind.

use crate::boards::settled_on;
use std::sync::Wait;
use std::test::Fail;
use ucl_board::Reading;
use ucl_pass::{CellBoard, LiveBoard, Strangers, TooManyReporters};
use ucl_word::{Accepted, EventCall, Refusal, ReporterNo};
use ucl_words::WordBoard;

/// A board that hands each call on to another one.
#[derive(Drop)]
struct OwnBoard<B> {
    board: B,
}

impl<B: LiveBoard> LiveBoard for OwnBoard<B> {
    type ReaderPass = B::ReaderPass;

    type ReporterPass = B::ReporterPass;

    ghost is_reader = { λ own. B.is_reader own.board };

    ghost is_reporter = { λ own. B.is_reporter own.board };

    ghost reader = { B.reader };

    ghost reporter = { B.reporter };

    /// Enters the event on the other board.
    fn report<R: Wait>(
        &self,
        rt: &R,
        pass: &mut B::ReporterPass,
        call: &EventCall,
    ) -> Result<Accepted, Refusal> {
        self.board.report(rt, pass, call)
    }

    /// Reads the other board by a reader's pass.
    fn read<R: Wait>(&self, rt: &R, pass: &mut B::ReaderPass) -> Reading {
        self.board.read(rt, pass)
    }

    /// Reads the other board by a reporter's pass.
    fn read_own<R: Wait>(&self, rt: &R, pass: &mut B::ReporterPass) -> Reading {
        self.board.read_own(rt, pass)
    }

    /// Splits a second pass of the other board off a reader's.
    fn split<R: Wait>(&self, rt: &R, pass: &mut B::ReaderPass) -> B::ReaderPass {
        self.board.split(rt, pass)
    }

    /// Enlists a reporter of the other board.
    fn enlist<R: Wait>(
        &self,
        rt: &R,
        pass: B::ReaderPass,
    ) -> Result<B::ReporterPass, TooManyReporters<B::ReaderPass>> {
        self.board.enlist(rt, pass)
    }

    /// Tells the second pass all that the first has seen.
    fn meet<R: Wait>(&self, rt: &R, first: &mut B::ReporterPass, second: &mut B::ReporterPass) {
        self.board.meet(rt, first, second);
    }

    /// Returns the number under which the pass enters events.
    fn number_of(pass: &B::ReporterPass) -> ReporterNo {
        B::number_of(pass)
    }

    /// Returns how many events of the pass were accepted.
    fn accepted_of(pass: &B::ReporterPass) -> u16 {
        B::accepted_of(pass)
    }
}

/// Reporters settle on a board of one's own as on the board behind it, of either kind: a third one has entered an event.
#[test]
fn own_boards(rt: HostRuntime) -> Result<(), Fail> {
    let (board, reader) = CellBoard::open(&rt, rt.alloc())?;
    let in_cell = settled_on(&rt, &OwnBoard { board }, reader, 1);
    let (board, reader) = WordBoard::open(&rt, rt.alloc())?;
    let in_words = settled_on(&rt, &OwnBoard { board }, reader, 1);
    assert_eq!(rt;
        [in_cell, in_words],
        [Some(Err(Strangers { version: 6 })); 2]
    );
    Ok(())
}
