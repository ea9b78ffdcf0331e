//! The passes of a cell board. A pass cannot be copied, and acts by its seat. Its view exists only in proofs.

ghost use Rattle.std.specs.Prelude.{◌≡◌, length};
ghost use Rattle.ucl_live_board.specs.Passes.{IsSound};
ghost use Rattle.ucl_log.specs.Log.{added_by, number_of};
ghost use Rattle.crossbeam_utils.specs.Seq.{cell_view};
ghost use Rattle.ucl_pass.specs.CellRecords.{CellPass, cell_pass_of};
ghost use Rattle.ucl_pass.specs.CellInvariants.{cell_pass_view};

use crate::rule::Seat;
use std::marker::Model;
use ucl_word::ReporterNo;

/// A reader's pass: a thread's permission to read a board, and to split or enlist the pass. Contracts see its cell and its view.
#[derive(Drop)]
pub struct CellReaderPass {
    pub(crate) seat: Seat,
}

impl Model for CellReaderPass {
    ghost Value = { CellPass };

    ghost view = { λ reader. cell_pass_of reader.seat };

    ghost invariant = { λ reader. IsSound (cell_pass_view (cell_view reader.seat))
        × (number_of (cell_view reader.seat).own ≡ 0) };
}

impl CellReaderPass {
    /// Returns the seat by which the pass acts at the cell of its board: what contracts see of the pass is what they see of this seat.
    pub fn seat(&self) -> &Seat
        ensures { self.now ≡ cell_pass_of result.now }
    {
        &self.seat
    }
}

/// A reporter's pass: a thread's permission to enter events under its own number, and to read. Contracts see its cell and its view.
#[derive(Drop)]
pub struct CellReporterPass {
    pub(crate) seat: Seat,
    pub(crate) number: ReporterNo,
    /// How many of its events were accepted.
    pub(crate) accepted: u16,
}

impl Model for CellReporterPass {
    ghost Value = { CellPass };

    ghost view = { λ reporter. cell_pass_of reporter.seat };

    ghost invariant = { λ reporter. IsSound (cell_pass_view (cell_view reporter.seat))
        × (number_of (cell_view reporter.seat).own ≡ reporter.number)
        × (length (added_by (cell_view reporter.seat).own) ≡ reporter.accepted) };
}

impl CellReporterPass {
    /// Returns the seat by which the pass acts at the cell of its board: what contracts see of the pass is what they see of this seat.
    pub fn seat(&self) -> &Seat
        ensures { self.now ≡ cell_pass_of result.now }
    {
        &self.seat
    }
}
