//! The passes of a word board. A pass cannot be copied, and acts by its seat. Its view exists only in proofs.

ghost use Rattle.std.specs.Prelude.{◌≡◌, length};
ghost use Rattle.ucl_log.specs.Log.{added_by, number_of};
ghost use Rattle.ucl_steps.specs.Protocol.{NoCall};
ghost use Rattle.ucl_words.specs.WordCalls.{IsConsistent};
ghost use Rattle.ucl_steps.specs.LocalState.{local_of};
ghost use Rattle.ucl_words.specs.WordViews.{WordPass, pass_of};

use crate::rule::Seat;
use std::marker::Model;
use ucl_word::ReporterNo;

/// A reader's pass: a thread's permission to read a board, and to split or enlist the pass. Contracts see its table and its view.
#[derive(Drop)]
pub struct WordReaderPass {
    pub(crate) seat: Seat,
}

impl Model for WordReaderPass {
    ghost Value = { WordPass };

    ghost view = { λ reader. pass_of reader.seat.table_id reader.seat.id reader.seat.me.0 };

    ghost invariant = { λ reader. IsConsistent reader.seat.me.0
        × (number_of reader.seat.me.0.own ≡ 0)
        × ((local_of reader.seat.me.0.own).held ≡ NoCall) };
}

impl WordReaderPass {
    /// Returns the seat by which the pass acts at the table of its board: what contracts see of the pass is what they see of this seat.
    pub fn seat(&self) -> &Seat
        ensures { self.now ≡ pass_of result.now.table_id result.now.id result.now.me.0 }
    {
        &self.seat
    }
}

/// A reporter's pass: a thread's permission to enter events under its own number, and to read. Contracts see its table and its view.
#[derive(Drop)]
pub struct WordReporterPass {
    pub(crate) seat: Seat,
    pub(crate) number: ReporterNo,
    /// How many of its events were accepted.
    pub(crate) accepted: u16,
}

impl Model for WordReporterPass {
    ghost Value = { WordPass };

    ghost view = { λ reporter. pass_of reporter.seat.table_id reporter.seat.id reporter.seat.me.0 };

    ghost invariant = { λ reporter. IsConsistent reporter.seat.me.0
        × (number_of reporter.seat.me.0.own ≡ reporter.number)
        × (length (added_by reporter.seat.me.0.own) ≡ reporter.accepted)
        × ((local_of reporter.seat.me.0.own).held ≡ NoCall) };
}

impl WordReporterPass {
    /// Returns the seat by which the pass acts at the table of its board: what contracts see of the pass is what they see of this seat.
    pub fn seat(&self) -> &Seat
        ensures { self.now ≡ pass_of result.now.table_id result.now.id result.now.me.0 }
    {
        &self.seat
    }
}
