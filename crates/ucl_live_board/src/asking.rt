//! The ghost arguments of a step on the words of a shared board: a call picks them at each step, and the program that runs has none.

use std::marker::Brand;

/// The ghost arguments of a step of a pass, a thread's permission on the board: the event that it is for, and the seat of the pass.
pub trait Asking {
    ghost use Rattle.std.specs.Prelude.{ℕ};
    ghost use Rattle.ucl_word.specs.declared.event.EventCall.{EventCall};

    // The event that the call enters, if it is a report; else a stand-in.
    ghost call: { EventCall };

    // The seat of the pass: its place in the list of the board's passes.
    ghost seat: { ℕ };
}

impl Asking for Brand {
    ghost use Rattle.ucl_live_board.specs.Steps.{no_call};

    ghost call = { no_call };

    ghost seat = { 0 };
}
