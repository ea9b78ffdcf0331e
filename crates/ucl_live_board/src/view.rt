//! What a pass knows and has done.

ghost use Rattle.std.specs.Prelude.{List};
ghost use Rattle.std.specs.Borrow.{ftrue};
ghost use Rattle.ucl_log.specs.Log.{TakenStep, Log};
ghost use Rattle.ucl_live_board.specs.Shares.{Share};

use std::marker::Model;

/// What contracts see of a pass of a shared board. It is there for proofs alone: no value of it is ever made. What a pass has seen is the
/// history of the log that it knows, and what it has done follows from its own steps.
pub struct View {
    // The prefix of the log that the pass knows.
    pub ghost log: { Log },
    // After a meeting, until the pass's next step, the prefixes of the log that both passes knew.
    pub ghost told: { List Log },
    // The steps that the pass took itself, oldest first.
    pub ghost own: { List TakenStep },
    // The pass's share: its part of the board, without which it takes no step.
    pub ghost share: { Share },
    // The steps that the passes from which it was split off had taken by then.
    pub ghost copied: { List TakenStep },
}

impl Model for View {
    ghost also_owns = { λ _. ftrue };
}
