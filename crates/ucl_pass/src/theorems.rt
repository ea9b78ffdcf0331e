//! Theorems on every cell board. The functions do nothing: each is there for its contract.

ghost use Rattle.ucl_log.specs.Log.{IsLegalRule, IsLegalStep};
ghost use Rattle.ucl_pass.specs.CellSteps.{LogsOneStep};

use crate::rule::{Adds, Asking, Enlists, Looks, Reads};
use crossbeam_utils::rule::Outcome;
use ucl_live_board::View;

/// Shows that each kind of step on the cell, whatever it finds, is one step in the log, of the pass that took it. So the counts of steps in
/// contracts are of all loads and exchanges of these kinds. There are no others but a load by the kit in each split and join of passes.
pub fn each_cell_step_is_logged<K: Asking>()
    ensures looks { LogsOneStep ⟦<Looks as Outcome<[u64; 13], View>>⟧.then }
    ensures reads { LogsOneStep ⟦<Reads as Outcome<[u64; 13], View>>⟧.then }
    ensures adds { LogsOneStep ⟦<Adds<K> as Outcome<[u64; 13], View>>⟧.then }
    ensures enlists { LogsOneStep ⟦<Enlists as Outcome<[u64; 13], View>>⟧.then }
{}

/// Shows that the rule of the log of a cell board is legal, so that the theorems on every shared board hold of it.
pub fn the_rule_of_cells_is_legal()
    ensures { IsLegalRule IsLegalStep }
{}
