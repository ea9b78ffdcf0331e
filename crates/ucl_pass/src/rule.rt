//! The invariant of a cell board, and the kinds of steps on it, by which contracts tell what a step does. A kind is a struct without
//! fields; `K: Asking` says, only in proofs, for which event a step is.

ghost use Rattle.ucl_log.specs.Log.{IsLegalStep};
ghost use Rattle.ucl_live_board.specs.Views.{new_pass, first_pass, left_pass, second_pass, note_pass, told_pass};
ghost use Rattle.ucl_pass.specs.CellInvariants.{CellInvariant, words_after};
ghost use Rattle.ucl_pass.specs.CellSteps.{LooksOnly, LooksAndShows, MayStore, StoresEvent, StoresReporter};

use atomic_table::{Join, Split};
use crossbeam_utils::atomic::seq_cell::{Pass, RuledSeqCell};
use crossbeam_utils::rule::{Outcome, Protocol};
use std::marker::PhantomData;
pub use ucl_live_board::Asking;
use ucl_live_board::{BoardRule, View};

/// The invariant of the cell: there is one log of all steps, each as the rules allow; its history, the accepted events, gives the twelve
/// match words, and its enlistments are as many as the thirteenth word says.
pub struct CellRule;

impl Protocol<[u64; 13], View> for CellRule {
    ghost holds = { CellInvariant };

    ghost first = { first_pass };
}

impl BoardRule for CellRule {
    ghost words_after = { words_after };

    ghost may = { IsLegalStep };
}

/// A load of all words that is no reading: its version is not among those that its pass has read.
pub struct Looks;

impl Outcome<[u64; 13], View> for Looks {
    ghost then = { LooksOnly };
}

/// A load of all words that is a reading: its version is the last that its pass has read.
pub struct Reads;

impl Outcome<[u64; 13], View> for Reads {
    ghost then = { LooksAndShows };
}

/// The compare-and-exchange of a report, which stores one event if it is won, and nothing otherwise.
pub struct Adds<K>(PhantomData<K>);

impl<K: Asking> Outcome<[u64; 13], View> for Adds<K> {
    ghost then = { MayStore (StoresEvent K.call) };
}

/// The compare-and-exchange of an enlistment, which adds one reporter, its pass, if it is won, and stores nothing otherwise.
pub struct Enlists;

impl Outcome<[u64; 13], View> for Enlists {
    ghost then = { MayStore StoresReporter };
}

/// The split of a reader's pass into itself and a second one, each with half of its share of the board.
pub struct SecondPass;

impl Split<View> for SecondPass {
    ghost left = { left_pass };

    ghost right = { second_pass };
}

/// The split of a note off a pass, which stays as it was, and the join of a note to another pass, which then knows what the note tells.
pub struct Note;

impl Split<View> for Note {
    ghost left = { λ v. v };

    ghost right = { note_pass };
}

impl Join<View> for Note {
    ghost both = { told_pass };

    ghost spent = { new_pass };
}

/// The cell of words that threads share: the words of matches 1 to 12, then the number of enlisted reporters.
pub type Cell = RuledSeqCell<[u64; 13], View, CellRule, 13>;

/// A seat at the cell: the identity of a pass, by which it takes steps.
pub type Seat = Pass<[u64; 13], View>;
