//! The theorems of word boards. The functions do nothing: each is there for its contract.

ghost use Rattle.ucl_words.specs.Theorems.{WordsTellTheEntry, BoardsAreLinearizable, LaterBoardsExtend, NumbersRiseInTime};
ghost use Rattle.ucl_words.specs.LaterState.{StepIsMonotone, SplitIsMonotone, JoinIsMonotone, LaterStatesCompose, FindsEnlisted};
ghost use Rattle.ucl_live_board.specs.declared.view.View.{View};
ghost use Rattle.ucl_words.specs.TableInvariants.{LogsOneStep};

use crate::rule::{Asking, CountEnlisted, Enlist, First, Look, Note, Second, SecondPass, Swap};
use atomic_table::{Join, Play, Split};
use ucl_board::Entry;
use ucl_live_board::View;

/// Shows that the match, the word found and the word put in its place tell which event a compare-and-exchange has entered, and whose.
pub fn words_tell_the_entry()
    ensures { WordsTellTheEntry }
{}

/// Shows that all completed reports and readings of all passes are linearizable (Herlihy and Wing) in the order of the log, even if no pass
/// told another what it knew, in every state that satisfies the invariant. The log has all steps, each the next one of the protocol. Its
/// history is legal and gives the match words. It is a run of the protocol's machine (`ucl_steps`), of which each step on a match word is
/// one step. That its order is that of real time is `later_boards_extend`, with what each call says of its first step and its last.
pub fn boards_are_linearizable()
    ensures { BoardsAreLinearizable }
{}

/// Shows that each kind of step on the words of a board, whatever it finds, is one step in the log, of the pass that took it. So the bounds
/// in contracts count all loads and exchanges of these kinds. There are no others, but for a load by the kit in each split and each join of
/// seats, which ignores what it finds.
pub fn each_step_is_logged<K: Asking>()
    ensures looks { LogsOneStep ⟦<Look<K> as Play<Entry, View>>⟧.then }
    ensures first { LogsOneStep ⟦<First as Play<Entry, View>>⟧.then }
    ensures second { LogsOneStep ⟦<Second<K> as Play<Entry, View>>⟧.then }
    ensures swaps { LogsOneStep ⟦<Swap<K> as Play<Entry, View>>⟧.then }
    ensures counts { LogsOneStep ⟦<CountEnlisted<K> as Play<Entry, View>>⟧.then }
    ensures enlists { LogsOneStep ⟦<Enlist<K> as Play<Entry, View>>⟧.then }
{}

/// Shows that a step of any kind on the words of a board leads to a later state, whatever it finds and leaves: its pass knows what it had
/// known of the log, and can still take steps. So do a split, and a note that is split off or taken in (what one pass tells another); and
/// so do any number of steps of any passes, one after another.
pub fn steps_are_monotone<K: Asking>()
    ensures looks { StepIsMonotone ⟦<Look<K> as Play<Entry, View>>⟧.then }
    ensures first { StepIsMonotone ⟦<First as Play<Entry, View>>⟧.then }
    ensures second { StepIsMonotone ⟦<Second<K> as Play<Entry, View>>⟧.then }
    ensures swaps { StepIsMonotone ⟦<Swap<K> as Play<Entry, View>>⟧.then }
    ensures counts { StepIsMonotone ⟦<CountEnlisted<K> as Play<Entry, View>>⟧.then }
    ensures enlists { StepIsMonotone ⟦<Enlist<K> as Play<Entry, View>>⟧.then }
    ensures splits { SplitIsMonotone (⟦<SecondPass as Split<View>>⟧.left)
        (⟦<SecondPass as Split<View>>⟧.right) }
    ensures notes { SplitIsMonotone (⟦<Note as Split<View>>⟧.left)
        (⟦<Note as Split<View>>⟧.right) }
    ensures hears { JoinIsMonotone (⟦<Note as Join<View>>⟧.both) ⟦<Note as Join<View>>⟧.spent }
    ensures compose { LaterStatesCompose }
{}

/// Shows that the log of a later state begins with that of the earlier state, whichever steps of whichever passes came between.
pub fn later_boards_extend()
    ensures { LaterBoardsExtend }
{}

/// Shows that the number that a reader gets by enlisting is above all that had been given at any earlier moment at which it had none. So of
/// two enlistments that follow one another the later one has the higher number, even if no pass told another what it knew.
pub fn numbers_rise_in_time()
    ensures { NumbersRiseInTime }
{}

/// Shows that a step on the number of enlisted reporters tells how many were enlisted in the state in which it was taken.
pub fn numbers_are_there<K: Asking>()
    ensures counts { FindsEnlisted ⟦<CountEnlisted<K> as Play<Entry, View>>⟧.then }
    ensures enlists { FindsEnlisted ⟦<Enlist<K> as Play<Entry, View>>⟧.then }
{}
