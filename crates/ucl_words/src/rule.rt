//! The invariant of a word board, and the kinds of steps on it, by which contracts tell what a step does. A kind is a struct with no
//! fields; `K: Asking` says, only in proofs, of which seat and for which event a step is.

ghost use Rattle.ucl_words.specs.TableInvariants.{TableInvariant, words_after};
ghost use Rattle.ucl_words.specs.TableInvariants.{LookStep, FirstStep, SecondStep, EnlistedStep, ExchangeStep, EnlistStep};
ghost use Rattle.ucl_steps.specs.LocalState.{IsNextOfProtocol};
ghost use Rattle.ucl_live_board.specs.Views.{new_pass, first_pass, left_pass, second_pass, note_pass, told_pass};

use atomic_table::{Join, Play, Split, TableRule};
use std::alloc::Global;
use std::marker::PhantomData;
use ucl_board::Entry;
pub use ucl_live_board::Asking;
use ucl_live_board::{BoardRule, View};

/// The invariant of the table: there is one log of all steps, each the next one of the protocol (`ucl_steps`); its history, the accepted
/// events, gives the twelve match words, and its enlistments are as many as word 0 says.
#[derive(Clone, Copy)]
pub struct WordRule;

impl TableRule<Entry, View, ()> for WordRule {
    ghost holds = { λ _. TableInvariant };

    ghost first = { λ _. first_pass };
}

impl BoardRule for WordRule {
    ghost words_after = { words_after };

    ghost may = { IsNextOfProtocol };
}

/// The load of a match word that begins a report, which enters an event.
pub struct Look<K>(PhantomData<K>);

impl<K: Asking> Play<Entry, View> for Look<K> {
    ghost then = { LookStep K.seat K.call };
}

/// A load of a match word in the first collect of a reading, which loads all of them.
pub struct First;

impl Play<Entry, View> for First {
    ghost then = { FirstStep };
}

/// A load of a match word in the second collect of a reading, which looks whether a word has changed.
pub struct Second<K>(PhantomData<K>);

impl<K: Asking> Play<Entry, View> for Second<K> {
    ghost then = { SecondStep K.seat };
}

/// A load of the number of enlisted reporters.
pub struct CountEnlisted<K>(PhantomData<K>);

impl<K: Asking> Play<Entry, View> for CountEnlisted<K> {
    ghost then = { EnlistedStep K.seat };
}

/// The compare-and-exchange of a match word that ends a report, won or lost.
pub struct Swap<K>(PhantomData<K>);

impl<K: Asking> Play<Entry, View> for Swap<K> {
    ghost then = { ExchangeStep K.seat };
}

/// A compare-and-exchange of the number of enlisted reporters, won or lost; if it is won, its pass becomes a reporter's.
pub struct Enlist<K>(PhantomData<K>);

impl<K: Asking> Play<Entry, View> for Enlist<K> {
    ghost then = { EnlistStep K.seat };
}

/// The split of a reader's pass into itself and a second one, each with half of its share of the board.
pub struct SecondPass;

impl Split<View> for SecondPass {
    ghost left = { left_pass };

    ghost right = { second_pass };
}

/// The split of a note off a pass, which stays as it was, and the join of a note to another pass, which then knows what the note tells.
pub struct Note;

impl Split<View> for Note {
    ghost left = { λ v. v };

    ghost right = { note_pass };
}

impl Join<View> for Note {
    ghost both = { told_pass };

    ghost spent = { new_pass };
}

/// The table of words that threads share: the number of enlisted reporters, then the words of matches 1 to 12. It is never closed.
pub type Table = atomic_table::Table<Entry, View, (), WordRule, Global>;

/// A seat at the table: the identity of a pass, by which it takes atomic steps.
pub type Seat = atomic_table::Seat<Entry, View>;
