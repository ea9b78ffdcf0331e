//! Theorems on all fixtures and histories. The functions do nothing: each is there for its contract.

ghost use Rattle.ucl_board.specs.Theorems.{EachPairMeetsOnce, BeginningsAreLegal, BoardsAreCounted, VersionsAreLengths, SameNumberSameWord, SameWordSameEntries, OneWordChanges, EntryIsKnown, AttemptsAreCounted, AcceptedEventsGoStale, RepeatsChangeNothing, BoardsGoOn};

/// Each club of a group plays each other club exactly once at home.
#[tactic(auto, using(crate::proofs::HistoryTheorems::fixtures_meet))]
pub fn each_pair_meets_once()
    ensures { EachPairMeetsOnce }
{}

/// Each prefix of a legal history is legal.
#[tactic(auto, using(crate::proofs::HistoryTheorems::beginnings))]
pub fn beginnings_are_legal()
    ensures { BeginningsAreLegal }
{}

/// The words of the board after a legal history are those of valid records, and hold for each match the record counted from its entries.
#[tactic(auto, using(crate::proofs::HistoryTheorems::board_words, crate::proofs::HistoryTheorems::game_after))]
pub fn boards_are_counted()
    ensures { BoardsAreCounted }
{}

/// The version of the board after a legal history is the length of the history, which is at most 49,140.
pub fn versions_are_lengths()
    ensures { VersionsAreLengths }
{}

/// A match that has the same event number at two points of one history has the same entries and the same word at both.
#[tactic(auto, using(crate::proofs::HistoryTheorems::same_number))]
pub fn same_number_same_word()
    ensures { SameNumberSameWord }
{}

/// A match that has the same word at two points of one legal history has the same entries at both.
#[tactic(auto, using(crate::proofs::HistoryTheorems::same_word))]
pub fn same_word_same_entries()
    ensures { SameWordSameEntries }
{}

/// An entry at the end of a legal history changes the word of its match, and no other.
pub fn one_word_changes()
    ensures { OneWordChanges }
{}

/// The match of the last entry of a legal history, and the word of this match before and after it, determine the entry.
#[tactic(auto, using(crate::proofs::HistoryTheorems::entry_known))]
pub fn added_entry_is_known()
    ensures { EntryIsKnown }
{}

/// Whatever events are entered from the fresh board on, one after the other, the accepted ones are a legal history, the board is counted
/// from them, and its version is how many were accepted.
pub fn attempts_are_counted()
    ensures { AttemptsAreCounted }
{}

/// An event that was accepted, entered again after any others, is refused as stale, and the board is as it was.
pub fn accepted_events_go_stale()
    ensures { AcceptedEventsGoStale }
{}

/// If an accepted event is entered again, at any later place, the history and the board are in the end the same as without the
/// repetition. Applied once for each repeated event, the theorem covers any number of them.
pub fn repeated_events_change_nothing()
    ensures { RepeatsChangeNothing }
{}

/// Whatever events are entered after a legal history, they leave a legal history that begins with it, and the board of this longer history.
pub fn boards_go_on()
    ensures { BoardsGoOn }
{}
