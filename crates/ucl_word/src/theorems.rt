//! Theorems on all records, words and lists of entries. The functions do nothing: each is there for its contract.

ghost use Rattle.ucl_word.specs.Theorems.{WordsDiffer, WordsAreRead, LayoutsDiffer, WordsAreTested, CanBeEnded, ReopenedCanBeEnded, OneCaseHolds, CountsAreValid, CountsAreBalanced};

/// Two valid records that pack to the same word are the same record.
#[tactic(auto, using(crate::proofs::Words::words_apart))]
pub fn words_differ()
    ensures { WordsDiffer }
{}

/// Unpacking the word of a valid record gives this record.
#[tactic(auto, using(crate::proofs::Words::record_back))]
pub fn words_are_read()
    ensures { WordsAreRead }
{}

/// No word is the packing of a valid record in both the first and the present layout.
pub fn layouts_differ()
    ensures { LayoutsDiffer }
{}

/// The test of each layout is true of exactly the words of valid records in this layout. Whatever reading a word gives, which converts it
/// to the present layout, is the word of a valid record.
pub fn words_are_tested()
    ensures { WordsAreTested }
{}

/// A match in play accepts full time, whatever its event number, which is how many events it accepted.
#[tactic(auto, using(crate::proofs::AcceptedEvents::full_time))]
pub fn a_match_in_play_can_be_ended()
    ensures { CanBeEnded }
{}

/// A match that has just been reopened accepts full time; one that has accepted 4094 events or more can't be reopened.
pub fn a_reopened_match_can_be_ended()
    ensures { ReopenedCanBeEnded }
{}

/// A match is scheduled if its legal list of entries has no kick-off, full time or reopening; in play if it has one kick-off and as many
/// full times as reopenings; finished if it has one kick-off and one full time more than reopenings. No other case occurs.
#[tactic(auto, using(crate::proofs::EntryCounts::one_case))]
pub fn one_case_holds()
    ensures { OneCaseHolds }
{}

/// The record that is counted from a legal list of entries of a match is valid.
#[tactic(auto, using(crate::proofs::EntryCounts::legal_valid))]
pub fn counts_are_valid()
    ensures { CountsAreValid }
{}

/// In a legal list of entries no side has more disallowed goals than goals, nor more second yellows than yellows.
#[tactic(auto, using(crate::proofs::EntryCounts::legal_balanced))]
pub fn counts_are_balanced()
    ensures { CountsAreBalanced }
{}
