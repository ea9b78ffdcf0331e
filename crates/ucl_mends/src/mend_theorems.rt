//! Theorems on all mends. The functions do nothing: each is there for its contract.

ghost use Rattle.ucl_mends.specs.MendTheorems.{LaterEventsGoOn, MendsAreLegal, OtherMatchesStay, WholeHistoriesAreKept};

/// What a mend of a legal history keeps is a legal history.
#[tactic(auto, using(crate::proofs::Mends::mends_legal))]
pub fn mends_are_legal()
    ensures { MendsAreLegal }
{}

/// If no event has the row that is named, a mend of a legal history keeps all, and leaves out none.
#[tactic(auto, using(crate::proofs::Mends::whole))]
pub fn whole_histories_are_kept()
    ensures { WholeHistoriesAreKept }
{}

/// A mend of a legal history keeps all events of each match of which no event has the row that is named.
#[tactic(auto, using(crate::proofs::Mends::other_matches))]
pub fn other_matches_stay()
    ensures { OtherMatchesStay }
{}

/// A mend does the same with a list of events whether more follow or not; it keeps all that follow if it leaves out and names none of them.
#[tactic(auto, using(crate::proofs::Mends::later_events))]
pub fn later_events_go_on()
    ensures { LaterEventsGoOn }
{}
