//! Theorems of every list of steps of the machine, and of every log: the steps that passes took on a shared board. The functions do
//! nothing: each is there for its contract.

ghost use Rattle.ucl_log.specs.Log.{Log, IsConsistentLog, IsLegalRule, LogFacts};
ghost use Rattle.ucl_steps.specs.LocalState.{FollowsProtocol, IsNextOfProtocol};
ghost use Rattle.ucl_steps.specs.Theorems.{RunsAreLinearizable, RunsReadWhole, WordsAreOfTheHistory, UncleanTriesSeeMore, UncleanTriesAreFew, ReadingsAreSnapshots, ReportsAreSequential};
ghost use Rattle.ucl_steps.specs.BoardObject.{CallsAreLinearizable};
ghost use Rattle.ucl_steps.specs.Seen.{LinearizableCallsReadWhole, LinearizableReadsWhole, StaleAndTornAreRefused};
ghost use Rattle.ucl_steps.specs.LogRuns.{LogsAreRuns, LongerLogsAreLongerRuns};
ghost use Rattle.ucl_steps.specs.Strong.{LogsAreNotStronglyLinearizable, LogsAreWriteStronglyLinearizable};

/// States that every list of enabled steps of the machine, in any order and cut anywhere, has a linearizable history of calls (Herlihy and
/// Wing), of which the invocations are the steps that begin calls, and the responses those that end them. The calls that the machine records
/// are these, and each takes effect at the point that is recorded. So a reading has the event of each report that was accepted, and had
/// ended, before the reading began, and no lower version than a reading that had ended by then.
pub fn runs_are_linearizable()
    ensures linearizable { RunsAreLinearizable }
    ensures whole { RunsReadWhole }
{}

/// States that after every list of enabled steps the match words are those of the board of the history.
#[tactic(auto, using(crate::proofs::Runs::words_of_run))]
pub fn words_are_of_the_history()
    ensures { WordsAreOfTheHistory }
{}

/// States that, if the second collect of a reading finds another word, the history has grown since its first collect loaded that match.
#[tactic(auto, using(crate::proofs::Accesses::broken_later))]
pub fn unclean_tries_see_more()
    ensures { UncleanTriesSeeMore }
{}

/// States that a reading begins anew no more often than entries come meanwhile.
#[tactic(auto, using(crate::proofs::Accesses::tries_few))]
pub fn unclean_tries_are_few()
    ensures { UncleanTriesAreFew }
{}

/// States that a reading is the board after the first entries of the history, as many as its version says: those that there were when the
/// first collect of its last try loaded the twelfth word. It takes at least 24 steps, at most 24 more for each time that it begins anew,
/// and never more than 24 times `max_tries`, which is one more than the greatest version that any board can have.
pub fn readings_are_snapshots()
    ensures { ReadingsAreSnapshots }
{}

/// States that the reply to a report, which takes one or two steps, is that of the board of one thread after the entries that there were
/// just before its last step.
#[tactic(auto, using(crate::proofs::Accesses::report_whole))]
pub fn reports_are_sequential()
    ensures { ReportsAreSequential }
{}

/// States that the calls of every log that follows the protocol are linearizable as Herlihy and Wing define it: some sequence of the
/// operations in its history of invocations and responses, run on the board of one thread, gives the replies that they got, and no operation
/// that got its response before another was invoked comes after it.
pub fn calls_are_linearizable()
    ensures { CallsAreLinearizable }
{}

/// States that in each log with linearizable calls, so on each board, a call has seen each call that ended before it began, whichever passes
/// the two are of: a reading shows each report that was accepted, by the event number of its match, and has no lower version than an earlier
/// reading. And no reading is torn: one that shows an event shows each that was accepted, and over, before that one was reported.
#[tactic(auto, using(crate::proofs::Freshness::calls_whole))]
pub fn later_calls_have_seen()
    ensures { LinearizableCallsReadWhole }
{}

/// States what it refuses that a history of calls is linearizable, whatever board had it. A call that was invoked after a report was
/// accepted, and had its response, shows its event: no reading is stale. And none is torn: a reading that shows an event shows each that was
/// accepted, and over, before that was reported. Of each there is one history, which is not linearizable.
#[tactic(auto, using(crate::proofs::Freshness::linearizable_whole, crate::proofs::Freshness::refused))]
pub fn stale_and_torn_readings_are_refused()
    ensures whole { LinearizableReadsWhole }
    ensures examples { StaleAndTornAreRefused }
{}

/// States that a log that follows the protocol gave its reporters the numbers from 1 to how many are enlisted, at most 255, each to one
/// pass, and that the entries with a number are those that its pass added. Each step of such a log keeps the history legal, and gives a
/// number only to a pass without one.
pub fn logs_have_facts()
    ensures facts { (log : Log) → IsConsistentLog log → FollowsProtocol log → LogFacts log }
    ensures legal { IsLegalRule IsNextOfProtocol }
{}

/// States that every log that follows the protocol is a run of the machine: each of its steps on a match word is one step of the machine,
/// by the caller that stands for its pass, with the beginning of a call just before its first step and the end just after its last. The run
/// leads to the history of the log and the words of its board; what each pass holds is what its caller there holds. A longer log is a
/// longer run.
#[tactic(auto, using(crate::proofs::LogRuns::logs_run, crate::proofs::LogRuns::longer_logs))]
pub fn logs_are_runs()
    ensures runs { LogsAreRuns }
    ensures longer { LongerLogsAreLongerRuns }
{}

/// States how far the order of calls is fixed at once. Write strong-linearizability (Hadzilacos, Hu and Toueg): each log has a
/// linearization, in which a longer log leaves all reports as they are, and adds its own after them. But readings move: no function
/// gives each log a linearization that a longer log only extends, which is strong linearizability (Golab, Higham and Woelfel).
pub fn only_reports_are_fixed()
    ensures reports { LogsAreWriteStronglyLinearizable }
    ensures readings { LogsAreNotStronglyLinearizable }
{}
