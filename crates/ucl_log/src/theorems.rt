//! A theorem on all logs. The function does nothing: it is there for its contract.

ghost use Rattle.ucl_board.specs.History.{IsLegal};
ghost use Rattle.ucl_log.specs.Log.{Log, IsConsistentLog, HasLegalSteps, LogFacts, history_of};

/// States that a log whose steps are legal has a legal history. If it is also a possible log, it gave its reporters the numbers from 1 to
/// how many are enlisted, at most 255, each to one pass, and the entries with a number are those that its pass added.
pub fn legal_logs_have_facts()
    ensures legal { (log : Log) → HasLegalSteps log → IsLegal (history_of log) }
    ensures facts { (log : Log) → IsConsistentLog log → HasLegalSteps log → LogFacts log }
{}
