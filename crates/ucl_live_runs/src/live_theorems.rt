//! Theorems on all sessions (runs of `ucl_live`). The functions do nothing: each is there for its contract.
#![tactic(auto, using(crate::proofs::Theorems::live_theorems))]

ghost use Rattle.ucl_live_runs.specs.LiveTheorems.{BeginningsAreAnswered, BoardsTakeEvents, SessionsAreSequential, JsonAnswersAreLines, LinesAreReadWhole, MendsAreDone, RefusedSessionsAreSilent, RepliesAreThoseOfFeed};
ghost use Rattle.ucl_live_runs.specs.Moments.{SessionsShowMoments};

/// States that the answers to an input that is cut after a line feed are those to its first part, then those to the rest, from the session
/// that the first part leads to.
pub fn beginnings_are_answered()
    ensures { BeginningsAreAnswered }
{}

/// States that, after lines of which none mends, the events that stand on a board are those of before and those that the lines enter.
pub fn boards_take_events()
    ensures { BoardsTakeEvents }
{}

/// States that a session is sequential: if the events that stand are a legal history, then after lines of which none mends they are too,
/// with the accepted events of the lines. Each reply and each screen is that of a board used by one thread alone, after the events accepted
/// so far.
pub fn sessions_are_sequential()
    ensures { SessionsAreSequential }
{}

/// States that a line that asks for a mend brings an open board to a later edition, with clubs and events as the mend makes them; or that
/// all stays, if the mend is refused.
pub fn mends_are_done()
    ensures { MendsAreDone }
{}

/// States that, if the format is JSON, the answers are JSON values, each on a line of its own. That their members say what the text says is
/// tested, not proved.
pub fn json_answers_are_lines()
    ensures { JsonAnswersAreLines }
{}

/// States that a session answers lines of any length as if they were kept whole, though it keeps at most 258 bytes of each.
pub fn lines_are_read_whole()
    ensures { LinesAreReadWhole }
{}

/// States that each reply in text after a history is the line that `ucl_night feed` writes after this history.
pub fn replies_are_those_of_feed()
    ensures { RepliesAreThoseOfFeed }
{}

/// States that a session that is refused, for the rows that name its group and its clubs, has answered nothing.
pub fn refused_sessions_are_silent()
    ensures { RefusedSessionsAreSilent }
{}

/// States that a session with `--screens`, as text or in JSON, shows the moments of its record, also when it mends: behind the answer to each
/// accepted event and to each mend the table of the moment after it, and no other. The events that stand at each moment are a legal history.
pub fn sessions_show_moments()
    ensures { SessionsShowMoments }
{}
