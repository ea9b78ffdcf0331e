//! The main theorems: one history for all callers of a shared board, and the screens of what they read. The functions do nothing: they are
//! there for their contracts.

ghost use Rattle.ucl_theorems.specs.Headline.{EveryRunHasOneHistory, BoardsHaveOneHistory, HistoriesGoOn, ScreensShowTheHistory};

use atomic_table::TableRule;
use ucl_board::Entry;
use ucl_words::View;
use ucl_words::rule::WordRule;

/// Shows that a word board has one history, in every state that satisfies its table's invariant. The kit states that each state between two
/// steps does. One log has all steps but the loads of splits and joins; its history has the match words, and each pass has seen a prefix of
/// it. Its calls are linearizable (Herlihy and Wing): in some order that keeps that of their steps the board of one thread gives the replies
/// that they got, and has the log's history at the end. The screen of a snapshot is the text of its board, in the chosen order.
pub fn boards_have_one_history()
    ensures history { BoardsHaveOneHistory (⟦<WordRule as TableRule<Entry, View, ()>>⟧.holds tt) }
    ensures screens { ScreensShowTheHistory }
{}

/// Shows that the history of a word board only grows. After steps of any passes (`steps_are_monotone` of `ucl_words`) the log begins with
/// what it was before, and no completed call moves. The order of calls, even of passes that told each other nothing, is that of real time: a
/// call that had ended in some state goes before each call that began in it or later, also of a pass that was split off later. So a reading
/// has the event of each report that was accepted, and over, before the reading began, and no lower version than a reading that was over by
/// then. And no reading is torn: one that has the event of the later of two such reports has that of the earlier one.
pub fn histories_go_on()
    ensures { HistoriesGoOn (⟦<WordRule as TableRule<Entry, View, ()>>⟧.holds tt) }
{}

/// Shows that every run of the protocol's machine has one history, for every list of steps of any reporters and readers, with calls cut off
/// anywhere and left unfinished: its calls are linearizable, and leave the machine's history. So no reading mixes two boards, no reader reads
/// a lower version later (`stale_and_torn_readings_are_refused` of `ucl_steps`), and each screen is the text of the board that its reading
/// copied, with its clubs in order.
pub fn every_run_has_one_history()
    ensures history { EveryRunHasOneHistory }
    ensures screens { ScreensShowTheHistory }
{}
