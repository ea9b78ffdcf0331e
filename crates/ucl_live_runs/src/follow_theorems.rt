//! Theorems on what a follower (`ucl_follow`) shows. The functions do nothing: each is there for its contract.
#![tactic(auto, using(crate::proofs::Theorems::follow_theorems))]

ghost use Rattle.ucl_live_runs.specs.Follow.{AnswersFitTheirLines, AnswersNeverFall, FollowersEndWithTheBoard, LatestIsShownLast, LinesTellTheirBoardState, OthersDoNotMatter, RepeatedRowsChangeNothing, ScreensTellTheirBoardState, ShownVersionsRise};
ghost use Rattle.ucl_live_runs.specs.Moments.{EveryTableIsOneMoment, MixturesAreRefused, OlderMomentsAreRefused, RunsShowMoments};

use ucl_screen::{Sink, Source};

/// States that each board state that is shown is carried by a line and newer than all before, and that the text is that of their screens.
pub fn versions_rise()
    ensures { ShownVersionsRise }
{}

/// States that a board state that a line carries and the arguments ask for is shown last, if each other that they ask for is older, and of
/// its group and order.
pub fn latest_is_shown_last()
    ensures { LatestIsShownLast }
{}

/// States that the JSON value of a screen parses to just the board state that it was made from.
pub fn screens_tell_their_board_state()
    ensures { ScreensTellTheirBoardState }
{}

/// States that the JSON line of a screen parses to the board state that it was made from.
pub fn lines_tell_their_board_state()
    ensures { LinesTellTheirBoardState }
{}

/// States that each line of the answers to a record in JSON has at most the 4,096 bytes that a follower reads of a line.
pub fn answers_fit_their_lines()
    ensures { AnswersFitTheirLines }
{}

/// States that the latest board state of some lines is shown last also of others, if these carry no other board state, but this one: so they
/// may be the same lines reordered, repeated or in part.
pub fn others_do_not_matter()
    ensures { OthersDoNotMatter }
{}

/// States that accepted events which are entered again in the same edition, at any later places and any number of times, change nothing:
/// the history (the list of accepted events) and the board are those without them.
pub fn repeated_rows_change_nothing()
    ensures { RepeatedRowsChangeNothing }
{}

/// States that of the board states that the answers to a record carry each is the same as each one before it, or newer, also when the record
/// mends: edition and version never fall, and two answers with the same edition and version carry the same board state.
pub fn answers_never_fall()
    ensures { AnswersNeverFall }
{}

/// States that the board state at the end of a record, after all its mends, is the latest that its answers carry, if they carry it, or, with
/// `--screens`, any.
pub fn followers_end_with_the_board()
    ensures { FollowersEndWithTheBoard }
{}

/// States that each table that a follower shows is that of one moment of a record, if its lines are answers to the record, in any order and
/// any number of times: the board after some of the record's lines, with all mends so far, and each after more of them than the one before.
/// The last is that of the board at the end of the record, if one of the lines carries it.
pub fn every_table_is_one_moment()
    ensures { EveryTableIsOneMoment }
{}

/// States that all that a run of `ucl_follow` writes are tables of moments of a record, if it ends well and reads lines that a run of
/// `ucl_live` wrote for the record in JSON, and which ended well, in any order and any number of times: whatever the sources and sinks of
/// both are.
pub fn runs_show_moments<S: Source, W: Sink, F: Source, O: Sink, T: Sink>()
    ensures { RunsShowMoments S.Source W.Sink F.Source O.Sink T.Sink }
{}

/// States that a follower that shows an older board state after a newer one shows no moments of a record, as `every_table_is_one_moment`
/// says it.
pub fn older_moments_are_refused()
    ensures { OlderMomentsAreRefused }
{}

/// States, by a record that kicks off match 1 and then match 7, that a follower that shows matches 1 to 6 of one moment and matches 7 to 12
/// of another shows no moments of the record.
pub fn mixtures_are_refused()
    ensures { MixturesAreRefused }
{}
