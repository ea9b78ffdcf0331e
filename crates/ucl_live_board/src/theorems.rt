//! Theorems of every shared board that keeps the invariant, whatever its kinds of step are. The functions do nothing: each is there for its
//! contract.

ghost use Rattle.ucl_log.specs.Log.{IsLegalRule};
ghost use Rattle.ucl_live_board.specs.BoardInvariant.{StepsComeLast, LastStepsSeeAll, PassesSeePrefixes, NumbersAreApart, WordsCountReporters, HoldersDidAll, WholeIsAlone};

/// What makes a kind of shared board: its words after a history, and the rule by which steps come one after another in its log.
pub trait BoardRule {
    ghost use Rattle.std.specs.Prelude.{ℕ, List};
    ghost use Rattle.ucl_board.specs.declared.entry.Entry.{Entry};
    ghost use Rattle.ucl_log.specs.Log.{LoggedStep, Log};

    // What the words of the board are after a history and so many enlistments of reporters.
    ghost words_after: { List Entry → ℕ → List ℕ };

    // Whether this step may come after this log.
    ghost may: { Log → LoggedStep → Type 0 };
}

/// States that the steps that a pass takes are the end of the log: each came after all that were there, and found the word that was there.
pub fn steps_come_last<B: BoardRule>()
    ensures { StepsComeLast B.words_after B.may }
{}

/// States that the pass that took the last step of the log knows the whole log, and so has seen the whole history.
pub fn last_steps_see_all<B: BoardRule>()
    ensures { LastStepsSeeAll B.words_after B.may }
{}

/// States that the history is legal, that the numbers of reporters are those from 1 to how many are enlisted, at most 255, each of one
/// pass, and that a pass has added the entries of its number, and no others.
pub fn numbers_are_apart<B: BoardRule>()
    ensures { IsLegalRule B.may → NumbersAreApart B.words_after B.may }
{}

/// States that what each pass has seen is a prefix of the history of the board.
pub fn passes_see_prefixes<B: BoardRule>()
    ensures { PassesSeePrefixes B.words_after B.may }
{}

/// States that the words of a board count the reporters that are enlisted, at most 255, and that no number is above that count: not that
/// of a pass, not how many reporters a pass has seen enlisted, not that of an entry in the history.
pub fn words_count_reporters<B: BoardRule>()
    ensures { IsLegalRule B.may → WordsCountReporters B.words_after B.may }
{}

/// States that passes whose shares make up the whole board took all steps that were taken, and have all numbers that were given: no other
/// pass has entered an event, nor can one be enlisted.
pub fn holders_did_all<B: BoardRule>()
    ensures { IsLegalRule B.may → HoldersDidAll B.words_after B.may }
{}

/// States that a pass whose share is the whole board entered all that was entered, and that none but it was enlisted. So whoever has just
/// opened a board knows that all it sees is its own, until it splits its pass.
pub fn whole_is_alone<B: BoardRule>()
    ensures { IsLegalRule B.may → WholeIsAlone B.words_after B.may }
{}
