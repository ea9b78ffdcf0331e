//! Calls of C on one match, given by its word. Words of the first layout are read as words of today's.

ghost use Rattle.std.specs.Prelude.{◌≡◌, ◌≢◌, ◌↔◌, ℕ, Some, None, IsSome, IfSome};
ghost use Rattle.ucl_word.specs.Record.{IsReporter};
ghost use Rattle.ucl_word.specs.Layout.{IsWord, record_at};
ghost use Rattle.ucl_word.specs.Migration.{read_word};
ghost use Rattle.ucl_c.specs.Codes.{expected_told, match_seen, next_of, state_code_in_c};
ghost use Rattle.ucl_c.specs.Faults.{fault_of_next, found_with, status_with};

use crate::fault::{Fault, refused};
use crate::word::is_word;
use ucl_word::{Kind, ReporterNo, State, migrate, next_word, record_of};

/// The record of a match in the form of C. Its yellows are standing ones: yellow cards that no second yellow has turned into an expulsion.
#[repr(C)]
#[derive(Clone, Copy, Debug, PartialEq, Eq)]
pub struct MatchOfC {
    /// The event number, 0 to 4,095.
    pub number: u32,
    /// 0 scheduled, 1 in play, 2 finished.
    pub state: u32,
    pub home_goals: u32,
    pub away_goals: u32,
    pub home_yellows: u32,
    pub away_yellows: u32,
    pub home_expulsions: u32,
    pub away_expulsions: u32,
    /// The reporter of the last event, 1 to 255, or 0 where there was none.
    pub reporter: u32,
}

/// Returns the reporter with this number, or `None` unless the number is 1 to 255.
fn reporter_with(number: u32) -> Option<ReporterNo>
    ensures exists { IsSome result ↔ IsReporter number }
    ensures value { IfSome result (λ reporter. reporter ≡ number) }
{
    match u8::try_from(number) {
        Ok(number) => ReporterNo::new(number),
        Err(_) => None,
    }
}

/// Returns an expected event number in 16 bits. One that does not fit becomes 65,535: like it, that is a number that no match has.
pub fn expected_told(expected: u32) -> u16
    ensures { result ≡ expected_told expected }
{
    match u16::try_from(expected) {
        Ok(expected) => expected,
        Err(_) => 65535,
    }
}

/// Writes to `next` the word that the word of a match becomes by an event, and returns 0; or returns the number of the first fault: of the
/// reporter, the kind, the word, or the rule that refuses the event. A stale event writes the match's event number to `found`.
#[unsafe(no_mangle)]
pub extern "C" fn uclboard_next_word(
    word: u64,
    reporter: u32,
    expected: u32,
    kind: u32,
    next: &mut u64,
    found: &mut u32,
) -> u32
    ensures told { result ≡ status_with (fault_of_next word reporter expected kind) }
    ensures done { result ≡ 0 → next.new ≡ next_of word reporter kind }
    ensures unchanged { result ≢ 0 → next.new ≡ next.old }
    ensures found { found.new ≡ found_with (fault_of_next word reporter expected kind) found.old }
{
    let Some(reporter) = reporter_with(reporter) else {
        return Fault::NoReporter.status();
    };
    let Some(kind) = Kind::from_code(kind) else {
        return Fault::NoKind.status();
    };
    if !is_word(word) {
        return Fault::BadWord { index: 1 }.status();
    }
    match next_word(word, reporter, expected_told(expected), kind) {
        Ok(entered) => {
            *next = entered;
            0
        }
        Err(refusal) => refused(refusal, found),
    }
}

/// Writes to `read` the word of a match in today's layout, if `word` is one in today's or the first layout, and returns 0. If it is one in
/// neither, returns 10 and writes nothing.
#[unsafe(no_mangle)]
pub extern "C" fn uclboard_read_word(word: u64, read: &mut u64) -> u32
    ensures done { (new : ℕ) → read_word word ≡ Some new → (result ≡ 0) × (read.new ≡ new) }
    ensures refused { read_word word ≡ None → (result ≡ 10) × (read.new ≡ read.old) }
{
    match migrate(word) {
        Ok(new) => {
            *read = new;
            0
        }
        Err(_) => Fault::BadWord { index: 1 }.status(),
    }
}

/// Returns the number by which C knows the state of a match: 0 scheduled, 1 in play, 2 finished.
fn state_code(state: State) -> u32
    ensures { result ≡ state_code_in_c state }
{
    match state {
        State::Scheduled => 0,
        State::InPlay => 1,
        State::Finished => 2,
    }
}

/// Writes the record that a word of today's layout holds to `out`, and returns 0. If it holds no valid one, returns 10 and leaves `out`.
#[unsafe(no_mangle)]
pub extern "C" fn uclboard_match_of(word: u64, out: &mut MatchOfC) -> u32
    ensures done { IsWord word → (result ≡ 0) × (out.new ≡ match_seen (record_at word)) }
    ensures refused { (IsWord word → ⊥) → (result ≡ 10) × (out.new ≡ out.old) }
{
    if !is_word(word) {
        return Fault::BadWord { index: 1 }.status();
    }
    let game = record_of(word);
    *out = MatchOfC {
        number: u32::from(game.number),
        state: state_code(game.state),
        home_goals: u32::from(game.home_goals),
        away_goals: u32::from(game.away_goals),
        home_yellows: u32::from(game.home_yellows),
        away_yellows: u32::from(game.away_yellows),
        home_expulsions: u32::from(game.home_expulsions),
        away_expulsions: u32::from(game.away_expulsions),
        reporter: u32::from(game.reporter),
    };
    0
}
