//! The rules of events: which are refused, and what an accepted one changes in the word of its match. The rules are the nine conditions of
//! `Refusal`, tried in order: the first that holds refuses the event. A field is named by its lowest bit and how many bits it has.

ghost use Rattle.std.specs.Prelude.{◌≡◌, ◌<◌, ◌^◌, IfOk, IfErr, Some, None, MatchResult};
ghost use Rattle.ucl_word.specs.Record.{IsValid};
ghost use Rattle.ucl_word.specs.Layout.{word_of, record_at, IsWord};
ghost use Rattle.ucl_word.specs.Rules.{refusal_of, after};
ghost use Rattle.ucl_word.specs.Counts.{CountsOneMore};
ghost use Rattle.ucl_word.specs.Changes.{state_for, change_refusal, goals_field, yellows_field, expulsions_field, Raises, Lowers, Changes};

use crate::event::{Kind, Side};
use crate::record::{
    MAX_EXPULSIONS, MAX_GOALS, MAX_NUMBER_IN_PLAY, MAX_YELLOWS, MatchRecord, State,
};
use crate::refusal::Refusal;
use crate::reporter_no::ReporterNo;
use crate::word::{
    AWAY_EXPULSIONS_LOW, AWAY_GOALS_LOW, AWAY_YELLOWS_LOW, EXPULSIONS_WIDTH, GOALS_WIDTH,
    HOME_EXPULSIONS_LOW, HOME_GOALS_LOW, HOME_YELLOWS_LOW, REPORTER_LOW, REPORTER_WIDTH, STATE_LOW,
    YELLOWS_WIDTH, field, number_of, pack, record_of, state_in,
};

/// The number that is added to a word to move its match to the next state, from scheduled to in play or from in play to finished.
const NEXT_STATE: u64 = 1 << STATE_LOW;

/// Returns the state that a match must have to accept an event of this kind.
fn state_for(kind: Kind) -> State
    ensures { result ≡ state_for kind }
{
    match kind {
        Kind::KickOff => State::Scheduled,
        Kind::Reopen => State::Finished,
        _ => State::InPlay,
    }
}

/// Returns the lowest bit, counted from 0, of the field with the goals of this side in a word.
fn goals_low(side: Side) -> u32
    ensures { result ≡ (goals_field side).low }
{
    match side {
        Side::Home => HOME_GOALS_LOW,
        Side::Away => AWAY_GOALS_LOW,
    }
}

/// Returns the lowest bit, counted from 0, of the field with this side's yellow cards that led to no expulsion in a word.
fn yellows_low(side: Side) -> u32
    ensures { result ≡ (yellows_field side).low }
{
    match side {
        Side::Home => HOME_YELLOWS_LOW,
        Side::Away => AWAY_YELLOWS_LOW,
    }
}

/// Returns the lowest bit, counted from 0, of the field with the expulsions of this side in a word.
fn expelled_low(side: Side) -> u32
    ensures { result ≡ (expulsions_field side).low }
{
    match side {
        Side::Home => HOME_EXPULSIONS_LOW,
        Side::Away => AWAY_EXPULSIONS_LOW,
    }
}

// Measured: put into its caller from the first, it makes a report on a shared board faster by a twentieth.
/// Tries the first six of the nine rules, those on the event number and state of the match. `expected` is the event number that the event
/// expects. On `Ok` the match has the state that the kind needs, and only the other three rules can still refuse the event.
///
/// # Errors
///
/// The refusal by the first of these six rules that holds.
#[inline(always)]
#[tactic(auto, unfolding(crate::specs::Rules::refusal_of))]
fn in_turn(word: u64, expected: u16, kind: Kind) -> Result<(), Refusal>
    ensures { MatchResult result
        (λ _. ((record_at word).state ≡ state_for kind)
        × (refusal_of (record_at word) expected kind ≡ change_refusal (record_at word) kind))
        (λ refusal. refusal_of (record_at word) expected kind ≡ Some refusal) }
{
    let number = number_of(word);
    if expected != number {
        return Err(Refusal::Stale { found: number });
    }
    let state = state_in(word);
    if state != state_for(kind) {
        return Err(match state {
            State::Finished => Refusal::Finished,
            _ if kind == Kind::Reopen => Refusal::NotFinished,
            State::Scheduled => Refusal::NotStarted,
            State::InPlay => Refusal::AlreadyStarted,
        });
    }
    if number >= MAX_NUMBER_IN_PLAY && kind != Kind::FullTime {
        return Err(Refusal::NumberFull);
    }
    Ok(())
}

/// Returns `word` with one more in its field from bit `low` on, `width` bits wide.
///
/// # Errors
///
/// [`Refusal::LimitReached`] if the field holds `most` or more.
fn raised(word: u64, low: u32, width: u32, most: u8) -> Result<u64, Refusal>
    requires word { word < 2 ^ 63 }
    requires low { low < 63 }
    requires width { width < 64 }
    ensures { Raises word low width most result }
{
    if field(word, low, width) >= u64::from(most) {
        Err(Refusal::LimitReached)
    } else {
        Ok(word + (1 << low))
    }
}

/// Returns `word` with one less in its field from bit `low` on, `width` bits wide.
///
/// # Errors
///
/// The refusal `missing`, which the caller passes in, if the field holds 0.
fn lowered(word: u64, low: u32, width: u32, missing: Refusal) -> Result<u64, Refusal>
    requires low { low < 64 }
    requires width { width < 64 }
    ensures { Lowers word low width missing result }
{
    if field(word, low, width) == 0 {
        Err(missing)
    } else {
        Ok(word - (1 << low))
    }
}

// As calls of their own, this and `next_word` would hand the word back through memory, which a report on a shared board would wait for.
/// Returns `word` with the change that an event of this kind makes in the state, goals, yellow cards or expulsions. The event number and
/// the reporter stay. The match has to have the state that this kind of event needs.
///
/// # Errors
///
/// The refusal by the first of the last three rules that holds: no goal to disallow, no yellow card for a second one, a limit reached.
#[inline(always)]
fn changed(word: u64, kind: Kind) -> Result<u64, Refusal>
    requires word { IsWord word }
    requires state { (record_at word).state ≡ state_for kind }
    ensures { Changes word kind result }
{
    match kind {
        Kind::KickOff => Ok(word + NEXT_STATE),
        Kind::FullTime => Ok(word + NEXT_STATE),
        Kind::Reopen => Ok(word - NEXT_STATE),
        Kind::Goal(side) => raised(word, goals_low(side), GOALS_WIDTH, MAX_GOALS),
        Kind::Disallow(side) => lowered(word, goals_low(side), GOALS_WIDTH, Refusal::NoGoal),
        Kind::Yellow(side) => raised(word, yellows_low(side), YELLOWS_WIDTH, MAX_YELLOWS),
        Kind::SecondYellow(side) => {
            let fewer = lowered(word, yellows_low(side), YELLOWS_WIDTH, Refusal::NoCaution)?;
            let more = raised(word, expelled_low(side), EXPULSIONS_WIDTH, MAX_EXPULSIONS)?;
            Ok(fewer + (more - word))
        }
        Kind::Red(side) => raised(word, expelled_low(side), EXPULSIONS_WIDTH, MAX_EXPULSIONS),
    }
}

/// Enters an event of this reporter, who expects the event number `expected`, in the word of a match, and returns the next word.
///
/// `word` has to be the packing of a valid record. The next word is the packing of the record that [`apply`] returns for that record.
///
/// # Errors
///
/// The refusal by the first of the nine rules that holds.
#[inline(always)]
pub fn next_word(word: u64, reporter: ReporterNo, expected: u16, kind: Kind) -> Result<u64, Refusal>
    requires { IsWord word }
    ensures refused { IfErr result (λ r. refusal_of (record_at word) expected kind ≡ Some r) }
    ensures accepted { IfOk result (λ next. (refusal_of (record_at word) expected kind ≡ None)
        × (next ≡ word_of (after (record_at word) reporter kind))) }
    ensures valid { IfOk result (λ _. IsValid (after (record_at word) reporter kind)) }
{
    in_turn(word, expected, kind)?;
    let changed = changed(word, kind)?;
    let before = field(word, REPORTER_LOW, REPORTER_WIDTH) << REPORTER_LOW;
    let now = u64::from(reporter.get()) << REPORTER_LOW;
    Ok(changed + 1 - before + now)
}

/// Enters an event of this reporter, who expects the event number `expected`, in the record of a match, and returns the next record.
///
/// `before` has to be a valid record. An accepted event raises the event number by one, sets the reporter, and
/// changes what its kind names; the record is valid again. By counting: if `before` is the record that is counted from a list of events,
/// each accepted after those before it, the next record is the one that is counted from this list with the event at its end.
///
/// # Errors
///
/// The refusal by the first of the nine rules that holds.
pub fn apply(
    before: &MatchRecord,
    reporter: ReporterNo,
    expected: u16,
    kind: Kind,
) -> Result<MatchRecord, Refusal>
    requires { IsValid before.now }
    ensures refused { IfErr result (λ r. refusal_of before.now expected kind ≡ Some r) }
    ensures accepted { IfOk result (λ m. (refusal_of before.now expected kind ≡ None)
        × (m ≡ after before.now reporter kind)) }
    ensures valid { IfOk result IsValid }
    ensures counted { IfOk result (CountsOneMore before.now reporter kind) }
{
    let next = next_word(pack(before), reporter, expected, kind)?;
    Ok(record_of(next))
}
