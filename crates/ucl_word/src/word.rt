//! A match as one word: where its fields stand, counted from bit 0, and how a record is packed and unpacked. What an event changes in a
//! word is in `rules`.

ghost use Rattle.std.specs.Prelude.{◌≡◌, ◌*◌, ◌+◌, ◌^◌, ◌<◌, ◌≤◌, ◌/◌, ◌↔◌, IsTrue, IfOk, IfErr, Ok};
ghost use Rattle.ucl_word.specs.Record.{max_number, IsValid};
ghost use Rattle.ucl_word.specs.Layout.{layout, word_of, record_at, state_code, bits_at, HasLayoutTag, IsWord, HoldsRecord};

use crate::record::{MatchRecord, State};
use crate::refusal::BadWord;

/// How many bits of a word the event number has. It is the lowest field, from bit 0 on.
pub(crate) const NUMBER_WIDTH: u32 = 12;

/// The lowest bit of the field with the state of the match.
pub(crate) const STATE_LOW: u32 = 12;

/// How many bits the state of the match has.
const STATE_WIDTH: u32 = 2;

/// The lowest bit of the goals of the home side.
pub(crate) const HOME_GOALS_LOW: u32 = 14;

/// The lowest bit of the goals of the visiting side.
pub(crate) const AWAY_GOALS_LOW: u32 = 20;

/// How many bits the goals of a side have.
pub(crate) const GOALS_WIDTH: u32 = 6;

/// The lowest bit of the home side's yellow cards that led to no expulsion.
pub(crate) const HOME_YELLOWS_LOW: u32 = 26;

/// The lowest bit of the visiting side's yellow cards that led to no expulsion.
pub(crate) const AWAY_YELLOWS_LOW: u32 = 32;

/// How many bits the yellow cards of a side have.
pub(crate) const YELLOWS_WIDTH: u32 = 6;

/// The lowest bit of the expulsions of the home side.
pub(crate) const HOME_EXPULSIONS_LOW: u32 = 38;

/// The lowest bit of the expulsions of the visiting side.
pub(crate) const AWAY_EXPULSIONS_LOW: u32 = 43;

/// How many bits the expulsions of a side have.
pub(crate) const EXPULSIONS_WIDTH: u32 = 5;

/// The lowest bit of the field with the number of the reporter who entered the last event.
pub(crate) const REPORTER_LOW: u32 = 48;

/// How many bits the number of the reporter who entered the last event has.
pub(crate) const REPORTER_WIDTH: u32 = 8;

/// The first bit above all fields. From it on a word holds the layout tag and nothing else.
const FIELDS_END: u32 = 56;

/// The lowest bit of the layout tag.
pub(crate) const LAYOUT_TAG_LOW: u32 = 60;

/// The layout tag: the number that a word holds from bit `LAYOUT_TAG_LOW` on.
pub(crate) const LAYOUT_TAG: u64 = 2;

/// Returns the number that stands for a state in a word.
fn code_of(state: State) -> u64
    ensures { result ≡ state_code state }
{
    match state {
        State::Scheduled => 0,
        State::InPlay => 1,
        State::Finished => 2,
    }
}

/// Returns `value` moved up by `low` bits, with `below` in the bits under it.
pub(crate) fn put_at(value: u64, low: u32, below: u64) -> u64
    requires low { low < 64 }
    requires below { below < 2 ^ low }
    requires room { value * 2 ^ low < 2 ^ 64 }
    ensures { result ≡ value * 2 ^ low + below }
{
    value << low | below
}

/// Packs a valid record into its word: the sum of its fields and the layout tag, each times two to the power of its lowest bit.
///
/// From the lowest bits on these are the event number, the state (0 scheduled, 1 in play, 2 finished), the goals of the
/// home and the visiting side, their yellow cards that led to no expulsion, their expulsions, the reporter, and the layout tag, where the
/// constants of this module have them. Distinct valid records have distinct words.
#[tactic(auto, using(crate::proofs::ValidRecords::limits))]
pub fn pack(game: &MatchRecord) -> u64
    requires { IsValid game.now }
    ensures { result ≡ word_of game.now }
{
    let word = u64::from(game.number);
    let word = put_at(code_of(game.state), STATE_LOW, word);
    let word = put_at(u64::from(game.home_goals), HOME_GOALS_LOW, word);
    let word = put_at(u64::from(game.away_goals), AWAY_GOALS_LOW, word);
    let word = put_at(u64::from(game.home_yellows), HOME_YELLOWS_LOW, word);
    let word = put_at(u64::from(game.away_yellows), AWAY_YELLOWS_LOW, word);
    let word = put_at(u64::from(game.home_expulsions), HOME_EXPULSIONS_LOW, word);
    let word = put_at(u64::from(game.away_expulsions), AWAY_EXPULSIONS_LOW, word);
    let word = put_at(u64::from(game.reporter), REPORTER_LOW, word);
    put_at(LAYOUT_TAG, LAYOUT_TAG_LOW, word)
}

/// Returns the number in the field of a word from bit `low` on, `width` bits wide.
pub(crate) fn field(word: u64, low: u32, width: u32) -> u64
    requires low { low < 64 }
    requires width { width < 64 }
    ensures value { result ≡ bits_at word low width }
    ensures below { result < 2 ^ width }
{
    word >> low & (1 << width) - 1
}

/// Returns the event number in a word, whatever its other fields hold.
#[tactic(auto, unfolding(crate::specs::Layout::record_at))]
#[inline]
pub fn number_of(word: u64) -> u16
    ensures value { result ≡ (record_at word).number }
    ensures bound { result ≤ max_number }
{
    field(word, 0, NUMBER_WIDTH) as u16
}

/// Returns the state of the match in a word. The number 3, which stands for no state, is read as finished.
#[tactic(auto, unfolding(crate::specs::Layout::record_at))]
pub(crate) fn state_in(word: u64) -> State
    ensures { result ≡ (record_at word).state }
{
    match field(word, STATE_LOW, STATE_WIDTH) {
        0 => State::Scheduled,
        1 => State::InPlay,
        _ => State::Finished,
    }
}

/// Returns whether the bits of a word above its fields hold the layout tag and nothing else.
fn has_layout_tag(word: u64) -> bool
    ensures { IsTrue result ↔ HasLayoutTag layout word }
{
    word >> FIELDS_END == LAYOUT_TAG << (LAYOUT_TAG_LOW - FIELDS_END)
}

/// Returns the record with the numbers that the fields of a word hold, whether or not it is valid.
fn fields_of(word: u64) -> MatchRecord
    ensures { result ≡ record_at word }
{
    MatchRecord {
        number: number_of(word),
        state: state_in(word),
        home_goals: field(word, HOME_GOALS_LOW, GOALS_WIDTH) as u8,
        away_goals: field(word, AWAY_GOALS_LOW, GOALS_WIDTH) as u8,
        home_yellows: field(word, HOME_YELLOWS_LOW, YELLOWS_WIDTH) as u8,
        away_yellows: field(word, AWAY_YELLOWS_LOW, YELLOWS_WIDTH) as u8,
        home_expulsions: field(word, HOME_EXPULSIONS_LOW, EXPULSIONS_WIDTH) as u8,
        away_expulsions: field(word, AWAY_EXPULSIONS_LOW, EXPULSIONS_WIDTH) as u8,
        reporter: field(word, REPORTER_LOW, REPORTER_WIDTH) as u8,
    }
}

/// Returns whether a word is the packing of a valid record. `fields` has to be the record with the numbers that the word's fields hold.
fn is_packed(word: u64, fields: &MatchRecord) -> bool
    requires { fields.now ≡ record_at word }
    ensures { IsTrue result ↔ HoldsRecord word }
{
    has_layout_tag(word) && field(word, STATE_LOW, STATE_WIDTH) < 3 && fields.is_valid()
}

/// Unpacks a word to the valid record that packs to it.
///
/// # Errors
///
/// [`BadWord`] if no valid record packs to the word: if its bits from `FIELDS_END` on are not the layout tag, its state is 3, or its
/// fields are those of no match.
pub fn unpack(word: u64) -> Result<MatchRecord, BadWord>
    ensures valid { IfOk result IsValid }
    ensures packed { IfOk result (λ m. word_of m ≡ word) }
    ensures read_back { (m : MatchRecord) → IsValid m → word_of m ≡ word → result ≡ Ok m }
    ensures refused { IfErr result (λ _. IsWord word → ⊥) }
{
    let game = fields_of(word);
    if is_packed(word, &game) {
        Ok(game)
    } else {
        Err(BadWord)
    }
}

/// Unpacks a word that has to be the packing of a valid record. It does not test that, as [`unpack`] does.
pub fn record_of(word: u64) -> MatchRecord
    requires { IsWord word }
    ensures value { result ≡ record_at word }
    ensures valid { IsValid result }
{
    fields_of(word)
}
