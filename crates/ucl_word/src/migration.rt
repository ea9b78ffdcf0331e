//! Words of the first layout, in which older boards were saved, and how they become words of the present one. The tag of the present layout
//! is 2; a word of the first has zeros there.

ghost use Rattle.std.specs.Prelude.{◌≡◌, ◌≤◌, ◌↔◌, IsTrue, Ok, IfOk, IfErr};
ghost use Rattle.std.specs.Result.{result_ok};
ghost use Rattle.ucl_word.specs.declared.record.MatchRecord.{MatchRecord};
ghost use Rattle.ucl_word.specs.Layout.{first_layout, word_of, HasLayoutTag, IsWord};
ghost use Rattle.ucl_word.specs.Migration.{moved_up, max_number_in_first_layout, first_word_of, IsFirstValid, IsFirstWord, read_word};

use crate::record::{MatchRecord, State};
use crate::refusal::BadWord;
use crate::word::{LAYOUT_TAG, LAYOUT_TAG_LOW, NUMBER_WIDTH, field, pack, put_at, unpack};

/// How many bits the event number had in the first layout. The fields above it stood two bits lower than now, and had as many bits.
const FIRST_NUMBER_WIDTH: u32 = 10;

/// The lowest bit of those that no field used in the first layout. They were zero.
const FIRST_FIELDS_END: u32 = 54;

/// The greatest event number that the first layout had room for.
const MAX_NUMBER_IN_FIRST_LAYOUT: u16 = 1023;

/// Returns whether the first layout had room for the event number of this match: whether it is at most 1023, or at most 1022 in play, so
/// that full time has a number left.
fn has_room(game: &MatchRecord) -> bool
    ensures { IsTrue result ↔ game.now.number ≤ max_number_in_first_layout game.now.state }
{
    match game.state {
        State::InPlay => game.number <= MAX_NUMBER_IN_FIRST_LAYOUT - 1,
        _ => game.number <= MAX_NUMBER_IN_FIRST_LAYOUT,
    }
}

/// Returns whether the bits of a word above the fields of the first layout are zero, as in each word of that layout, whose layout tag is 0.
fn has_no_layout_tag(word: u64) -> bool
    ensures { IsTrue result ↔ HasLayoutTag first_layout word }
{
    word >> FIRST_FIELDS_END == 0
}

/// Returns a word of the first layout with its fields moved to their places in the present layout, and with its layout tag added.
fn moved(word: u64) -> u64
    requires { HasLayoutTag first_layout word }
    ensures { result ≡ moved_up word }
{
    let number = field(word, 0, FIRST_NUMBER_WIDTH);
    let fields = put_at(word >> FIRST_NUMBER_WIDTH, NUMBER_WIDTH, number);
    put_at(LAYOUT_TAG, LAYOUT_TAG_LOW, fields)
}

/// Unpacks a word of the first layout into the record of its match.
///
/// # Errors
///
/// [`BadWord`] if, in the first layout, the word is the packing of no record that was valid there.
fn unpack_first(word: u64) -> Result<MatchRecord, BadWord>
    ensures valid { IfOk result IsFirstValid }
    ensures packed { IfOk result (λ m. first_word_of m ≡ word) }
    ensures refused { IfErr result (λ _. IsFirstWord word → ⊥) }
{
    if !has_no_layout_tag(word) {
        return Err(BadWord);
    }
    let Ok(game) = unpack(moved(word)) else {
        return Err(BadWord);
    };
    if has_room(&game) {
        Ok(game)
    } else {
        Err(BadWord)
    }
}

/// Converts a word of the first or of the present layout to the word of the same record in the present layout.
///
/// A word of the present layout, which is one that [`unpack`] reads, is returned as it is. No word is of both layouts.
///
/// # Errors
///
/// [`BadWord`] if no valid record packs to the word in either layout.
pub fn migrate(word: u64) -> Result<u64, BadWord>
    ensures kept { IsWord word → result ≡ Ok word }
    ensures moved { (m : MatchRecord) → IsFirstValid m → first_word_of m ≡ word
        → result ≡ Ok (word_of m) }
    ensures read { read_word word ≡ result_ok result }
    ensures refused { IfErr result (λ _. (IsWord word → ⊥) × (IsFirstWord word → ⊥)) }
{
    if unpack(word).is_ok() {
        return Ok(word);
    }
    match unpack_first(word) {
        Ok(game) => Ok(pack(&game)),
        Err(bad) => Err(bad),
    }
}
