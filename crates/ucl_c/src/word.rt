//! Whether a word holds a valid match, by its bits: 12 from bit 0 on are the event number, 2 the state, 8 from bit 48 on the number of the
//! last reporter, and the top 8 the tag of today's layout.

ghost use Rattle.std.specs.Prelude.{◌≡◌, ◌<◌, ◌↔◌, IsTrue};
ghost use Rattle.ucl_word.specs.Layout.{IsWord, bits_at};
ghost use Rattle.ucl_word.specs.Migration.{is_word};
ghost use Rattle.ucl_c.specs.Inputs.{IsOfBegunMatch};

/// The word of a match before its kick-off.
const SCHEDULED_WORD: u64 = 0x2000_0000_0000_0000;

/// Returns the number in the `width` bits of a word from bit `low` on.
fn bits(word: u64, low: u32, width: u32) -> u64
    requires low { low < 64 }
    requires width { width < 64 }
    ensures { result ≡ bits_at word low width }
{
    word >> low & (1 << width) - 1
}

/// Returns whether a word is that of a match that has kicked off: in play or finished.
fn has_begun(word: u64) -> bool
    ensures { IsTrue result ↔ IsOfBegunMatch word }
{
    let number = bits(word, 0, 12);
    let state = bits(word, 12, 2);
    word >> 56 == 0x20
        && bits(word, 48, 8) != 0
        && 1 <= state
        && state <= 2
        && state <= number
        && number <= 4093 + state
}

/// Returns whether a word is that of a valid match, by its bits, without the unpacking that [`unpack`](ucl_word::unpack) does.
pub fn is_word(word: u64) -> bool
    ensures word { IsTrue result ↔ IsWord word }
    ensures test { result ≡ is_word word }
{
    let begun = has_begun(word);
    begun | (word == SCHEDULED_WORD)
}
