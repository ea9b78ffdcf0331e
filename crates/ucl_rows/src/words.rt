//! The word lines of a board, one for each of its twelve matches: `word,INDEX,HEX,`, in which HEX is the match word. They ask for no
//! memory.

ghost use Rattle.std.specs.Prelude.{◌≡◌, ◌+◌, ◌<◌, ◌≤◌, ◌++◌, [], false, length};
ghost use Rattle.std.specs.Fmt.{digit_glyph};
ghost use Rattle.ucl_rows.specs.Lines.{word_lines, word_line};
ghost use Rattle.ucl_screen.specs.Numbers.{hex_digits};

use arrayvec::ArrayVec;
use itoa::Buffer;
use ucl_board::Board;

/// The most bytes of twelve word lines, of which none has more than 27.
const MAX_WORDS_BYTES: usize = 324;

/// The text of the twelve word lines of a board, or of the first of them.
pub type WordLines = ArrayVec<u8, MAX_WORDS_BYTES>;

/// Returns the lower-case hexadecimal digit of a number below 16.
fn digit_of(n: u8) -> u8
    requires { n < 16 }
    ensures { result ≡ digit_glyph false n }
{
    if n < 10 { b'0' + n } else { b'a' + (n - 10) }
}

/// Returns the sixteen hexadecimal digits of a match word, the highest first.
fn digits_of(word: u64) -> [u8; 16]
    ensures { result ≡ hex_digits word }
{
    let mut digits = [b'0'; 16];
    let mut rest = word;
    let mut place: usize = 16;
    while place > 0 {
        place -= 1;
        digits[place] = digit_of((rest % 16) as u8);
        rest /= 16;
    }
    digits
}

/// Adds bytes to lines that have room for them.
fn push(out: &mut WordLines, bytes: &[u8])
    requires { length out.old.items + length bytes.now ≤ 324 }
    ensures { out.new.items ≡ out.old.items ++ bytes.now }
{
    let _fits = out.try_extend_from_slice(bytes);
}

/// Adds the line of the match word with this index.
fn push_word(out: &mut WordLines, index: u8, word: u64)
    requires { length out.old.items + 27 ≤ 324 }
    ensures text { out.new.items ≡ out.old.items ++ word_line index word }
    ensures short { length out.new.items ≤ length out.old.items + 27 }
{
    push(out, "word,".as_bytes());
    push(out, Buffer::new().format(index).as_bytes());
    push(out, ",".as_bytes());
    push(out, &digits_of(word));
    push(out, ",\n".as_bytes());
}

/// Adds the line of each match word, the first with index 1.
fn push_words(out: &mut WordLines, words: &[u64])
    requires few { length words.now ≤ 12 }
    requires empty { out.old.items ≡ [] }
    ensures { out.new.items ≡ word_lines 1 words.now }
{
    let mut index: u8 = 1;
    for word in words {
        push_word(out, index, *word);
        index += 1;
    }
}

/// Returns the twelve word lines of a board, from which the board can be read again. They ask for no memory.
pub fn word_lines(board: &Board) -> WordLines
    ensures { result.items ≡ word_lines 1 board.now }
{
    let mut out = ArrayVec::new();
    push_words(&mut out, board.words().as_slice());
    out
}
