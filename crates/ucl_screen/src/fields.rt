//! Single fields of a row, the bytes between two commas, parsed; `None` if they are not of the form that is said. An expected event number
//! is that of the last event of the match that the reporter saw. An event word is the name of a kind of event, such as `goal-home`.

ghost use Rattle.std.specs.Prelude.{◌≡◌, ◌<◌, ◌≤◌, IfSome};
ghost use Rattle.ucl_screen.specs.Events.{call_in, expected_in, match_in, reporter_in};
ghost use Rattle.ucl_screen.specs.Numbers.{number, hex_digit, hex_word};

use ucl_word::{EventCall, Kind, MatchNo, ReporterNo};

/// Parses a number of decimal digits, at least one and at most `most`; `None` if the text is anything else.
pub(crate) fn number(text: &[u8], most: usize) -> Option<u32>
    requires { most ≤ 9 }
    ensures { result ≡ number most text.now }
{
    if text.is_empty() || text.len() > most {
        return None;
    }
    let mut n: u32 = 0;
    for b in text {
        if *b < b'0' || *b > b'9' {
            return None;
        }
        n = 10 * n + u32::from(*b - b'0');
    }
    Some(n)
}

/// Parses the number of a reporter, 1 to 255 in 1 to 3 digits; `None` if the text is anything else.
pub fn reporter_of_field(text: &[u8]) -> Option<ReporterNo>
    ensures { result ≡ reporter_in text.now }
{
    ReporterNo::new(u8::try_from(number(text, 3)?).ok()?)
}

/// Parses the number of a match, 1 to 12 in 1 or 2 digits; `None` if the text is anything else.
pub fn match_of_field(text: &[u8]) -> Option<MatchNo>
    ensures { result ≡ match_in text.now }
{
    MatchNo::new(u8::try_from(number(text, 2)?).ok()?)
}

/// Parses an expected event number, 0 to 65,535 in 1 to 5 digits; `None` if the text is anything else.
pub fn expected_of_field(text: &[u8]) -> Option<u16>
    ensures { result ≡ expected_in text.now }
{
    u16::try_from(number(text, 5)?).ok()
}

/// Parses an event call from three fields: the match, the expected event number and the event word; `None` if one of them is bad.
pub fn call_of_fields(game: &[u8], expected: &[u8], kind: &[u8]) -> Option<EventCall>
    ensures { result ≡ call_in game.now expected.now kind.now }
{
    let game = match_of_field(game)?;
    let expected = expected_of_field(expected)?;
    let kind = Kind::from_name(kind)?;
    Some(EventCall {
        game,
        expected,
        kind,
    })
}

/// Returns the value of a hexadecimal digit of either case, 0 to 15; `None` if the byte is no such digit.
fn hex_digit(b: u8) -> Option<u8>
    ensures value { result ≡ hex_digit b }
    ensures small { IfSome result (λ digit. digit < 16) }
{
    match b {
        b'0'..=b'9' => Some(b - b'0'),
        b'a'..=b'f' => Some(b - b'a' + 10),
        b'A'..=b'F' => Some(b - b'A' + 10),
        _ => None,
    }
}

/// Parses a word of 64 bits from 16 hexadecimal digits of either case; `None` if the text is anything else.
pub fn hex_word(text: &[u8]) -> Option<u64>
    ensures { result ≡ hex_word text.now }
{
    if text.len() != 16 {
        return None;
    }
    let mut word: u64 = 0;
    for b in text {
        let digit = hex_digit(*b)?;
        word = 16 * word + u64::from(digit);
    }
    Some(word)
}
