//! Single lines of the screen; the whole screen is in `text`. A function that writes appends to `out`, and fails only if an allocation is
//! refused. A column is one byte.

ghost use Rattle.std.specs.Prelude.{◌≡◌, ◌++◌, ◌≤◌, replicate, OnOk, string_bytes, decimal};
ghost use Rattle.ucl_screen.specs.Lines.{header, place_line, mark_text, left, right, zeros_before, difference_text};

use itoa::Buffer;
use std::alloc::AllocError;
use ucl_order::{Mark, Row};

/// Writes a character of ASCII, `fill`, `times` times.
fn push_times(out: &mut String, fill: char, times: usize) -> Result<(), AllocError>
    requires { fill ≤ 127 }
    ensures { OnOk result (string_bytes out.new ≡ string_bytes out.old ++ replicate times fill) }
{
    for done in 0..times {
        out.push(fill)?;
    }
    Ok(())
}

/// Writes a text and then spaces up to `width` columns; a longer text is written whole.
pub(crate) fn push_left(out: &mut String, width: usize, text: &str) -> Result<(), AllocError>
    ensures { OnOk result (string_bytes out.new ≡ string_bytes out.old ++ left width text.now) }
{
    out.push_str(text)?;
    push_times(out, ' ', width.saturating_sub(text.len()))
}

/// Writes a number in decimal digits.
pub(crate) fn push_number(out: &mut String, number: u16) -> Result<(), AllocError>
    ensures { OnOk result (string_bytes out.new ≡ string_bytes out.old ++ decimal number) }
{
    out.push_str(Buffer::new().format(number))
}

/// Writes a number in decimal digits with spaces before it up to `width` columns; a longer one is written whole.
pub(crate) fn push_right(out: &mut String, width: usize, number: u16) -> Result<(), AllocError>
    ensures { OnOk result (string_bytes out.new ≡ string_bytes out.old
        ++ right width (decimal number)) }
{
    let mut buffer = Buffer::new();
    let digits = buffer.format(number);
    push_times(out, ' ', width.saturating_sub(digits.len()))?;
    out.push_str(digits)
}

/// Writes a number in decimal digits with zeros before it up to `width` digits; a longer one is written whole.
pub(crate) fn push_zeros_before(
    out: &mut String,
    width: usize,
    number: u16,
) -> Result<(), AllocError>
    ensures { OnOk result (string_bytes out.new ≡ string_bytes out.old
        ++ zeros_before width number) }
{
    let mut buffer = Buffer::new();
    let digits = buffer.format(number);
    push_times(out, '0', width.saturating_sub(digits.len()))?;
    out.push_str(digits)
}

/// Writes the difference of goals scored and conceded with its sign, `+` if it is 0, at the right of five columns.
fn push_difference(out: &mut String, scored: u16, conceded: u16) -> Result<(), AllocError>
    ensures { OnOk result (string_bytes out.new ≡ string_bytes out.old
        ++ right 5 (difference_text scored conceded)) }
{
    let mut buffer = Buffer::new();
    let (sign, digits) = if conceded <= scored {
        ('+', buffer.format(scored - conceded))
    } else {
        ('-', buffer.format(conceded - scored))
    };
    push_times(out, ' ', 4usize.saturating_sub(digits.len()))?;
    out.push(sign)?;
    out.push_str(digits)
}

/// Writes the first line of the screen: the letter of the group, the version (how many events were accepted), and the matches in play.
#[tactic(auto, unfolding(crate::specs::Lines::header))]
pub fn push_header(out: &mut String, group: u8, version: u16, in_play: u8) -> Result<(), AllocError>
    requires { group ≤ 127 }
    ensures { OnOk result (string_bytes out.new ≡ string_bytes out.old
        ++ header group version in_play) }
{
    out.push_str("GROUP ")?;
    out.push(char::from(group))?;
    out.push_str(" v")?;
    push_zeros_before(out, 5, version)?;
    out.push_str(" IN PLAY ")?;
    push_number(out, u16::from(in_play))?;
    out.push_str("\n")?;
    Ok(())
}

/// Returns the text of a mark: `+`, `-` or a space, between two spaces. It stands between the place and the name.
fn sign_of(mark: Mark) -> &'static str
    ensures { result.now ≡ mark_text mark }
{
    match mark {
        Mark::Plus => " + ",
        Mark::Minus => " - ",
        Mark::Blank => "   ",
    }
}

/// Writes the line of one place of the table: the place, the mark, the club's name, and the numbers of the row.
#[tactic(auto, unfolding(crate::specs::Lines::place_line))]
pub fn push_row(out: &mut String, row: &Row, name: &str) -> Result<(), AllocError>
    ensures { OnOk result (string_bytes out.new ≡ string_bytes out.old
        ++ place_line row.now name.now) }
{
    push_right(out, 1, u16::from(row.place))?;
    out.push_str(sign_of(row.mark))?;
    push_left(out, 20, name)?;
    push_right(out, 3, u16::from(row.played))?;
    push_right(out, 3, u16::from(row.wins))?;
    push_right(out, 3, u16::from(row.draws))?;
    push_right(out, 3, u16::from(row.losses))?;
    push_right(out, 4, row.goals_for)?;
    push_right(out, 4, row.goals_against)?;
    push_difference(out, row.goals_for, row.goals_against)?;
    push_right(out, 4, u16::from(row.points))?;
    out.push_str("\n")?;
    Ok(())
}
