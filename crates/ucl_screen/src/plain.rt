//! The first row of a text, read where it lies. The crate `csv` has to read it only if one of its fields begins with a quote and has
//! another one within, or something between its last quote and the comma behind it.

ghost use Rattle.std.specs.Prelude.{◌≡◌, ◌≢◌, ◌==◌, ◌<◌, ◌≤◌, ◌+◌, ◌++◌, IfSome, IsSomeAnd, List, MatchOption, Some, ℕ, false, get_or, length, take, true};
ghost use Rattle.std.specs.List.{list_all};
ghost use Rattle.csv.specs.Reading.{strip_bom};
ghost use Rattle.ucl_screen.specs.Rows.{Fields, four_seen};
ghost use Rattle.ucl_screen.specs.PlainRows.{AtLineEnd, BeginsWithField, BeginsWithRow, FollowsField, IsFieldBefore, IsFirstRow, IsLastField, IsReadPlain};
ghost use Rattle.ucl_screen.specs.PlainRows.{commas, fields_of_four, has_quote, is_joining, is_line_end, is_quotable};

use crate::rows::Four;

/// What a text begins with.
#[derive(Clone, Copy)]
pub enum FirstRow<'a> {
    /// Nothing but ends of lines: there is no row.
    None,
    /// A row of these four fields, and then this rest, which begins with the end of its line.
    Four(Four<'a>, &'a [u8]),
    /// A row of fewer fields, or of more.
    Other,
    /// A row that only `csv` can read.
    Unread,
}

/// Returns whether a text begins with this byte, which must not be 0.
fn begins_with(text: &[u8], byte: u8) -> bool
    requires { 0 < byte }
    ensures { result ≡ (get_or text.now 0 0 == byte) }
{
    !text.is_empty() && text[0] == byte
}

/// Returns whether a byte can belong to a field that began with no quote: it is no comma, carriage return or line feed.
fn is_joining(b: u8) -> bool
    ensures { result ≡ is_joining b }
{
    b != b',' && b != b'\r' && b != b'\n'
}

/// Returns how many bytes of a text come before its first comma, carriage return or line feed, or all if it has none.
fn bare_length(text: &[u8]) -> usize
    ensures within { result ≤ length text.now }
    ensures joining { list_all is_joining (take result text.now) ≡ true }
    ensures stops { result < length text.now → is_joining (get_or text.now result 0) ≡ false }
{
    for at in 0..text.len() {
        if !is_joining(text[at]) {
            return at;
        }
    }
    text.len()
}

/// Returns how many bytes of a text come before its first quote, or all if it has none.
fn quoted_length(text: &[u8]) -> usize
    ensures within { result ≤ length text.now }
    ensures quotable { list_all is_quotable (take result text.now) ≡ true }
    ensures stops { result < length text.now → get_or text.now result 0 ≡ 34 }
{
    for at in 0..text.len() {
        if text[at] == b'"' {
            return at;
        }
    }
    text.len()
}

/// Returns the field that a text begins with and what follows it, or `None` if the field begins with a quote and no quote closes it.
fn field(text: &[u8]) -> Option<(&[u8], &[u8])>
    ensures begins { IfSome result (λ p. BeginsWithField text.now p.0.now p.1.now) }
    ensures shorter { IfSome result (λ p. length p.1.now ≤ length text.now) }
    ensures plain { has_quote text.now ≡ false → IsSomeAnd result (λ p. FollowsField text.now p.1.now) }
{
    if !begins_with(text, b'"') {
        let at = bare_length(text);
        return Some((&text[..at], &text[at..]));
    }
    let quoted = &text[1..];
    let at = quoted_length(quoted);
    if at < quoted.len() {
        Some((&quoted[..at], &quoted[at + 1..]))
    } else {
        None
    }
}

/// Returns the field that a text begins with and what follows the comma behind it, or `None` if it is not closed or no comma is behind it.
fn field_before(text: &[u8]) -> Option<(&[u8], &[u8])>
    ensures before { IfSome result (λ p. IsFieldBefore text.now p.0.now p.1.now) }
    ensures shorter { IfSome result (λ p. length p.1.now < length text.now) }
    ensures plain { has_quote text.now ≡ false → MatchOption result (commas text.now ≡ 0)
        (λ p. (has_quote p.1.now ≡ false) × (commas p.1.now + 1 ≡ commas text.now)) }
{
    let (field, rest) = field(text)?;
    if begins_with(rest, b',') {
        Some((field, &rest[1..]))
    } else {
        None
    }
}

/// Returns whether a byte is a carriage return or a line feed.
fn is_line_end(b: u8) -> bool
    ensures { result ≡ is_line_end b }
{
    b == b'\r' || b == b'\n'
}

/// Returns whether a text is empty or begins with an end of a line.
fn at_line_end(text: &[u8]) -> bool
    ensures { result ≡ is_line_end (get_or text.now 0 10) }
{
    text.is_empty() || is_line_end(text[0])
}

/// Returns the field that a text begins with and what follows it, or `None` if it is not closed or neither a line nor the text ends there.
fn last_field(text: &[u8]) -> Option<(&[u8], &[u8])>
    ensures last { IfSome result (λ p. IsLastField text.now p.0.now p.1.now) }
    ensures plain { has_quote text.now ≡ false → MatchOption result (0 < commas text.now)
        (λ p. (has_quote p.1.now ≡ false) × (commas text.now ≡ 0)) }
{
    let (field, rest) = field(text)?;
    if at_line_end(rest) {
        Some((field, rest))
    } else {
        None
    }
}

/// Returns the four fields of the row that a text begins with, and what follows it; `None` if it has not four, or only `csv` can read it.
fn four_before(text: &[u8]) -> Option<(Four<'_>, &[u8])>
    requires { is_line_end (get_or text.now 0 10) ≡ false }
    ensures row { IfSome result (λ p. BeginsWithRow text.now (fields_of_four (four_seen p.0)) p.1.now) }
    ensures plain { has_quote text.now ≡ false → MatchOption result (commas text.now ≢ 3)
        (λ p. has_quote p.1.now ≡ false) }
{
    let (first, rest) = field_before(text)?;
    let (second, rest) = field_before(rest)?;
    let (third, rest) = field_before(rest)?;
    let (fourth, rest) = last_field(rest)?;
    let four = Four {
        first,
        second,
        third,
        fourth,
    };
    Some((four, rest))
}

/// Returns how many fields the row has that a text begins with, or `None` if only `csv` can read it.
fn field_count(text: &[u8]) -> Option<usize>
    requires { is_line_end (get_or text.now 0 10) ≡ false }
    ensures row { IfSome result (λ count. (row : Fields) × (rest : List ℕ) × BeginsWithRow text.now row rest
        × (length row ≡ count)) }
    ensures plain { has_quote text.now ≡ false → result ≡ Some (commas text.now + 1) }
{
    let mut rest = text;
    let mut count = 1;
    'fields: while let Some((_, behind)) = field_before(rest) {
        rest = behind;
        count += 1;
    }
    let _last = last_field(rest)?;
    Some(count)
}

/// Returns how many bytes of a text come before its first byte that is neither a carriage return nor a line feed, or all if it has none.
fn ends_length(text: &[u8]) -> usize
    ensures within { result ≤ length text.now }
    ensures ends { list_all is_line_end (take result text.now) ≡ true }
    ensures stops { result < length text.now → is_line_end (get_or text.now result 0) ≡ false }
{
    for at in 0..text.len() {
        if !is_line_end(text[at]) {
            return at;
        }
    }
    text.len()
}

/// Returns what a text begins with: no row, a row of four fields, a row of more or fewer, or a row that only `csv` can read. The row is the
/// first that `csv` reads of the text, also if more follows where a line ends; the rest has the other rows. Only in a text with a quote is
/// there a row that only `csv` can read.
pub fn first_row(text: &[u8]) -> FirstRow<'_>
    ensures begins { IsFirstRow result text.now }
    ensures plain { has_quote text.now ≡ false → IsReadPlain result }
{
    let at = ends_length(text);
    if at == text.len() {
        return FirstRow::None;
    }
    let row = &text[at..];
    if let Some((four, rest)) = four_before(row) {
        return FirstRow::Four(four, rest);
    }
    match field_count(row) {
        Some(count) if count != 4 => FirstRow::Other,
        _ => FirstRow::Unread,
    }
}

/// Returns a text without the UTF-8 byte order mark that it may begin with.
#[tactic(auto, using(crate::proofs::PlainRows::unmarked))]
pub fn without_mark(text: &[u8]) -> &[u8]
    ensures strips { (tail : List ℕ) → AtLineEnd tail → strip_bom (text.now ++ tail) ≡ result.now ++ tail }
    ensures plain { has_quote text.now ≡ false → has_quote result.now ≡ false }
{
    if text.len() >= 3 && text[0] == 0xEF && text[1] == 0xBB && text[2] == 0xBF {
        &text[3..]
    } else {
        text
    }
}
