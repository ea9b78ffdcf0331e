//! Twelve words and four clubs as a screen, which is text, or the line of JSON that answers the row of `ucl_live` that asks for it. A call
//! writes the place of a bad word, or the slot of a bad club, to `at`.

ghost use Rattle.std.specs.Prelude.{◌≡◌, ◌≢◌, ◌<◌, ◌≤◌, ◌^◌, length, None, Some, IfOk, IfErr, IfSome, string_bytes};
ghost use Rattle.ucl_c.specs.declared.fault.Fault.TheVariants.{OutOfMemory};
ghost use Rattle.ucl_c.specs.Faults.{fault_of_inputs, place_with, status_with};
ghost use Rattle.ucl_c.specs.Tables.{AnswersWithText, clubs_handed, max_length, text_shown};

use crate::fault::{Fault, or_return};
use crate::group::{ClubOfC, board_of, letter_of, profile_of, roster_of};
use crate::text::hand_over;
use std::alloc::Global;
use ucl_json::screen_json;
use ucl_screen::screen;

/// Returns the screen of twelve words and four clubs; if the number of a row is given, as the line of JSON that answers that row. The fault
/// is the first of the profile, the group, the words and the clubs, or `OutOfMemory`.
fn text_of(
    alloc: Global,
    row: Option<u64>,
    words: &[u64],
    clubs: &[ClubOfC],
    group: u32,
    profile: u32,
) -> Result<String, Fault>
    requires { IfSome row (λ number. number < 2 ^ 64) }
    ensures text { IfOk result (λ text.
        string_bytes text ≡ text_shown row profile group words.now (clubs_handed clubs.now)) }
    ensures sound { IfOk result (λ _.
        fault_of_inputs profile group words.now (clubs_handed clubs.now) ≡ None) }
    ensures short { IfOk result (λ text. length (string_bytes text) ≤ max_length row) }
    ensures refused { IfErr result (λ fault. fault ≢ OutOfMemory →
        fault_of_inputs profile group words.now (clubs_handed clubs.now) ≡ Some fault) }
{
    let profile = profile_of(profile)?;
    let group = letter_of(group)?;
    let board = board_of(words)?;
    let roster = roster_of(clubs)?;
    match row {
        Some(row) => Ok(screen_json(alloc, row, &board, &roster, group, profile)?),
        None => Ok(screen(alloc, &board, &roster, group, profile)?),
    }
}

/// Writes the screen of twelve words and four clubs and a zero to the front of `out`, and how many bytes the screen has to `long`, also if
/// `out` is too small (56). What is beyond them stays as it was, and all of `out` if the call is not done. A buffer of 297 bytes always has
/// room. Lack of memory (23) can come in place of any answer.
#[unsafe(no_mangle)]
pub extern "C" fn uclboard_screen(
    alloc: Global,
    words: &[u64],
    clubs: &[ClubOfC],
    group: u32,
    profile: u32,
    out: &mut [u8],
    long: &mut usize,
    at: &mut u32,
) -> u32
    ensures { let clubs_are = clubs_handed clubs.now in
        AnswersWithText (fault_of_inputs profile group words.now clubs_are)
        (text_shown None profile group words.now clubs_are) (max_length None)
        (record { out = out.old; long = long.old; at = at.old })
        (record { out = out.new; long = long.new; at = at.new }) result }
{
    let text = or_return!(text_of(alloc, None, words, clubs, group, profile), at);
    hand_over(text.as_bytes(), out, long)
}

/// Writes to `long` how many bytes the screen of twelve words and four clubs has, at most 296. If it is not done, `long` stays as it was.
#[unsafe(no_mangle)]
pub extern "C" fn uclboard_screen_length(
    alloc: Global,
    words: &[u64],
    clubs: &[ClubOfC],
    group: u32,
    profile: u32,
    long: &mut usize,
    at: &mut u32,
) -> u32
    ensures told { result ≢ 23 → result ≡
        status_with (fault_of_inputs profile group words.now (clubs_handed clubs.now)) }
    ensures placed { result ≢ 23 → at.new ≡
        place_with (fault_of_inputs profile group words.now (clubs_handed clubs.now)) at.old }
    ensures done { result ≡ 0 →
        long.new ≡ length (text_shown None profile group words.now (clubs_handed clubs.now)) }
    ensures short { result ≡ 0 → long.new ≤ 296 }
    ensures unchanged { result ≢ 0 → long.new ≡ long.old }
    ensures no_place { result ≡ 23 → at.new ≡ at.old }
{
    let shown = or_return!(text_of(alloc, None, words, clubs, group, profile), at);
    *long = shown.len();
    0
}

/// Writes the screen of twelve words and four clubs as the line of JSON that answers the row with this number: as `ucl_live` answers
/// `screen,,,`, but without the members `edition` and `matches`. `out` and `long` are written as by [`uclboard_screen`]. A buffer of 1,424
/// bytes always has room.
#[unsafe(no_mangle)]
pub extern "C" fn uclboard_screen_json(
    alloc: Global,
    row: u64,
    words: &[u64],
    clubs: &[ClubOfC],
    group: u32,
    profile: u32,
    out: &mut [u8],
    long: &mut usize,
    at: &mut u32,
) -> u32
    ensures { let clubs_are = clubs_handed clubs.now in
        AnswersWithText (fault_of_inputs profile group words.now clubs_are)
        (text_shown (Some row) profile group words.now clubs_are) (max_length (Some row))
        (record { out = out.old; long = long.old; at = at.old })
        (record { out = out.new; long = long.new; at = at.new }) result }
{
    let text = or_return!(text_of(alloc, Some(row), words, clubs, group, profile), at);
    hand_over(text.as_bytes(), out, long)
}
