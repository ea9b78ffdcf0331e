//! The version and the table of a board that is given as its twelve words. A call writes the place of a bad word, or the slot of a bad
//! coefficient, to `at`.

ghost use Rattle.std.specs.Prelude.{◌≡◌, ◌≢◌, List, length};
ghost use Rattle.ucl_order.specs.Roster.{NamedClub, coefficients_in};
ghost use Rattle.ucl_c.specs.Codes.{mark_code};
ghost use Rattle.ucl_c.specs.Faults.{fault_of_table, fault_of_words, place_with, status_with};
ghost use Rattle.ucl_c.specs.Tables.{row_seen, table_shown, version_told};

use crate::fault::{Fault, or_return};
use crate::group::{board_of, profile_of, roster_with};
use ucl_order::{Mark, Row, standings};

/// A row of the table in the form of C: a club at its place.
#[repr(C)]
#[derive(Clone, Copy, Debug, PartialEq, Eq)]
pub struct RowOfC {
    /// The slot of the club, 1 to 4.
    pub slot: u32,
    /// The place, 1 to 4.
    pub place: u32,
    /// 0 blank, 1 plus: the club is certain to be first or second, 2 minus: it is certain not to be.
    pub mark: u32,
    pub played: u32,
    pub wins: u32,
    pub draws: u32,
    pub losses: u32,
    pub goals_for: u32,
    pub goals_against: u32,
    pub points: u32,
}

/// Writes to `version` how many events the twelve matches of a board have had in all; if `words` is no board, leaves it as it was.
#[unsafe(no_mangle)]
pub extern "C" fn uclboard_board_version(words: &[u64], version: &mut u32, at: &mut u32) -> u32
    ensures told { result ≡ status_with (fault_of_words words.now) }
    ensures placed { at.new ≡ place_with (fault_of_words words.now) at.old }
    ensures done { result ≡ 0 → version.new ≡ version_told words.now }
    ensures unchanged { result ≢ 0 → version.new ≡ version.old }
{
    let board = or_return!(board_of(words), at);
    *version = u32::from(board.version());
    0
}

/// Returns the number by which C knows a mark: 0 blank, 1 plus (the club is certain to be first or second), 2 minus (certain not to be).
fn mark_code(mark: Mark) -> u32
    ensures { result ≡ mark_code mark }
{
    match mark {
        Mark::Blank => 0,
        Mark::Plus => 1,
        Mark::Minus => 2,
    }
}

/// Returns a row of the table in the form of C: with all figures in 32 bits, and the mark as a number.
fn row_seen(row: &Row) -> RowOfC
    ensures { result ≡ row_seen row.now }
{
    RowOfC {
        slot: u32::from(row.slot),
        place: u32::from(row.place),
        mark: mark_code(row.mark),
        played: u32::from(row.played),
        wins: u32::from(row.wins),
        draws: u32::from(row.draws),
        losses: u32::from(row.losses),
        goals_for: u32::from(row.goals_for),
        goals_against: u32::from(row.goals_against),
        points: u32::from(row.points),
    }
}

/// Writes to `rows` the table of twelve words and four clubs with these coefficients: four rows, in order of place, which do not depend on
/// the names of the clubs. If it is not done, `rows` is as it was.
#[unsafe(no_mangle)]
pub extern "C" fn uclboard_standings(
    words: &[u64],
    coefficients: &[u32],
    profile: u32,
    rows: &mut [RowOfC],
    at: &mut u32,
) -> u32
    ensures told { result ≡
        status_with (fault_of_table profile words.now coefficients.now (length rows.old)) }
    ensures placed { at.new ≡
        place_with (fault_of_table profile words.now coefficients.now (length rows.old)) at.old }
    ensures done { (clubs : List NamedClub) → coefficients_in clubs ≡ coefficients.now →
        result ≡ 0 → rows.new ≡ table_shown profile words.now clubs }
    ensures unchanged { result ≢ 0 → rows.new ≡ rows.old }
{
    let profile = or_return!(profile_of(profile), at);
    let board = or_return!(board_of(words), at);
    let roster = or_return!(roster_with(coefficients), at);
    if rows.len() != 4 {
        return Fault::NotFourRows.status();
    }
    let table = standings(&board, &roster, profile);
    rows.copy_from_slice(&[
        row_seen(&table[0]),
        row_seen(&table[1]),
        row_seen(&table[2]),
        row_seen(&table[3]),
    ]);
    0
}
