//! Boards, rosters, letters of groups and profiles, from the numbers, words and clubs that C hands over.

ghost use Rattle.std.specs.Prelude.{◌≡◌, map, None, Some, Ok, IfOk, IfErr};
ghost use Rattle.ucl_board.specs.Words.{AreWords, read_words};
ghost use Rattle.ucl_order.specs.Names.{profile_with};
ghost use Rattle.ucl_order.specs.Roster.{club_lent};
ghost use Rattle.ucl_screen.specs.Screen.{IsGroup};
ghost use Rattle.ucl_c.specs.Faults.{club_with, fault_of_clubs, fault_of_coefficients, fault_of_group, fault_of_profile, fault_of_words};
ghost use Rattle.ucl_c.specs.Tables.{club_handed, clubs_handed};

use crate::fault::Fault;
use ucl_board::Board;
use ucl_order::{LentClub, Profile, Roster};

/// A club of a group in the form of C.
#[repr(C)]
#[derive(Clone, Copy, Debug, PartialEq, Eq)]
pub struct ClubOfC {
    /// The name in its first bytes.
    pub name: [u8; 20],
    /// How many bytes of it are the name, 1 to 20.
    pub length: u32,
    /// The coefficient in whole thousandths, at most 999,999.
    pub coefficient: u32,
}

/// Returns the profile with this code, or `NoProfile` if no profile has it.
pub fn profile_of(code: u32) -> Result<Profile, Fault>
    ensures taken { IfOk result (λ profile. profile_with code ≡ Some profile) }
    ensures refused { IfErr result (λ fault. fault_of_profile code ≡ Some fault) }
{
    Profile::from_code(code).ok_or(Fault::NoProfile)
}

/// Returns the letter of a group as a byte, or `NoGroup` unless it is `A` to `H`.
pub fn letter_of(letter: u32) -> Result<u8, Fault>
    ensures taken { IfOk result (λ group. (group ≡ letter) × IsGroup letter
        × (fault_of_group letter ≡ None)) }
    ensures refused { IfErr result (λ fault. fault_of_group letter ≡ Some fault) }
{
    if 65 <= letter && letter <= 72 {
        Ok(letter as u8)
    } else {
        Err(Fault::NoGroup)
    }
}

/// Returns the board that twelve words are read as; `NotTwelve` if they are not twelve, `BadWord` with the first that is no match's word.
pub fn board_of(words: &[u64]) -> Result<Board, Fault>
    ensures board { IfOk result (λ board. (read_words 1 words.now ≡ Ok board)
        × (fault_of_words words.now ≡ None)) }
    ensures valid { IfOk result AreWords }
    ensures refused { IfErr result (λ fault. fault_of_words words.now ≡ Some fault) }
{
    if words.len() != 12 {
        return Err(Fault::NotTwelve);
    }
    let mut twelve = [0; 12];
    twelve.copy_from_slice(words);
    Ok(Board::of_words(&twelve)?)
}

/// Returns a club of C with its name as a slice, as rosters are made of. If `length` is over 20, the name is empty, which is a bad one.
fn club_of(club: &ClubOfC) -> LentClub<'_>
    ensures { club_lent result ≡ club_handed club.now }
{
    let name = if club.length <= 20 {
        &club.name[..club.length as usize]
    } else {
        &club.name[..0]
    };
    LentClub {
        name,
        coefficient: club.coefficient,
    }
}

/// Creates the roster of four clubs; `NotFour` if they are not four, `BadRoster` with the least slot that has a bad name or coefficient.
pub fn roster_of(clubs: &[ClubOfC]) -> Result<Roster, Fault>
    ensures taken { IfOk result (λ roster. (roster ≡ clubs_handed clubs.now)
        × (fault_of_clubs (clubs_handed clubs.now) ≡ None)) }
    ensures refused { IfErr result (λ fault. fault_of_clubs (clubs_handed clubs.now) ≡ Some fault) }
{
    let [first, second, third, fourth] = clubs else {
        return Err(Fault::NotFour);
    };
    let clubs = [
        club_of(first),
        club_of(second),
        club_of(third),
        club_of(fourth),
    ];
    Ok(Roster::of_lent(&clubs)?)
}

/// Returns a club with this coefficient, and with the name `-`, for calls that are not given names.
fn club_with(coefficient: u32) -> LentClub<'static>
    ensures { club_lent result ≡ club_with coefficient }
{
    LentClub {
        name: b"-",
        coefficient,
    }
}

/// Creates a roster of clubs with these coefficients and the name `-`; `NotFour` if they are not four, `BadRoster` with the least slot
/// whose coefficient is over 999,999.
pub fn roster_with(coefficients: &[u32]) -> Result<Roster, Fault>
    ensures taken { IfOk result (λ roster. (roster ≡ map club_with coefficients.now)
        × (fault_of_coefficients coefficients.now ≡ None)) }
    ensures refused { IfErr result (λ fault. fault_of_coefficients coefficients.now ≡ Some fault) }
{
    let [first, second, third, fourth] = coefficients else {
        return Err(Fault::NotFour);
    };
    let clubs = [
        club_with(*first),
        club_with(*second),
        club_with(*third),
        club_with(*fourth),
    ];
    Ok(Roster::of_lent(&clubs)?)
}
