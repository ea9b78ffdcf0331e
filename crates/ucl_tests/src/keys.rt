//! The keys by which a club is sorted.

use std::alloc::{AllocError, Global};
use std::test::Fail;
use ucl_board::Board;
use ucl_order::Profile::{AwayInTie, Uefa};
use ucl_order::{Club, Roster, overall_key, tie_key};

/// A club with this name and coefficient.
fn club(alloc: Global, name: &str, coefficient: u32) -> Result<Club, AllocError> {
    Ok(Club {
        name: Vec::from_slice(alloc, name.as_bytes())?,
        coefficient,
    })
}

/// The roster of the four clubs that the tests use.
pub(crate) fn sample_roster(alloc: Global) -> Result<Roster, Fail> {
    let clubs = [
        club(alloc, "Alpha", 60000)?,
        club(alloc, "Bravo", 95000)?,
        club(alloc, "Charlie", 60000)?,
        club(alloc, "Delta", 81500)?,
    ];
    Ok(Roster::new(clubs)?)
}

/// The keys by which club 1 of a fresh board is sorted, over all matches and head to head, are these numbers. Where away goals count in a
/// tie, they are the lowest eight bits of the latter.
#[test]
fn keys_of_a_fresh_board(rt: HostRuntime) -> Result<(), Fail> {
    let (board, all) = (Board::fresh(), [true; 4]);
    let overall = overall_key(&board, &sample_roster(rt.alloc())?, 1);
    let tie = tie_key(&board, all, 1, Uefa);
    assert_eq!(rt; (overall, tie), (0x5e800000ffc3a983, 193_536));
    assert_eq!(rt; tie_key(&board, all, 1, AwayInTie), 193_536 * 256);
    Ok(())
}
