//! The table and the screen of boards that a file lists; and the same as calls of the library for other languages do it, which read words
//! and clubs anew and judge them each time.

ghost use Rattle.ucl_board.specs.Fixtures.{IsSlot};

use crate::clock::{Least, nanos, nanos_since};
use anyhow::{Context, Result};
use std::alloc::Global;
use std::sync::Wait;
use std::time::Clock;
use ucl_board::Board;
use ucl_json::screen_json;
use ucl_order::{Club, LentClub, Profile, Roster, standings};
use ucl_screen::screen;
use ucl_word::OutOfMemory;

/// The board of a line: twelve words of hexadecimal digits.
fn board_of(line: &str) -> Option<Board> {
    let mut digits = line.split(' ');
    let mut words = [0; 12];
    for word in words.iter_mut() {
        *word = u64::from_str_radix(digits.next()?, 16).ok()?;
    }
    Board::of_words(&words).ok()
}

/// The boards of a text, one a line.
pub fn boards_of(alloc: Global, text: &str) -> Result<Vec<Board>> {
    let mut boards = Vec::new(alloc);
    for line in text.lines() {
        boards.push(board_of(line).context("a line is no board")?)?;
    }
    Ok(boards)
}

/// A club with this name and coefficient.
fn club(alloc: Global, name: &[u8], coefficient: u32) -> Result<Club> {
    Ok(Club {
        name: name.to_vec(alloc)?,
        coefficient,
    })
}

/// The roster of four clubs with which all boards are measured.
fn roster(alloc: Global) -> Result<Roster> {
    let clubs = [
        club(alloc, b"Alpha", 60_000)?,
        club(alloc, b"Bravo", 95_000)?,
        club(alloc, b"Charlie", 60_000)?,
        club(alloc, b"Delta", 81_500)?,
    ];
    Roster::new(clubs).ok().context("no roster")
}

/// Prints the screen of each board.
pub fn print_screens<R: Print>(rt: &R, alloc: Global, boards: &[Board]) -> Result<()> {
    let roster = roster(alloc)?;
    for board in boards {
        let text = screen(alloc, board, &roster, b'A', Profile::Uefa)?;
        print!(rt; "{text}")?;
    }
    Ok(())
}

/// The board made again from its words, which are checked, as in each call from another language.
#[inline(never)]
fn board_anew(board: &Board) -> Result<Board> {
    Board::of_words(&board.words()).ok().context("no board")
}

/// The club in a slot, borrowed from the roster: the form in which calls from other languages pass clubs.
fn lent(roster: &Roster, slot: u8) -> LentClub<'_>
    requires { IsSlot slot }
{
    LentClub {
        name: roster.name(slot),
        coefficient: roster.coefficient(slot),
    }
}

/// The roster made again from its clubs, which are checked, as in each call from another language.
fn roster_anew(roster: &Roster) -> Result<Roster> {
    let clubs = [
        lent(roster, 1),
        lent(roster, 2),
        lent(roster, 3),
        lent(roster, 4),
    ];
    Roster::of_lent(&clubs).ok().context("no roster")
}

/// Makes the table, and returns the slot of its first club. The call is never inlined, so that the whole table is made.
#[inline(never)]
fn first_once(board: &Board, roster: &Roster) -> u64 {
    let [first, ..] = standings(board, roster, Profile::Uefa);
    u64::from(first.slot)
}

/// Makes the screen of group A, and returns its length. The call is never inlined, so that the whole screen is made.
#[inline(never)]
fn screen_once(alloc: Global, board: &Board, roster: &Roster) -> Result<u64, OutOfMemory> {
    let text = screen(alloc, board, roster, b'A', Profile::Uefa)?;
    Ok(text.len() as u64)
}

/// The length of the screen of group A as a line of JSON.
#[inline(never)]
fn json_once(alloc: Global, board: &Board, roster: &Roster) -> Result<u64> {
    let line = screen_json(alloc, 9, board, roster, b'A', Profile::Uefa);
    Ok(line.ok().context("no memory")?.len() as u64)
}

/// Measures `answer` on all boards, round after round, for about so many milliseconds.
fn measure<R: Wait + Clock, F: Fn(&Board) -> Result<u64>>(
    rt: &R,
    boards: &[Board],
    millis: u64,
    answer: F,
) -> Result<Least>
    requires { F.IsAlwaysCallable answer }
{
    let mut least = Least::of(boards.len());
    let begun = nanos(rt);
    for _ in rt.forever() {
        let from = nanos(rt);
        let mut answers = 0u64;
        for board in boards {
            answers = answers.wrapping_add(answer(board)?);
        }
        least.add(nanos_since(rt, from), answers);
        if nanos_since(rt, begun) / 1_000_000 >= millis {
            break;
        }
    }
    Ok(least)
}

/// Measures a workload of `table`, or of `library`, which makes board and roster anew, over these boards, for about so many milliseconds.
pub fn measure_tables<R: Wait + Clock>(
    rt: &R,
    alloc: Global,
    subject: &str,
    workload: &str,
    millis: u64,
    boards: &[Board],
) -> Result<Least> {
    let roster = roster(alloc)?;
    match (subject, workload) {
        ("table", "standings") => measure(
            rt,
            boards,
            millis,
            |board| Ok(first_once(board, &roster)),
        ),
        ("table", "screen") => measure(rt, boards, millis, |board| {
            Ok(screen_once(alloc, board, &roster)?)
        }),
        ("library", "board_version") => measure(rt, boards, millis, |board| {
            Ok(u64::from(board_anew(board)?.version()))
        }),
        ("library", "standings") => measure(rt, boards, millis, |board| {
            Ok(first_once(&board_anew(board)?, &roster_anew(&roster)?))
        }),
        ("library", "screen") => measure(rt, boards, millis, |board| {
            Ok(screen_once(alloc, &board_anew(board)?, &roster_anew(&roster)?)?)
        }),
        ("library", "screen_json") => measure(rt, boards, millis, |board| {
            json_once(alloc, &board_anew(board)?, &roster_anew(&roster)?)
        }),
        _ => anyhow::bail!("no such workload"),
    }
}
