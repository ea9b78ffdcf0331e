//! A board in a program of one's own: two reporters enter the rows of two files, each in a thread of its own, while a third thread shows the table
//! on standard error whenever an event has come. At the end the table goes to standard output.
//!
//! Usage: `ucl_example CLUBS ROWS ROWS`, as `ucl_example clubs.csv north.csv south.csv`. The files have the rows of a script: the first its four
//! club rows, the others its event rows, of which the first field is passed over. A row that is wrong or refused is told and passed over.
#![tactic(auto)]

ghost use Rattle.std.specs.Prelude.{◌≡◌};

use anyhow::Context;
use std::alloc::Global;
use std::io::Eprint;
use std::sync::Wait;
use std::sync::atomic::{AtomicBool, Ordering};
use std::time::{Clock, Duration};
use std::{env, fs, thread};
use ucl_board::Reading;
use ucl_order::{Profile, Roster};
use ucl_screen::{FromRead, call_of_fields, read_night, screen};
use ucl_word::EventCall;
use ucl_words::{WordBoard, WordReaderPass, WordReporterPass};

/// The group that the table is of.
const GROUP: u8 = b'A';

/// How many milliseconds the screen sleeps between two readings.
const PAUSE: u64 = 20;

/// The roster of the four club rows of a file.
fn clubs_in(rt: &HostRuntime, path: &str) -> anyhow::Result<Roster> {
    let rows = fs::read(rt, path)?;
    let night = read_night(rt.alloc(), &mut FromRead::new(rows.as_slice()));
    Ok(night.ok().context("no four club rows")?.roster)
}

/// The event that a row asks for: the match, the event number that was last seen of it, and the event.
fn call_in(row: &str) -> Option<EventCall> {
    let mut fields = row.split(',').skip(1);
    let (game, expected, kind) = (fields.next()?, fields.next()?, fields.next()?);
    if fields.next().is_some() {
        return None;
    }
    call_of_fields(game.as_bytes(), expected.as_bytes(), kind.as_bytes())
}

/// Enters the event rows of a text, in order. A row that is wrong or refused is told on standard error, and passed over.
fn enter(
    rt: &HostRuntime,
    board: &WordBoard,
    pass: &mut WordReporterPass,
    rows: &str,
) -> anyhow::Result<()>
    requires { pass.old.board ≡ board.now }
{
    for row in rows.lines() {
        match call_in(row) {
            None => eprintln!(rt; "no event: {row}")?,
            Some(call) => {
                if let Err(refusal) = board.report_now(pass, &call) {
                    eprintln!(rt; "refused: {row}: {refusal}")?;
                }
            }
        }
    }
    Ok(())
}

/// Shows the table on standard error whenever the version has risen, until the reporters have ended. Answers the last reading.
fn watch<R: Wait + Clock + Eprint>(
    rt: &R,
    alloc: Global,
    board: &WordBoard,
    pass: &mut WordReaderPass,
    roster: &Roster,
    have_ended: &AtomicBool,
) -> anyhow::Result<Reading>
    requires { pass.old.board ≡ board.now }
{
    let mut shown = None;
    for _ in rt.forever() {
        let is_last = have_ended.load(Ordering::SeqCst);
        let reading = board.read_now(pass);
        if shown != Some(reading.version) {
            eprint!(rt; "{}", table(alloc, &reading, roster)?)?;
        }
        if is_last {
            return Ok(reading);
        }
        shown = Some(reading.version);
        thread::sleep(rt, Duration::from_millis(PAUSE));
    }
    unreachable!()
}

/// The table of a reading, as the text of a screen.
fn table(alloc: Global, reading: &Reading, roster: &Roster) -> anyhow::Result<String> {
    Ok(screen(alloc, &reading.board, roster, GROUP, Profile::Uefa)?)
}

/// Has two threads enter the rows of two files while a third shows the table whenever it has changed, and prints the last table.
fn main(rt: HostRuntime) -> anyhow::Result<()> {
    let words = env::args(&rt)?.collect::<Vec<String>>(rt.alloc())?;
    let [_, clubs, north_rows, south_rows] = words.as_slice() else {
        return Err(anyhow::anyhow!("usage: ucl_example CLUBS ROWS ROWS"));
    };
    let roster = clubs_in(&rt, clubs.as_str())?;
    let north_rows = fs::read_to_string(&rt, north_rows.as_str())?;
    let south_rows = fs::read_to_string(&rt, south_rows.as_str())?;
    let (board, mut pass) = WordBoard::open(&rt, rt.alloc())?;
    let (north, south) = (board.split_now(&mut pass), board.split_now(&mut pass));
    let mut north = board.enlist_now(north).ok().context("no number is left")?;
    let mut south = board.enlist_now(south).ok().context("no number is left")?;
    let have_ended = AtomicBool::new(false);
    let (entered, last) = thread::join(
        &rt,
        || -> anyhow::Result<()>
            requires { (north.board ≡ board) × (south.board ≡ board) }
        {
            let (first, second) = thread::join(
                &rt,
                || -> anyhow::Result<()>
                    requires { north.board ≡ board }
                { enter(&rt, &board, &mut north, north_rows.as_str()) },
                || -> anyhow::Result<()>
                    requires { south.board ≡ board }
                { enter(&rt, &board, &mut south, south_rows.as_str()) },
            );
            have_ended.store(true, Ordering::SeqCst);
            first.and(second)
        },
        || -> anyhow::Result<Reading>
            requires { pass.board ≡ board }
        { watch(&rt, rt.alloc(), &board, &mut pass, &roster, &have_ended) },
    );
    entered?;
    print!(&rt; "{}", table(rt.alloc(), &last?, &roster)?)?;
    Ok(())
}
