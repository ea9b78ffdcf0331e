//! The boards under measure, their calls, and the events that are entered.

ghost use Rattle.std.specs.Prelude.{IfOk};

use anyhow::{Context, Result};
use std::alloc::{AllocError, Global};
use std::sync::Wait;
use ucl_board::Reading;
use ucl_pass::{CellBoard, CellReaderPass, LiveBoard};
use ucl_word::{EventCall, Kind, MatchNo, OutOfMemory, Side};
use ucl_words::{WordBoard, WordReaderPass};

/// How many events a match takes.
pub const ALL_EVENTS: u16 = 4095;

/// A live board that can be opened.
pub trait Opens: LiveBoard + Drop {
    /// Opens a fresh board, and returns it with its first pass, a reader's, from which all others are made.
    fn fresh<R>(rt: &R, alloc: Global) -> Result<(Self, Self::ReaderPass), OutOfMemory>
        ensures { IfOk result (λ opened. Self.LiveBoard.is_reader opened.0 opened.1) };
}

impl Opens for WordBoard {
    /// Opens a fresh word board, and returns it with its first pass.
    fn fresh<R>(rt: &R, alloc: Global) -> Result<(WordBoard, WordReaderPass), OutOfMemory> {
        WordBoard::open(rt, alloc)
    }
}

impl Opens for CellBoard {
    /// Opens a fresh cell board, and returns it with its first pass.
    fn fresh<R>(rt: &R, alloc: Global) -> Result<(CellBoard, CellReaderPass), OutOfMemory> {
        CellBoard::open(rt, alloc)
    }
}

/// Makes a reporter's pass of the board from a pass that is split off `reader`.
pub fn enlist<B: LiveBoard, R: Wait>(
    rt: &R,
    board: &B,
    reader: &mut B::ReaderPass,
) -> Result<B::ReporterPass>
    requires { B.is_reader board.now reader.old }
    ensures own { B.is_reader board.now reader.new }
    ensures enlisted { IfOk result (λ pass. B.is_reporter board.now pass) }
{
    let pass = board.split(rt, reader);
    board.enlist(rt, pass).ok().context("no number is left")
}

/// Takes a reading. The call is never inlined, so that the whole reading is made. No other call of the board's `read` is in the program:
/// with a second one `read` would not be inlined here, and its answer would be copied.
#[inline(never)]
pub fn read_once<B: LiveBoard, R: Wait>(rt: &R, board: &B, pass: &mut B::ReaderPass) -> Reading
    requires { B.is_reader board.now pass.old }
    ensures { B.is_reader board.now pass.new }
{
    board.read(rt, pass)
}

/// Reads so many times, and adds up the versions.
pub fn read_often<B: LiveBoard, R: Wait>(
    rt: &R,
    board: &B,
    pass: &mut B::ReaderPass,
    times: u64,
) -> u64
    requires { B.is_reader board.now pass.old }
    ensures { B.is_reader board.now pass.new }
{
    let mut versions = 0u64;
    for turn in 0..times {
        let reading = read_once(rt, board, pass);
        versions = versions.wrapping_add(u64::from(reading.version));
    }
    versions
}

/// Makes a report, and returns the event number that it got, or nothing if it was refused. The call is never inlined, so that the whole
/// report is made.
#[inline(never)]
pub fn report_once<B: LiveBoard, R: Wait>(
    rt: &R,
    board: &B,
    pass: &mut B::ReporterPass,
    call: &EventCall,
) -> Option<u16>
    requires { B.is_reporter board.now pass.old }
    ensures { B.is_reporter board.now pass.new }
{
    match board.report(rt, pass, call) {
        Ok(accepted) => Some(accepted.number),
        Err(_) => None,
    }
}

/// Enters events, and adds up the numbers that they were given.
pub fn enter<B: LiveBoard, R: Wait>(
    rt: &R,
    board: &B,
    pass: &mut B::ReporterPass,
    events: &[EventCall],
) -> u64
    requires { B.is_reporter board.now pass.old }
    ensures { B.is_reporter board.now pass.new }
{
    let mut numbers = 0u64;
    for call in events {
        if let Some(number) = report_once(rt, board, pass, call) {
            numbers = numbers.wrapping_add(u64::from(number));
        }
    }
    numbers
}

/// The kind of a match's event after `expected` others: a kick-off, then a home goal and its disallowing in turn, and last full time.
fn kind_at(expected: u16) -> Kind {
    match expected {
        0 => Kind::KickOff,
        4094 => Kind::FullTime,
        _ if expected % 2 == 1 => Kind::Goal(Side::Home),
        _ => Kind::Disallow(Side::Home),
    }
}

/// The first `each` events of all twelve matches, one match after the other.
pub fn events_of(alloc: Global, each: u16) -> Result<Vec<EventCall>, AllocError> {
    let mut events = Vec::new(alloc);
    for game in (1..=12).filter_map(MatchNo::new) {
        for expected in 0..each {
            events.push(EventCall {
                game,
                expected,
                kind: kind_at(expected),
            })?;
        }
    }
    Ok(events)
}
