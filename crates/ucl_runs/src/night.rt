//! Nights: two reporters enter a script on one live board, each in a thread of its own, while two readers show it. At the end they settle:
//! one, who has seen what both have, reads the board, and finds whether all its events are theirs.

ghost use Rattle.std.specs.Prelude.{◌≡◌, ◌+◌, ◌-◌, ◌^◌, All, IfErr, IfOk, MatchResult, OnOk, length, min, option_map, string_bytes};
ghost use Rattle.std.specs.Io.KnownBytes.{Appends};
ghost use Rattle.ucl_screen.specs.Screen.{IsGroup};
ghost use Rattle.ucl_runs.specs.Nights.{IsFirstOffDuty, IsOnDuty, NightPromise, last_text, night_output};
ghost use Rattle.ucl_rows.specs.Run.{IsStopped, MatchDuty};
ghost use Rattle.ucl_runs.specs.Show.{styled};

use crate::config::{NightConfig, NightGate};
use crate::gate::Gate;
use crate::threads::{Workers, work};
use std::alloc::Global;
use std::sync::Wait;
use std::thread::Threads;
use ucl_board::Reading;
use ucl_live_board::{LiveBoard, settle};
use ucl_order::Profile;
use ucl_rows::{RunFault, put_under};
use ucl_screen::{FIRST_EVENT_ROW, Night, NightEvent, Sink, screen};

/// The greatest number of a reporter on duty; the least is 1.
const LAST_ON_DUTY: u8 = 2;

/// How a night ended: `R` is the type of a reader's pass and `P` of a reporter's, all of the board that the night was on.
#[derive(Drop)]
pub struct NightEnd<R, P> {
    /// The last screens of both readers; none if no reading was asked for.
    pub last: [Option<String>; 2],
    /// The reading, a snapshot, of the board at the end, which has the events of both reporters and no others.
    pub settled: Reading,
    /// The screen of that reading.
    pub closing: String,
    /// The pass of the first reader.
    pub reader_1: R,
    /// The pass of the second reader.
    pub reader_2: R,
    /// The pass that entered the rows of reporter 1.
    pub reporter_1: P,
    /// The pass that entered the rows of reporter 2, and then read the board at the end.
    pub reporter_2: P,
}

/// Checks that each row of an event in a script is of a reporter on duty, 1 or 2.
///
/// # Errors
///
/// `NotOnDuty` with the number, in the script, of the first row that is not.
fn check_duty(rows: &[NightEvent]) -> Result<(), RunFault>
    ensures { MatchResult result (λ _. All IsOnDuty rows.now)
        (λ f. MatchDuty f (IsFirstOffDuty rows.now) ⊥) }
{
    for (index, event) in rows.iter().enumerate() {
        if event.reporter.get() > LAST_ON_DUTY {
            return Err(RunFault::NotOnDuty {
                row: usize::from(FIRST_EVENT_ROW) + index,
            });
        }
    }
    Ok(())
}

/// Runs a night on a live board: two reporters enter the rows of the script in threads of their own, each its rows in script order, while
/// two readers take `readings` readings each and render the screen of each; then the reporters settle. Returns the readers' last screens,
/// the reading that was settled on, its screen, and the passes.
///
/// `pass` is a reader's pass of the board: two reporters' and two readers' passes are made of it before any thread starts. `group` is the
/// letter of a group, and `profile` the tie-break rules of all screens. The gate is called before each call and after each screen. Replies
/// to reporters are ignored. The call may wait, and what it promises holds if it returns.
///
/// # Errors
///
/// In this order: `NotOnDuty` with the first row of a reporter other than 1 and 2, and then nothing was entered; `TooManyReporters` if the
/// board has no two numbers for reporters left; `NoThread` if a worker had no thread; `OutOfMemory` if a reader had no memory for a screen;
/// `Strangers` if the board has events of a third reporter; `OutOfMemory` if there was none for the closing screen. Workers that run go on
/// to their end first. The board keeps the events that it accepted, and no pass is handed back. That events of a third reporter do not come
/// of the night itself is tested, not proved.
pub fn night_run<B: LiveBoard, G: Gate, R: Threads + Wait + Sync>(
    rt: &R,
    alloc: Global,
    board: &B,
    mut pass: B::ReaderPass,
    night: &Night,
    group: u8,
    readings: u32,
    gate: &G,
    profile: Profile,
) -> Result<NightEnd<B::ReaderPass, B::ReporterPass>, RunFault>
    requires own { B.is_reader board.now pass }
    requires group { IsGroup group }
    ensures { NightPromise B.LiveBoard board.entry.now pass night.entry.now.events.items
        (styled profile night.entry.now.roster group) readings result }
{
    check_duty(&night.events)?;
    let reporter_2 = board.split(rt, &mut pass);
    let reader_1 = board.split(rt, &mut pass);
    let reader_2 = board.split(rt, &mut pass);
    let lent = Workers {
        reporter_1: board.enlist(rt, pass)?,
        reporter_2: board.enlist(rt, reporter_2)?,
        reader_1,
        reader_2,
    };
    let config = NightConfig {
        night,
        group,
        readings,
        profile,
        night_gate: NightGate::of(gate),
    };
    let Workers {
        mut reporter_1,
        mut reporter_2,
        reader_1,
        reader_2,
    } = work(rt, alloc, board, lent, &config)?;
    let (reader_1, last_1) = reader_1?;
    let (reader_2, last_2) = reader_2?;
    let settled = settle(board, rt, &mut reporter_1, &mut reporter_2)?;
    let closing = screen(alloc, &settled.board, &night.roster, group, profile)?;
    Ok(NightEnd {
        last: [last_1, last_2],
        settled,
        closing,
        reader_1,
        reader_2,
        reporter_1,
        reporter_2,
    })
}

/// Writes the last screen of a reader under its heading, if there is one, and returns how many bytes of the output went out by then,
/// `before` of them earlier; `WriteFailed`, with that number, if the sink fails.
fn put_last<W: Sink>(
    sink: &mut W,
    before: usize,
    heading: &str,
    last: &Option<String>,
) -> Result<usize, RunFault>
    ensures all { OnOk result (Appends (W.taken sink.old) (W.taken sink.new)
        (last_text heading.now (option_map string_bytes last.now))) }
    ensures count { IfOk result (λ after. after ≡ min (before + length
        (last_text heading.now (option_map string_bytes last.now))) (2 ^ 64 - 1)) }
    ensures part { IfErr result (IsStopped before (W.failed sink.new)
        (W.taken sink.old) (W.taken sink.new)
        (last_text heading.now (option_map string_bytes last.now))) }
    ensures sound { OnOk result (W.failed sink.new ≡ W.failed sink.old) }
{
    match last {
        Some(text) => put_under(sink, before, heading, text.as_str()),
        None => Ok(before),
    }
}

/// Writes the output of a night: if there are any, the last screens of both readers under the headings `READER 1` and `READER 2`, and the
/// closing screen under the heading `FINAL`. No memory is taken.
///
/// # Errors
///
/// `WriteFailed`, only if the sink has failed: exactly the first `written` bytes went out (if more than `usize::MAX`, `written` is that).
#[tactic(auto, using(ucl_rows::proofs::NightParts::stopped_first, ucl_rows::proofs::NightParts::stopped_second))]
pub fn put_night<R, P, W: Sink>(end: &NightEnd<R, P>, sink: &mut W) -> Result<(), RunFault>
    ensures all { OnOk result (Appends (W.taken sink.old) (W.taken sink.new)
        (night_output end.now.last end.now.closing)) }
    ensures part { IfErr result (IsStopped 0 (W.failed sink.new) (W.taken sink.old)
        (W.taken sink.new) (night_output end.now.last end.now.closing)) }
    ensures sound { OnOk result (W.failed sink.new ≡ W.failed sink.old) }
{
    let written = put_last(sink, 0, "READER 1\n", &end.last[0])?;
    let written = put_last(sink, written, "READER 2\n", &end.last[1])?;
    put_under(sink, written, "FINAL\n", end.closing.as_str())?;
    Ok(())
}
