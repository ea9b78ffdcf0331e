//! What `ucl_night` does with its arguments, and with what stands for its standard streams: `source`, `sink` and `errors`.

ghost use Rattle.std.specs.Prelude.{◌≡◌, Err, IfOk, MatchResult, Result, map, string_bytes};
ghost use Rattle.ucl_command.specs.Arguments.{IsInRange};
ghost use Rattle.ucl_command.specs.Commands.{AsksFor};
ghost use Rattle.ucl_command.specs.declared.fault.LineFault.{LineFault};
ghost use Rattle.ucl_command.specs.declared.night.Line.{Line};
ghost use Rattle.ucl_rows.specs.Ending.{ended_with};
ghost use Rattle.ucl_screen.specs.Screen.{IsGroup};
ghost use Rattle.ucl_runs.specs.Nights.{IsDutyTold, IsWhyNoNight, night_output};
ghost use Rattle.ucl_runs.specs.Program.{IsNoNight, IsOutputOfNight, Runs, RunsLine, RunsTask, night_task, streams_at};
ghost use Rattle.ucl_runs.specs.Show.{styled};

use crate::feed::feed_run;
use crate::gate::OpenGate;
use crate::night::{NightEnd, night_run, put_night};
use crate::show::show_run;
use std::alloc::Global;
use std::sync::Wait;
use std::thread::Threads;
use ucl_command::{Line, LineFault, line_of};
use ucl_live_board::LiveBoard;
use ucl_order::Profile;
use ucl_rows::{RunFault, ended, exit_without_command};
use ucl_screen::{Night, Sink, Source, read_night};
use ucl_word::OutOfMemory;

/// Runs what the arguments ask for, `asked`: `feed` or `show`, in one thread, without waiting. Returns the exit status: 0 if it was done or
/// help was asked for, which goes to `sink`; 2 if the arguments are refused, with the text of `clap` on `errors`; and otherwise that of the
/// fault, with its line on `errors`.
pub fn run<S: Source, W: Sink, E: Sink>(
    alloc: Global,
    asked: Result<Line, LineFault>,
    source: &mut S,
    sink: &mut W,
    errors: &mut E,
) -> u8
    requires in_range { IfOk asked IsInRange }
    requires one_thread { IfOk asked IsNoNight }
    ensures { Runs W.Sink asked (streams_at S.Source source.old sink.old)
        (streams_at S.Source source.new sink.new)
        (ended_with E.failed E.taken result errors.old errors.new) }
{
    let line = match asked {
        Ok(line) => line,
        Err(fault) => return exit_without_command(sink, errors, fault),
    };
    match line {
        Line::Feed => ended(errors, feed_run(alloc, source, sink)),
        Line::Show { group, profile } => {
            ended(errors, show_run(alloc, source, sink, group, profile))
        }
        Line::Night { .. } => unreachable!(),
    }
}

/// Runs a night on a live board, and makes sure that what its readers showed is of the history that was settled: their passes are enlisted,
/// since only reporters' passes can meet, and meet that of reporter 2, which reads the board again and has to find the settled version.
///
/// # Errors
///
/// Those of `night_run`; then `TooManyReporters` if the board has no two more numbers, and `Strangers` if another version is read.
fn play<B: LiveBoard, R: Threads + Wait + Sync>(
    rt: &R,
    alloc: Global,
    board: &B,
    pass: B::ReaderPass,
    night: &Night,
    group: u8,
    readings: u32,
    profile: Profile,
) -> Result<NightEnd<B::ReporterPass, B::ReporterPass>, RunFault>
    requires own { B.is_reader board.now pass }
    requires group { IsGroup group }
    ensures { MatchResult result
        (λ end. IsOutputOfNight B.LiveBoard board.entry.now pass night.entry.now.events.items
        (styled profile night.entry.now.roster group) readings
        (night_output end.last end.closing))
        (λ f. IsWhyNoNight B.LiveBoard board.entry.now night.entry.now.events.items f
        × IsDutyTold night.entry.now.events.items f) }
{
    let gate = &OpenGate;
    let NightEnd {
        last,
        settled,
        closing,
        reader_1,
        reader_2,
        reporter_1,
        mut reporter_2,
    } = night_run(
        rt, alloc, board, pass, night, group, readings, gate, profile,
    )?;
    let mut reader_1 = board.enlist(rt, reader_1)?;
    let mut reader_2 = board.enlist(rt, reader_2)?;
    board.meet(rt, &mut reader_1, &mut reporter_2);
    board.meet(rt, &mut reader_2, &mut reporter_2);
    let version = board.read_own(rt, &mut reporter_2).version;
    if version != settled.version {
        return Err(RunFault::Strangers { version });
    }
    Ok(NightEnd {
        last,
        settled,
        closing,
        reader_1,
        reader_2,
        reporter_1,
        reporter_2,
    })
}

/// Reads a script, runs a night of it on a board that `opening` opens with its first pass, and writes the output: the last screens of both
/// readers, which take `readings` readings each, and the closing screen. Returns the exit status: 0 if it was done, and otherwise that of
/// the fault, with its line on `errors`; 27 only once each worker has its pass. Of all that `ucl_night` runs this alone may wait.
pub fn run_night<B: LiveBoard + Drop, O, S: Source, W: Sink, E: Sink, R: Threads + Wait + Sync>(
    rt: &R,
    alloc: Global,
    group: u8,
    readings: u32,
    profile: Profile,
    opening: O,
    source: &mut S,
    sink: &mut W,
    errors: &mut E,
) -> u8
where
    O: FnOnce() -> Result<(B, B::ReaderPass), OutOfMemory> + Drop,
    requires callable { O.pre opening }
    requires own { (r : _) → O.post opening r → IfOk r (λ it. B.is_reader it.0 it.1) }
    requires group { IsGroup group }
    ensures { RunsTask W.Sink (night_task B.LiveBoard (O.post opening) profile group readings)
        (streams_at S.Source source.old sink.old) (streams_at S.Source source.new sink.new)
        (ended_with E.failed E.taken result errors.old errors.new) }
{
    let night = match read_night(alloc, source) {
        Ok(night) => night,
        Err(fault) => return ended(errors, Err(RunFault::from(fault))),
    };
    let (board, pass) = match opening() {
        Ok(opened) => opened,
        Err(_) => return ended(errors, Err(RunFault::OutOfMemory)),
    };
    match play(rt, alloc, &board, pass, &night, group, readings, profile) {
        Ok(end) => ended(errors, put_night(&end, sink)),
        Err(fault) => ended(errors, Err(fault)),
    }
}

/// Runs `ucl_night` for the words of its command line, `words`, or for why they could not be read. Returns the exit status, as `run` and
/// `run_night` do; a night is on a board that `opening` opens with its first pass.
pub fn run_words<B: LiveBoard + Drop, O, S: Source, W: Sink, E: Sink, R: Threads + Wait + Sync>(
    rt: &R,
    alloc: Global,
    words: Result<Vec<String>, LineFault>,
    opening: O,
    source: &mut S,
    sink: &mut W,
    errors: &mut E,
) -> u8
where
    O: FnOnce() -> Result<(B, B::ReaderPass), OutOfMemory> + Drop,
    requires callable { O.pre opening }
    requires own { (r : _) → O.post opening r → IfOk r (λ it. B.is_reader it.0 it.1) }
    ensures { (asked : Result Line LineFault)
        × MatchResult words (λ found. IfOk asked (AsksFor (map string_bytes found.items)))
        (λ fault. asked ≡ Err fault)
        × RunsLine B.LiveBoard (O.post opening) W.Sink asked
        (streams_at S.Source source.old sink.old) (streams_at S.Source source.new sink.new)
        (ended_with E.failed E.taken result errors.old errors.new) }
{
    let asked = match words {
        Ok(words) => line_of(alloc, &words),
        Err(fault) => Err(fault),
    };
    match asked {
        Ok(
            Line::Night {
                group,
                readings,
                profile,
            },
        ) => run_night(
            rt, alloc, group, readings, profile, opening, source, sink, errors,
        ),
        asked => run(alloc, asked, source, sink, errors),
    }
}
