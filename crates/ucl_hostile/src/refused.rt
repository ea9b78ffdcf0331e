//! Calls that may find no memory, each made twice. What is lent by `&` is not compared, since nothing can change it.

ghost use Rattle.std.specs.Prelude.{IfOk};

use crate::nights::{enlist_other, kick_off, next_number};
use anyhow::Context;
use std::alloc::{AllocError, Global};
use std::fmt::Debug;
use std::io;
use std::sync::Wait;
use std::thread::Threads;
use ucl_board::Board;
use ucl_command::line_of;
use ucl_order::Profile::Uefa;
use ucl_pass::{CellBoard, LiveBoard};
use ucl_rows::RunFault;
use ucl_runs::{OpenGate, feed_run, night_run, show_run};
use ucl_screen::{FromRead, Night, ToWrite, night_of_bytes, read_night, read_words, screen};
use ucl_steps::{Call, Caller, Cast, Step, run_steps};
use ucl_word::{EventCall, OutOfMemory, ReporterNo};
use ucl_words::WordBoard;

/// No call asks for so many bytes: such requests tell what stands before `malloc` that a call begins, and that it has ended.
const BEGINS: usize = 7919;

const ENDS: usize = 7907;

/// Asks for an unusual number of bytes, which tells what stands before `malloc` that a call begins or has ended.
fn mark(alloc: Global, size: usize) -> Result<(), AllocError> {
    let mut block = Vec::with_capacity(alloc, size)?;
    block.push(0u8)?;
    Ok(())
}

/// Makes a call whose requests for memory may be refused: marks where it begins and ends, and returns what it gives.
fn marked<T: Drop, F: FnOnce() -> T>(alloc: Global, call: F) -> Result<T, AllocError>
    requires { F.IsAlwaysCallable call }
{
    mark(alloc, BEGINS)?;
    let given = call();
    mark(alloc, ENDS)?;
    Ok(given)
}

/// Prints the outcome of a call that is made twice: the fault of the first, if any; whether what that left or gave is as it has to be
/// (`is_kept`); and `text`, what the second gave.
fn tell<E: Debug + Drop, R: Print>(
    rt: &R,
    first: Option<E>,
    is_kept: bool,
    text: &str,
) -> anyhow::Result<()> {
    print!(rt; "first {first:?}\nkept {is_kept}\n{text}")?;
    Ok(())
}

/// Prints the outcome of a call that is made twice, as `tell` does: what the first gave has to be what the second gave.
fn tell_same<T: PartialEq + Drop, E: Debug + Drop, R: Print>(
    rt: &R,
    first: Result<T, E>,
    second: &T,
    text: &str,
) -> anyhow::Result<()> {
    let is_kept = match &first {
        Ok(given) => given == second,
        Err(_) => true,
    };
    tell(rt, first.err(), is_kept, text)
}

/// The board after the rows of the script, entered in script order on a fresh board.
fn board_of(night: &Night) -> Board {
    let mut board = Board::fresh();
    for event in &night.events {
        let _reply = board.report(event.reporter, &event.call);
    }
    board
}

/// Makes the screen of the script in the input twice, and prints both outcomes. The first call may be refused memory.
fn screens<R: Print>(rt: &R, alloc: Global, input: &[u8]) -> anyhow::Result<()> {
    let night = night_of_bytes(alloc, input)?;
    let board = board_of(&night);
    let first = marked(alloc, || screen(alloc, &board, &night.roster, b'A', Uefa))?;
    let text = screen(alloc, &board, &night.roster, b'A', Uefa)?;
    tell_same(rt, first, &text, text.as_str())
}

/// Reads the input as a script twice, and prints both outcomes. The first call may be refused memory.
fn scripts<R: Print>(rt: &R, alloc: Global, input: &[u8]) -> anyhow::Result<()> {
    let first = marked(alloc, || read_night(alloc, &mut FromRead::new(input)))?;
    let events = night_of_bytes(alloc, input)?.events;
    let text = format!(in alloc; "{} events\n", events.len())?;
    tell_same(rt, first.map(|night| night.events), &events, text.as_str())
}

/// Reads the input as a sheet twice, and prints both outcomes. The first call may be refused memory.
fn sheets<R: Print>(rt: &R, alloc: Global, input: &[u8]) -> anyhow::Result<()> {
    let first = marked(alloc, || read_words(alloc, &mut FromRead::new(input)))?;
    let sheet = read_words(alloc, &mut FromRead::new(input))?;
    let text = screen(alloc, &sheet.board, &sheet.roster, b'A', Uefa)?;
    let first = first.map(|sheet| sheet.board);
    tell_same(rt, first, &sheet.board, text.as_str())
}

/// The words of the input, which spaces part.
fn words_of(alloc: Global, input: &[u8]) -> anyhow::Result<Vec<String>> {
    let mut words = Vec::new(alloc);
    for word in std::str::from_utf8(input)?.split_whitespace() {
        words.push(String::from_str(alloc, word)?)?;
    }
    Ok(words)
}

/// Reads the words of the input as a command line of `ucl_night` twice, and prints both outcomes. The first call may be refused memory.
fn lines<R: Print>(rt: &R, alloc: Global, input: &[u8]) -> anyhow::Result<()> {
    let words = words_of(alloc, input)?;
    let first = marked(alloc, || line_of(alloc, &words))?;
    let second = line_of(alloc, &words);
    let is_kept = first.is_err() || first.as_ref().ok() == second.as_ref().ok();
    let text = format!(in alloc; "{second:?}\n")?;
    tell(rt, first.err(), is_kept, text.as_str())
}

/// The steps in which a reporter kicks off match 1, and then a reader takes so many readings.
fn run_of(alloc: Global, readings: usize) -> anyhow::Result<Vec<Step>> {
    let reporter = Caller::Reporter(ReporterNo::new(1).context("no such reporter")?);
    let kick_off = kick_off(1).context("no such match")?;
    let reader = Caller::Reader(1);
    let mut steps = Vec::new(alloc);
    steps.extend_from_slice(&[
        Step::Begin(reporter, Call::Event(kick_off)),
        Step::Look(reporter),
        Step::Swap(reporter),
        Step::End(reporter),
    ])?;
    for _ in 0..readings {
        steps.push(Step::Begin(reader, Call::Reading))?;
        steps.extend_from_slice(&[Step::First(reader); 12])?;
        steps.extend_from_slice(&[Step::Second(reader); 12])?;
        steps.push(Step::End(reader))?;
    }
    Ok(steps)
}

/// Runs the same list of steps twice, in which a reader takes one reading more than the input has bytes, and prints both outcomes. The
/// first run may be refused memory.
fn steps<R: Print>(rt: &R, alloc: Global, input: &[u8]) -> anyhow::Result<()> {
    let cast = Cast {
        reporters: 1,
        readers: 1,
    };
    let steps = run_of(alloc, input.len().saturating_add(1))?;
    let first = marked(alloc, || run_steps(alloc, &cast, &steps))?;
    let trace = run_steps(alloc, &cast, &steps)?;
    let (entries, calls) = (trace.history.len(), trace.calls.len());
    let text = format!(in alloc; "{entries} entries, {calls} calls\n")?;
    let first = first.map(|trace| trace.words);
    tell_same(rt, first, &trace.words, text.as_str())
}

/// Prints the outcome of opening a board twice. A board that the first call has opened has to read as the second, which is fresh.
fn opened<B: LiveBoard + Drop, R: Print + Wait>(
    rt: &R,
    alloc: Global,
    first: Result<(B, B::ReaderPass), OutOfMemory>,
    second: (B, B::ReaderPass),
) -> anyhow::Result<()>
    requires { IfOk first (λ opened. B.is_reader opened.0 opened.1) × B.is_reader second.0 second.1 }
{
    let (board, mut pass) = second;
    let reading = board.read(rt, &mut pass);
    let text = format!(in alloc; "version {}\n", reading.version)?;
    match first {
        Ok((board, mut pass)) => {
            let is_kept = board.read(rt, &mut pass) == reading;
            tell(rt, None::<OutOfMemory>, is_kept, text.as_str())
        }
        Err(fault) => tell(rt, Some(fault), true, text.as_str()),
    }
}

/// Opens a cell board twice, and prints both outcomes. The first call may be refused memory.
fn cells<R: Print + Wait>(rt: &R, alloc: Global) -> anyhow::Result<()> {
    mark(alloc, BEGINS)?;
    let first = CellBoard::open(rt, alloc);
    mark(alloc, ENDS)?;
    opened(rt, alloc, first, CellBoard::open(rt, alloc)?)
}

/// Opens a word board twice, and prints both outcomes. The first call may be refused memory.
fn tables<R: Print + Wait>(rt: &R, alloc: Global) -> anyhow::Result<()> {
    mark(alloc, BEGINS)?;
    let first = WordBoard::open(rt, alloc);
    mark(alloc, ENDS)?;
    opened(rt, alloc, first, WordBoard::open(rt, alloc)?)
}

/// A writer to a list, which asks for no memory while the list has room.
#[derive(Drop)]
struct Filling<'a> {
    out: &'a mut Vec<u8>,
}

impl io::Write for Filling<'_> {
    /// Appends the bytes to the list; takes none if there is no memory.
    fn write(&mut self, buf: &[u8]) -> io::Result<usize> {
        match self.out.extend_from_slice(buf) {
            Ok(()) => Ok(buf.len()),
            Err(_) => Ok(0),
        }
    }

    /// Does nothing, since nothing is buffered.
    fn flush(&mut self) -> io::Result<()> {
        Ok(())
    }
}

/// A run over a source and a sink.
#[derive(Clone, Copy)]
enum Engine {
    Feed,
    Show,
}

/// Runs `feed` or `show`, as `engine` says, over the input, and returns its result. What it writes is appended to `out`.
fn answered(
    alloc: Global,
    engine: Engine,
    input: &[u8],
    out: &mut Vec<u8>,
) -> Result<(), RunFault> {
    let mut source = FromRead::new(input);
    let mut sink = ToWrite::new(Filling { out });
    match engine {
        Engine::Feed => feed_run(alloc, &mut source, &mut sink),
        Engine::Show => show_run(alloc, &mut source, &mut sink, b'A', Uefa),
    }
}

/// Runs `feed` or `show` over the input twice, and prints both outcomes. The first run may be refused memory.
fn runs<R: Print>(rt: &R, alloc: Global, engine: Engine, input: &[u8]) -> anyhow::Result<()> {
    let mut part = Vec::with_capacity(alloc, 8192)?;
    let first = marked(alloc, || answered(alloc, engine, input, &mut part))?;
    let mut whole = Vec::with_capacity(alloc, 8192)?;
    answered(alloc, engine, input, &mut whole)?;
    let is_kept = whole.starts_with(&part) && (first.is_err() || part.len() == whole.len());
    tell(rt, first.err(), is_kept, std::str::from_utf8(&whole)?)
}

/// Whether `read`, the board after a night, is `alone`, the board before it, with rows of the script entered and no other event: of each
/// match those that expect a number below the match's event number in `read`. Reporters 1 and 2 have the numbers `earlier` + 1 and + 2.
fn is_of_rows(read: &Board, night: &Night, mut alone: Board, earlier: u8) -> bool {
    for event in &night.events {
        if event.call.expected < read.game(event.call.game).number {
            let number = event.reporter.get().saturating_add(earlier);
            let reporter = ReporterNo::new(number).unwrap_or(event.reporter);
            let _reply = alone.report(reporter, &event.call);
        }
    }
    alone == *read
}

/// Holds a night of the script with so many readings, where memory may be refused, between marks, and returns its fault, if any.
fn marked_night<B: LiveBoard, R: Threads + Wait + Sync>(
    rt: &R,
    alloc: Global,
    board: &B,
    pass: B::ReaderPass,
    night: &Night,
    readings: u32,
) -> Result<Option<RunFault>, AllocError>
    requires { B.is_reader board.now pass }
{
    mark(alloc, BEGINS)?;
    let ended = night_run(
        rt, alloc, board, pass, night, b'A', readings, &OpenGate, Uefa,
    );
    mark(alloc, ENDS)?;
    Ok(ended.err())
}

/// Whether a pass split off before a night reads only `begun` and rows of the script, all accepted ones if the night ended well, and whether
/// its number shows that two reporters at most were enlisted after the `earlier` ones.
fn is_left<B: LiveBoard, R: Wait>(
    rt: &R,
    board: &B,
    mut watcher: B::ReaderPass,
    night: &Night,
    begun: Board,
    earlier: u8,
    is_ended: bool,
) -> bool
    requires { B.is_reader board.now watcher }
{
    let kept = board.read(rt, &mut watcher);
    let most = begun.version().saturating_add(3);
    let number = next_number(rt, board, watcher);
    let is_alone = number.is_some_and(|number| u16::from(number) <= most);
    let is_whole = !is_ended || kept.version == board_of(night).version();
    is_whole && is_alone && is_of_rows(&kept.board, night, begun, earlier)
}

/// Holds a night of the script on the first board, where memory may be refused, and one on the second, each with so many readings, and prints
/// both outcomes. A third reporter first enters `entered`, if it is an event. A pass split off before the first night has to read only that event and rows of the
/// script, all accepted ones if the night ended well; its number has to show that two reporters at most were enlisted.
fn nights<B: LiveBoard + Drop, R: Print + Threads + Wait + Sync>(
    rt: &R,
    alloc: Global,
    first: (B, B::ReaderPass),
    second: (B, B::ReaderPass),
    night: &Night,
    readings: u32,
    entered: Option<EventCall>,
) -> anyhow::Result<()>
    requires { B.is_reader first.0 first.1 × B.is_reader second.0 second.1 }
{
    let (board, mut pass) = first;
    let (mut begun, earlier) = (Board::fresh(), u8::from(entered.is_some()));
    let part = board.split(rt, &mut pass);
    if entered.is_some() {
        enlist_other(rt, &board, part, entered, &mut begun).context("no number is left")?;
    }
    let watcher = board.split(rt, &mut pass);
    let fault = marked_night(rt, alloc, &board, pass, night, readings)?;
    let is_kept = is_left(rt, &board, watcher, night, begun, earlier, fault.is_none());
    let (board, pass) = second;
    let other = night_run(
        rt, alloc, &board, pass, night, b'A', readings, &OpenGate, Uefa,
    )?;
    tell(rt, fault, is_kept, other.closing.as_str())
}

/// Holds a night on a board that has one number of a reporter left, and prints the fault, and whether the night has used up that number.
fn full_night<B: LiveBoard, R: Print + Threads + Wait + Sync>(
    rt: &R,
    alloc: Global,
    board: &B,
    mut pass: B::ReaderPass,
    night: &Night,
) -> anyhow::Result<()>
    requires { B.is_reader board.now pass }
{
    for _number in 0..254 {
        let part = board.split(rt, &mut pass);
        next_number(rt, board, part).context("no number is left")?;
    }
    let watcher = board.split(rt, &mut pass);
    let fault = marked_night(rt, alloc, board, pass, night, 1)?;
    let is_full = next_number(rt, board, watcher).is_none();
    tell(rt, fault, is_full, "")
}

/// Holds two nights of the script in the input on word boards of their own, as `nights` does.
fn word_nights<R: Print + Threads + Wait + Sync>(
    rt: &R,
    alloc: Global,
    input: &[u8],
    readings: u32,
    entered: Option<EventCall>,
) -> anyhow::Result<()> {
    let night = night_of_bytes(alloc, input)?;
    let (first, second) = (WordBoard::open(rt, alloc)?, WordBoard::open(rt, alloc)?);
    nights(rt, alloc, first, second, &night, readings, entered)
}

/// Holds two nights of the script in the input on cell boards of their own, as `nights` does, without a third reporter.
fn cell_nights<R: Print + Threads + Wait + Sync>(
    rt: &R,
    alloc: Global,
    input: &[u8],
    readings: u32,
) -> anyhow::Result<()> {
    let night = night_of_bytes(alloc, input)?;
    let (first, second) = (CellBoard::open(rt, alloc)?, CellBoard::open(rt, alloc)?);
    nights(rt, alloc, first, second, &night, readings, None)
}

/// Holds a night of the script in the input on a word board, as `full_night` does.
fn full_word_night<R: Print + Threads + Wait + Sync>(
    rt: &R,
    alloc: Global,
    input: &[u8],
) -> anyhow::Result<()> {
    let (board, pass) = WordBoard::open(rt, alloc)?;
    full_night(rt, alloc, &board, pass, &night_of_bytes(alloc, input)?)
}

/// Makes the library call that `call` names, with the input, in most cases twice, and prints the outcomes. A reader of a night reads so often.
pub fn run<R: Print + Threads + Wait + Sync>(
    rt: &R,
    alloc: Global,
    call: &str,
    readings: u32,
    input: &[u8],
) -> anyhow::Result<()> {
    match call {
        "screen" => screens(rt, alloc, input),
        "read_night" => scripts(rt, alloc, input),
        "read_words" => sheets(rt, alloc, input),
        "feed_run" => runs(rt, alloc, Engine::Feed, input),
        "show_run" => runs(rt, alloc, Engine::Show, input),
        "night_run" => word_nights(rt, alloc, input, readings, None),
        "night_run_beside_a_stranger" => word_nights(rt, alloc, input, readings, kick_off(12)),
        "night_run_on_a_full_board" => full_word_night(rt, alloc, input),
        "night_run_in_a_cell" => cell_nights(rt, alloc, input, readings),
        "run_steps" => steps(rt, alloc, input),
        "line_of" => lines(rt, alloc, input),
        "CellBoard::open" => cells(rt, alloc),
        "WordBoard::open" => tables(rt, alloc),
        _ => anyhow::bail!("no such call"),
    }
}
