//! Nights of each group and each number of readings, on both boards, with random rows: how each ends, and what its gate sees.

ghost use Rattle.ucl_screen.specs.Screen.{IsGroup};

use crate::random::Random;
use std::alloc::{AllocError, Global};
use std::iter::repeat_n;
use std::sync::{Condvar, Mutex, Wait};
use std::thread::Threads;
use ucl_board::{Board, Reading};
use ucl_order::Profile;
use ucl_pass::{CellBoard, LiveBoard};
use ucl_rows::RunFault;
use ucl_runs::{Gate, NightEnd, night_run};
use ucl_screen::{Night, NightEvent, night_of_bytes, screen};
use ucl_word::{EventCall, Kind, MatchNo, ReporterNo};
use ucl_words::WordBoard;

/// The letter of the group with this index, from 0 (`A`) to 7 (`H`) and then from `A` again.
fn letter(group: u8) -> u8
    ensures { IsGroup result }
{
    b'A' + group % 8
}

/// The order by which a night is shown: each group has nights by both, and so has each number of readings.
fn profile_of(group: u8, readings: u32) -> Profile {
    if u32::from(group % 2) == readings % 2 {
        Profile::Uefa
    } else {
        Profile::AwayInTie
    }
}

/// The kick-off of the match with this number.
pub(crate) fn kick_off(game: u8) -> Option<EventCall> {
    Some(EventCall {
        game: MatchNo::new(game)?,
        expected: 0,
        kind: Kind::KickOff,
    })
}

/// How often a worker of a night has come, how many screens it has shown, and the version of the last.
#[derive(Clone, Copy, Debug, Default, PartialEq, Eq)]
struct Worker {
    calls: u32,
    screens: u32,
    last: Option<u16>,
}

/// What a gate has seen: its workers, how many turns are over, and whether anything was wrong.
#[derive(Drop)]
struct Seen {
    workers: [Worker; 4],
    turn: usize,
    is_wrong: bool,
}

/// A gate that lets no worker begin before all have come, and, if it has a list of turns, lets one call at a time through, in that order. It
/// notes a call and a screen that is out of turn or not of its worker; then it lets all through.
#[derive(Drop)]
struct Watch<'n, R> {
    rt: &'n R,
    alloc: Global,
    night: &'n Night,
    group: u8,
    profile: Profile,
    /// How many calls each worker makes.
    most: [u32; 4],
    /// The worker of each turn, and the version that a reader finds then.
    turns: Vec<(u8, u16)>,
    seen: Mutex<Seen>,
    moved: Condvar,
}

impl<'n, R: Wait + Sync> Watch<'n, R> {
    /// A gate that watches a night of this script, group and number of readings for each reader. It has no list of turns yet.
    fn new(rt: &'n R, alloc: Global, night: &'n Night, group: u8, readings: u32) -> Watch<'n, R> {
        let mut most = [0, 0, readings, readings];
        for event in &night.events {
            match event.reporter.get() {
                1 => most[0] = most[0].saturating_add(1),
                _ => most[1] = most[1].saturating_add(1),
            }
        }
        let seen = Seen {
            workers: [Worker::default(); 4],
            turn: 0,
            is_wrong: false,
        };
        Watch {
            rt,
            alloc,
            night,
            group,
            profile: profile_of(group, readings),
            most,
            turns: Vec::new(alloc),
            seen: Mutex::new(seen),
            moved: Condvar::new(),
        }
    }

    /// How many readings of a reader are due before this row, if they come evenly among the rows.
    fn due(&self, row: usize) -> usize {
        let (rows, readings) = (self.night.events.len(), self.most[2] as usize);
        let least = row.saturating_mul(readings);
        let most = least.saturating_add(rows).saturating_sub(1);
        most.checked_div(rows).unwrap_or(0)
    }

    /// Lists the turns in which the gate lets calls of a night on this board through, and returns the version after them. Rows come in
    /// script order. Readings come evenly among them, those of worker 3 before a row, and those of worker 4 after it; or all come after the
    /// rows, if they are late.
    fn hold(&mut self, mut board: Board, is_late: bool) -> Result<u16, AllocError> {
        for (row, event) in self.night.events.iter().enumerate() {
            let many = self
                .due(row.saturating_add(1))
                .saturating_sub(self.due(row));
            let many = if is_late { 0 } else { many };
            self.turns.extend(repeat_n((3, board.version()), many))?;
            self.turns.push((event.reporter.get(), 0))?;
            let _reply = board.report(event.reporter, &event.call);
            self.turns.extend(repeat_n((4, board.version()), many))?;
        }
        let many = if is_late { self.most[2] as usize } else { 0 };
        self.turns.extend(repeat_n((3, board.version()), many))?;
        self.turns.extend(repeat_n((4, board.version()), many))?;
        Ok(board.version())
    }

    /// Whether the gate has seen nothing wrong, so many calls of each worker, and as many screens as calls of each reader.
    fn has_seen(&self, calls: [u32; 4]) -> bool {
        let seen = self.seen.lock(self.rt);
        let screens = seen.workers.map(|own| own.screens);
        let is_each = seen.workers.map(|own| own.calls) == calls;
        !seen.is_wrong && is_each && screens == [0, 0, calls[2], calls[3]]
    }

    /// Whether these screens have the versions that the two readers have shown last.
    fn are_last(&self, last: &[Option<String>; 2]) -> bool {
        let shown = self.seen.lock(self.rt).workers;
        [version_of(&last[0]), version_of(&last[1])] == [shown[2].last, shown[3].last]
    }
}

/// The version that a screen tells.
fn version_of(screen: &Option<String>) -> Option<u16> {
    screen.as_ref()?.as_str().get(9..14)?.parse().ok()
}

impl<R> Watch<'_, R> {
    /// Whether a worker's call has to wait for its turn, or, if it is its first, for all workers to come; never once anything was wrong.
    fn holds(&self, seen: &Seen, worker: u8, call: u32) -> bool {
        let mut pairs = seen.workers.iter().zip(&self.most);
        let have_all_come = pairs.all(|(worker, most)| *most == 0 || worker.calls > 0);
        let next = self.turns.get(seen.turn).copied();
        let is_next = next.is_none_or(|next| next.0 == worker);
        !seen.is_wrong && !(is_next && (call > 0 || have_all_come))
    }
}

impl<R: Wait + Sync> Gate for Watch<'_, R> {
    /// Counts a worker's call, and holds it until its turn. A reporter's turn is over when the reporter comes again, or, for its last row,
    /// which is always refused, at once.
    fn come(&self, worker: u8, call: u32) {
        let at = usize::from(worker).wrapping_sub(1);
        let is_reporter = worker < 3;
        let mut seen = self.seen.lock(self.rt);
        match seen.workers.get_mut(at) {
            Some(own) if own.calls == call && (is_reporter || own.screens == call) => {
                own.calls = call.saturating_add(1);
            }
            _ => seen.is_wrong = true,
        }
        let is_again = is_reporter && call > 0;
        seen.turn = seen.turn.saturating_add(usize::from(is_again));
        self.moved.notify_all();
        let mut seen = self
            .moved
            .wait_while(self.rt, seen, |seen| self.holds(seen, worker, call));
        let is_last = is_reporter && call.checked_add(1) == self.most.get(at).copied();
        seen.turn = seen.turn.saturating_add(usize::from(is_last));
        self.moved.notify_all();
    }

    /// Counts a reader's screen, and notes as wrong one that is not the screen of its reading, or that is out of turn.
    fn shown(&self, worker: u8, reading: &Reading, text: &str) {
        let (roster, group) = (&self.night.roster, letter(self.group));
        let wanted = screen(self.alloc, &reading.board, roster, group, self.profile);
        let is_screen = wanted.is_ok_and(|wanted| wanted.as_str() == text);
        let mut seen = self.seen.lock(self.rt);
        let next = self.turns.get(seen.turn).copied();
        let is_in_turn = next.is_none_or(|next| next == (worker, reading.version));
        match seen.workers.get_mut(usize::from(worker).wrapping_sub(1)) {
            Some(own) if own.screens < own.calls && is_screen && is_in_turn => {
                own.screens = own.calls;
                own.last = Some(reading.version);
            }
            _ => seen.is_wrong = true,
        }
        seen.turn = seen.turn.saturating_add(1);
        self.moved.notify_all();
    }
}

/// A night: how many reporters have a number before it, and whether one of them has entered an event; the row that is of none on duty, if one
/// is; whether its gate has turns, and whether readings are late in these.
#[derive(Clone, Copy, Debug)]
struct Case {
    others: u8,
    strangers: bool,
    row: Option<usize>,
    is_held: bool,
    is_late: bool,
}

/// Enlists a reporter by this pass, and has it enter this event, if there is one, on both boards; nothing if no number is left.
pub(crate) fn enlist_other<B: LiveBoard, R: Wait>(
    rt: &R,
    board: &B,
    pass: B::ReaderPass,
    call: Option<EventCall>,
    alone: &mut Board,
) -> Option<()>
    requires { B.is_reader board.now pass }
{
    let mut reporter = board.enlist(rt, pass).ok()?;
    if let Some(call) = call {
        let _reply = board.report(rt, &mut reporter, &call);
        let _reply = alone.report(B::number_of(&reporter), &call);
    }
    Some(())
}

/// Enlists the other reporters of this case, of whom the first kicks off match 12 if there are strangers. Returns the board of what it entered.
fn with_others<B: LiveBoard, R: Wait>(
    rt: &R,
    board: &B,
    pass: &mut B::ReaderPass,
    case: &Case,
) -> Board
    requires { B.is_reader board.now pass.old }
    ensures { B.is_reader board.now pass.new }
{
    let mut alone = Board::fresh();
    for other in 0..case.others {
        let part = board.split(rt, pass);
        let call = kick_off(12).filter(|_| case.strangers && other == 0);
        let _enlisted = enlist_other(rt, board, part, call, &mut alone);
    }
    alone
}

/// Returns how a night of this case has to end: its fault, if any; the number that a pass that is enlisted after it gets; and whether it begins. If
/// it finds strangers, it tells this version.
fn wanted(case: &Case, version: u16) -> (Option<RunFault>, Option<u8>, bool) {
    let (fault, enlisted, is_begun) = match case.row {
        Some(row) => (Some(RunFault::NotOnDuty { row }), Some(1), false),
        None if case.others > 253 => (Some(RunFault::TooManyReporters), None, false),
        None if case.strangers => (Some(RunFault::Strangers { version }), Some(3), true),
        None => (None, Some(3), true),
    };
    let number = enlisted.and_then(|it| case.others.checked_add(it));
    (fault, number, is_begun)
}

/// Returns the number that enlisting this pass gives; nothing if none is left.
pub(crate) fn next_number<B: LiveBoard, R: Wait>(
    rt: &R,
    board: &B,
    pass: B::ReaderPass,
) -> Option<u8>
    requires { B.is_reader board.now pass }
{
    let reporter = board.enlist(rt, pass).ok()?;
    Some(B::number_of(&reporter).get())
}

/// Whether a night has ended at this version, with the screens that its readers have shown last, and with the first numbers after the others.
fn is_whole<B: LiveBoard, R: Wait + Sync>(
    end: &NightEnd<B::ReaderPass, B::ReporterPass>,
    watch: &Watch<'_, R>,
    others: u8,
    version: u16,
) -> bool {
    let numbers = [B::number_of(&end.reporter_1), B::number_of(&end.reporter_2)];
    let numbers = numbers.map(|number| number.get().checked_sub(others));
    let is_last = watch.are_last(&end.last) && end.settled.version == version;
    is_last && numbers == [Some(1), Some(2)]
}

/// How a night has ended: its fault, if any, or else whether it is whole; the version that a pass that was split off before it reads; and the
/// number that enlisting that pass gives.
#[derive(Clone, Copy, Debug)]
struct Ended {
    fault: Option<RunFault>,
    is_whole: bool,
    version: u16,
    number: Option<u8>,
}

/// Holds a night beside so many other reporters, and returns how it has ended.
fn hold_night<B: LiveBoard, R: Threads + Wait + Sync>(
    rt: &R,
    alloc: Global,
    board: &B,
    mut pass: B::ReaderPass,
    watch: &Watch<'_, R>,
    others: u8,
) -> Ended
    requires { B.is_reader board.now pass }
{
    let (lent, group) = (board.split(rt, &mut pass), letter(watch.group));
    let readings = watch.most[2];
    let end = night_run(
        rt,
        alloc,
        board,
        lent,
        watch.night,
        group,
        readings,
        watch,
        watch.profile,
    );
    let version = board.read(rt, &mut pass).version;
    let is_whole = match &end {
        Ok(end) => is_whole::<B, R>(end, watch, others, version),
        Err(_) => true,
    };
    Ended {
        fault: end.err(),
        is_whole,
        version,
        number: next_number(rt, board, pass),
    }
}

/// Holds a night of this case, and returns whether it ends as it has to, whether a pass that was split off before reads the version that it
/// has to afterwards, and whether enlisting that pass gives the right number.
fn is_right<B: LiveBoard, R: Threads + Wait + Sync>(
    rt: &R,
    alloc: Global,
    board: &B,
    mut pass: B::ReaderPass,
    watch: &mut Watch<'_, R>,
    case: Case,
) -> anyhow::Result<bool>
    requires { B.is_reader board.now pass }
{
    let alone = with_others(rt, board, &mut pass, &case);
    let before = alone.version();
    let held = if case.is_held {
        Some(watch.hold(alone, case.is_late)?)
    } else {
        None
    };
    let ended = hold_night(rt, alloc, board, pass, watch, case.others);
    let (fault, number, is_begun) = wanted(&case, ended.version);
    let is_told = ended.is_whole && ended.fault == fault && ended.number == number;
    let (left, calls) = if is_begun {
        (held, watch.most)
    } else {
        (Some(before), [0; 4])
    };
    let is_left = left.is_none_or(|left| left == ended.version);
    Ok(is_told && is_left && watch.has_seen(calls))
}

/// Opens a cell board or a word board, holds a night of this case on it, and returns whether all of it was right.
fn is_right_on<R: Threads + Wait + Sync>(
    rt: &R,
    alloc: Global,
    in_cell: bool,
    watch: &mut Watch<'_, R>,
    case: Case,
) -> anyhow::Result<bool> {
    if in_cell {
        let (board, pass) = CellBoard::open(rt, alloc)?;
        is_right(rt, alloc, &board, pass, watch, case)
    } else {
        let (board, pass) = WordBoard::open(rt, alloc)?;
        is_right(rt, alloc, &board, pass, watch, case)
    }
}

/// Random rows of reporters 1 and 2, most of which the rules accept. The last row of each reporter is always refused.
fn random_rows(alloc: Global, random: &mut Random) -> Result<Vec<NightEvent>, AllocError> {
    let (mut board, mut rows) = (Board::fresh(), Vec::new(alloc));
    let more = if random.below(32) == 0 { 50 } else { 1 };
    for _ in 0..u16::from(random.below(50)).saturating_mul(more) {
        let reporter = ReporterNo::new(random.below(2).saturating_add(1));
        let game = MatchNo::new(random.below(12).saturating_add(1));
        if let (Some(reporter), Some(game)) = (reporter, game) {
            let expected = board
                .game(game)
                .number
                .saturating_add(u16::from(random.below(8) / 7));
            let kind = if expected == 0 {
                Kind::KickOff
            } else {
                random.kind()
            };
            let call = EventCall {
                game,
                expected,
                kind,
            };
            let _reply = board.report(reporter, &call);
            rows.push(NightEvent { reporter, call })?;
        }
    }
    end_with_stale(&mut rows)?;
    Ok(rows)
}

/// Adds a row of each of reporters 1 and 2 that is refused as stale, since it expects an event number that no match reaches.
fn end_with_stale(rows: &mut Vec<NightEvent>) -> Result<(), AllocError> {
    for reporter in [1, 2].into_iter().filter_map(ReporterNo::new) {
        if let Some(mut call) = kick_off(12) {
            call.expected = u16::MAX;
            rows.push(NightEvent { reporter, call })?;
        }
    }
    Ok(())
}

/// Gives a random row to a reporter other than 1 and 2, and returns the number of that row in its script; nothing if there are no rows.
fn off_duty(rows: &mut [NightEvent], random: &mut Random) -> Option<usize> {
    let at = usize::from(random.below(u8::try_from(rows.len()).unwrap_or(u8::MAX)));
    rows.get_mut(at)?.reporter = ReporterNo::new(random.below(253).saturating_add(3))?;
    at.checked_add(5)
}

/// Holds nights of the script in turns, two on each kind of board: with one reading of each reader, after all rows, and with so many among
/// the rows. Fails if one ends otherwise than it has to.
fn script_nights<R: Threads + Wait + Sync>(
    rt: &R,
    alloc: Global,
    night: &Night,
    readings: u32,
) -> anyhow::Result<()> {
    for (in_cell, is_late) in [(false, false), (false, true), (true, false), (true, true)] {
        let case = Case {
            others: 0,
            strangers: false,
            row: None,
            is_held: true,
            is_late,
        };
        let readings = if is_late { 1 } else { readings };
        let mut watch = Watch::new(rt, alloc, night, u8::from(in_cell), readings);
        if !is_right_on(rt, alloc, in_cell, &mut watch, case)? {
            anyhow::bail!("a night of the script, in a cell {in_cell}, {case:?}");
        }
    }
    Ok(())
}

/// The case of random night `at`, whose rows may be changed for it: without a cause to fail, with strangers, with a row that is not on duty,
/// or with more causes.
fn case_of(random: &mut Random, rows: &mut [NightEvent], at: u32) -> Case {
    let causes = match at % 4 {
        0 => 0,
        1 => 1,
        2 => 2,
        _ => random.below(5).saturating_add(3),
    };
    let most = if random.below(64) == 0 { 254 } else { 4 };
    Case {
        others: if causes & 4 == 0 {
            random.below(most).max(causes & 1)
        } else {
            random.below(2).saturating_add(254)
        },
        strangers: causes & 1 != 0,
        row: if causes & 2 == 0 {
            None
        } else {
            off_duty(rows, random)
        },
        is_held: at < 256 || random.below(64) == 0,
        is_late: random.below(2) == 0,
    }
}

/// Holds random night `at`, of rows that take the place of the script's. Fails if it ends otherwise than it has to.
fn random_night<R: Threads + Wait + Sync>(
    rt: &R,
    alloc: Global,
    random: &mut Random,
    night: &mut Night,
    at: u32,
) -> anyhow::Result<()> {
    let (readings, group) = (at / 32, (at / 4 % 8) as u8);
    night.events = random_rows(alloc, random)?;
    let case = case_of(random, &mut night.events, at);
    let mut watch = Watch::new(rt, alloc, night, group, readings);
    if !is_right_on(rt, alloc, random.below(2) == 0, &mut watch, case)? {
        anyhow::bail!("group {group}, {readings} readings, {case:?}");
    }
    Ok(())
}

/// Holds nights of the script on each kind of board; then nights of random rows, of each group and each number of readings up to `most`:
/// with no cause to fail, with an event of a third reporter, with a row of a reporter other than 1 and 2, and with another set of causes,
/// such as that no two numbers of reporters are left. Fails if one ends otherwise than it has to.
pub fn run<R: Print + Threads + Wait + Sync>(
    rt: &R,
    alloc: Global,
    seed: u32,
    most: u32,
    input: &[u8],
) -> anyhow::Result<()> {
    let mut random = Random::of(u64::from(seed));
    let mut night = night_of_bytes(alloc, input)?;
    end_with_stale(&mut night.events)?;
    let readings = u32::try_from(night.events.len())? / 16 + u32::from(random.below(255));
    script_nights(rt, alloc, &night, readings)?;
    for at in 0..most.saturating_add(1).saturating_mul(32) {
        random_night(rt, alloc, &mut random, &mut night, at)?;
    }
    println!(rt; "all nights are right")?;
    Ok(())
}
