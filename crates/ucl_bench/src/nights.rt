//! Nights: readers and reporters, each in a thread of its own, on a fresh board. Nights of which the rates are told, and nights of which
//! each reading is timed take turns.

ghost use Rattle.std.specs.Prelude.{IfOk};

use crate::boards::{ALL_EVENTS, Opens, enlist, events_of, read_often, read_once, report_once};
use crate::clock::{nanos, nanos_since};
use anyhow::{Context, Result, ensure};
use std::alloc::{AllocError, Global};
use std::sync::atomic::{AtomicU64, Ordering};
use std::sync::{Mutex, Wait};
use std::thread::{Scope, Threads};
use std::time::{Clock, Duration};
use std::{fmt, thread};
use ucl_pass::{LiveBoard, MAX_REPORTERS};
use ucl_word::EventCall;

/// How far apart the events of a paced reporter are.
const PACE_NANOS: u64 = 5_000;

/// How many events of each match paced reporters enter.
const PACED_EVENTS: u16 = 100;

/// How long a night without a reporter is.
const QUIET_NIGHT_MILLIS: u64 = 20;

/// How many readings are taken before a reader looks whether the night has ended.
const READINGS_AT_ONCE: u64 = 16;

/// From how many nanoseconds on all times of a reading are counted as one.
const LONG: usize = 16_384;

/// Who works on each night, and how.
#[derive(Clone, Copy)]
pub struct Plan {
    /// Whether a reporter enters an event every five microseconds, or as fast as it goes.
    pub is_paced: bool,
    pub readers: u8,
    pub reporters: u8,
}

/// What was done in some nights.
#[derive(Drop)]
pub struct Figures {
    /// How many readings were taken that were not timed one by one, and for how long, by all readers.
    reads: u64,
    read_nanos: u64,
    /// How many events were accepted in these nights, and for how long they were entered, by all reporters.
    pub events: u64,
    event_nanos: u64,
    /// How many of the timed readings took so many nanoseconds.
    times: Vec<u64>,
}

impl Figures {
    /// The figures of no work: no reading, no event, and no time counted.
    fn new(alloc: Global) -> Result<Figures, AllocError> {
        Ok(Figures {
            reads: 0,
            read_nanos: 0,
            events: 0,
            event_nanos: 0,
            times: vec![in alloc; 0; LONG]?,
        })
    }

    /// Adds the figures of another worker, or of another night.
    fn add(&mut self, other: &Figures) {
        self.reads = self.reads.wrapping_add(other.reads);
        self.read_nanos = self.read_nanos.wrapping_add(other.read_nanos);
        self.events = self.events.wrapping_add(other.events);
        self.event_nanos = self.event_nanos.wrapping_add(other.event_nanos);
        for (count, more) in self.times.iter_mut().zip(other.times.iter()) {
            *count = count.wrapping_add(*more);
        }
    }

    /// Counts a timed reading, which took so many nanoseconds.
    fn count(&mut self, nanos: u64) {
        let place = (nanos as usize).min(LONG - 1);
        if let Some(count) = self.times.get_mut(place) {
            *count = count.wrapping_add(1);
        }
    }

    /// A quantile of the timed readings: the nanoseconds that at least so many thousandths of them took at most; 0 if none was timed.
    fn time_at(&self, thousandths: u64) -> usize {
        let mut all = 0u64;
        for count in self.times.iter() {
            all = all.wrapping_add(*count);
        }
        let wanted = all.wrapping_mul(thousandths) / 1000;
        let mut seen = 0u64;
        for (nanos, count) in self.times.iter().enumerate() {
            seen = seen.wrapping_add(*count);
            if seen > wanted {
                return nanos;
            }
        }
        0
    }
}

impl fmt::Display for Figures {
    /// Writes the figures as a JSON object, with the median and the 99.9th percentile of the timed readings.
    fn fmt<W: fmt::Write>(&self, f: &mut fmt::Formatter<W>) -> fmt::Result {
        let Figures {
            reads,
            read_nanos,
            events,
            event_nanos,
            ..
        } = self;
        let half = self.time_at(500);
        let most = self.time_at(999);
        write!(f, "{{\"reads\":{reads},\"read_ns\":{read_nanos},")?;
        write!(f, "\"events\":{events},\"event_ns\":{event_nanos},")?;
        write!(f, "\"p50_ns\":{half},\"p999_ns\":{most}}}")
    }
}

/// What the workers of one night share.
#[derive(Drop)]
struct Night<'e> {
    plan: Plan,
    events: &'e [EventCall],
    is_timed: bool,
    /// How many workers have come, and how many reporters have ended.
    come: AtomicU64,
    ended: AtomicU64,
    figures: Mutex<Figures>,
}

impl Night<'_> {
    /// How many threads work in the night: its readers and its reporters.
    fn workers(&self) -> u64 {
        u64::from(self.plan.readers).wrapping_add(u64::from(self.plan.reporters))
    }

    /// Counts a worker of the night as ready, and waits until all are.
    fn begin<R: Wait>(&self, rt: &R) {
        self.come.fetch_add(1, Ordering::SeqCst);
        for _ in rt.forever() {
            if self.come.load(Ordering::SeqCst) >= self.workers() {
                return;
            }
            thread::yield_now();
        }
    }

    /// Whether all reporters of the night have ended; whether it was ended, if it has no reporter.
    fn has_ended(&self) -> bool {
        self.ended.load(Ordering::SeqCst) >= u64::from(self.plan.reporters.max(1))
    }
}

/// Takes readings until the night has ended, and keeps in `own` how many they were, and how long they took together.
fn read_freely<B: LiveBoard, R: Wait + Clock>(
    rt: &R,
    board: &B,
    pass: &mut B::ReaderPass,
    night: &Night<'_>,
    own: &mut Figures,
)
    requires { B.is_reader board.now pass.old }
{
    let begun = nanos(rt);
    for turn in rt.forever() {
        if night.has_ended() {
            break;
        }
        read_often(rt, board, pass, READINGS_AT_ONCE);
        own.reads = own.reads.wrapping_add(READINGS_AT_ONCE);
    }
    own.read_nanos = nanos_since(rt, begun);
}

/// Takes readings until the night has ended, and counts in `own` how long each took.
fn read_timed<B: LiveBoard, R: Wait + Clock>(
    rt: &R,
    board: &B,
    pass: &mut B::ReaderPass,
    night: &Night<'_>,
    own: &mut Figures,
)
    requires { B.is_reader board.now pass.old }
{
    for turn in rt.forever() {
        if night.has_ended() {
            break;
        }
        let begun = nanos(rt);
        read_once(rt, board, pass);
        own.count(nanos_since(rt, begun));
    }
}

/// Waits until all workers are ready, takes readings until the night has ended, and adds their figures to those of the night.
fn read_night<B: LiveBoard, R: Wait + Clock>(
    rt: &R,
    board: &B,
    pass: B::ReaderPass,
    night: &Night<'_>,
    own: Figures,
)
    requires { B.is_reader board.now pass }
{
    let (mut pass, mut own) = (pass, own);
    night.begin(rt);
    if night.is_timed {
        read_timed(rt, board, &mut pass, night, &mut own);
    } else {
        read_freely(rt, board, &mut pass, night, &mut own);
    }
    night.figures.lock(rt).add(&own);
}

/// Waits, without sleeping, until the clock has come to `due`, in nanoseconds.
fn wait_for<R: Wait + Clock>(rt: &R, due: u64) {
    for _ in rt.forever() {
        if nanos(rt) >= due {
            return;
        }
    }
}

/// Enters those events of the night whose match number, divided by the number of reporters, leaves the remainder `index`, at the pace of
/// the plan. Returns how many were accepted.
fn enter_own<B: LiveBoard, R: Wait + Clock>(
    rt: &R,
    board: &B,
    pass: &mut B::ReporterPass,
    index: u8,
    night: &Night<'_>,
) -> u64
    requires { B.is_reporter board.now pass.old }
{
    let mut due = nanos(rt);
    let mut entered = 0u64;
    for call in night.events {
        if call.game.get().checked_rem(night.plan.reporters) != Some(index) {
            continue;
        }
        if night.plan.is_paced {
            wait_for(rt, due);
            due = due.wrapping_add(PACE_NANOS);
        }
        let told = report_once(rt, board, pass, call);
        entered = entered.wrapping_add(u64::from(told.is_some()));
    }
    entered
}

/// Waits until all workers are ready, enters the events of the reporter with this index, and adds their number and time to the figures.
fn enter_night<B: LiveBoard, R: Wait + Clock>(
    rt: &R,
    board: &B,
    pass: B::ReporterPass,
    index: u8,
    night: &Night<'_>,
)
    requires { B.is_reporter board.now pass }
{
    let mut pass = pass;
    night.begin(rt);
    let begun = nanos(rt);
    let entered = enter_own(rt, board, &mut pass, index, night);
    let taken = nanos_since(rt, begun);
    night.ended.fetch_add(1, Ordering::SeqCst);
    let mut figures = night.figures.lock(rt);
    figures.events = figures.events.wrapping_add(entered);
    figures.event_nanos = figures.event_nanos.wrapping_add(taken);
}

/// Starts the thread of a reader.
fn start_reader<'s, E, B: LiveBoard, R: Wait + Clock + Sync>(
    scope: &Scope<'s, E>,
    rt: &'s R,
    board: &'s B,
    pass: B::ReaderPass,
    night: &'s Night<'s>,
    own: Figures,
) -> Result<()>
where
    B::ReaderPass: 's,
    requires { B.is_reader board.now pass }
{
    let started = scope.spawn(
        move || -> ()
            requires { B.is_reader board.now pass }
        { read_night(rt, board, pass, night, own) },
    );
    started.ok().context("no thread for a reader")?;
    Ok(())
}

/// Starts the thread of a reporter.
fn start_reporter<'s, E, B: LiveBoard, R: Wait + Clock + Sync>(
    scope: &Scope<'s, E>,
    rt: &'s R,
    board: &'s B,
    pass: B::ReporterPass,
    index: u8,
    night: &'s Night<'s>,
) -> Result<()>
where
    B::ReporterPass: 's,
    requires { B.is_reporter board.now pass }
{
    let started = scope.spawn(
        move || -> ()
            requires { B.is_reporter board.now pass }
        { enter_night(rt, board, pass, index, night) },
    );
    started.ok().context("no thread for a reporter")?;
    Ok(())
}

/// Starts a thread for each reporter and each reader of a night, with passes that are made from `first`.
fn start_workers<'s, E, B: LiveBoard, R: Wait + Clock + Sync>(
    scope: &Scope<'s, E>,
    rt: &'s R,
    alloc: Global,
    board: &'s B,
    first: &mut B::ReaderPass,
    night: &'s Night<'s>,
) -> Result<()>
where
    B::ReaderPass: 's,
    B::ReporterPass: 's,
    requires { B.is_reader board.now first.old }
    ensures { B.is_reader board.now first.new }
{
    for index in 0..night.plan.reporters {
        let pass = enlist(rt, board, first)?;
        start_reporter(scope, rt, board, pass, index, night)?;
    }
    for reader in 0..night.plan.readers {
        let pass = board.split(rt, first);
        start_reader(scope, rt, board, pass, night, Figures::new(alloc)?)?;
    }
    Ok(())
}

/// Runs the workers of a night in threads until all have ended. A night without a reporter, or of which a worker could not start, is ended
/// after 20 milliseconds.
fn work<B: LiveBoard, R: Threads + Wait + Clock + Sync>(
    rt: &R,
    alloc: Global,
    board: &B,
    first: B::ReaderPass,
    night: &Night<'_>,
) -> Result<()>
    requires { B.is_reader board.now first }
{
    thread::scope(
        thread::scope_env(),
        rt,
        move |scope| -> Result<()>
            requires { B.is_reader board.now first }
        {
            let mut first = first;
            let started = start_workers(scope, rt, alloc, board, &mut first, night);
            if started.is_err() {
                night.come.fetch_add(night.workers(), Ordering::SeqCst);
            }
            if started.is_err() || night.plan.reporters == 0 {
                thread::sleep(rt, Duration::from_millis(QUIET_NIGHT_MILLIS));
                night.ended.fetch_add(MAX_REPORTERS, Ordering::SeqCst);
            }
            started
        },
    )
}

/// Holds a night on a fresh board, and fails unless the version at its end is the number of accepted events. If each reading is timed, the
/// figures leave out the events.
fn hold_night<B: Opens, R: Threads + Wait + Clock + Sync>(
    rt: &R,
    alloc: Global,
    plan: Plan,
    events: &[EventCall],
    is_timed: bool,
) -> Result<Figures> {
    let night = Night {
        plan,
        events,
        is_timed,
        come: AtomicU64::new(0),
        ended: AtomicU64::new(0),
        figures: Mutex::new(Figures::new(alloc)?),
    };
    let (board, mut last) = B::fresh(rt, alloc)?;
    let first = board.split(rt, &mut last);
    work(rt, alloc, &board, first, &night)?;
    let version = read_once(rt, &board, &mut last).version;
    let Night { figures, .. } = night;
    let mut figures = figures.into_inner();
    ensure!(u64::from(version) == figures.events, "an event was lost");
    if is_timed {
        figures.events = 0;
        figures.event_nanos = 0;
    }
    Ok(figures)
}

/// Holds nights for about so many milliseconds, at least one of untimed and one of timed readings, and adds up their figures.
pub fn hold_nights<B: Opens, R: Threads + Wait + Clock + Sync>(
    rt: &R,
    alloc: Global,
    plan: Plan,
    millis: u64,
) -> Result<Figures> {
    let each = if plan.is_paced {
        PACED_EVENTS
    } else {
        ALL_EVENTS
    };
    let events = events_of(alloc, each)?;
    let mut all = Figures::new(alloc)?;
    let begun = nanos(rt);
    for _ in rt.forever() {
        all.add(&hold_night::<B, R>(rt, alloc, plan, &events, false)?);
        all.add(&hold_night::<B, R>(rt, alloc, plan, &events, true)?);
        if nanos_since(rt, begun) / 1_000_000 >= millis {
            break;
        }
    }
    Ok(all)
}
