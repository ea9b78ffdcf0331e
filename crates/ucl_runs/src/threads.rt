//! A thread for each worker of a night. A promise says what holds of the value that a thread hands back when it is joined; it keeps copies,
//! which only contracts see, of what the thread was given.

ghost use Rattle.std.specs.Prelude.{◌≡◌, IfOk, MatchResult};
ghost use Rattle.ucl_screen.specs.Screen.{IsGroup};
ghost use Rattle.ucl_rows.specs.declared.fault.RunFault.TheVariants as RunFault;
ghost use Rattle.ucl_runs.specs.Nights.{AreReady, HasEnteredOn, HasShownOn, HaveWorked, IsNewOn};

use crate::config::NightConfig;
use crate::gate::Gate;
use crate::workers::{ReaderResult, enter_rows, show_screens};
use std::alloc::Global;
use std::snapshot::Snapshot;
use std::sync::Wait;
use std::thread;
use std::thread::{Promise, PromisedHandle, Scope, Threads};
use ucl_live_board::LiveBoard;
use ucl_rows::RunFault;

/// The promise of a reporter's thread: the pass that it hands back, which was `before`, has entered the reporter's rows of the script.
#[derive(Drop)]
pub struct Entering<'n, B: LiveBoard, G: Gate> {
    board: Snapshot<B>,
    config: Snapshot<NightConfig<'n, G>>,
    before: Snapshot<B::ReporterPass>,
    reporter: u8,
}

impl<'n, B: LiveBoard, G: Gate> Promise<B::ReporterPass> for Entering<'n, B, G> {
    ghost kept_by = { λ p pass.
        HasEnteredOn B.LiveBoard p.board.value p.config.value p.before.value p.reporter pass };
}

/// The promise of a reader's thread: unless out of memory, it hands back its pass, which has taken all its readings, and its last screen.
#[derive(Drop)]
pub struct Showing<'n, B: LiveBoard, G: Gate> {
    board: Snapshot<B>,
    config: Snapshot<NightConfig<'n, G>>,
    before: Snapshot<B::ReaderPass>,
}

impl<'n, B: LiveBoard, G: Gate> Promise<ReaderResult<B::ReaderPass>> for Showing<'n, B, G> {
    ghost kept_by = { λ p end.
        IfOk end (HasShownOn B.LiveBoard p.board.value p.config.value p.before.value) };
}

/// Starts the thread of a reporter, 1 or 2, who enters its rows of the script by this pass; `NoThread` if it cannot be started.
fn start_reporter<'s, E, B: LiveBoard, G: Gate, R: Wait + Sync>(
    scope: &Scope<'s, E>,
    rt: &'s R,
    board: &'s B,
    pass: B::ReporterPass,
    reporter: u8,
    config: &'s NightConfig<'s, G>,
) -> Result<PromisedHandle<B::ReporterPass, Entering<'s, B, G>>, RunFault>
where
    B::ReporterPass: 's,
    requires own { B.is_reporter board.now pass }
    ensures board { IfOk result (λ worker. worker.promise.board.value ≡ board.now) }
    ensures config { IfOk result (λ worker. worker.promise.config.value ≡ config.now) }
    ensures before { IfOk result (λ worker. worker.promise.before.value ≡ pass) }
    ensures reporter { IfOk result (λ worker. worker.promise.reporter ≡ reporter) }
{
    let promise = Entering {
        board: Snapshot::of(board),
        config: Snapshot::of(config),
        before: Snapshot::of(&pass),
        reporter,
    };
    let started = scope.spawn_with(
        promise,
        move || -> B::ReporterPass
            requires { B.is_reporter board.now pass }
            ensures { HasEnteredOn B.LiveBoard board.entry.now config.entry.now pass reporter result }
        {
            enter_rows(
                rt,
                board,
                pass,
                reporter,
                &config.night.events,
                &config.night_gate,
            )
        },
    );
    started.map_err(|_| RunFault::NoThread)
}

/// Starts the thread of a reader, worker 3 or 4, who takes its readings by this pass; `NoThread` if it cannot be started.
fn start_reader<'s, E, B: LiveBoard, G: Gate, R: Wait + Sync>(
    scope: &Scope<'s, E>,
    rt: &'s R,
    alloc: Global,
    board: &'s B,
    pass: B::ReaderPass,
    worker: u8,
    config: &'s NightConfig<'s, G>,
) -> Result<PromisedHandle<ReaderResult<B::ReaderPass>, Showing<'s, B, G>>, RunFault>
where
    B::ReaderPass: 's,
    requires new { IsNewOn B.LiveBoard board.now pass }
    requires group { IsGroup config.now.group }
    ensures board { IfOk result (λ worker. worker.promise.board.value ≡ board.now) }
    ensures config { IfOk result (λ worker. worker.promise.config.value ≡ config.now) }
    ensures before { IfOk result (λ worker. worker.promise.before.value ≡ pass) }
{
    let promise = Showing {
        board: Snapshot::of(board),
        config: Snapshot::of(config),
        before: Snapshot::of(&pass),
    };
    let started = scope.spawn_with(
        promise,
        move || -> ReaderResult<B::ReaderPass>
            requires { IsNewOn B.LiveBoard board.now pass × IsGroup config.now.group }
            ensures { IfOk result (HasShownOn B.LiveBoard board.entry.now config.entry.now pass) }
        { show_screens(rt, alloc, board, pass, worker, config) },
    );
    started.map_err(|_| RunFault::NoThread)
}

/// One value for each of the four workers of a night, of type `P` for a reporter and `R` for a reader: the passes that they are given, say.
#[derive(Drop)]
pub struct Workers<P, R> {
    pub reporter_1: P,
    pub reporter_2: P,
    pub reader_1: R,
    pub reader_2: R,
}

/// Runs the four workers of a night, each in a thread of its own with its pass of `lent`, and returns what they hand back: the reporters
/// enter their rows, and the readers take their readings.
///
/// # Errors
///
/// `NoThread` if there is no thread for one of them; the others still run to their end first.
pub fn work<B: LiveBoard, G: Gate, R: Threads + Wait + Sync>(
    rt: &R,
    alloc: Global,
    board: &B,
    lent: Workers<B::ReporterPass, B::ReaderPass>,
    config: &NightConfig<'_, G>,
) -> Result<Workers<B::ReporterPass, ReaderResult<B::ReaderPass>>, RunFault>
    requires ready { AreReady B.LiveBoard board.now lent }
    requires group { IsGroup config.now.group }
    ensures { MatchResult result (HaveWorked B.LiveBoard board.entry.now config.entry.now lent)
        (λ f. f ≡ RunFault.NoThread) }
{
    thread::scope(
        thread::scope_env(),
        rt,
        move |scope| -> Result<Workers<B::ReporterPass, ReaderResult<B::ReaderPass>>, RunFault>
            requires ready { AreReady B.LiveBoard board.now lent }
            requires group { IsGroup config.now.group }
            ensures { MatchResult result
                (HaveWorked B.LiveBoard board.entry.now config.entry.now lent)
                (λ f. f ≡ RunFault.NoThread) }
        {
            let lent = lent;
            let reporter_1 = start_reporter(scope, rt, board, lent.reporter_1, 1, config);
            let reporter_2 = start_reporter(scope, rt, board, lent.reporter_2, 2, config);
            let reader_1 = start_reader(scope, rt, alloc, board, lent.reader_1, 3, config);
            let reader_2 = start_reader(scope, rt, alloc, board, lent.reader_2, 4, config);
            match (reporter_1, reporter_2, reader_1, reader_2) {
                (Ok(reporter_1), Ok(reporter_2), Ok(reader_1), Ok(reader_2)) => Ok(Workers {
                    reporter_1: reporter_1.join(rt),
                    reporter_2: reporter_2.join(rt),
                    reader_1: reader_1.join(rt),
                    reader_2: reader_2.join(rt),
                }),
                _ => Err(RunFault::NoThread),
            }
        },
    )
}
