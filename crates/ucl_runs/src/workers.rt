//! What each thread of a night does: a reporter enters its rows of the script, and a reader takes readings and renders their screens. The
//! gate is called before each call on the board.

ghost use Rattle.std.specs.Prelude.{IfOk, option_map, string_bytes};
ghost use Rattle.ucl_screen.specs.Screen.{IsGroup};
ghost use Rattle.ucl_runs.specs.Nights.{IsNew, HasReported, HasShown, calls_of, style_of};

use crate::config::{NightConfig, NightGate};
use crate::gate::Gate;
use std::alloc::Global;
use std::sync::Wait;
use ucl_live_board::LiveBoard;
use ucl_screen::{NightEvent, screen};
use ucl_word::OutOfMemory;

/// Enters the rows that are of this reporter, in order and each once; ignores replies, and returns the pass.
pub fn enter_rows<B: LiveBoard, G: Gate, R: Wait>(
    rt: &R,
    board: &B,
    mut pass: B::ReporterPass,
    reporter: u8,
    rows: &[NightEvent],
    night_gate: &NightGate<'_, G>,
) -> B::ReporterPass
    requires own { B.is_reporter board.now pass }
    ensures own { B.is_reporter board.entry.now result }
    ensures entered { HasReported B.LiveBoard (calls_of reporter rows.entry.now) pass result }
{
    let mut call: u32 = 0;
    for row in rows {
        if row.reporter.get() == reporter {
            night_gate.come(reporter, call);
            let _ = board.report(rt, &mut pass, &row.call);
            call = call.wrapping_add(1);
        }
    }
    pass
}

/// What a reader of a night hands back: its pass, and its last screen if it has taken a reading; or that there was no memory for a screen.
pub type ReaderResult<P> = Result<(P, Option<String>), OutOfMemory>;

/// Takes the readings of a reader by a pass that has taken none yet, renders the screen of each, and returns the pass and the last screen.
///
/// # Errors
///
/// `OutOfMemory` if there is no memory for a screen; no further reading is taken then.
pub fn show_screens<B: LiveBoard, G: Gate, R: Wait>(
    rt: &R,
    alloc: Global,
    board: &B,
    mut pass: B::ReaderPass,
    worker: u8,
    config: &NightConfig<'_, G>,
) -> ReaderResult<B::ReaderPass>
    requires own { B.is_reader board.now pass }
    requires new { IsNew (B.reader pass) }
    requires group { IsGroup config.now.group }
    ensures own { IfOk result (λ end. B.is_reader board.entry.now end.0) }
    ensures shown { IfOk result (λ end. HasShown (style_of config.entry.now)
        (B.reader pass) (B.reader end.0)
        config.entry.now.readings (option_map string_bytes end.1)) }
{
    let NightConfig {
        night,
        group,
        readings,
        profile,
        ..
    } = *config;
    let mut last = None;
    for call in 0..readings {
        config.night_gate.come(worker, call);
        let reading = board.read(rt, &mut pass);
        let text = screen(alloc, &reading.board, &night.roster, group, profile)?;
        config.shown(board, worker, &pass, &reading, text.as_str());
        last = Some(text);
    }
    Ok((pass, last))
}
