//! Settling: two reporters make sure that no third one has entered an event.

ghost use Rattle.ucl_live_board.specs.Settling.{LiveSettled};

use crate::errors::Strangers;
use crate::live_board::LiveBoard;
use std::sync::Wait;
use ucl_board::Reading;

/// Tells the second of two reporters' passes what the first has seen, reads by it, and returns the reading if all its entries are theirs.
///
/// Nothing is entered. The first pass is as it was; the second may have seen more, and has read once more.
///
/// # Errors
///
/// Returns `Strangers` with the version that was read if that is not the sum of the two counts of accepted events, or if the passes have one
/// number. Both passes stay usable.
///
/// ```rust
/// let (board, mut pass) = CellBoard::open(&rt, rt.alloc())?;
/// let other = board.split(&rt, &mut pass);
/// let mut first = board.enlist(&rt, pass).ok().ok_or("no number")?;
/// let mut second = board.enlist(&rt, other).ok().ok_or("no number")?;
/// let settled = settle(&board, &rt, &mut first, &mut second);
/// assert_eq!(rt; settled.map(|reading| reading.version), Ok(0));
/// ```
pub fn settle<B: LiveBoard, R: Wait>(
    board: &B,
    rt: &R,
    first: &mut B::ReporterPass,
    second: &mut B::ReporterPass,
) -> Result<Reading, Strangers>
    requires { B.is_reporter board.now first.old × B.is_reporter board.now second.old }
    ensures own { B.is_reporter board.now first.new × B.is_reporter board.now second.new }
    ensures says { LiveSettled (B.reporter first.old) (B.reporter second.old)
        (B.reporter first.new) (B.reporter second.new) result }
{
    board.meet(rt, first, second);
    let reading = board.read_own(rt, second);
    let accepted = u32::from(B::accepted_of(first)) + u32::from(B::accepted_of(second));
    if B::number_of(first) != B::number_of(second) && u32::from(reading.version) == accepted {
        Ok(reading)
    } else {
        Err(Strangers {
            version: reading.version,
        })
    }
}
