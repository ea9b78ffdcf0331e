//! The driver: it reads the bytes of a source, hands each line to a handler, and writes the answers to a sink. In contracts `left` and
//! `taken` are the bytes that the source has left and the sink has taken.

ghost use Rattle.std.specs.Prelude.{◌≡◌, ◌≤◌};
ghost use Rattle.ucl_io.specs.Serving.{Served, rules_of, is_source_failed};

use crate::fault::ServeFault;
use crate::handler::{LineHandler, Text};
use crate::lines::LineBuffer;
use crate::logged_io::LoggedIo;
use crate::stream::{Sink, Source};

/// The most bytes that one call of the source is asked for.
const PIECE: usize = 16_384;

/// A run of the driver that has read more than these 2^62 bytes ends with `TooLong`; no input has so many.
const MAX_READ: usize = 0x4000_0000_0000_0000;

/// Reads the source to its end, and has `handler` answer each line; the answers are written before more bytes are asked for. Returns how
/// many lines ended with a line feed.
///
/// Of a line at most `cap` bytes are kept, and the rest is dropped. A handler that refuses long lines needs a `cap` one above its limit.
/// Answers to lines that came together are gathered, at most 4,096 bytes of them.
///
/// Just before each call for bytes, also in a run that fails, all complete lines are answered, and nothing but their answers is out. No
/// call comes after one that gave no byte. At the end of the input an unfinished last line is answered too, and only then is the result
/// `Ok`.
///
/// # Errors
///
/// If the source fails, or more than 2^62 bytes came (`TooLong`), all complete lines are answered, and their answers are out. A failed read
/// is returned exactly if the source has failed. If the handler has no answer, all earlier ones are out, whole. If the sink fails, the
/// fault has the number of bytes that went out: the first bytes of the answers to some first lines, and not all of them.
pub fn serve_lines<S: Source, W: Sink, M: LineHandler>(
    handler: &mut M,
    cap: usize,
    logged_io: &mut LoggedIo<S, W, M>,
) -> Result<u64, ServeFault<M::Fault>>
    requires ready { M.ready handler.old }
    requires cap { cap ≤ 4097 }
    ensures ready { M.ready handler.new }

    // Says which bytes were taken, which lines the handler answered and how, what is out, and how the run ended. Just before each call for
    // bytes, also in a run that failed, the answers to all lines that had an end by then were out, and nothing else. No call comes after one
    // that gave no byte.
    ensures served { Served S.Source W.Sink (rules_of M.answers M.stops M.ends M.stops_at_end) cap
        logged_io.old logged_io.new handler.old handler.new result }

    // A failed read is answered exactly if the source has failed.
    ensures read_failed { S.failed logged_io.new.source ≡ is_source_failed result }
{
    let mut lines = LineBuffer::new(cap);
    let mut text = M::Answer::new();
    let mut piece = [0; PIECE];
    let mut read: usize = 0;
    'pieces: loop {
        if read > MAX_READ {
            return Err(ServeFault::TooLong);
        }
        match logged_io.take(handler, &mut piece) {
            None => return Err(ServeFault::ReadFailed { bytes: read }),
            Some(0) => {
                lines.end(handler, &mut text, &mut logged_io.sink)?;
                return Ok(lines.row - 1);
            }
            Some(n) => {
                lines.enter(handler, &piece[..n], &mut text, &mut logged_io.sink)?;
                read += n;
            }
        }
    }
}
