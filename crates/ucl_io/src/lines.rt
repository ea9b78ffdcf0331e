//! Cuts bytes into lines as they come, and puts a handler's answers into an output. Of a line at most `cap` first bytes are kept; `begun`
//! is what is kept of a line without its end yet. In contracts `progress` is the next line's number, the handler, the output and the sink.

ghost use Rattle.std.specs.Prelude.{◌≡◌, ◌+◌, ◌-◌, ◌^◌, ◌<◌, ◌≤◌, [], ◌∷◌, ◌++◌, length, take, IfSome, None, OnOk};
ghost use Rattle.ucl_io.specs.Lines.{BeginsWithLine, HasNoFeed, begun_line, ended_lines};
ghost use Rattle.ucl_io.specs.Turns.{Answered, Closed, progress, rules};

use crate::fault::ServeFault;
use crate::handler::{LineHandler, Text};
use crate::output::Output;
use crate::stream::Sink;
use arrayvec::ArrayVec;

/// The most bytes that can be kept of a line.
pub const MAX_KEPT_BYTES: usize = 4097;

/// Returns the bytes of a text before its first line feed, or `None` if it has no line feed.
pub fn first_line(text: &[u8]) -> Option<&[u8]>
    ensures line { IfSome result (λ line. BeginsWithLine text.now line.now) }
    ensures none { result ≡ None → HasNoFeed text.now }
{
    for at in 0..text.len() {
        if text[at] == b'\n' {
            return Some(&text[..at]);
        }
    }
    None
}

/// Returns the first `most` bytes of a text, or all if it has fewer.
fn at_most(text: &[u8], most: usize) -> &[u8]
    ensures { result.now ≡ take most text.now }
{
    if text.len() <= most {
        text
    } else {
        &text[..most]
    }
}

/// Adds bytes to what is kept of a line, up to `cap` bytes in all; the rest is dropped.
fn keep(line: &mut ArrayVec<u8, MAX_KEPT_BYTES>, cap: usize, bytes: &[u8])
    requires cap { cap ≤ 4097 }
    requires short { length line.old.items ≤ cap }
    ensures { line.new.items ≡ take cap (line.old.items ++ bytes.now) }
{
    let room = cap - line.len();
    let _fits = line.try_extend_from_slice(at_most(bytes, room));
}

/// Returns the first `cap` bytes of the line that is `begun` and then `end`. If `begun` is empty, nothing is copied.
fn whole_line<'a>(
    begun: &'a mut ArrayVec<u8, MAX_KEPT_BYTES>,
    cap: usize,
    end: &'a [u8],
) -> &'a [u8]
    requires cap { cap ≤ 4097 }
    requires short { length begun.old.items ≤ cap }
    ensures { result.now ≡ take cap (begun.old.items ++ end.now) }
{
    if begun.is_empty() {
        return at_most(end, cap);
    }
    keep(begun, cap, end);
    begun.as_slice()
}

/// The state between two bytes of the input: how many bytes are kept of a line, what is kept of the line that has begun, its number, and
/// the answers that wait.
#[derive(Drop)]
pub(crate) struct LineBuffer {
    pub(crate) cap: usize,
    pub(crate) begun: ArrayVec<u8, MAX_KEPT_BYTES>,
    pub(crate) row: u64,
    pub(crate) output: Output,
}

impl LineBuffer {
    /// Creates the state before the first byte of an input: in line 1, with nothing kept and no answer that waits.
    pub(crate) fn new(cap: usize) -> LineBuffer
        ensures cap { result.cap ≡ cap }
        ensures begun { result.begun.items ≡ [] }
        ensures row { result.row ≡ 1 }
        ensures output { result.output ≡ record { held = []; out = 0 } }
    {
        LineBuffer {
            cap,
            begun: ArrayVec::new(),
            row: 1,
            output: Output::new(),
        }
    }

    /// Answers the line that is `begun` and then `end`, puts the answer into `output`, and goes on to the next line. If the handler has no
    /// answer, the answers that wait go to the sink, and its fault is returned. `WriteFailed` if the sink fails.
    fn end_line<W: Sink, M: LineHandler>(
        &mut self,
        handler: &mut M,
        end: &[u8],
        text: &mut M::Answer,
        sink: &mut W,
    ) -> Result<(), ServeFault<M::Fault>>
        requires ready { M.ready handler.old }
        requires cap { self.old.cap ≤ 4097 }
        requires short { length self.old.begun.items ≤ self.old.cap }
        requires row { self.old.row < 2 ^ 64 - 1 }
        ensures ready { M.ready handler.new }
        ensures cap { self.new.cap ≡ self.old.cap }
        ensures begun { OnOk result (self.new.begun.items ≡ []) }
        ensures answered { Answered (rules M.answers M.stops)
            (progress W.taken W.failed self.old.row handler.old self.old.output sink.old)
            (progress W.taken W.failed self.new.row handler.new self.new.output sink.new)
            (take self.old.cap (self.old.begun.items ++ end.now) ∷ []) result }
    {
        let line = whole_line(&mut self.begun, self.cap, end);
        match handler.answer(self.row, line, text) {
            Ok(()) => {
                self.begun.clear();
                self.row += 1;
                self.output.put(sink, text.text())
            }
            Err(fault) => {
                self.output.flush(sink)?;
                Err(ServeFault::Handler(fault))
            }
        }
    }

    /// Takes the next bytes of the input, answers each line that ends among them, and gives all answers to the sink. `Err` if the handler
    /// has no answer or the sink fails.
    pub(crate) fn enter<W: Sink, M: LineHandler>(
        &mut self,
        handler: &mut M,
        bytes: &[u8],
        text: &mut M::Answer,
        sink: &mut W,
    ) -> Result<(), ServeFault<M::Fault>>
        requires ready { M.ready handler.old }
        requires cap { self.old.cap ≤ 4097 }
        requires short { length self.old.begun.items ≤ self.old.cap }
        requires few { self.old.row + length bytes.now < 2 ^ 64 }
        ensures ready { M.ready handler.new }
        ensures cap { self.new.cap ≡ self.old.cap }
        ensures begun { OnOk result (self.new.begun.items
            ≡ begun_line self.old.cap self.old.begun.items bytes.now) }
        ensures short { OnOk result (length self.new.begun.items ≤ self.old.cap) }
        ensures empty { OnOk result (self.new.output.held ≡ []) }
        ensures answered { Answered (rules M.answers M.stops)
            (progress W.taken W.failed self.old.row handler.old self.old.output sink.old)
            (progress W.taken W.failed self.new.row handler.new self.new.output sink.new)
            (ended_lines self.old.cap self.old.begun.items bytes.now) result }
    {
        // For the prover only: how many bytes went out fits into its type.
        let _written = self.output.written();
        let mut start = 0;
        'lines: loop {
            match first_line(&bytes[start..]) {
                Some(end) => {
                    self.end_line(handler, end, text, sink)?;
                    start += end.len() + 1;
                }
                None => {
                    keep(&mut self.begun, self.cap, &bytes[start..]);
                    self.output.flush(sink)?;
                    return Ok(());
                }
            }
        }
    }

    /// Answers, when the input has ended, the bytes after the last line feed, and gives all answers to the sink. `Err` if the handler has
    /// no answer or the sink fails.
    pub(crate) fn end<W: Sink, M: LineHandler>(
        &mut self,
        handler: &mut M,
        text: &mut M::Answer,
        sink: &mut W,
    ) -> Result<(), ServeFault<M::Fault>>
        requires { M.ready handler.old }
        ensures ready { M.ready handler.new }
        ensures row { self.new.row ≡ self.old.row }
        ensures closed { Closed (rules M.ends M.stops_at_end)
            (progress W.taken W.failed self.old.row handler.old self.old.output sink.old)
            (progress W.taken W.failed (self.old.row + 1) handler.new self.new.output sink.new)
            self.old.begun.items result }
    {
        match handler.end(self.row, self.begun.as_slice(), text) {
            Ok(()) => {
                self.output.put(sink, text.text())?;
                self.output.flush(sink)
            }
            Err(fault) => Err(ServeFault::Handler(fault)),
        }
    }
}
