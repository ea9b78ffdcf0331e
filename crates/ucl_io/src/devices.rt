//! `FromRead` makes a reader of std a source, and `ToWrite` makes a writer of std a sink. Each keeps whether a call of it has failed, and
//! for contracts alone a log of its calls.

ghost use Rattle.std.specs.Prelude.{◌≡◌, false, length};
ghost use Rattle.ucl_io.specs.Devices.{reader_of, read_failed, writer_of, write_failed};

use crate::call_log::CallLog;
use crate::stream::{Sink, Source};
use std::io::{Read, Write};

/// A reader of std as a source. Any error of the reader is a failure; the reader is not called again after it, nor for an empty buffer.
/// Tested and not proved, since std's contracts have no word for it: each other call calls the reader once and fails only if it does.
#[derive(Drop)]
pub struct FromRead<R> {
    reader: R,
    has_failed: bool,
    calls: CallLog<(), (), ()>,
}

impl<R: Read> FromRead<R> {
    /// Creates a source of the bytes that `reader` has left, of which no call has failed yet.
    pub fn new(reader: R) -> FromRead<R>
        ensures reader { reader_of result ≡ reader }
        ensures sound { read_failed result ≡ false }
    {
        FromRead {
            reader,
            has_failed: false,
            calls: CallLog::new(),
        }
    }
}

impl<R: Read> Source for FromRead<R> {
    ghost left = { λ s. R.remaining s.reader };

    ghost calls = { λ s. length s.calls.times };

    ghost failed = { λ s. s.has_failed };

    /// Reads into `buf`, by at most one call of the reader, and returns how many bytes came; `None` if a read failed, now or before.
    fn take(&mut self, buf: &mut [u8]) -> Option<usize> {
        self.calls = self.calls.and(&(), &(), &());
        if self.has_failed {
            return None;
        }
        if buf.is_empty() {
            return Some(0);
        }
        let taken = self.reader.read(buf).ok();
        self.has_failed = taken.is_none();
        taken
    }
}

/// A writer of std as a sink. Any error of the writer is a failure, and so is a write of no byte; the writer is not called again after it,
/// nor for an empty text. Nothing is flushed: the writer should not keep bytes back. Tested and not proved: each other call calls the
/// writer once, and fails only if the writer does.
#[derive(Drop)]
pub struct ToWrite<W> {
    writer: W,
    has_failed: bool,
    calls: CallLog<(), (), ()>,
}

impl<W: Write> ToWrite<W> {
    /// Creates a sink that hands its bytes to `writer`, and of which no call has failed yet.
    pub fn new(writer: W) -> ToWrite<W>
        ensures writer { writer_of result ≡ writer }
        ensures sound { write_failed result ≡ false }
    {
        ToWrite {
            writer,
            has_failed: false,
            calls: CallLog::new(),
        }
    }
}

impl<W: Write> Sink for ToWrite<W> {
    ghost taken = { λ s. W.contents s.writer };

    ghost calls = { λ s. length s.calls.times };

    ghost failed = { λ s. s.has_failed };

    /// Writes by at most one call of the writer, and returns how many bytes of `text` went out; `None` if a write failed, now or before.
    fn give(&mut self, text: &[u8]) -> Option<usize> {
        self.calls = self.calls.and(&(), &(), &());
        if self.has_failed {
            return None;
        }
        if text.is_empty() {
            return Some(0);
        }
        let given = match self.writer.write(text) {
            Ok(0) | Err(_) => None,
            Ok(count) => Some(count),
        };
        self.has_failed = given.is_none();
        given
    }
}
