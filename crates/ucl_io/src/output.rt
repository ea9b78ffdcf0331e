//! `Output`: it gathers text before it is given to a sink. `held` is the text that waits, and `out` counts the bytes given before.
//! In contracts an `outlet` is both, the bytes that the sink has taken, where known, and whether it has failed.

ghost use Rattle.std.specs.Prelude.{◌≡◌, ◌-◌, ◌^◌, ◌+◌, ◌≤◌, [], ◌++◌, length, min, true, false, IfOk, OnOk};
ghost use Rattle.std.specs.Io.KnownBytes.{Appends};
ghost use Rattle.ucl_io.specs.Output.{PutsOrStops, Waiting, WritesOn, outlet};

use crate::fault::ServeFault;
use crate::stream::{Sink, give_all};
use arrayvec::ArrayVec;
use std::marker::Model;

/// The most bytes of text that an output holds back.
const PAGE: usize = 4096;

/// The text that waits to be given to a sink, and how many bytes went out before. A number past `usize::MAX` is kept as `usize::MAX`.
#[derive(Drop)]
pub(crate) struct Output {
    held: ArrayVec<u8, PAGE>,
    out: usize,
}

impl Model for Output {
    ghost use Rattle.ucl_io.specs.Output.{Waiting};

    ghost Value = { Waiting };

    ghost view = { λ p. record { held = p.held.items; out = p.out } };
}

impl Output {
    /// Creates an output in which nothing waits, and of which nothing went out.
    pub(crate) fn new() -> Output
        ensures { result ≡ record { held = []; out = 0 } }
    {
        Output {
            held: ArrayVec::new(),
            out: 0,
        }
    }

    /// Returns how many bytes went out to the sink so far.
    pub(crate) fn written(&self) -> usize
        ensures value { result ≡ self.now.out }
        ensures bound { self.now.out ≤ 2 ^ 64 - 1 }
    {
        self.out
    }

    /// Gives `bytes` to the sink at once, and returns how many bytes are out then in all; if the sink fails, `WriteFailed` has that number.
    fn write_on<W: Sink, F>(&self, sink: &mut W, bytes: &[u8]) -> Result<usize, ServeFault<F>>
        ensures { WritesOn (outlet W.taken W.failed self.now sink.old)
            (outlet W.taken W.failed self.now sink.new) bytes.now result }
    {
        match give_all(sink, bytes) {
            Ok(()) => Ok(self.out.saturating_add(bytes.len())),
            Err(more) => Err(ServeFault::WriteFailed {
                written: self.out.saturating_add(more),
            }),
        }
    }

    /// Gives the text that waits to the sink, so that none waits. `WriteFailed` if the sink fails.
    pub(crate) fn flush<W: Sink, F>(&mut self, sink: &mut W) -> Result<(), ServeFault<F>>
        ensures put { PutsOrStops (outlet W.taken W.failed self.old sink.old)
            (outlet W.taken W.failed self.new sink.new) [] result }
        ensures empty { OnOk result (self.new.held ≡ []) }
    {
        self.out = self.write_on(sink, self.held.as_slice())?;
        self.held.clear();
        Ok(())
    }

    /// Puts a text after the text that waits, if there is room for all of it, and returns whether there is.
    fn hold(&mut self, text: &[u8]) -> bool
        ensures held { result ≡ true → self.new
            ≡ record { held = self.old.held ++ text.now; out = self.old.out } }
        ensures not { result ≡ false → self.new ≡ self.old }
    {
        match self.held.try_extend_from_slice(text) {
            Ok(()) => true,
            Err(_) => false,
        }
    }

    /// Puts a text after the text that waits. If there is no room for it, both go to the sink; `WriteFailed` if the sink fails.
    pub(crate) fn put<W: Sink, F>(&mut self, sink: &mut W, text: &[u8]) -> Result<(), ServeFault<F>>
        ensures { PutsOrStops (outlet W.taken W.failed self.old sink.old)
            (outlet W.taken W.failed self.new sink.new) text.now result }
    {
        // For the prover only: how many bytes went out fits into its type.
        let _written = self.written();
        if self.hold(text) {
            return Ok(());
        }
        self.flush(sink)?;
        self.out = self.write_on(sink, text)?;
        Ok(())
    }
}
