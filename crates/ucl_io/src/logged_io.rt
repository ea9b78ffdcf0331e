//! `LoggedIo`: a source and a sink, with a log that contracts alone see of the calls of the source.

ghost use Rattle.std.specs.Prelude.{◌≡◌, ◌+◌, ◌<◌, ◌≤◌, ◌↔◌, true, [], ◌∷◌, ◌++◌, length, IsNone, IfSome};
ghost use Rattle.std.specs.Io.KnownBytes.{IsAtEnd};
ghost use Rattle.ucl_io.specs.Stream.{TakesBytes};

use crate::call_log::CallLog;
use crate::stream::{Sink, Source};

/// A source and a sink, and a log of the calls of the source: how both and a handler were just before each.
#[derive(Drop)]
pub struct LoggedIo<S, W, M> {
    /// Where bytes come from.
    pub source: S,
    /// Where bytes go.
    pub sink: W,
    /// Source, sink and handler just before each call of the source.
    pub log: CallLog<S, W, M>,
}

impl<S: Source, W: Sink, M> LoggedIo<S, W, M> {
    /// Creates a pair of this source and this sink, with an empty log.
    pub fn new(source: S, sink: W) -> LoggedIo<S, W, M>
        ensures source { result.source ≡ source }
        ensures sink { result.sink ≡ sink }
        ensures log { result.log.times ≡ [] }
    {
        LoggedIo {
            source,
            sink,
            log: CallLog::new(),
        }
    }

    /// Calls the source once for bytes, logs the call, and returns how many came; `None` if a call has failed, now or before.
    pub fn take(&mut self, handler: &M, buf: &mut [u8]) -> Option<usize>
        ensures log { self.new.log.times ≡ self.old.log.times
            ++ (self.old.source, self.old.sink, handler.now) ∷ [] }
        ensures sink { self.new.sink ≡ self.old.sink }
        ensures counts { S.calls self.new.source ≡ S.calls self.old.source + 1 }
        ensures fails { IsNone result ↔ (S.failed self.new.source ≡ true) }
        ensures fits { IfSome result (λ n. n ≤ length buf.old) }
        ensures moves { TakesBytes (S.left self.old.source) (S.left self.new.source) result buf.new }
        ensures end { IfSome result
            (λ n. n ≡ 0 → 0 < length buf.old → IsAtEnd (S.left self.old.source)) }
    {
        self.log = self.log.and(&self.source, &self.sink, handler);
        self.source.take(buf)
    }
}
