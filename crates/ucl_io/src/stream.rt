//! Sources and sinks of bytes, and the writing of a whole text. In contracts `Appends old new text` says that a sink took this text.

ghost use Rattle.std.specs.Prelude.{◌≡◌, ℕ, ◌+◌, ◌<◌, ◌≤◌, ◌↔◌, Bool, true, List, Option, length, IsNone, IfErr, IfSome, OnOk};
ghost use Rattle.std.specs.Io.KnownBytes.{Appends, IsAtEnd};
ghost use Rattle.ucl_io.specs.Stream.{CallsGive, GivesBytes, TakesBytes, WroteFirst};

/// Where bytes come from. A source that has failed fails for ever.
pub trait Source {
    /// The bytes that are left, or `None` if they are not known.
    ghost left: { Self → Option (List ℕ) };

    /// How many calls were made.
    ghost calls: { Self → ℕ };

    /// Whether a call has failed.
    ghost failed: { Self → Bool };

    /// Moves the next bytes to the front of the buffer, and returns how many. `None` means that this call or one before
    /// it has failed, and moves nothing. A buffer with room gets no byte only at the end of the bytes.
    fn take(&mut self, buf: &mut [u8]) -> Option<usize>
        ensures counts { calls self.new ≡ calls self.old + 1 }
        ensures fails { IsNone result ↔ (failed self.new ≡ true) }
        ensures stays { failed self.old ≡ true → failed self.new ≡ true }
        ensures fits { IfSome result (λ n. n ≤ length buf.old) }
        ensures moves { TakesBytes (left self.old) (left self.new) result buf.new }
        ensures end { IfSome result (λ n. n ≡ 0 → 0 < length buf.old → IsAtEnd (left self.old)) };
}

/// Where bytes go. A sink that has failed fails for ever.
pub trait Sink {
    /// The bytes that were taken, or `None` if they are not known.
    ghost taken: { Self → Option (List ℕ) };

    /// How many calls were made.
    ghost calls: { Self → ℕ };

    /// Whether a call has failed.
    ghost failed: { Self → Bool };

    /// Takes the first bytes of the text, and returns how many: at least one of a text that is not empty. `None` means
    /// that this call or one before it has failed, and takes nothing.
    fn give(&mut self, text: &[u8]) -> Option<usize>
        ensures counts { calls self.new ≡ calls self.old + 1 }
        ensures fails { IsNone result ↔ (failed self.new ≡ true) }
        ensures stays { failed self.old ≡ true → failed self.new ≡ true }
        ensures fits { IfSome result (λ n. n ≤ length text.now) }
        ensures moves { GivesBytes (taken self.old) (taken self.new) result text.now }
        ensures some { IfSome result (λ n. 0 < length text.now → 0 < n) };
}

/// Gives the whole text to the sink. At `Err(n)` the sink has failed, and has taken just the first n bytes.
///
/// `Ok` comes only if the sink did not fail on the way. There is at most one call for each byte that goes out, and one more if it fails.
/// Tested and not proved: a sink that has failed is not called again, and no sink is called with an empty text.
pub fn give_all<W: Sink>(sink: &mut W, text: &[u8]) -> Result<(), usize>
    ensures all { OnOk result (Appends (W.taken sink.old) (W.taken sink.new) text.now) }
    ensures part { IfErr result (λ n. WroteFirst (W.taken sink.old) (W.taken sink.new) n text.now) }
    ensures failed { IfErr result (λ _. W.failed sink.new ≡ true) }
    ensures sound { OnOk result (W.failed sink.new ≡ W.failed sink.old) }
    ensures calls { CallsGive (W.calls sink.old) (W.calls sink.new) (length text.now) result }
{
    let mut at = 0;
    while at < text.len() {
        match sink.give(&text[at..]) {
            None => return Err(at),
            Some(n) => at += n,
        }
    }
    Ok(())
}
