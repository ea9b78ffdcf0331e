//! Writing whole texts to a sink, which may fail on the way. In contracts `taken` are the bytes that it took, if known.

ghost use Rattle.std.specs.Prelude.{◌≡◌, ◌+◌, ◌-◌, ◌^◌, ◌++◌, min, length, OnOk, IfOk, IfErr};
ghost use Rattle.std.specs.Io.KnownBytes.{Appends};
ghost use Rattle.ucl_rows.specs.Run.{IsStopped};

use crate::fault::RunFault;
use ucl_screen::{Sink, give_all};

/// Writes a whole text. `WriteFailed`, with how many bytes of it went out, if the sink fails. A sink that has failed is not called again,
/// and no sink is called with an empty text.
pub fn put_text<W: Sink>(sink: &mut W, text: &[u8]) -> Result<(), RunFault>
    ensures all { OnOk result (Appends (W.taken sink.old) (W.taken sink.new) text.now) }
    ensures part { IfErr result (IsStopped 0 (W.failed sink.new) (W.taken sink.old)
        (W.taken sink.new) text.now) }
    ensures sound { OnOk result (W.failed sink.new ≡ W.failed sink.old) }
{
    put_bytes(sink, 0, text)?;
    Ok(())
}

/// Writes bytes after `before` others, and returns how many are out then. A number past `usize::MAX` is given as `usize::MAX`. A sink that
/// has failed is not called again, and no sink is called with no byte.
///
/// # Errors
///
/// `WriteFailed`, only if the sink has failed: with how many bytes of the output are out, the `before` first ones among them.
fn put_bytes<W: Sink>(sink: &mut W, before: usize, bytes: &[u8]) -> Result<usize, RunFault>
    ensures all { OnOk result (Appends (W.taken sink.old) (W.taken sink.new) bytes.now) }
    ensures count { IfOk result (λ after. after ≡ min (before + length bytes.now) (2 ^ 64 - 1)) }
    ensures part { IfErr result (IsStopped before (W.failed sink.new) (W.taken sink.old)
        (W.taken sink.new) bytes.now) }
    ensures sound { OnOk result (W.failed sink.new ≡ W.failed sink.old) }
{
    match give_all(sink, bytes) {
        Ok(()) => Ok(before.saturating_add(bytes.len())),
        Err(more) => Err(RunFault::WriteFailed {
            written: before.saturating_add(more),
        }),
    }
}

/// Writes a heading and a text after `before` other bytes, and returns how many bytes are out then; `WriteFailed` if the sink fails.
#[tactic(auto, using(crate::proofs::NightParts::stopped_first, crate::proofs::NightParts::stopped_second))]
pub fn put_under<W: Sink>(
    sink: &mut W,
    before: usize,
    heading: &str,
    text: &str,
) -> Result<usize, RunFault>
    ensures all { OnOk result (Appends (W.taken sink.old) (W.taken sink.new)
        (heading.now ++ text.now)) }
    ensures count { IfOk result (λ after. after ≡ min (before + length
        (heading.now ++ text.now)) (2 ^ 64 - 1)) }
    ensures part { IfErr result (IsStopped before (W.failed sink.new)
        (W.taken sink.old) (W.taken sink.new)
        (heading.now ++ text.now)) }
    ensures sound { OnOk result (W.failed sink.new ≡ W.failed sink.old) }
{
    let before = put_bytes(sink, before, heading.as_bytes())?;
    put_bytes(sink, before, text.as_bytes())
}
