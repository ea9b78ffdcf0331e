//! A source, read to its end. In contracts `left` are the bytes that it has left, if they are known, `calls` counts the calls made of it,
//! and `failed` says whether it has failed.

ghost use Rattle.std.specs.Prelude.{◌≡◌, ◌+◌, ◌≤◌, length, IfOk};
ghost use Rattle.ucl_screen.specs.Input.{Reads, CallsRead, max_bytes, whole_input};

use crate::fault::InputFault;
use std::alloc::Global;
use ucl_io::Source;

/// The most bytes that an input may have.
pub(crate) const MAX_INPUT_BYTES: usize = 4_194_304;

/// The most bytes that one call asks the source for.
const PIECE: usize = 65_536;

/// Reads all the bytes of a source, at most 4,194,304. It calls the source at most once for each byte, and once more.
///
/// # Errors
///
/// `ReadFailed` if the source fails, with the number of bytes that it had given; `TooLong` if it gives more than 4,194,304; `OutOfMemory`.
pub fn read_all<S: Source>(alloc: Global, source: &mut S) -> Result<Vec<u8>, InputFault>
    ensures reads { Reads (λ bytes r. whole_input bytes ≡ r) (λ v. v.items) (S.left source.old)
        (S.left source.new) (S.failed source.new) result }
    ensures few { IfOk result (λ v. length v.items ≤ max_bytes) }
    ensures calls { S.calls source.new ≤ S.calls source.old + max_bytes + 2 }
    ensures each { CallsRead (S.left source.old) (S.calls source.old) (S.calls source.new) result }
{
    let mut bytes = Vec::new(alloc);
    let mut piece = [0; PIECE];
    'pieces: loop {
        match source.take(&mut piece) {
            None => return Err(InputFault::ReadFailed { bytes: bytes.len() }),
            Some(0) => return Ok(bytes),
            Some(n) if n > MAX_INPUT_BYTES - bytes.len() => return Err(InputFault::TooLong),
            Some(n) => bytes.extend_from_slice(&piece[..n])?,
        }
    }
}
