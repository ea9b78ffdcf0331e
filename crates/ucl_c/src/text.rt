//! Texts, written into the buffer of a caller: a text is handed over with a zero behind it, and with the number of its bytes.

ghost use Rattle.std.specs.Prelude.{◌≡◌, List, ℕ, None, Some, MatchOption};
ghost use Rattle.ucl_c.specs.Faults.{name_of_status};
ghost use Rattle.ucl_c.specs.Tables.{HandsOver};

use crate::fault::Fault;
use ucl_word::Refusal;

/// Writes a text and a zero to the front of `out` and returns 0, or 56 if there is no room for both; writes its length to `length` anyway.
pub fn hand_over(text: &[u8], out: &mut [u8], length: &mut usize) -> u32
    ensures { HandsOver text.now out.old out.new length.new result }
{
    let end = text.len();
    *length = end;
    if end >= out.len() {
        return Fault::NoRoom.status();
    }
    out[..end].copy_from_slice(text);
    out[end] = 0;
    0
}

/// Returns the name of a status, or `None` if the number is no status.
fn name_of_status(status: u32) -> Option<&'static str>
    ensures { MatchOption result (name_of_status status ≡ None)
        (λ name. name_of_status status ≡ Some name.now) }
{
    match status {
        0 => Some("done"),
        10 => Some("bad word"),
        20 => Some("bad-row"),
        21 => Some("bad roster"),
        23 => Some("out of memory"),
        24 => Some("too long"),
        30 => Some("full board"),
        50 => Some("no reporter"),
        51 => Some("no kind"),
        52 => Some("no profile"),
        53 => Some("no group"),
        54 => Some("not twelve words"),
        55 => Some("not four clubs"),
        56 => Some("no room"),
        57 => Some("not four rows"),
        58 => Some("no status"),
        59 => Some("in use"),
        60 => Some("no pass"),
        61 => Some("not a reader"),
        62 => Some("no match"),
        63 => Some("not a reporter"),
        _ => match Refusal::from_code(status, 0) {
            Some(refusal) => Some(refusal.name()),
            None => None,
        },
    }
}

/// Writes the name of a status and a zero to the front of `out`, and the length of the name to `length`, also if `out` is too small (56). A
/// number that is no status (58) leaves both as they were. The number of a refusal has the name of the refusal.
#[unsafe(no_mangle)]
pub extern "C" fn uclboard_text_of_status(status: u32, out: &mut [u8], length: &mut usize) -> u32
    ensures known { (name : List ℕ) → name_of_status status ≡ Some name →
        HandsOver name out.old out.new length.new result }
    ensures unknown { name_of_status status ≡ None →
        (result ≡ 58) × (out.new ≡ out.old) × (length.new ≡ length.old) }
{
    match name_of_status(status) {
        Some(name) => hand_over(name.as_bytes(), out, length),
        None => Fault::NoStatus.status(),
    }
}

/// Returns the version of the library: its first number times 1,000,000, its second times 1,000, and its third.
#[unsafe(no_mangle)]
pub extern "C" fn uclboard_version() -> u32
    ensures { result ≡ 1000000 }
{
    1_000_000
}
