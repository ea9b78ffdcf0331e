//! The answers to mends, as text or as lines of JSON.

ghost use Rattle.std.specs.Prelude.{◌≡◌, IfErr, IfOk, string_bytes};
ghost use Rattle.ucl_command.specs.declared.options.Format.TheVariants.{Json};
ghost use Rattle.ucl_rows.specs.Answers.{bytes_of};
ghost use Rattle.ucl_live_runs.specs.Mends.{left_out_lines, mend_refused_answer, mended_line};

use arrayvec::ArrayString;
use itoa::Buffer;
use std::alloc::{AllocError, Global};
use ucl_command::Format;
use ucl_json::{left_out_json, mend_refused_json};
use ucl_mends::{LeftOut, MendRefusal};
use ucl_rows::{Answer, ReplyLine};

/// Returns the events that a mend leaves out, as lines of JSON.
///
/// # Errors
///
/// If there is no memory.
pub(crate) fn left_out_lines(alloc: Global, left: &[LeftOut]) -> Result<String, AllocError>
    ensures { IfOk result (λ text. string_bytes text ≡ left_out_lines left.now) }
{
    let mut text = String::new(alloc);
    for out in left {
        let line = left_out_json(alloc, out.event.row, &out.event.entry, out.refusal)?;
        text.push_str(line.as_str())?;
    }
    Ok(text)
}

/// Returns the line of text that answers a mend: ROW mended EDITION VERSION.
pub(crate) fn mended_line(row: u64, edition: u16, version: u16) -> ReplyLine
    ensures { result.bytes ≡ mended_line row edition version }
{
    let mut line = ArrayString::new();
    line.push_str(Buffer::new().format(row));
    line.push_str(" mended ");
    line.push_str(Buffer::new().format(edition));
    line.push_str(" ");
    line.push_str(Buffer::new().format(version));
    line.push_str("\n");
    line
}

/// Returns the answer to a mend that is refused: as text ROW refused CODE NAME.
///
/// # Errors
///
/// If there is no memory. As text, the answer needs none.
pub(crate) fn mend_refused_answer(
    alloc: Global,
    format: Format,
    row: u64,
    refusal: MendRefusal,
) -> Result<Answer, AllocError>
    ensures text { IfOk result (λ answer. bytes_of answer ≡ mend_refused_answer format row refusal) }
    ensures memory { IfErr result (λ _. format ≡ Json) }
{
    match format {
        Format::Text => {
            let mut line = ArrayString::new();
            line.push_str(Buffer::new().format(row));
            line.push_str(" refused ");
            line.push_str(Buffer::new().format(refusal.code()));
            line.push_str(" ");
            line.push_str(refusal.name());
            line.push_str("\n");
            Ok(Answer::Short(line))
        }
        Format::Json => Ok(Answer::Long(mend_refused_json(
            alloc,
            row,
            refusal.code(),
            refusal.name(),
        )?)),
    }
}
