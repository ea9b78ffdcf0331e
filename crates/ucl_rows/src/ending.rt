//! How a program ends: what it prints on the error sink, which stands for standard error, and its exit status.

ghost use Rattle.std.specs.Prelude.{◌≡◌, ◌++◌, codes, true, OnOk, IfErr};
ghost use Rattle.std.specs.Io.KnownBytes.{Appends};
ghost use Rattle.ucl_rows.specs.Faults.{status};
ghost use Rattle.ucl_rows.specs.Printing.{Prints, fault_line};
ghost use Rattle.ucl_rows.specs.Ending.{Ends, ExitsWithoutCommand, ended_with};
ghost use Rattle.ucl_rows.specs.Run.{IsStopped};

use crate::fault::{RunFault, status_of};
use crate::output::{put_text, put_under};
use itoa::Buffer;
use ucl_command::LineFault;
use ucl_screen::Sink;

/// The exit status if the arguments are refused.
const REFUSED_ARGUMENTS: u8 = 2;

/// Writes a line: the texts `before`, `number` and `after`, and a line feed. `WriteFailed`, with a count of bytes, if the sink fails.
#[tactic(auto, using(crate::proofs::NightParts::stopped_first, crate::proofs::NightParts::stopped_second))]
fn put_line<W: Sink>(sink: &mut W, before: &str, number: &str, after: &str) -> Result<(), RunFault>
    ensures all { OnOk result (Appends (W.taken sink.old) (W.taken sink.new)
        ((before.now ++ number.now) ++ (after.now ++ codes "\n"))) }
    ensures part { IfErr result (IsStopped 0 (W.failed sink.new)
        (W.taken sink.old) (W.taken sink.new)
        ((before.now ++ number.now) ++ (after.now ++ codes "\n"))) }
    ensures sound { OnOk result (W.failed sink.new ≡ W.failed sink.old) }
{
    let written = put_under(sink, 0, before, number)?;
    put_under(sink, written, after, "\n")?;
    Ok(())
}

/// Prints the line of a fault, as far as the error sink takes it, and returns the exit status of the fault. No memory is taken.
pub fn print_fault<E: Sink>(errors: &mut E, fault: RunFault) -> u8
    ensures status { result ≡ status fault }
    ensures told { Prints (E.failed errors.new) (E.taken errors.old) (E.taken errors.new)
        (fault_line fault) }
    ensures stays { E.failed errors.old ≡ true → E.failed errors.new ≡ true }
{
    let line = fault.line();
    let mut buffer = Buffer::new();
    let number = match line.number {
        Some(number) => buffer.format(number),
        None => "",
    };
    let _ = put_line(errors, line.before, number, line.after);
    status_of(&fault)
}

/// Prints `text`, which says why the arguments are refused, as far as the error sink takes it, and returns exit status 2.
pub fn print_refusal<E: Sink>(errors: &mut E, text: &str) -> u8
    ensures status { result ≡ 2 }
    ensures told { Prints (E.failed errors.new) (E.taken errors.old) (E.taken errors.new) text.now }
{
    let _ = put_text(errors, text.as_bytes());
    REFUSED_ARGUMENTS
}

/// Returns exit status 0 if a run succeeded; if it failed, prints the line of its fault and returns the status of that.
pub fn ended<E: Sink>(errors: &mut E, done: Result<(), RunFault>) -> u8
    ensures { Ends done (ended_with E.failed E.taken result errors.old errors.new) }
{
    match done {
        Ok(()) => 0,
        Err(fault) => print_fault(errors, fault),
    }
}

/// Ends a program whose arguments name nothing to do, and returns the exit status. Help is written to `sink`, with status 0 unless that
/// fails; a refusal, or lack of memory, is printed on the error sink.
pub fn exit_without_command<W: Sink, E: Sink>(sink: &mut W, errors: &mut E, fault: LineFault) -> u8
    ensures { ExitsWithoutCommand W.failed W.taken fault sink.old sink.new
        (ended_with E.failed E.taken result errors.old errors.new) }
{
    match fault {
        LineFault::Help(text) => {
            let done = put_text(sink, text.as_bytes());
            ended(errors, done)
        }
        LineFault::Refused(text) => print_refusal(errors, text.as_str()),
        LineFault::OutOfMemory => print_fault(errors, RunFault::OutOfMemory),
    }
}
