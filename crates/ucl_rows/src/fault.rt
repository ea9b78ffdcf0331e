//! `RunFault`: why a run of a program fails. Each fault has a code, 10 to 31, a line for standard error and an exit status.

ghost use Rattle.std.specs.Prelude.{◌≡◌, Some};
ghost use Rattle.ucl_rows.specs.declared.fault.RunFault.TheVariants.{OutOfMemory, TooManyReporters, Strangers};
ghost use Rattle.ucl_screen.specs.Texts.{line_text};
ghost use Rattle.ucl_rows.specs.Faults.{fault_text, handed_on, status};
ghost use Rattle.ucl_rows.specs.Run.{IsOfDriver};

use std::alloc::AllocError;
use std::{error, fmt};
use ucl_io::ServeFault;
use ucl_screen::{FaultLine, InputFault};

/// Why a run of a program failed. Its text is the line that the program writes to standard error. The numbers are the codes of the faults.
#[derive(Clone, Copy, Debug, PartialEq, Eq)]
pub enum RunFault {
    /// 10, 20 to 22 and 24: the input was refused, or could not be read.
    Input(InputFault),
    /// 23: memory was asked for, and there was none.
    OutOfMemory,
    /// 26: the output failed, and took exactly the first `written` bytes of the text.
    WriteFailed { written: usize },
    /// 25: a row of the script of two reporters is of one other than 1 and 2. `row` is the first such row, counted from 1.
    NotOnDuty { row: usize },
    /// 27: a thread could not be started.
    NoThread,
    /// 30: the board has given all 255 numbers of reporters.
    TooManyReporters,
    /// 31: the board has events of a reporter who takes no part in the run. `version` is how many events it had when it was read.
    Strangers { version: u16 },
}

impl RunFault {
    /// Returns the line that the program writes to standard error for this fault, without its line feed.
    pub(crate) fn line(&self) -> FaultLine
        ensures { line_text result ≡ fault_text self.now }
    {
        match self {
            RunFault::Input(fault) => fault.line(),
            RunFault::OutOfMemory => FaultLine::plain("out of memory 23"),
            RunFault::WriteFailed { written } => {
                FaultLine::after_bytes("writing failed 26: after ", *written)
            }
            RunFault::NotOnDuty { row } => FaultLine::ending("input refused 25: row ", *row),
            RunFault::NoThread => FaultLine::plain("no thread 27"),
            RunFault::TooManyReporters => FaultLine::plain("board refused 30"),
            RunFault::Strangers { version } => {
                FaultLine::ending("board refused 31: version ", usize::from(*version))
            }
        }
    }
}

impl fmt::Display for RunFault {
    ghost output = { λ fault. Some (fault_text fault) };

    /// Writes the line of the fault, without its line feed.
    fn fmt<W: fmt::Write>(&self, f: &mut fmt::Formatter<W>) -> fmt::Result {
        let line = self.line();
        write!(f, "{line}")
    }
}

impl error::Error for RunFault {}

impl From<InputFault> for RunFault {
    ghost from_gives = { λ fault f. f ≡ handed_on fault };

    /// Returns `OutOfMemory` for lack of memory while the input was read, and `Input` with the fault for any other.
    fn from(fault: InputFault) -> RunFault {
        match fault {
            InputFault::OutOfMemory => RunFault::OutOfMemory,
            _ => RunFault::Input(fault),
        }
    }
}

impl From<AllocError> for RunFault {
    ghost from_gives = { λ _ f. f ≡ OutOfMemory };

    /// Returns `OutOfMemory`.
    fn from(_error: AllocError) -> RunFault {
        RunFault::OutOfMemory
    }
}

impl From<ucl_word::OutOfMemory> for RunFault {
    ghost from_gives = { λ _ f. f ≡ OutOfMemory };

    /// Returns `OutOfMemory`.
    fn from(_error: ucl_word::OutOfMemory) -> RunFault {
        RunFault::OutOfMemory
    }
}

impl<P: Drop> From<ucl_live_board::TooManyReporters<P>> for RunFault {
    ghost from_gives = { λ _ f. f ≡ TooManyReporters };

    /// Returns `TooManyReporters`. The pass (a thread's permission on a board) that the error hands back is dropped.
    fn from(_error: ucl_live_board::TooManyReporters<P>) -> RunFault {
        RunFault::TooManyReporters
    }
}

impl From<ucl_live_board::Strangers> for RunFault {
    ghost from_gives = { λ error f. f ≡ Strangers error.version };

    /// Returns `Strangers` with the version that the error has.
    fn from(error: ucl_live_board::Strangers) -> RunFault {
        RunFault::Strangers {
            version: error.version,
        }
    }
}

/// Converts the fault of a driver, which hands lines to a handler, to the handler's type: the handler's own fault is kept, and any other is
/// converted from the `RunFault` for it.
pub fn of_driver<F: From<RunFault>>(fault: ServeFault<F>) -> F
    ensures { IsOfDriver F.from_gives fault result }
{
    match fault {
        ServeFault::ReadFailed { bytes } => F::from(RunFault::Input(InputFault::ReadFailed {
            bytes,
        })),
        ServeFault::TooLong => F::from(RunFault::Input(InputFault::TooLong)),
        ServeFault::WriteFailed { written } => F::from(RunFault::WriteFailed { written }),
        ServeFault::Handler(fault) => fault,
    }
}

/// Returns the exit status of the program for a fault: 3 if the input was refused, 4 if reading or writing failed, 5 if there was no
/// memory or no thread, and 6 if a board refused its reporters.
pub fn status_of(fault: &RunFault) -> u8
    ensures { result ≡ status fault.now }
{
    match fault {
        RunFault::Input(InputFault::ReadFailed { .. }) | RunFault::WriteFailed { .. } => 4,
        RunFault::Input(InputFault::OutOfMemory) | RunFault::OutOfMemory | RunFault::NoThread => 5,
        RunFault::Input(_) | RunFault::NotOnDuty { .. } => 3,
        RunFault::TooManyReporters | RunFault::Strangers { .. } => 6,
    }
}
