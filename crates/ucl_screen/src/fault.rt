//! Faults of an input, a script or a sheet: why it is refused, or was not read.

ghost use Rattle.std.specs.Prelude.{◌≡◌, Some};
ghost use Rattle.ucl_screen.specs.declared.fault.InputFault.TheVariants.{OutOfMemory};
ghost use Rattle.ucl_screen.specs.Texts.{input_fault_text, line_text};

use crate::FaultLine;
use std::alloc::{AllocError, AllocFailed};
use std::{error, fmt};

/// Why an input is refused, or was not read. The text of a fault is the line that the program writes, with the number given here.
#[derive(Clone, Copy, Debug, PartialEq, Eq)]
pub enum InputFault {
    /// 10: a row of a sheet holds a word that packs no valid match record. `index` is the least match with such a word, 1 to 12.
    BadWordAt { index: u8 },
    /// 20: a row is missing or has not the form that its place in the input demands. `row` is the first such row, counted from 1.
    BadRow { row: u32 },
    /// 21: a club's name is not 1 to 20 bytes of printed ASCII, or its coefficient is over 999,999. `slot` is the least such slot, 1 to 4.
    BadRoster { slot: u8 },
    /// 22: the source failed, after it had given `bytes` bytes.
    ReadFailed { bytes: usize },
    /// 23: an allocation was refused.
    OutOfMemory,
    /// 24: the input has more than 4,194,304 bytes.
    TooLong,
}

impl InputFault {
    /// Returns the line that the program prints of this fault, without its line feed.
    pub fn line(&self) -> FaultLine
        ensures { line_text result ≡ input_fault_text self.now }
    {
        match *self {
            InputFault::BadWordAt { index } => {
                FaultLine::ending("input refused 10: word ", usize::from(index))
            }
            InputFault::BadRow { row } => FaultLine::ending("input refused 20: row ", row as usize),
            InputFault::BadRoster { slot } => {
                FaultLine::ending("input refused 21: slot ", usize::from(slot))
            }
            InputFault::ReadFailed { bytes } => {
                FaultLine::after_bytes("reading failed 22: after ", bytes)
            }
            InputFault::OutOfMemory => FaultLine::plain("out of memory 23"),
            InputFault::TooLong => FaultLine::plain("input refused 24: too long"),
        }
    }
}

impl fmt::Display for InputFault {
    ghost output = { λ fault. Some (input_fault_text fault) };

    /// Writes the line that the program prints of the fault, without its line feed.
    fn fmt<W: fmt::Write>(&self, f: &mut fmt::Formatter<W>) -> fmt::Result {
        let line = self.line();
        write!(f, "{line}")
    }
}

impl error::Error for InputFault {}

impl From<AllocError> for InputFault {
    ghost from_gives = { λ _ fault. fault ≡ OutOfMemory };

    /// Returns `OutOfMemory`.
    fn from(_error: AllocError) -> InputFault {
        InputFault::OutOfMemory
    }
}

impl<T: Drop> From<AllocFailed<T>> for InputFault {
    ghost from_gives = { λ _ fault. fault ≡ OutOfMemory };

    /// Returns `OutOfMemory`.
    fn from(_error: AllocFailed<T>) -> InputFault {
        InputFault::OutOfMemory
    }
}
