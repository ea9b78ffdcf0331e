//! Why a call of C is not done: it returns a status, 0 or the number of a fault.

ghost use Rattle.std.specs.Prelude.{◌≡◌, Some, unwrap_or};
ghost use Rattle.ucl_word.specs.Names.{found_of, refusal_code};
ghost use Rattle.ucl_c.specs.declared.fault.Fault.TheVariants.{BadRoster, BadWord, FullBoard, OutOfMemory};
ghost use Rattle.ucl_c.specs.Faults.{fault_code, of_input, place_with};

use std::alloc::{AllocError, AllocFailed};
use ucl_board::BadWordAt;
use ucl_order::BadRoster;
use ucl_screen::InputFault;
use ucl_word::Refusal;

/// Why a call of C is not done; each variant with its number.
#[derive(Clone, Copy, Debug, PartialEq, Eq)]
pub enum Fault {
    /// 1 to 9: the rule that refuses an event.
    Refused(Refusal),
    /// 10: the first of the words that holds no valid match, counted from 1.
    BadWord { index: u8 },
    /// 20: the first row of a script, counted from 1, that is missing or is not as its place demands.
    BadRow { row: u32 },
    /// 21: the least slot whose club has a bad name or coefficient.
    BadRoster { slot: u8 },
    /// 23: an allocation was refused, or a board has more handles than can be counted.
    OutOfMemory,
    /// 24: a script has more than 4,194,304 bytes.
    TooLong,
    /// 30: as many reporters are enlisted as there are numbers, 255.
    FullBoard,
    /// 50: not the number of a reporter, 1 to 255.
    NoReporter,
    /// 51: no kind of event has this code.
    NoKind,
    /// 52: no profile has this code.
    NoProfile,
    /// 53: not the letter of a group, `A` to `H`.
    NoGroup,
    /// 54: not twelve words.
    NotTwelve,
    /// 55: not four clubs.
    NotFour,
    /// 56: the caller's room is too small for the text and a zero, or for the replies.
    NoRoom,
    /// 57: the caller's room is not one for the four rows of a table.
    NotFourRows,
    /// 58: no status has this number.
    NoStatus,
    /// 59: the handle that was to be given a pass is not null.
    InUse,
    /// 60: the handle holds no pass.
    NoPass,
    /// 61: the pass is a reporter's: only a reader's makes another pass.
    NotAReader,
    /// 62: not the number of a match, 1 to 12.
    NoMatch,
    /// 63: the pass is a reader's: only a reporter's enters events.
    NotAReporter,
}

impl Fault {
    /// Returns the number of a fault, which a call of C returns as its status.
    pub fn status(self) -> u32
        ensures { result ≡ fault_code self }
    {
        match self {
            Fault::Refused(refusal) => u32::from(refusal.code()),
            Fault::BadWord { index } => 10,
            Fault::BadRow { row } => 20,
            Fault::BadRoster { slot } => 21,
            Fault::OutOfMemory => 23,
            Fault::TooLong => 24,
            Fault::FullBoard => 30,
            Fault::NoReporter => 50,
            Fault::NoKind => 51,
            Fault::NoProfile => 52,
            Fault::NoGroup => 53,
            Fault::NotTwelve => 54,
            Fault::NotFour => 55,
            Fault::NoRoom => 56,
            Fault::NotFourRows => 57,
            Fault::NoStatus => 58,
            Fault::InUse => 59,
            Fault::NoPass => 60,
            Fault::NotAReader => 61,
            Fault::NoMatch => 62,
            Fault::NotAReporter => 63,
        }
    }

    /// Writes to `at` the number of the word, row or slot that a fault is about, if it is about one, and returns the fault's number.
    pub fn status_at(self, at: &mut u32) -> u32
        ensures told { result ≡ fault_code self }
        ensures placed { at.new ≡ place_with (Some self) at.old }
    {
        match self {
            Fault::BadWord { index } => *at = u32::from(index),
            Fault::BadRow { row } => *at = row,
            Fault::BadRoster { slot } => *at = u32::from(slot),
            _ => {}
        }
        self.status()
    }
}

/// Takes the value out of a result. If it is a fault, the call of C that uses this macro returns its number, and writes its place to `$at`.
macro_rules! or_return {
    ($made:expr) => {
        match $made {
            Ok(made) => made,
            Err(fault) => return fault.status(),
        }
    };
    ($made:expr, $at:expr) => {
        match $made {
            Ok(made) => made,
            Err(fault) => return fault.status_at($at),
        }
    };
}

pub(crate) use or_return;

/// Returns the number of the rule that refuses an event. If it is that the event is stale, writes the match's event number to `found`.
pub fn refused(refusal: Refusal, found: &mut u32) -> u32
    ensures status { result ≡ refusal_code refusal }
    ensures found { found.new ≡ unwrap_or (found_of refusal) found.old }
{
    if let Some(number) = refusal.found() {
        *found = u32::from(number);
    }
    u32::from(refusal.code())
}

impl From<BadWordAt> for Fault {
    ghost from_gives = { λ bad fault. fault ≡ BadWord bad.index };

    /// Returns the fault of the first word, by its index, that holds no valid match.
    fn from(bad: BadWordAt) -> Fault {
        Fault::BadWord { index: bad.index }
    }
}

impl From<BadRoster> for Fault {
    ghost from_gives = { λ bad fault. fault ≡ BadRoster bad.slot };

    /// Returns the fault of the least slot whose club has a bad name or coefficient.
    fn from(bad: BadRoster) -> Fault {
        Fault::BadRoster { slot: bad.slot }
    }
}

impl From<InputFault> for Fault {
    ghost from_gives = { λ input fault. fault ≡ of_input input };

    /// Returns the fault of a call whose input has this one. `ReadFailed` cannot come, since calls of C read bytes in memory.
    fn from(input: InputFault) -> Fault {
        match input {
            InputFault::BadWordAt { index } => Fault::BadWord { index },
            InputFault::BadRow { row } => Fault::BadRow { row },
            InputFault::BadRoster { slot } => Fault::BadRoster { slot },
            InputFault::TooLong => Fault::TooLong,
            InputFault::OutOfMemory | InputFault::ReadFailed { .. } => Fault::OutOfMemory,
        }
    }
}

impl From<AllocError> for Fault {
    ghost from_gives = { λ _ fault. fault ≡ OutOfMemory };

    /// Returns `OutOfMemory`, the fault of a call for which there is no memory.
    fn from(_error: AllocError) -> Fault {
        Fault::OutOfMemory
    }
}

impl<T: Drop> From<AllocFailed<T>> for Fault {
    ghost from_gives = { λ _ fault. fault ≡ OutOfMemory };

    /// Returns `OutOfMemory`, the fault of a call for which there is no memory.
    fn from(_error: AllocFailed<T>) -> Fault {
        Fault::OutOfMemory
    }
}

impl From<ucl_word::OutOfMemory> for Fault {
    ghost from_gives = { λ _ fault. fault ≡ OutOfMemory };

    /// Returns `OutOfMemory`, the fault of a call for which there is no memory.
    fn from(_error: ucl_word::OutOfMemory) -> Fault {
        Fault::OutOfMemory
    }
}
