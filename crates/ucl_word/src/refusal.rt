//! Why events, words and calls are refused. Each refusal has a number, with which its comment begins, and a name.

ghost use Rattle.std.specs.Prelude.{◌≡◌, ◌≤◌, Some, length};
ghost use Rattle.ucl_word.specs.Names.{found_of, refusal_code, refusal_name, refusal_text, refusal_with};

use std::alloc::{AllocError, AllocFailed};
use std::{error, fmt};
use thiserror::Error;

/// Why an event is refused. The conditions are tried in this order, and the first that holds is the answer.
#[derive(Clone, Copy, Debug, PartialEq, Eq)]
pub enum Refusal {
    /// 1: the reporter expected another event number of the match than the one it has, which is `found`.
    Stale { found: u16 },
    /// 2: the match is finished, and the event is no reopening.
    Finished,
    /// 9: the match is not finished, and the event is a reopening.
    NotFinished,
    /// 3: the match has not kicked off, and the event is no kick-off.
    NotStarted,
    /// 4: the match is in play, and the event is a kick-off.
    AlreadyStarted,
    /// 5: the match's event number is 4094 or more, and the event is not full time.
    NumberFull,
    /// 6: a goal is disallowed for a side that has none.
    NoGoal,
    /// 7: a second yellow for a side all of whose yellow cards have already led to expulsions, or that has none.
    NoCaution,
    /// 8: the goals or yellows of a side would pass 63, or its expulsions 31.
    LimitReached,
}

impl Refusal {
    /// Returns the number that stands for this refusal of an event, 1 to 9. No other refusal has it.
    pub fn code(self) -> u8
        ensures { result ≡ refusal_code self }
    {
        match self {
            Refusal::Stale { found } => 1,
            Refusal::Finished => 2,
            Refusal::NotStarted => 3,
            Refusal::AlreadyStarted => 4,
            Refusal::NumberFull => 5,
            Refusal::NoGoal => 6,
            Refusal::NoCaution => 7,
            Refusal::LimitReached => 8,
            Refusal::NotFinished => 9,
        }
    }

    /// Returns the name of this refusal of an event, such as `no-goal`, at most 15 bytes. No other refusal has it.
    pub fn name(self) -> &'static str
        ensures value { result.now ≡ refusal_name self }
        ensures short { length result.now ≤ 15 }
    {
        match self {
            Refusal::Stale { found } => "stale",
            Refusal::Finished => "finished",
            Refusal::NotStarted => "not-started",
            Refusal::AlreadyStarted => "already-started",
            Refusal::NumberFull => "number-full",
            Refusal::NoGoal => "no-goal",
            Refusal::NoCaution => "no-caution",
            Refusal::LimitReached => "limit-reached",
            Refusal::NotFinished => "not-finished",
        }
    }

    /// Returns the event number that the match was found to have if this is the refusal of a stale event, else `None`.
    pub fn found(self) -> Option<u16>
        ensures { result ≡ found_of self }
    {
        match self {
            Refusal::Stale { found } => Some(found),
            _ => None,
        }
    }

    /// Returns the refusal whose number is `code`, or `None` if there is none. If it is the refusal of a stale event, it holds `found`.
    pub fn from_code(code: u32, found: u16) -> Option<Refusal>
        ensures { result ≡ refusal_with code found }
    {
        match code {
            1 => Some(Refusal::Stale { found }),
            2 => Some(Refusal::Finished),
            3 => Some(Refusal::NotStarted),
            4 => Some(Refusal::AlreadyStarted),
            5 => Some(Refusal::NumberFull),
            6 => Some(Refusal::NoGoal),
            7 => Some(Refusal::NoCaution),
            8 => Some(Refusal::LimitReached),
            9 => Some(Refusal::NotFinished),
            _ => None,
        }
    }
}

impl fmt::Display for Refusal {
    ghost output = { λ refusal. Some (refusal_text refusal) };

    /// Writes the number of the refusal and its name, and for a stale event the event number that was found, as in `1 stale 6`.
    fn fmt<W: fmt::Write>(&self, f: &mut fmt::Formatter<W>) -> fmt::Result {
        let code = self.code();
        let name = self.name();
        match self.found() {
            Some(found) => write!(f, "{code} {name} {found}"),
            None => write!(f, "{code} {name}"),
        }
    }
}

impl error::Error for Refusal {}

/// 10: a word of 64 bits that is the packing of no record that a match can have.
#[derive(Clone, Copy, Debug, PartialEq, Eq, Error)]
#[error("bad word 10")]
pub struct BadWord;

/// 23: out of memory. Calls that allocate answer it, and only if an allocation was refused.
#[derive(Clone, Copy, Debug, PartialEq, Eq, Error)]
#[error("out of memory 23")]
pub struct OutOfMemory;

impl From<AllocError> for OutOfMemory {
    /// Answers a refused allocation as out of memory.
    fn from(_error: AllocError) -> OutOfMemory {
        OutOfMemory
    }
}

impl<T: Drop> From<AllocFailed<T>> for OutOfMemory {
    /// Answers a refused allocation as out of memory, and drops the value that could not be stored.
    fn from(_error: AllocFailed<T>) -> OutOfMemory {
        OutOfMemory
    }
}
