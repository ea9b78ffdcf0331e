//! What a list of steps of the machine leaves. Places in time are lengths of the history.

ghost use Rattle.std.specs.Prelude.{◌≡◌};
ghost use Rattle.ucl_steps.specs.declared.trace.StepFault.TheVariants.{OutOfMemory};

use crate::step::{Call, Caller};
use std::alloc::AllocError;
use thiserror::Error;
use ucl_board::{Entry, Reading};
use ucl_word::{Accepted, Refusal};

/// What the board replied to a call.
#[derive(Clone, Copy, Debug, PartialEq, Eq)]
pub enum Reply {
    /// The event was entered.
    Accepted(Accepted),
    /// The event was refused.
    Refused(Refusal),
    /// The board was read, and this is the snapshot.
    Copied(Reading),
}

/// What became of a call in a run. Places in time are lengths of the history.
#[derive(Clone, Copy, Debug, PartialEq, Eq)]
pub struct CallRecord {
    /// Who called.
    pub caller: Caller,
    /// What the call asked.
    pub call: Call,
    /// The length of the history at the call's `Begin`.
    pub begun: u16,
    /// The call's linearization point, once its reply is decided: the call takes effect after so many entries.
    pub point: Option<u16>,
    /// The reply, once it is decided.
    pub reply: Option<Reply>,
    /// The length of the history at the call's `End`, if it has ended.
    pub ended: Option<u16>,
}

/// What a list of steps leaves: the history, the calls and the match words.
#[derive(Debug, Drop)]
pub struct Trace {
    /// The entries of the accepted events, oldest first.
    pub history: Vec<Entry>,
    /// The calls, in the order of their `Begin` steps.
    pub calls: Vec<CallRecord>,
    /// The words of matches 1 to 12 after the last step.
    pub words: [u64; 12],
}

/// Why a list of steps has no trace.
#[derive(Clone, Copy, Debug, PartialEq, Eq, Error)]
pub enum StepFault {
    /// 40: step `at`, counted from 0, is the first that is not enabled.
    #[error("step {at} is not enabled: 40")]
    NotEnabled { at: usize },
    /// 23: out of memory. It may come in place of a trace, or of 40.
    #[error("out of memory 23")]
    OutOfMemory,
}

impl From<AllocError> for StepFault {
    ghost from_gives = { λ _ fault. fault ≡ OutOfMemory };

    /// Returns `OutOfMemory`.
    fn from(_error: AllocError) -> StepFault {
        StepFault::OutOfMemory
    }
}
