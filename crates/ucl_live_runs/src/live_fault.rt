//! The faults of a session, a run of `ucl_live`.

ghost use Rattle.std.specs.Prelude.{◌≡◌};
ghost use Rattle.ucl_rows.specs.declared.fault.RunFault.TheVariants.{OutOfMemory};
ghost use Rattle.ucl_live_runs.specs.declared.live_fault.LiveFault.TheVariants.{Run};

use std::alloc::AllocError;
use ucl_rows::RunFault;

/// Why a session stops at a line, in place of an answer.
#[derive(Clone, Copy, Debug, PartialEq, Eq)]
pub enum LiveFault {
    /// A fault of its rows, or of memory or a device. 20: the first row that is missing, or does not name the club or the group that it has
    /// to; its number is at most `u32::MAX`. 21: the least slot with a club that no roster takes. 23: out of memory.
    Run(RunFault),
    /// The first row names another group or tie-break order than the options ask for.
    OtherGroup,
}

impl From<RunFault> for LiveFault {
    ghost from_gives = { λ fault f. f ≡ Run fault };

    /// Returns the fault of a session that stops by this fault of its rows, of memory or of a device.
    fn from(fault: RunFault) -> LiveFault {
        LiveFault::Run(fault)
    }
}

impl From<AllocError> for LiveFault {
    ghost from_gives = { λ _ f. f ≡ Run OutOfMemory };

    /// Returns the fault of a session that is out of memory.
    fn from(_error: AllocError) -> LiveFault {
        LiveFault::Run(RunFault::OutOfMemory)
    }
}

impl From<ucl_word::OutOfMemory> for LiveFault {
    ghost from_gives = { λ _ f. f ≡ Run OutOfMemory };

    /// Returns the fault of a session that is out of memory.
    fn from(_error: ucl_word::OutOfMemory) -> LiveFault {
        LiveFault::Run(RunFault::OutOfMemory)
    }
}
