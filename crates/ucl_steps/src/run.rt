//! The call that runs a list of steps on the machine. A step is enabled if its caller may take it then.

ghost use Rattle.std.specs.Prelude.{◌≡◌, ℕ, IfOk, Err};
ghost use Rattle.ucl_board.specs.History.{board_of};
ghost use Rattle.ucl_steps.specs.declared.trace.StepFault.TheVariants.{NotEnabled};
ghost use Rattle.ucl_steps.specs.RunHistory.{IsLinearizableRun};
ghost use Rattle.ucl_steps.specs.Traces.{IsTraceOf, IsFirstDisabled};

use crate::machine::Machine;
use crate::step::{Cast, Step};
use crate::trace::{StepFault, Trace};
use std::alloc::Global;

/// Takes the steps one after another, from a fresh board and idle callers, and returns the trace that they leave: the history, the calls
/// and the match words.
///
/// # Errors
///
/// Returns `NotEnabled` with the place of the first step that is not enabled, and `OutOfMemory` if an allocation was refused, which may
/// come in place of a trace or of `NotEnabled`.
pub fn run_steps(alloc: Global, cast: &Cast, steps: &[Step]) -> Result<Trace, StepFault>
    ensures trace { IfOk result (IsTraceOf cast.now steps.now) }
    ensures not_enabled { (at : ℕ) → result ≡ Err (NotEnabled at)
        → IsFirstDisabled cast.now steps.now at }
    ensures linearizable { IfOk result
        (λ trace. IsLinearizableRun cast.now steps.now trace.history.items trace.calls.items) }
    ensures words { IfOk result (λ trace. trace.words ≡ board_of trace.history.items) }
{
    let mut machine = Machine::new(alloc, cast)?;
    for (at, step) in steps.iter().enumerate() {
        if !machine.take(step)? {
            return Err(StepFault::NotEnabled { at });
        }
    }
    Ok(machine.into_trace())
}
