//! The protocol of the shared board as a pure machine: reporters and readers take atomic steps one at a time, in any
//! order, and one legal history explains every call. The reading is the clean double collect of Herlihy and Shavit, The
//! Art of Multiprocessor Programming; the condition on the calls is that of Herlihy and Wing, Linearizability.
//!
//! # Examples
//!
//! ```rust
//! let cast = Cast { reporters: 1, readers: 1 };
//! let reader = Caller::Reader(1);
//! let trace = run_steps(rt.alloc(), &cast, &[Step::Begin(reader, Call::Reading), Step::First(reader)]).ok()?;
//! assert!(trace.history.is_empty());
//! assert!(run_steps(rt.alloc(), &cast, &[Step::Swap(reader)]).is_err());
//! ```
#![tactic(auto)]

mod machine;
mod run;
mod step;
mod theorems;
mod trace;

pub use run::run_steps;
pub use step::{Call, Caller, Cast, Step};
pub use theorems::{
    calls_are_linearizable, later_calls_have_seen, logs_are_runs, logs_have_facts,
    only_reports_are_fixed, readings_are_snapshots, reports_are_sequential, runs_are_linearizable,
    stale_and_torn_readings_are_refused, unclean_tries_are_few, unclean_tries_see_more,
    words_are_of_the_history,
};
pub use trace::{CallRecord, Reply, StepFault, Trace};
