//! Times in nanoseconds.

use std::fmt;
use std::time::Clock;

/// The time since an arbitrary start, in nanoseconds; 0 if the clock cannot be read.
pub fn nanos(clock: &impl Clock) -> u64 {
    match clock.monotonic() {
        Ok(time) => time
            .as_secs()
            .wrapping_mul(1_000_000_000)
            .wrapping_add(u64::from(time.subsec_nanos())),
        Err(_) => 0,
    }
}

/// The nanoseconds since `begun`, an earlier time that `nanos` gave.
pub fn nanos_since(clock: &impl Clock, begun: u64) -> u64 {
    nanos(clock).saturating_sub(begun)
}

/// The least time of some rounds of as many calls. The answers of a round are added up, so that no call is left out.
#[derive(Clone, Copy)]
pub struct Least {
    calls: u64,
    nanos: u64,
    pub answers: u64,
}

impl Least {
    /// The least time of rounds of so many calls, before the first round.
    pub fn of(calls: usize) -> Least {
        Least {
            calls: calls as u64,
            nanos: u64::MAX,
            answers: 0,
        }
    }

    /// Counts a round that took so many nanoseconds; `answers` is the sum of its answers.
    pub fn add(&mut self, nanos: u64, answers: u64) {
        self.nanos = self.nanos.min(nanos);
        self.answers = answers;
    }
}

impl fmt::Display for Least {
    /// Writes a JSON object: the calls of a round, the nanoseconds of the fastest round, and the sum of the answers of the last.
    fn fmt<W: fmt::Write>(&self, f: &mut fmt::Formatter<W>) -> fmt::Result {
        let Least {
            calls,
            nanos,
            answers,
        } = *self;
        write!(
            f,
            "{{\"calls\":{calls},\"least_ns\":{nanos},\"answers\":{answers}}}"
        )
    }
}
