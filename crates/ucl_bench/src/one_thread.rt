//! Readings and reports by one thread, on a board that no other thread uses.

use crate::boards::{ALL_EVENTS, Opens, enlist, enter, events_of, read_often};
use crate::clock::{Least, nanos, nanos_since};
use anyhow::Result;
use std::alloc::Global;
use std::sync::Wait;
use std::time::Clock;
use ucl_word::EventCall;

/// How many calls are timed as one.
const CHUNK: usize = 4096;

/// How many events are entered in each match before a board is read.
const EVENTS_BEFORE: u16 = 100;

/// Measures readings of a board, on which 100 events of each match were entered, for about so many milliseconds.
pub fn measure_read<B: Opens, R: Wait + Clock>(
    rt: &R,
    alloc: Global,
    millis: u64,
) -> Result<Least> {
    let (board, mut pass) = B::fresh(rt, alloc)?;
    let mut reporter = enlist(rt, &board, &mut pass)?;
    enter(rt, &board, &mut reporter, &events_of(alloc, EVENTS_BEFORE)?);
    let mut least = Least::of(CHUNK);
    let begun = nanos(rt);
    for round in rt.forever() {
        let from = nanos(rt);
        let versions = read_often(rt, &board, &mut pass, CHUNK as u64);
        least.add(nanos_since(rt, from), versions);
        if nanos_since(rt, begun) / 1_000_000 >= millis {
            break;
        }
    }
    Ok(least)
}

/// Enters events on a fresh board in chunks of 4096, and times each chunk; the events after the last whole chunk are left out.
fn time_events<B: Opens, R: Wait + Clock>(
    rt: &R,
    alloc: Global,
    events: &[EventCall],
    least: &mut Least,
) -> Result<()> {
    let (board, mut pass) = B::fresh(rt, alloc)?;
    let mut reporter = enlist(rt, &board, &mut pass)?;
    for chunk in events.chunks_exact(CHUNK) {
        let from = nanos(rt);
        let numbers = enter(rt, &board, &mut reporter, chunk);
        least.add(nanos_since(rt, from), numbers);
    }
    Ok(())
}

/// Measures reports for about so many milliseconds: enters whole chunks of all events of a board, on one fresh board after the other.
pub fn measure_report<B: Opens, R: Wait + Clock>(
    rt: &R,
    alloc: Global,
    millis: u64,
) -> Result<Least> {
    let events = events_of(alloc, ALL_EVENTS)?;
    let mut least = Least::of(CHUNK);
    let begun = nanos(rt);
    for _ in rt.forever() {
        time_events::<B, R>(rt, alloc, &events, &mut least)?;
        if nanos_since(rt, begun) / 1_000_000 >= millis {
            break;
        }
    }
    Ok(least)
}
