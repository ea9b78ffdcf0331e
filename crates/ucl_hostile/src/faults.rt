//! The lines of faults, and the exit statuses of those of a run.

use anyhow::Context;
use std::fmt::Display;
use ucl_board::BadWordAt;
use ucl_order::BadRoster;
use ucl_pass::{Strangers, TooManyReporters};
use ucl_rows::{RunFault, status_of};
use ucl_screen::InputFault;
use ucl_word::{BadWord, OutOfMemory, Refusal};

/// Prints the line of a fault.
fn tell<R: Print, F: Display>(rt: &R, fault: &F) -> anyhow::Result<()> {
    println!(rt; "{fault}")?;
    Ok(())
}

/// Prints the exit status and the line of a fault of a run.
fn tell_run<R: Print>(rt: &R, fault: RunFault) -> anyhow::Result<()> {
    println!(rt; "{} {fault}", status_of(&fault))?;
    Ok(())
}

/// Prints the line of a fault of an input, and the exit status and the line of a run that fails for it.
fn tell_input<R: Print>(rt: &R, fault: InputFault) -> anyhow::Result<()> {
    tell(rt, &fault)?;
    tell_run(rt, RunFault::Input(fault))
}

/// Prints each refusal of an event; a stale one has found this event number.
fn tell_refusals<R: Print>(rt: &R, found: u16) -> anyhow::Result<()> {
    for code in 1..10 {
        if let Some(refusal) = Refusal::from_code(code, found) {
            tell(rt, &refusal)?;
        }
    }
    Ok(())
}

/// Prints each fault with this number that has room for it.
fn tell_numbered<R: Print>(rt: &R, number: usize) -> anyhow::Result<()> {
    if let Ok(index) = u8::try_from(number) {
        tell_input(rt, InputFault::BadWordAt { index })?;
        tell_input(rt, InputFault::BadRoster { slot: index })?;
        tell(rt, &BadWordAt { index })?;
        tell(rt, &BadRoster { slot: index })?;
    }
    if let Ok(version) = u16::try_from(number) {
        tell(rt, &Strangers { version })?;
        tell_run(rt, RunFault::Strangers { version })?;
        tell_refusals(rt, version)?;
    }
    if let Ok(row) = u32::try_from(number) {
        tell_input(rt, InputFault::BadRow { row })?;
    }
    tell_input(rt, InputFault::ReadFailed { bytes: number })?;
    tell_run(rt, RunFault::WriteFailed { written: number })?;
    tell_run(rt, RunFault::NotOnDuty { row: number })
}

/// Prints the line of each fault without a number, and then of each fault with each number of the input, which stand apart there.
pub fn run<R: Print>(rt: &R, input: &[u8]) -> anyhow::Result<()> {
    tell(rt, &BadWord)?;
    tell(rt, &OutOfMemory)?;
    tell(rt, &TooManyReporters(()))?;
    tell_input(rt, InputFault::OutOfMemory)?;
    tell_input(rt, InputFault::TooLong)?;
    for fault in [
        RunFault::OutOfMemory,
        RunFault::NoThread,
        RunFault::TooManyReporters,
    ] {
        tell_run(rt, fault)?;
    }
    for word in std::str::from_utf8(input)?.split_whitespace() {
        let number = word.parse::<usize>().ok().context("a number is wanted")?;
        tell_numbered(rt, number)?;
    }
    Ok(())
}
