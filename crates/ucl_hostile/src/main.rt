//! Hostile use of the library. `ucl_hostile refused CALL [READINGS]` makes a call of the library twice on what standard input has, and tells
//! both answers: what stands before the C library's `malloc` may refuse a request of the first. `ucl_hostile ample` reads each beginning of
//! standard input. `ucl_hostile faults` tells all faults with the numbers in standard input. `ucl_hostile nights SEED READINGS` runs nights
//! of each group and each number of readings up to this one.
#![tactic(auto)]

mod ample;
mod faults;
mod nights;
mod random;
mod refused;

use anyhow::Context;
use std::alloc::Global;
use std::env;
use std::io::Read;
use std::sync::Wait;
use std::thread::Threads;

/// Word `i` of the command line; empty if there is none.
fn word_at(words: &[String], i: usize) -> &str {
    match words.get(i) {
        Some(word) => word.as_str(),
        None => "",
    }
}

/// The number that word `i` of the command line is; this one if there is no such word.
fn number_at(words: &[String], i: usize, otherwise: u32) -> anyhow::Result<u32> {
    match word_at(words, i) {
        "" => Ok(otherwise),
        word => word.parse::<u32>().ok().context("a number is wanted"),
    }
}

/// Does what the words of the command line ask for, with the bytes of standard input: `refused`, `ample`, `faults` or `nights`.
fn run<R: Print + Threads + Wait + Sync>(
    rt: &R,
    alloc: Global,
    words: &[String],
    input: &[u8],
) -> anyhow::Result<()> {
    match word_at(words, 1) {
        "refused" => refused::run(rt, alloc, word_at(words, 2), number_at(words, 3, 1)?, input),
        "ample" => ample::run(rt, alloc, input),
        "faults" => faults::run(rt, input),
        "nights" => nights::run(
            rt,
            alloc,
            number_at(words, 2, 0)?,
            number_at(words, 3, 0)?,
            input,
        ),
        _ => anyhow::bail!("refused CALL [READINGS], ample, faults, or nights SEED READINGS"),
    }
}

fn main(rt: HostRuntime) -> anyhow::Result<()> {
    let words = env::args(&rt)?.collect::<Vec<String>>(rt.alloc())?;
    let mut input = Vec::new(rt.alloc());
    rt.stdin().read_to_end(&mut input)?;
    run(&rt, rt.alloc(), &words, &input)
}
