//! Measures live boards, tables and screens: the proved side of the ratios of bench/RESULTS.md. bench/compare starts it, beside references
//! in plain Rust and in C.
#![tactic(auto)]

mod boards;
mod clock;
mod command;
mod nights;
mod one_thread;
mod tables;

use std::env;

/// Measures what the command line asks for.
fn main(rt: HostRuntime) -> anyhow::Result<()> {
    let words = env::args(&rt)?.collect::<Vec<String>>(rt.alloc())?;
    command::run(&rt, rt.alloc(), &words)
}
