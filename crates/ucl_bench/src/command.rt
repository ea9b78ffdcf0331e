//! What the words of the command line ask for, as bench/compare writes them: `screens FILE` prints the screens of the boards of a file, and
//! `run SUBJECT WORKLOAD MS [FILE]` measures for about so many milliseconds, and prints a line of JSON.

use crate::boards::Opens;
use crate::nights::{Plan, hold_nights};
use crate::one_thread::{measure_read, measure_report};
use crate::tables::{boards_of, measure_tables, print_screens};
use anyhow::{Context, Result};
use std::alloc::Global;
use std::fs;
use std::rt::{Clock, Files};
use std::sync::Wait;
use std::thread::Threads;
use ucl_board::Board;
use ucl_pass::CellBoard;
use ucl_words::WordBoard;

/// A plan, how many readers and reporters work at once and at what pace, by its name: `mix-R-W` or `paced-R-W`, R readers and W reporters.
fn plan_of(name: &str) -> Option<Plan> {
    let mut parts = name.split('-');
    let is_paced = match parts.next()? {
        "mix" => false,
        "paced" => true,
        _ => return None,
    };
    Some(Plan {
        is_paced,
        readers: parts.next()?.parse::<u8>().ok()?,
        reporters: parts.next()?.parse::<u8>().ok()?,
    })
}

/// Measures a kind of board under a workload, `read`, `report` or the name of a plan of readers and reporters, and prints the figures.
fn measure_board<B: Opens, R: Print + Threads + Wait + Clock + Sync>(
    rt: &R,
    alloc: Global,
    workload: &str,
    millis: u64,
) -> Result<()> {
    match workload {
        "read" => println!(rt; "{}", measure_read::<B, R>(rt, alloc, millis)?)?,
        "report" => println!(rt; "{}", measure_report::<B, R>(rt, alloc, millis)?)?,
        _ => {
            let plan = plan_of(workload).context("no such workload")?;
            println!(rt; "{}", hold_nights::<B, R>(rt, alloc, plan, millis)?)?;
        }
    }
    Ok(())
}

/// The boards of a file.
fn boards_in<R: Files + AllocGlobal>(rt: &R, alloc: Global, path: &str) -> Result<Vec<Board>> {
    boards_of(alloc, fs::read_to_string(rt, path)?.as_str())
}

/// Word `i` of the command line; empty if there is none.
fn word_at(words: &[String], i: usize) -> &str {
    match words.get(i) {
        Some(word) => word.as_str(),
        None => "",
    }
}

/// Measures a workload of a subject, words 2 and 3 of the command line, and prints a line of JSON: `word_board` or `cell_board`, or tables
/// and screens of the boards of a file.
fn measure<R: Print + Files + AllocGlobal + Threads + Wait + Clock + Sync>(
    rt: &R,
    alloc: Global,
    words: &[String],
) -> Result<()> {
    let (subject, workload) = (word_at(words, 2), word_at(words, 3));
    let millis = word_at(words, 4).parse::<u64>().ok();
    let millis = millis.context("how many milliseconds?")?;
    match subject {
        "word_board" => measure_board::<WordBoard, R>(rt, alloc, workload, millis),
        "cell_board" => measure_board::<CellBoard, R>(rt, alloc, workload, millis),
        _ => {
            let boards = boards_in(rt, alloc, word_at(words, 5))?;
            let least = measure_tables(rt, alloc, subject, workload, millis, &boards)?;
            println!(rt; "{least}")?;
            Ok(())
        }
    }
}

/// Does what the command line asks for: `screens` or `run`. The first word is the program's name.
pub fn run<R: Print + Files + AllocGlobal + Threads + Wait + Clock + Sync>(
    rt: &R,
    alloc: Global,
    words: &[String],
) -> Result<()> {
    match word_at(words, 1) {
        "screens" => print_screens(rt, alloc, &boards_in(rt, alloc, word_at(words, 2))?),
        "run" => measure(rt, alloc, words),
        _ => anyhow::bail!("screens FILE, or run SUBJECT WORKLOAD MS [FILE]"),
    }
}
