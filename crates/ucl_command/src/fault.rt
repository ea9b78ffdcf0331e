//! The words of the command line, parsed by `clap`, and why they name nothing to do (`LineFault`).

ghost use Rattle.std.specs.Prelude.{IfOk, map, string_bytes};
ghost use Rattle.clap.specs.Simple.{HasMatchesOf, app_of};
ghost use Rattle.ucl_command.specs.declared.fault.LineFault.TheVariants.{OutOfMemory};
ghost use Rattle.ucl_command.specs.Arguments.{ReadsJust};

use crate::help::{NOT_UTF_8, UNREAD};
use clap::error::ErrorKind;
use clap::{ArgMatches, Command, Error};
use std::alloc::{AllocError, AllocGlobal, Global};
use std::env::Env;
use std::{env, io};

/// Why arguments name nothing to do.
#[derive(Debug, Drop)]
pub enum LineFault {
    /// Help or the version was asked for, and is this text.
    Help(String),
    /// The arguments are refused, as this text says.
    Refused(String),
    /// 23: memory was asked for, and there was none.
    OutOfMemory,
}

impl From<AllocError> for LineFault {
    ghost use Rattle.std.specs.Prelude.{◌≡◌};

    ghost from_gives = { λ _ fault. fault ≡ OutOfMemory };

    /// Returns `OutOfMemory`.
    fn from(_error: AllocError) -> LineFault {
        LineFault::OutOfMemory
    }
}

/// Returns `Refused` with this text, or `OutOfMemory` if there is no memory for it.
fn refusal(alloc: Global, text: &str) -> LineFault {
    match String::from_str(alloc, text) {
        Ok(text) => LineFault::Refused(text),
        Err(_) => LineFault::OutOfMemory,
    }
}

/// Collects the words of the command line. The first word is the program's name.
///
/// # Errors
///
/// `Refused` if a word is not UTF-8, with a text that says so, and `OutOfMemory`.
pub fn words_of<R: Env + AllocGlobal>(rt: &R, alloc: Global) -> Result<Vec<String>, LineFault> {
    match env::args(rt) {
        Ok(words) => Ok(words.collect::<Vec<String>>(alloc)?),
        Err(error) if error.kind() == io::ErrorKind::OutOfMemory => Err(LineFault::OutOfMemory),
        Err(_) => Err(refusal(alloc, NOT_UTF_8)),
    }
}

/// Returns the fault for an error of `clap`, which is help, a refusal or lack of memory; an empty text of `clap` is replaced by ours.
fn fault_of(alloc: Global, error: &Error) -> LineFault {
    if error.kind() == ErrorKind::OutOfMemory {
        return LineFault::OutOfMemory;
    }
    match error.to_string(alloc) {
        Err(_) => LineFault::OutOfMemory,
        Ok(text) if text.is_empty() => refusal(alloc, UNREAD),
        Ok(text) if error.use_stderr() => LineFault::Refused(text),
        Ok(text) => LineFault::Help(text),
    }
}

/// Parses the words by a command of `clap`. `Err` if help is asked for, the words are refused, or there is no memory.
pub(crate) fn matches_from<'a>(
    alloc: Global,
    command: Command<'a>,
    words: &'a [String],
) -> Result<ArgMatches<'a>, LineFault>
    ensures { IfOk result (HasMatchesOf (app_of command.entry) (map string_bytes words.entry.now)) }
{
    command
        .try_get_matches_from(words)
        .map_err(|error| fault_of(alloc, &error))
}

/// Returns what was found in the arguments, or `Err` with a refusal if nothing was, since `clap` has left something out.
pub(crate) fn read<T>(alloc: Global, found: Option<T>) -> Result<T, LineFault>
    ensures { ReadsJust found result }
{
    match found {
        Some(read) => Ok(read),
        None => Err(refusal(alloc, UNREAD)),
    }
}
