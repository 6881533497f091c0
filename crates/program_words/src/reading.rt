//! The words of the command line, and clap's answer to them.
ghost use Rattle.std.specs.Prelude.{◌≡◌, IfErr, IfOk, map, string_bytes, true};
ghost use Rattle.clap.specs.Takes.{takes};
ghost use Rattle.clap.specs.Words.{HasMatchesOf, app_of};
ghost use Rattle.clap.specs.Values.{kind_of};
ghost use Rattle.clap.specs.declared.error.kind.ErrorKind.TheVariants.{OutOfMemory as NoMemory};
ghost use Rattle.program_words.specs.Words.{IsUnread};
ghost use Rattle.program_words.specs.declared.fault.Fault.TheVariants.{OutOfMemory};

use crate::fault::Fault;
use clap::error::ErrorKind;
use clap::{ArgMatches, Command, Error};
use std::alloc::Global;
use std::io;
use std::rt::Env;

/// The version of each program, as `--version` prints it.
pub const VERSION: &str = "0.2.0";

/// The words after the program's name.
///
/// # Errors
/// - `Usage` where one is not UTF-8, with the message that a program of this name prints.
/// - `OutOfMemory` where a growth was refused.
pub fn words<R: Env + AllocGlobal>(rt: &R, program: &str) -> Result<Vec<String>, Fault>
    ensures { IfErr result (IsUnread program.now) }
{
    match std::env::args(rt) {
        Ok(words) => Ok(words.skip(1).collect(rt.alloc())?),
        Err(error) => Err(unreadable(rt.alloc(), program, &error)),
    }
}

/// Why the words cannot be read.
fn unreadable(alloc: Global, program: &str, error: &io::Error) -> Fault
    ensures { IsUnread program.now result }
{
    if error.kind() == io::ErrorKind::OutOfMemory {
        return Fault::OutOfMemory;
    }
    Fault::usage(format!(in alloc; "{program}: a word is not UTF-8\n"))
}

/// What clap matches in the words after the program's name.
///
/// # Errors
/// - `Usage` where clap gives no matches, help and version included, with clap's text.
/// - `OutOfMemory` where a growth was refused.
pub fn matches_of<'a>(
    alloc: Global,
    command: Command<'a>,
    words: &'a [String],
) -> Result<ArgMatches<'a>, Fault>
    ensures matches { IfOk result (HasMatchesOf (app_of command.entry) (map string_bytes words.entry.now)) }
    ensures refused { IfErr result (λ fault. takes (app_of command.entry) (map string_bytes words.entry.now) ≡ true → fault ≡ OutOfMemory) }
{
    match command.try_get_matches_from(words) {
        Ok(matches) => Ok(matches),
        Err(error) => Err(refusal(alloc, &error)),
    }
}

/// The text that clap has for the words, or want of memory.
fn refusal(alloc: Global, error: &Error) -> Fault
    ensures { kind_of error.now ≡ NoMemory → result ≡ OutOfMemory }
{
    if error.kind() == ErrorKind::OutOfMemory {
        return Fault::OutOfMemory;
    }
    Fault::usage(error.to_string(alloc))
}
