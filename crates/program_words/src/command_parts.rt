//! A command made of parts for which memory may be refused.
ghost use Rattle.std.specs.Prelude.{IfOk, IsOkAnd};
ghost use Rattle.clap.specs.Words.{AddsArg, AddsSubcommand};

use clap::{Arg, Command};
use std::alloc::AllocError;

/// The command with this argument, or the error where a growth was refused for either. Where an argument is made within
/// a chain of calls on a command, the proof of each `?` has to drop the command; here one proof does so for all.
pub fn with_arg<'a>(
    command: Command<'a>,
    arg: Result<Arg<'a>, AllocError>,
) -> Result<Command<'a>, AllocError>
    ensures { IfOk result (λ new. IsOkAnd arg.entry (λ added. AddsArg command.entry added new)) }
{
    command.arg(arg?)
}

/// The command with this subcommand, or the error where a growth was refused for either.
pub fn with_subcommand<'a>(
    command: Command<'a>,
    subcommand: Result<Command<'a>, AllocError>,
) -> Result<Command<'a>, AllocError>
    ensures { IfOk result (λ new. IsOkAnd subcommand.entry (λ added. AddsSubcommand command.entry added new)) }
{
    command.subcommand(subcommand?)
}
