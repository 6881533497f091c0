//! The words of a command line: what a command takes, reading them, and clap's answer to them, each refusal with the
//! text that the program prints.
#![tactic(auto)]

mod arguments;
mod command_parts;
mod fault;
mod reading;
mod saying;

pub use arguments::{strings, values};
pub use command_parts::{with_arg, with_subcommand};
pub use fault::Fault;
pub use reading::{VERSION, matches_of, words};
pub use saying::say_fault;
