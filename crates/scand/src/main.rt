//! `scand`: scans byte streams for many literals at once, for clients that speak frames.
#![tactic(auto)]

mod command;
mod help;
mod words;

use byte_io::{FromRead, SystemFiles, ToWrite};
use std::process::ExitCode;

fn main(rt: HostRuntime) -> ExitCode {
    let mut files = SystemFiles::new(&rt, rt.stdin());
    let mut input = FromRead::new(rt.stdin());
    let mut out = ToWrite::new(rt.stdout());
    let mut err = ToWrite::new(rt.stderr());
    ExitCode::from(command::serve(&rt, &mut files, &mut input, &mut out, &mut err).code())
}
