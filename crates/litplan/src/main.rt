//! `litplan`: plans how literals are grouped, certifies that no grouping is cheaper, and finds them by
//! several workers at once.
#![tactic(auto)]

mod command;
mod commands;
mod help;
mod requests;

use byte_io::{SystemFiles, ToWrite};
use command::serve;
use std::process::ExitCode;

fn main(rt: HostRuntime) -> ExitCode {
    let mut files = SystemFiles::new(&rt, rt.stdin());
    let mut out = ToWrite::new(rt.stdout());
    let mut err = ToWrite::new(rt.stderr());
    ExitCode::from(serve(&rt, &mut files, &mut out, &mut err).code())
}
