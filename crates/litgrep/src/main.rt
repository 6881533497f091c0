//! `litgrep`: the lines that contain one of many literals. POSIX.1-2017 `grep` with -F, in the POSIX
//! locale.
#![tactic(auto)]

mod advice;
mod command;
mod help;
mod marked_words;
mod operand_files;
mod options;
mod request;
mod standard_input;
mod words;

use byte_io::ToWrite;
use std::process::ExitCode;

fn main(rt: HostRuntime) -> ExitCode {
    let mut out = ToWrite::new(rt.stdout());
    let mut err = ToWrite::new(rt.stderr());
    ExitCode::from(command::serve(&rt, rt.stdin(), &mut out, &mut err).code())
}
