//! Finds the patterns of a file in standard input, in either case: `example_scan PATTERNS` prints of each occurrence
//! where it starts, the literal, and the first line of the file that asks for it.
//!
//! It is there to be copied from: `planning.rt` goes from patterns to a plan, `finding.rt` from a stream to hits, and
//! `printing.rt` from a hit to its literal, its start and its pattern.
#![tactic(auto)]

mod finding;
mod planning;
mod printing;

use anyhow::{Result, bail};
use byte_io::{FromRead, ToWrite};
use finding::find;
use flow_scan::{Compiled, Scanner};
use planning::plan_of;
use std::alloc::{AllocError, Global};
use std::{env, fs};

/// How many bytes are read at once, at most.
const PIECE: usize = 65536;

fn main(rt: HostRuntime) -> Result<()> {
    let words: Vec<String> = env::args(&rt)?.skip(1).collect(rt.alloc())?;
    match words.as_slice() {
        [patterns] => run(&rt, patterns),
        _ => bail!("usage: example_scan PATTERNS"),
    }
}

/// Finds the patterns of a file.
fn run(rt: &HostRuntime, name: &str) -> Result<()> {
    let file = fs::read(rt, name)?;
    let (plan, lines) = plan_of(rt.alloc(), file.as_slice())?;
    find_all(rt, &plan, &lines)
}

/// Finds the literals of a plan in standard input.
fn find_all(rt: &HostRuntime, plan: &Compiled, lines: &[u64]) -> Result<()> {
    let mut scanner = Scanner::new(rt.alloc(), plan)?;
    let mut buffer = buffer_of(rt.alloc(), PIECE)?;
    let (mut input, mut out) = (FromRead::new(rt.stdin()), ToWrite::new(rt.stdout()));
    find(
        rt.alloc(),
        plan,
        lines,
        &mut scanner,
        &mut buffer,
        &mut input,
        &mut out,
    )
}

/// A buffer of `len` bytes.
fn buffer_of(alloc: Global, len: usize) -> Result<Vec<u8>, AllocError> {
    vec![in alloc; 0; len]
}
