//! Checks a certificate that somebody else made: `example_check PATTERNS CERTIFICATE` prints what the cheapest grouping
//! of the patterns costs, if the certificate shows it, and else the first condition that fails.
#![tactic(auto)]

mod judging;

use anyhow::{Result, bail};
use judging::{least_cost, read};
use std::env;

fn main(rt: HostRuntime) -> Result<()> {
    let words: Vec<String> = env::args(&rt)?.skip(1).collect(rt.alloc())?;
    match words.as_slice() {
        [patterns, certificate] => judge(&rt, patterns, certificate),
        _ => bail!("usage: example_check PATTERNS CERTIFICATE"),
    }
}

/// Prints what the certificate in a file shows of the patterns in another one.
fn judge(rt: &HostRuntime, patterns: &str, certificate: &str) -> Result<()> {
    let (list, certificate) = read(rt, patterns, certificate)?;
    match least_cost(&list, &certificate) {
        Ok(cost) => println!(rt; "yes {cost}")?,
        Err(reason) => println!(rt; "no: {reason}")?,
    }
    Ok(())
}
