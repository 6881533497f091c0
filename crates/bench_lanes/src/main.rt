//! How fast the filters of `lane_filter` are, compared with a scalar loop over the same tables and a search for one
//! byte. It prints nothing without arguments; `bench/README.md` says how to run it.
#![tactic(auto)]

mod contest;
mod texts;

use anyhow::{Context, Result, ensure};
use contest::measure;
use std::env;

fn main(rt: HostRuntime) -> Result<()> {
    let mut words = env::args(&rt)?.skip(1);
    let Some(word) = words.next() else {
        return Ok(());
    };
    let len = word
        .as_str()
        .parse::<usize>()
        .context("the number of bytes")?;
    ensure!((1..=1 << 30).contains(&len), "1 to 2^30 bytes");
    let count = match words.next() {
        Some(word) => word
            .as_str()
            .parse::<u16>()
            .context("the number of literals")?,
        None => 8,
    };
    ensure!((1..=1000).contains(&count), "1 to 1000 literals");
    measure(&rt, len, count)
}
