//! From a stream to hits.
use crate::printing::push_hits;
use anyhow::{Result, bail};
use byte_io::{ByteIn, ByteOut, write_all};
use flow_scan::{Compiled, Scanner};
use std::alloc::Global;

/// Feeds the input to a scan by the plan, to its end, and writes the lines of the hits. The buffer takes one read; the
/// hits are the same for any length of it. The hits of a piece are written before the next one is read.
pub fn find<I: ByteIn, O: ByteOut>(
    alloc: Global,
    plan: &Compiled,
    lines: &[u64],
    scanner: &mut Scanner<'_>,
    buffer: &mut [u8],
    input: &mut I,
    out: &mut O,
) -> Result<()> {
    let mut hits = Vec::new(alloc);
    let mut text = Vec::new(alloc);
    for _ in 0..u64::MAX {
        let Ok(count) = input.read_some(buffer) else {
            bail!("a read failed");
        };
        if count == 0 {
            break;
        }
        hits.clear();
        scanner.feed(&buffer[..count], &mut hits)?;
        text.clear();
        push_hits(plan, lines, &hits, &mut text)?;
        if write_all(out, &text).is_err() {
            bail!("a write failed");
        }
    }
    Ok(())
}
