//! A text in parts, each scanned by a worker of its own.
ghost use Rattle.std.specs.Prelude.{◌+◌, ◌*◌, ◌<◌, ◌≤◌, IfOk, IsOk, IsOkUnless, length};
ghost use Rattle.lit_base.specs.Occurrences.{IsHits};
ghost use Rattle.lit_base.specs.NextEnds.{NoEndAfter};
ghost use Rattle.text_ends.specs.HitsAfter.{AreHitsAfter};
ghost use Rattle.par_scan.specs.declared.fault.Fault.TheVariants.{OutOfMemory};
ghost use denote.Param.Send.{IsSync};

use crate::fault::Fault;
use crate::gate::Gate;
use flow_scan::{Compiled, Hit, make_if_long, scan_after};
use std::alloc::Global;
use std::thread::{Threads, join};

/// How many workers may share a text.
pub const MAX_WORKERS: usize = 16;

/// All hits in a text, in order, found by 1 to 16 workers. Each calls the gate, scans a part of the text, and calls
/// the gate again. The parts are as even as they can be. The calling thread scans the part of a worker that cannot be
/// started, and waits for the others.
///
/// The only refusal is `OutOfMemory`.
pub fn scan_parts<R: Threads + Sync, G: Gate>(
    rt: &R,
    alloc: Global,
    gate: &G,
    compiled: &Compiled,
    text: &[u8],
    workers: usize,
) -> Result<Vec<Hit>, Fault>
    requires some { 1 ≤ workers }
    requires few { workers ≤ 16 }
    ensures ok { IfOk result (λ hits. IsHits compiled.now.literals text.now hits.items) }
    ensures refused { IsOkUnless result OutOfMemory }

    // Where nothing ends in the text, it needs no memory.
    ensures quiet { NoEndAfter compiled.now.literals text.now 0 → IsOk result }
{
    // Read here, the bound on the lengths of literals is known below.
    let _carry = compiled.carry();
    scan_parts_after(rt, alloc, gate, compiled, text, 0, workers)
}

/// The hits of a text that end after `from`, in order, found by workers as `scan_parts` finds all. Together with the
/// hits of the first `from` bytes they are the hits of the text.
///
/// The only refusal is `OutOfMemory`.
pub fn scan_parts_after<R: Threads + Sync, G: Gate>(
    rt: &R,
    alloc: Global,
    gate: &G,
    compiled: &Compiled,
    text: &[u8],
    from: usize,
    workers: usize,
) -> Result<Vec<Hit>, Fault>
    requires inside { from ≤ length text.now }
    requires some { 1 ≤ workers }
    requires few { workers ≤ 16 }
    ensures ok { IfOk result (λ hits. AreHitsAfter compiled.now.literals text.now from from hits.items) }
    ensures refused { IsOkUnless result OutOfMemory }

    // Where nothing ends after the position, it needs no memory.
    ensures quiet { NoEndAfter compiled.now.literals text.now from → IsOk result }
{
    if workers == 1 {
        return scan_part(alloc, gate, compiled, text, from, 1);
    }
    let mid = text.len() - last_part(text.len() - from, workers);
    let (prefix, _) = text.split_at(mid);
    let (last, before) = join(
        rt,
        || -> Result<Vec<Hit>, Fault>
            requires { mid ≤ length text.now }
            ensures ok { IfOk result (λ hits. AreHitsAfter compiled.entry.now.literals text.entry.now mid mid hits.items) }
            ensures refused { IsOkUnless result OutOfMemory }
            ensures quiet { NoEndAfter compiled.entry.now.literals text.entry.now mid → IsOk result }
        { scan_part(alloc, gate, compiled, text, mid, workers) },
        || -> Result<Vec<Hit>, Fault>
            requires { IsSync R.row × (from ≤ length prefix.now) × (1 < workers) × (workers ≤ 16) }
            ensures ok { IfOk result (λ hits. AreHitsAfter compiled.entry.now.literals prefix.entry.now from from hits.items) }
            ensures refused { IsOkUnless result OutOfMemory }
            ensures quiet { NoEndAfter compiled.entry.now.literals prefix.entry.now from → IsOk result }
        { scan_parts_after(rt, alloc, gate, compiled, prefix, from, workers - 1) },
    );
    let mut hits = before?;
    let mut more = last?;
    hits.append(&mut more)?;
    Ok(hits)
}

/// How many of `len` bytes the last worker scans. The parts of all workers differ by one byte at most.
fn last_part(len: usize, workers: usize) -> usize
    requires { 1 ≤ workers }
    ensures within { result ≤ len }
    ensures most { workers * result ≤ len }
    ensures all { len < workers * (result + 1) }
{
    len / workers
}

/// A worker's scan: the hits of a text that end after a position, by a finder if the rest of the text is long.
fn scan_part<G: Gate>(
    alloc: Global,
    gate: &G,
    compiled: &Compiled,
    text: &[u8],
    from: usize,
    worker: usize,
) -> Result<Vec<Hit>, Fault>
    requires { from ≤ length text.now }
    ensures ok { IfOk result (λ hits. AreHitsAfter compiled.now.literals text.now from from hits.items) }
    ensures refused { IsOkUnless result OutOfMemory }
    ensures quiet { NoEndAfter compiled.now.literals text.now from → IsOk result }
{
    gate.enter(worker);
    let mut finder = None;
    make_if_long(&mut finder, alloc, compiled, (text.len() - from) as u64);
    let hits = scan_after(&mut finder, alloc, compiled, text, from);
    gate.leave(worker);
    match hits {
        Ok(hits) => Ok(hits),
        Err(_) => Err(Fault::OutOfMemory),
    }
}
