//! A text in spans. All workers scan a span, and its hits are written, before they scan the next.
ghost use Rattle.std.specs.Prelude.{◌≡◌, ◌<◌, Err, IfOk, IsErr, length};
ghost use Rattle.lit_base.specs.NextEnds.{NoEndAfter};
ghost use Rattle.plan_run.specs.declared.stop.Stop.TheVariants.{OutOfMemory};
ghost use Rattle.plan_run.specs.Spans.{IsSpan};

use crate::stop::Stop;
use crate::workers::Workers;
use lit_plan::Compiled;
use par_scan::{Fault, NoGate, scan_parts_after};
use std::alloc::Global;
use std::thread::Threads;
use text_ends::Hit;

/// How many bytes of a span each worker scans.
const BYTES_AT_ONCE: usize = 1 << 24;

/// A span of a text.
#[derive(Debug, Drop)]
pub struct Span {
    /// Where the span ends.
    pub end: usize,
    /// The hits that end in the span, in order.
    pub hits: Vec<Hit>,
}

/// Scans the next span of a text, from a position on, by several workers. The only error is `OutOfMemory`, which comes
/// only if something ends after the position.
pub fn next_span<'a, R: Threads + Sync>(
    rt: &R,
    alloc: Global,
    compiled: &Compiled,
    workers: Workers,
    text: &[u8],
    from: usize,
) -> Result<Span, Stop<'a>>
    requires { from < length text.now }
    ensures ok { IfOk result (λ span. IsSpan compiled.now.literals text.now from span.end span.hits.items) }
    ensures starved { IsErr result → result ≡ Err OutOfMemory }
    ensures quiet { IsErr result → ¬ NoEndAfter compiled.now.literals text.now from }
{
    let most = BYTES_AT_ONCE * workers.count();
    let end = from + (text.len() - from).min(most);
    let (prefix, _) = text.split_at(end);
    match scan_parts_after(rt, alloc, &NoGate, compiled, prefix, from, workers.count()) {
        Ok(hits) => Ok(Span { end, hits }),
        Err(Fault::OutOfMemory) => Err(Stop::OutOfMemory),
    }
}
