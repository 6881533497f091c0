//! A scan of a stream that owns a share of its plan, and makes a finder of its own for a long stream.
ghost use Rattle.std.specs.Prelude.{◌≡◌, ◌-◌, IfOk, IsOkUnless, length, min};
ghost use Rattle.std.specs.Arc.{arc_value};
ghost use Rattle.lit_plan.specs.declared.fault.Fault.TheVariants.{OutOfMemory};
ghost use Rattle.flow_scan.specs.Scanners.{FeedsUpTo, Scanning, started};
ghost use Rattle.lit_plan.specs.Bounds.{carry_of};

use crate::progress::Progress;
use lit_plan::{Compiled, Fault};
use std::alloc::Global;
use std::marker::Model;
use std::sync::Arc;
use text_ends::Hit;
use text_search::{EndFinder, make_if_long};

/// A scan of one stream like a `Scanner`, with a share of its plan. So it may outlive all other owners of the plan.
#[derive(Drop)]
pub struct Stream {
    plan: Arc<Compiled>,
    progress: Progress,
    /// The finder that tunes itself to the stream, once enough bytes were fed.
    finder: Option<EndFinder>,
}

impl Model for Stream {
    ghost use Rattle.std.specs.Prelude.{◌≡◌, IfSome};
    ghost use Rattle.flow_scan.specs.Scanners.{Scanning, scanning};
    ghost use Rattle.lit_plan.specs.Bounds.{carry_of};

    ghost Value = { Scanning };

    ghost view = { λ s. scanning s.plan.value s.progress };

    ghost invariant = { λ s. (s.progress.carry ≡ carry_of s.plan.value.literals)
        × IfSome s.finder (λ list. list ≡ s.plan.value.literals) };
}

impl Stream {
    /// A scan that counts its positions from `base`. The only refusal is `OutOfMemory`.
    pub fn new_at(alloc: Global, plan: Arc<Compiled>, base: u64) -> Result<Stream, Fault>
        ensures ok { IfOk result (λ s. s ≡ started (arc_value plan) base) }
        ensures refused { IsOkUnless result OutOfMemory }
    {
        let progress = Progress::new(alloc, plan.carry(), base)?;
        Ok(Stream {
            plan,
            progress,
            finder: None,
        })
    }

    /// The plan.
    pub fn plan(&self) -> &Compiled
        ensures { result.now ≡ self.now.plan }
    {
        &self.plan
    }

    /// Feeds the next piece up to the first end by which `out` gained at least `most` hits (0 counts as 1), or all of
    /// it. Adds the hits that end in the fed bytes: in order, each once, their ends counted from the scan's base.
    /// Returns how many bytes were fed.
    ///
    /// Refusals: `StreamTooLong` if the position would pass 2^64 - 1 with the whole piece, and `OutOfMemory`, which
    /// comes only if a literal ends in the piece. A refusal leaves the scan and `out` unchanged.
    pub fn feed_until(
        &mut self,
        alloc: Global,
        piece: &[u8],
        most: usize,
        out: &mut Vec<Hit>,
    ) -> Result<usize, Fault>
        ensures { FeedsUpTo self.old self.new piece.now most out.old.items out.new.items result }
    {
        let compiled: &Compiled = &self.plan;
        let count = self.progress.fed().saturating_add(piece.len() as u64);
        make_if_long(&mut self.finder, alloc, compiled, count);
        self.progress
            .feed_by(&mut self.finder, compiled, piece, most, out)
    }

    /// The position reached: the base and how many bytes were fed.
    pub fn place(&self) -> u64
        ensures place { result ≡ self.now.place }
        ensures tail { length self.now.tail ≡ min (result - self.now.base) (carry_of self.now.plan.literals) }
    {
        self.progress.place()
    }

    /// An equal scan: from here on both give the same hits. The only refusal is `OutOfMemory`.
    pub fn copy(&self) -> Result<Stream, Fault>
        ensures ok { IfOk result (λ s. s ≡ self.now) }
        ensures refused { IsOkUnless result OutOfMemory }
    {
        let progress = self.progress.copy()?;
        match Arc::try_clone(&self.plan) {
            Ok(plan) => Ok(Stream {
                plan,
                progress,
                finder: None,
            }),
            Err(_) => Err(Fault::OutOfMemory),
        }
    }

    /// Begins a new stream by the same plan, which counts its positions from `base`. It takes no memory.
    pub fn restart(&mut self, base: u64)
        ensures { self.new ≡ started self.old.plan base }
    {
        self.progress.restart(base);
    }
}
