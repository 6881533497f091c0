//! A scan of a stream that borrows its plan and searches by its prefilter alone, or by a finder of the caller.
ghost use Rattle.std.specs.Prelude.{◌≡◌, ◌-◌, IfOk, IsOkUnless, OnOk, length, min};
ghost use Rattle.lit_plan.specs.declared.fault.Fault.TheVariants.{OutOfMemory};
ghost use Rattle.flow_scan.specs.Scanners.{FeedsUpTo, MayRefuse, Scanning, fed, started};
ghost use Rattle.flow_scan.specs.Tails.{GainsHits};
ghost use Rattle.lit_plan.specs.Bounds.{carry_of};

use crate::progress::Progress;
use lit_plan::{Compiled, Fault};
use std::alloc::Global;
use std::marker::Model;
use text_ends::Hit;
use text_search::{HitSearch, PrefilterSearch};

/// A scan of one stream by a plan. The stream comes in pieces, cut anywhere. The scan gives every hit once and in
/// order. Between pieces it keeps only the last bytes, fewer than the longest literal has. It takes this memory when it
/// is made.
#[derive(Drop)]
pub struct Scanner<'p> {
    compiled: &'p Compiled,
    progress: Progress,
}

impl<'p> Model for Scanner<'p> {
    ghost use Rattle.std.specs.Prelude.{◌≡◌};
    ghost use Rattle.flow_scan.specs.Scanners.{Scanning, scanning};
    ghost use Rattle.lit_plan.specs.Bounds.{carry_of};

    ghost Value = { Scanning };

    ghost view = { λ s. scanning s.compiled.now s.progress };

    ghost invariant = { λ s. s.progress.carry ≡ carry_of s.compiled.now.literals };
}

impl<'p> Scanner<'p> {
    /// A scan that counts positions from 0. The only refusal is `OutOfMemory`.
    pub fn new(alloc: Global, compiled: &'p Compiled) -> Result<Scanner<'p>, Fault>
        ensures ok { IfOk result (λ s. s ≡ started compiled.now 0) }
        ensures refused { IsOkUnless result OutOfMemory }
    {
        Scanner::new_at(alloc, compiled, 0)
    }

    /// A scan that counts positions from `base`. The only refusal is `OutOfMemory`.
    pub fn new_at(alloc: Global, compiled: &'p Compiled, base: u64) -> Result<Scanner<'p>, Fault>
        ensures ok { IfOk result (λ s. s ≡ started compiled.now base) }
        ensures refused { IsOkUnless result OutOfMemory }
    {
        let progress = Progress::new(alloc, compiled.carry(), base)?;
        Ok(Scanner { compiled, progress })
    }

    /// Feeds the next piece, and adds the hits that end in it to `out`: in order, each once, their ends counted from
    /// the scan's base.
    ///
    /// Refusals: `StreamTooLong` if the position would pass 2^64 - 1, and `OutOfMemory`, which comes only if a literal
    /// ends in the piece. A refusal leaves the scan and `out` unchanged.
    pub fn feed(&mut self, piece: &[u8], out: &mut Vec<Hit>) -> Result<(), Fault>
        ensures ok { OnOk result (self.new ≡ fed self.old piece.now) }
        ensures hits { OnOk result (GainsHits self.old.plan.literals self.old.tail piece.now self.old.place out.old.items out.new.items) }
        ensures refusals { MayRefuse self.old self.new piece.now out.old.items out.new.items result }
    {
        self.feed_until(&mut PrefilterSearch, piece, usize::MAX, out)?;
        Ok(())
    }

    /// Feeds the next piece up to the first end by which `out` gained at least `most` hits (0 counts as 1), or all of
    /// it. Adds the hits that end in the fed bytes, and returns how many bytes were fed. So `out` gains at most `most`
    /// hits and one for each literal.
    ///
    /// The search has the scan's plan: it is `PrefilterSearch`, or a finder that tunes itself to the pieces and may
    /// serve any number of scans by this plan. The hits do not depend on it.
    ///
    /// Refusals as for `feed`, for the whole piece. Once a piece is not too long, no rest of it is.
    pub fn feed_until<S: HitSearch>(
        &mut self,
        search: &mut S,
        piece: &[u8],
        most: usize,
        out: &mut Vec<Hit>,
    ) -> Result<usize, Fault>
        requires { S.serves search.old self.old.plan.literals }
        ensures search { S.serves search.new self.old.plan.literals }
        ensures fed { FeedsUpTo self.old self.new piece.now most out.old.items out.new.items result }
    {
        self.progress
            .feed_by(search, self.compiled, piece, most, out)
    }

    /// The position reached: the base and the number of bytes fed.
    pub fn place(&self) -> u64
        ensures place { result ≡ self.now.place }
        ensures tail { length self.now.tail ≡ min (result - self.now.base) (carry_of self.now.plan.literals) }
    {
        self.progress.place()
    }

    /// An equal scan: from here on both give the same hits. The only refusal is `OutOfMemory`.
    pub fn copy(&self) -> Result<Scanner<'p>, Fault>
        ensures ok { IfOk result (λ s. s ≡ self.now) }
        ensures refused { IsOkUnless result OutOfMemory }
    {
        let progress = self.progress.copy()?;
        Ok(Scanner {
            compiled: self.compiled,
            progress,
        })
    }
}
