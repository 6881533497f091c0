//! The state of a scan of a stream, without its plan: what `Scanner` and `Stream` have in common.
ghost use Rattle.std.specs.Prelude.{◌≡◌, ◌+◌, ◌-◌, ◌^◌, ◌<◌, ◌++◌, IfOk, IsOk, OnErr, length, min};
ghost use Rattle.lit_base.specs.NextEnds.{NoEndAfter};
ghost use Rattle.flow_scan.specs.Scanners.{FeedsUpTo, Reached, scanning, started_at};
ghost use Rattle.flow_scan.specs.Boundaries.{AreOffered};
ghost use Rattle.flow_scan.specs.Tails.{StopsIn};
ghost use Rattle.lit_plan.specs.Bounds.{carry_of};

use crate::boundary::Boundary;
use lit_plan::{Compiled, Fault};
use std::alloc::{AllocError, Global};
use std::marker::Model;
use text_ends::Hit;
use text_search::HitSearch;

/// The position that a scan of a stream has reached, and the last bytes before it.
#[derive(Drop)]
pub(crate) struct Progress {
    base: u64,
    /// How many bytes were fed.
    count: u64,
    boundary: Boundary,
}

impl Model for Progress {
    ghost use Rattle.std.specs.Prelude.{◌+◌};
    ghost use Rattle.flow_scan.specs.Scanners.{IsProgress, Reached};

    ghost Value = { Reached };

    ghost view = { λ p. record {
      base = p.base;
      place = p.base + p.count;
      carry = p.boundary.carry;
      tail = p.boundary.tail;
    } };

    ghost invariant = { λ p. IsProgress p.base p.count p.boundary };
}

impl Progress {
    /// The state of a scan that was fed nothing and counts positions from `base`. It keeps at most `carry` bytes.
    pub(crate) fn new(alloc: Global, carry: usize, base: u64) -> Result<Progress, AllocError>
        requires { carry < 2 ^ 32 }
        ensures { IfOk result (λ p. p ≡ started_at carry base) }
    {
        let boundary = Boundary::new(alloc, carry)?;
        Ok(Progress {
            base,
            count: 0,
            boundary,
        })
    }

    /// The position reached: the base and how many bytes were fed.
    pub(crate) fn place(&self) -> u64
        ensures place { result ≡ self.now.place }
        ensures tail { length self.now.tail ≡ min (result - self.now.base) self.now.carry }
    {
        self.base + self.count
    }

    /// How many bytes were fed.
    pub(crate) fn fed(&self) -> u64
        ensures { self.now.place ≡ self.now.base + result }
    {
        self.count
    }

    /// Feeds the next piece up to the first end by which `out` gained at least `most` hits, or all of it. Adds the hits
    /// that the search finds in the fed bytes, and returns how many bytes were fed.
    ///
    /// Refusals: `StreamTooLong` if the position would pass 2^64 - 1 with the whole piece, and `OutOfMemory`. They
    /// leave this state and `out` unchanged.
    pub(crate) fn feed_by<S: HitSearch>(
        &mut self,
        search: &mut S,
        compiled: &Compiled,
        piece: &[u8],
        most: usize,
        out: &mut Vec<Hit>,
    ) -> Result<usize, Fault>
        requires plan { S.serves search.old compiled.now.literals }
        requires carry { self.old.carry ≡ carry_of compiled.now.literals }
        ensures plan { S.serves search.new compiled.now.literals }
        ensures carry { self.new.carry ≡ self.old.carry }
        ensures fed { FeedsUpTo (scanning compiled.now self.old) (scanning compiled.now self.new) piece.now most out.old.items out.new.items result }
    {
        if piece.len() as u64 > u64::MAX - self.place() {
            return Err(Fault::StreamTooLong);
        }
        self.boundary.offer(piece);
        let at = self.place();
        let count = add_piece(search, compiled, &self.boundary, piece, at, most, out)?;
        self.boundary.commit(piece, count);
        self.count += count as u64;
        Ok(count)
    }

    /// An equal state.
    pub(crate) fn copy(&self) -> Result<Progress, AllocError>
        ensures { IfOk result (λ p. p ≡ self.now) }
    {
        let boundary = self.boundary.copy()?;
        Ok(Progress {
            base: self.base,
            count: self.count,
            boundary,
        })
    }

    /// Begins anew, counting positions from `base`. It takes no memory.
    pub(crate) fn restart(&mut self, base: u64)
        ensures { self.new ≡ started_at self.old.carry base }
    {
        self.base = base;
        self.count = 0;
        self.boundary.restart();
    }
}

/// Adds the hits that end in a piece, up to the first end by which `out` gained at least `most` hits. It searches the
/// offered bytes of the piece at the boundary, after the tail, and then the rest in place. Returns how many bytes of
/// the piece lie up to this end, or its length. When memory is refused, `out` is unchanged.
fn add_piece<S: HitSearch>(
    search: &mut S,
    compiled: &Compiled,
    boundary: &Boundary,
    piece: &[u8],
    at: u64,
    most: usize,
    out: &mut Vec<Hit>,
) -> Result<usize, AllocError>
    requires plan { S.serves search.old compiled.now.literals }
    requires carry { boundary.now.carry ≡ carry_of compiled.now.literals }
    requires prefix { AreOffered boundary.now.carry piece.now boundary.now.prefix }
    requires room { at + length piece.now < 2 ^ 64 }
    ensures plan { S.serves search.new compiled.now.literals }
    ensures ok { IfOk result (λ count. StopsIn compiled.now.literals boundary.now.tail piece.now at most count out.old.items out.new.items) }
    ensures same_hits { OnErr result (out.new.items ≡ out.old.items) }
    ensures quiet { NoEndAfter compiled.now.literals (boundary.now.tail ++ piece.now) (length boundary.now.tail) → IsOk result }
{
    let before = out.len();
    let enough = most.max(1);
    let stop = search.add_hits(
        compiled,
        boundary.text(),
        boundary.tail_len(),
        at,
        most,
        out,
    )?;
    let gained = out.len() - before;
    if gained >= enough {
        return Ok(stop - boundary.tail_len());
    }
    if piece.len() <= boundary.ahead() {
        return Ok(stop - boundary.tail_len());
    }
    let carry = compiled.carry();
    let rest = most - gained;
    match search.add_hits(compiled, piece, carry, at + carry as u64, rest, out) {
        Ok(stop) => Ok(stop),
        Err(refused) => {
            out.truncate(before);
            Err(refused)
        }
    }
}
