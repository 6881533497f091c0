//! A walk over the ends in a text, which is the interface of an engine, and the loop that adds the hits of any walk.
ghost use Rattle.std.specs.Prelude.{◌≡◌, ℕ, ◌+◌, ◌-◌, ◌^◌, ◌<◌, ◌≤◌, IfOk, IfSome, IsOk, MatchOption, OnErr, OnOk, length};
ghost use Rattle.std.specs.Option.{IfNone};
ghost use Rattle.lit_base.specs.NextEnds.{IsNextEnd, NoEndAfter};
ghost use Rattle.text_ends.specs.HitsAt.{Extends, GainsHitsAt};
ghost use Rattle.text_ends.specs.HitsAfter.{StopsAt};
ghost use Rattle.text_ends.specs.Walks.{HasGoneOn, Walk};

use crate::hit::Hit;
use std::alloc::AllocError;

/// A walk over the positions of one text at which some literal ends.
pub trait EndWalk {
    ghost walk: { Self → Walk };

    /// The number that comes with an end identifies the literals there: it is the first of them, or a state of an
    /// automaton.
    ghost identifies: { Self → ℕ → ℕ → Type 0 };

    /// The next position at which some literal ends, with the number that identifies the literals there. The walk moves
    /// to this position. It takes no memory.
    fn next_end(&mut self) -> Option<(usize, usize)>
        ensures next { let before = walk self.old in MatchOption result
            (NoEndAfter before.literals before.text before.from)
            (λ found. IsNextEnd before.literals before.text before.from found.0) }
        ensures identifies { IfSome result (λ found. identifies self.new found.0 found.1) }
        ensures moved { IfSome result (λ found. walk self.new ≡ record (walk self.old) { from = found.0 }) }
        ensures over { IfNone result (HasGoneOn (walk self.old) (walk self.new)) };

    /// Adds the hits at an end that was found, counted as `at`. When memory is refused, earlier hits stay added.
    fn add_hits_at(
        &self,
        end: usize,
        number: usize,
        at: u64,
        out: &mut Vec<Hit>,
    ) -> Result<(), AllocError>
        requires { identifies self.now end number }
        ensures ok { OnOk result (GainsHitsAt (walk self.now).literals (walk self.now).text end at out.old.items out.new.items) }
        ensures few { OnOk result (length out.new.items ≤ length out.old.items + length (walk self.now).literals.texts) }
        ensures kept { Extends out.old.items out.new.items };
}

/// Adds the hits that end in the text after `from`, up to the first end by which `out` gained at least `most` hits (0
/// counts as 1). The walk starts at `from`, which counts as `at`. Returns this end, or the text's length. Memory is
/// refused only after a hit was found; `out` is then unchanged.
pub fn add_hits_of<E: EndWalk>(
    ends: &mut E,
    text: &[u8],
    from: usize,
    at: u64,
    most: usize,
    out: &mut Vec<Hit>,
) -> Result<usize, AllocError>
    requires text { (E.walk ends.old).text ≡ text.now }
    requires from { (E.walk ends.old).from ≡ from }
    requires inside { from ≤ length text.now }
    requires room { at + (length text.now - from) < 2 ^ 64 }
    ensures ok { IfOk result (λ stop. StopsAt (E.walk ends.old).literals text.now from at most stop out.old.items out.new.items) }
    ensures same_hits { OnErr result (out.new.items ≡ out.old.items) }
    ensures quiet { NoEndAfter (E.walk ends.old).literals text.now from → IsOk result }
{
    let before = out.len();
    let enough = most.max(1);
    while let Some((end, number)) = ends.next_end() {
        if let Err(refused) = ends.add_hits_at(end, number, at + (end - from) as u64, out) {
            out.truncate(before);
            return Err(refused);
        }
        if out.len() - before >= enough {
            return Ok(end);
        }
    }
    Ok(text.len())
}
