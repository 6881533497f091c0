//! Scans of whole texts, and the law on scans in pieces.
ghost use Rattle.std.specs.Prelude.{◌≡◌, ◌^◌, ◌<◌, ◌≤◌, ◌⊎◌, IfErr, IfOk, IsErr, IsOk, IsOkUnless, length};
ghost use Rattle.std.specs.List.{concat};
ghost use Rattle.lit_base.specs.Assignments.{NoAssignmentBelow};
ghost use Rattle.lit_base.specs.Profiles.{buckets};
ghost use Rattle.lit_base.specs.Occurrences.{IsHits};
ghost use Rattle.lit_plan.specs.declared.fault.Fault.TheVariants.{OutOfMemory, StreamTooLong};
ghost use Rattle.lit_base.specs.NextEnds.{NoEndAfter};
ghost use Rattle.text_ends.specs.HitsAfter.{AreHitsAfter, Continues};
ghost use Rattle.text_search.specs.Searched.{AddsHits};
ghost use Rattle.flow_scan.specs.Tails.{PiecesLaw, bytes_of};

use crate::scanner::Scanner;
use lit_base::LitList;
use lit_plan::{Compiled, Fault, carry, least_law};
use std::alloc::Global;
use text_ends::Hit;
use text_search::{HitSearch, PrefilterSearch};

/// All hits in a text, in order. The only refusal is `OutOfMemory`.
pub fn scan_all(alloc: Global, compiled: &Compiled, text: &[u8]) -> Result<Vec<Hit>, Fault>
    ensures ok { IfOk result (λ hits. IsHits compiled.now.literals text.now hits.items) }
    ensures refused { IsOkUnless result OutOfMemory }

    // Where nothing ends in the text, it takes no memory.
    ensures quiet { NoEndAfter compiled.now.literals text.now 0 → IsOk result }
{
    // Read here, the bound on the lengths of literals is known below.
    let _carry = compiled.carry();
    let hits = scan_after(&mut PrefilterSearch, alloc, compiled, text, 0)?;
    Ok(hits)
}

/// The hits of a text that end after `from`, in order. Together with the hits of the first `from` bytes they are the
/// hits of the text. They do not depend on the search: `PrefilterSearch`, or a finder, which tunes itself on the way.
/// The only refusal is `OutOfMemory`.
pub fn scan_after<S: HitSearch>(
    search: &mut S,
    alloc: Global,
    compiled: &Compiled,
    text: &[u8],
    from: usize,
) -> Result<Vec<Hit>, Fault>
    requires plan { S.serves search.old compiled.now.literals }
    requires inside { from ≤ length text.now }
    ensures plan { S.serves search.new compiled.now.literals }
    ensures ok { IfOk result (λ hits. AreHitsAfter compiled.now.literals text.now from from hits.items) }
    ensures continues { IfOk result (λ hits. Continues compiled.now.literals text.now from hits.items) }
    ensures refused { IsOkUnless result OutOfMemory }

    // Where nothing ends after the position, it takes no memory.
    ensures quiet { NoEndAfter compiled.now.literals text.now from → IsOk result }
{
    // Read here, the bound on the lengths of literals is known below.
    let _carry = compiled.carry();
    let mut hits = Vec::new(alloc);
    scan_until(search, compiled, text, from, usize::MAX, &mut hits)?;
    Ok(hits)
}

/// Adds to `out` the hits of a text that end after `from`, up to the first end by which `out` gained at least `most`
/// hits (0 counts as 1). Returns this end, or the text's length. A scan from there continues with the next hit. So
/// `out` gains at most `most` hits and one for each literal. They do not depend on the search.
///
/// The only refusal is `OutOfMemory`, which comes only if a literal ends after `from`. It leaves `out` unchanged.
pub fn scan_until<S: HitSearch>(
    search: &mut S,
    compiled: &Compiled,
    text: &[u8],
    from: usize,
    most: usize,
    out: &mut Vec<Hit>,
) -> Result<usize, Fault>
    requires plan { S.serves search.old compiled.now.literals }
    requires inside { from ≤ length text.now }
    ensures plan { S.serves search.new compiled.now.literals }
    ensures hits { AddsHits compiled.now.literals text.now from from most out.old.items out.new.items result }
    ensures refused { IsOkUnless result OutOfMemory }
{
    Ok(search.add_spans(compiled, text, from, most, out)?)
}

/// The guarantees of a plan and its scan, on one call that feeds a scanner any pieces. No assignment of the literals to
/// at most as many buckets as its profile has costs less than the plan's certificate says. The returned hits are
/// exactly the literals and ends that occur in the joined pieces, each once and in order.
///
/// Refusals: `StreamTooLong` if the pieces together have 2^64 bytes or more, and `OutOfMemory`.
pub fn scan_pieces(
    alloc: Global,
    compiled: &Compiled,
    pieces: &[Vec<u8>],
) -> Result<Vec<Hit>, Fault>
    ensures least { NoAssignmentBelow (buckets compiled.now.certificate.profile) compiled.now.literals compiled.now.certificate.cost }
    ensures hits { IfOk result (λ hits. IsHits compiled.now.literals (concat (bytes_of pieces.now)) hits.items) }
    ensures refused { IfErr result (λ fault. (fault ≡ OutOfMemory)
        ⊎ ((fault ≡ StreamTooLong) × (2 ^ 64 ≤ length (concat (bytes_of pieces.now))))) }
    ensures too_long { 2 ^ 64 ≤ length (concat (bytes_of pieces.now)) → IsErr result }
{
    least_law(compiled);
    // Read here, the bound on the lengths of literals is known below.
    let _carry = compiled.carry();
    let mut scanner = Scanner::new(alloc, compiled)?;
    let mut hits = Vec::new(alloc);
    for piece in pieces {
        scanner.feed(piece, &mut hits)?;
    }
    Ok(hits)
}

/// The law that a stream may be cut anywhere. Starting with no bytes, the steps of `feed` over the pieces give exactly
/// the hits of the joined pieces, counted from the base of the scan.
pub fn pieces_law(list: &LitList, pieces: &[Vec<u8>])
    requires { 0 < length list.now.texts }
    ensures { PiecesLaw list.now (bytes_of pieces.now) }
{
    // Read here, the bound on the lengths of literals is known below.
    let _carry = carry(list);
}
