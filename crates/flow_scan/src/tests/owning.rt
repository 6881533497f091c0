//! The only function in the tests that owns a finder. Each owner has to prove at each of its exits that the whole
//! finder may be dropped, which takes long.
ghost use Rattle.std.specs.Prelude.{◌≡◌};

use crate::tests::choosing::changes_the_same;
use crate::tests::finding::{find_the_same, goes_over_to_factors};
use crate::tests::going_on::go_on_the_same;
use crate::tests::scanned::scans_the_same;
use crate::tests::streamed::{feed_the_same, tunes_in_pieces};
use lit_plan::Compiled;
use std::alloc::Global;
use text_search::EndFinder;

/// How a finder is tested.
#[derive(Clone, Copy)]
pub(super) enum How {
    /// End after end, at last in pieces of this length.
    Ends(usize),
    /// One search that continues after each end.
    EndsGoingOn,
    /// All hits.
    Hits,
    /// As streams.
    Stream,
    /// As a stream in pieces of this length, with tuning.
    StreamTuned(usize),
    /// With changes of the engine, drawn from a seed.
    Changing(u64),
    /// End after end in a text of near-misses, which make it leave the plan, in pieces of this length.
    NearMisses(usize),
}

/// Whether a new finder finds in a text what the plan alone finds.
pub(super) fn agrees(alloc: Global, compiled: &Compiled, text: &[u8], how: How) -> Option<bool> {
    let mut finder = EndFinder::new(alloc, compiled).ok()?;
    agrees_by(alloc, compiled, &mut finder, text, how)
}

/// As above, for this finder.
fn agrees_by(
    alloc: Global,
    compiled: &Compiled,
    finder: &mut EndFinder,
    text: &[u8],
    how: How,
) -> Option<bool>
    requires { finder.old ≡ compiled.now.literals }
{
    match how {
        How::Ends(size) => Some(find_the_same(compiled, finder, text, size)),
        How::EndsGoingOn => Some(go_on_the_same(compiled, finder, text)),
        How::Hits => scans_the_same(alloc, compiled, finder, text),
        How::Stream => feed_the_same(alloc, compiled, finder, text),
        How::StreamTuned(size) => tunes_in_pieces(alloc, compiled, finder, text, size),
        How::Changing(seed) => changes_the_same(alloc, compiled, finder, text, seed),
        How::NearMisses(size) => Some(goes_over_to_factors(compiled, finder, text, size)),
    }
}
