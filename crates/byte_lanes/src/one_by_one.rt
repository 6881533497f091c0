//! The filter, position by position.
ghost use Rattle.std.specs.Prelude.{◌≡◌, ◌↔◌, ◌+◌, ◌-◌, ◌≤◌, ◌∷◌, length, slice_index, IsTrue};
ghost use Rattle.nib_mask.specs.Candidates.{IsCandidate};
ghost use Rattle.nib_mask.specs.Halves.{widened};
ghost use Rattle.byte_lanes.specs.Filtered.{IsFilteredBelow};

use nib_mask::{ByteMasks, Masks, plain_byte};

/// Whether an occurrence may end at a position of the text.
pub(crate) fn is_candidate(masks: &ByteMasks, text: &[u8], end: usize) -> bool
    requires some { 1 ≤ end }
    requires within { end ≤ length text.now }
    ensures { IsTrue result ↔ IsCandidate (widened masks.now) text.now end }
{
    let third = byte_before(text, end, 3);
    let second = byte_before(text, end, 2);
    masks.filter_byte(third, second, text[end - 1]) != 0
}

/// The byte `back` places before an end, zero before the text.
fn byte_before(text: &[u8], end: usize, back: usize) -> u8
    requires some { 1 ≤ back }
    requires few { back ≤ 3 }
    requires after { 1 ≤ end }
    requires within { end ≤ length text.now }
    ensures { result ≡ slice_index (0 ∷ 0 ∷ text.now) (end + 2 - back) }
{
    if back <= end { text[end - back] } else { 0 }
}

/// Writes the filter numbers from a position on, where those below are written.
pub(crate) fn filter_rest(
    masks: &Masks,
    x0: &[u8],
    x1: &[u8],
    x2: &[u8],
    out: &mut [u16],
    from: usize,
)
    requires x1_length { length x1.now ≡ length x0.now }
    requires x2_length { length x2.now ≡ length x0.now }
    requires out_length { length out.old ≡ length x0.now }
    requires below { IsFilteredBelow masks.now x0.now x1.now x2.now from out.old }
    ensures { IsFilteredBelow masks.now x0.now x1.now x2.now (length x0.now) out.new }
{
    for place in from..out.len() {
        out[place] = plain_byte(masks, x0[place], x1[place], x2[place]);
    }
}
