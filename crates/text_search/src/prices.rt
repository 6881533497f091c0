//! Measured and estimated costs of searches by the prefilter and by the automaton, in tenths of a nanosecond.

use crate::tuning::{
    AUTOMATON_COST, AUTOMATON_GAIN, DENSE, LANE_COST, NEAR_STATES, PREFILTER_END_COST,
    PREFILTER_FALSE_POSITIVE_COST,
};
use text_automaton::BLOCK;
use text_ends::EndRate;

/// The cost of false positives and of `ends` ends of a scan under the prefilter; the filter itself is not included.
/// Where ends stand apart, an end costs more than by factors; the price is the difference.
pub(crate) fn cost_by_prefilter(false_positives: usize, ends: usize) -> usize {
    false_positives
        .saturating_mul(PREFILTER_FALSE_POSITIVE_COST)
        .saturating_add(ends.saturating_mul(PREFILTER_END_COST))
}

/// The extra cost of dense ends by factors or shift-or, for 1,024 bytes. It is 0 if ends stand apart, or if the search
/// begins anew after each of them.
pub(crate) fn cost_of_dense_ends(rate: EndRate) -> usize {
    if rate.starts < rate.ends && rate.ends >= 1024 / DENSE {
        rate.ends.saturating_mul(PREFILTER_END_COST)
    } else {
        0
    }
}

/// The cost of an automaton with room for `room` states, for `count` bytes, less its gain at the ends. Its lanes begin
/// `before` bytes before their first positions. Where a search begins anew after an end, it reads a block once more.
pub(crate) fn cost_by_automaton(room: usize, before: usize, count: usize, found: EndRate) -> usize {
    let step = AUTOMATON_COST
        .saturating_add(room.saturating_sub(NEAR_STATES) / 2)
        .saturating_add(before.saturating_mul(LANE_COST));
    let read = count.saturating_add(found.starts.saturating_mul(BLOCK));
    let steps = read.saturating_mul(step) / 1024;
    steps.saturating_sub(found.ends.saturating_mul(AUTOMATON_GAIN))
}
