//! Measured and estimated costs of a search by shift-or, in tenths of a nanosecond. The work that factors also do at
//! each end is not included.
ghost use Rattle.std.specs.Prelude.{◌≡◌, length};
ghost use Rattle.shift_search.specs.declared.entries.TheConstants.{ENTRIES};

use crate::blocks::{GROUP, GROUPS};
use crate::entries::PLACES;
use crate::probing::probes_from;
use crate::tuning::{
    FALSE_POSITIVE_COST, FALSE_POSITIVE_IN_BLOCK_COST, HIT_COST, LEAST_BEFORE_BLOCKS, SPARSE,
    START_COST, STRIDE_ONE_COST, STRIDE_TWO_COST,
};
use text_ends::EndRate;

/// The cost of a search at this stride of `count` bytes, with these false positives and the ends `found`.
pub(crate) fn cost_of<const STRIDE: usize>(
    count: usize,
    false_positives: usize,
    found: EndRate,
) -> usize {
    let cost = if STRIDE == 1 {
        STRIDE_ONE_COST
    } else {
        STRIDE_TWO_COST
    };
    let probes = count.saturating_mul(cost) / 1024;
    let scanned = found.ends.saturating_sub(found.starts);
    let is_by_blocks = found
        .ends
        .saturating_mul(LEAST_BEFORE_BLOCKS + GROUP * GROUPS)
        < count;
    let price = if is_by_blocks {
        FALSE_POSITIVE_IN_BLOCK_COST
    } else {
        FALSE_POSITIVE_COST
    };
    probes
        .saturating_add(false_positives.saturating_mul(price))
        .saturating_add(scanned.saturating_mul(HIT_COST))
        .saturating_add(found.starts.saturating_mul(START_COST))
}

/// The estimate of a search at this stride for 1,024 bytes of a text like the sample, with ends at this rate.
pub(crate) fn estimate<const STRIDE: usize>(entries: &[u64], sample: &[u8], rate: EndRate) -> usize
    requires { length entries.now ≡ ENTRIES }
{
    let (unruled, all) = count_unruled::<STRIDE>(entries, sample);
    let ends = unruled.saturating_mul(1024) / all.max(1);
    cost_of::<STRIDE>(1024, ends.saturating_sub(rate.ends), rate)
}

/// How many ends of a sample are not ruled out at this stride, counted for each bucket, and how many ends were tried.
/// Of eight ends in a row only the last one is tried, at stride 2 the last two: all probes that cover them were made.
fn count_unruled<const STRIDE: usize>(entries: &[u64], sample: &[u8]) -> (usize, usize)
    requires { length entries.now ≡ ENTRIES }
{
    let count = if STRIDE == 1 { 1 } else { 2 };
    let (mut unruled, mut all) = (0usize, 0usize);
    for stretch in sample.chunks(SPARSE) {
        if stretch.len() == SPARSE {
            let at = SPARSE - (PLACES - 1);
            let probes = probes_from::<STRIDE>(entries, stretch, at);
            let bits = !probes.here >> (64 - 8 * count);
            unruled = unruled.saturating_add(bits.count_ones() as usize);
            all = all.saturating_add(count);
        }
    }
    (unruled, all)
}
