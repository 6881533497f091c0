//! Measured and estimated costs of a search by factors, in tenths of a nanosecond.

use crate::probing::BLOCK;
use crate::tuning::{BLOCK_COST, MASKS_COST, PASS_COST};

/// The cost of the masks for `count` bytes, in which `passed` positions passed, each probed by `widths` widths.
pub(crate) fn cost_of_masks(count: usize, passed: usize, widths: usize) -> usize {
    let price = PASS_COST.saturating_add((PASS_COST / 2).saturating_mul(widths));
    let blocks = passed.min(count / BLOCK);
    let masks = count.saturating_mul(MASKS_COST) / 1024;
    masks
        .saturating_add(passed.saturating_mul(price))
        .saturating_add(blocks.saturating_mul(BLOCK_COST))
}
