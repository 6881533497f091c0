//! Chooses the factor of each literal and estimates the search by it. A choice changes the time of a search, never its
//! result.
ghost use Rattle.std.specs.Prelude.{◌≡◌, ◌^◌, length, vec_len};
ghost use Rattle.factor_search.specs.declared.widths.TheConstants.{HASH_BITS};

use crate::counts::Counts;
use crate::prices::cost_of_masks;
use crate::tuning::{ESTIMATED_START_COST, SPARSE};
use lit_base::LitList;
use nib_mask::ByteMasks;
use text_ends::EndRate;

/// Chooses for each literal the factor with the rarest last three bytes. Measured: lists of ten words of a text have up
/// to sixty times fewer candidates than with the rarest whole factors.
pub(crate) fn choose_offsets(list: &LitList, counts: &Counts, offsets: &mut Vec<u8>)
    requires counts { vec_len counts.now.threes ≡ 2 ^ HASH_BITS }
    requires offsets { vec_len offsets.old ≡ length list.now.texts }
    ensures { vec_len offsets.new ≡ vec_len offsets.old }
{
    for place in 0..list.len() {
        offsets[place] = counts.rarest(list, place) as u8;
    }
}

/// The estimate of a search by these masks, in tenths of a nanosecond for 1,024 bytes, given a sample and the rate of
/// ends. Each passing position is probed by `widths` widths. That hash bits are set by chance is left out.
pub(crate) fn estimate_of(masks: &ByteMasks, widths: usize, sample: &[u8], rate: EndRate) -> usize {
    let (passed, all) = count_passed(masks, sample);
    let in_sample = passed.saturating_mul(1024) / all.max(1);
    let starts = rate.starts.saturating_mul(ESTIMATED_START_COST);
    cost_of_masks(1024, in_sample, widths).saturating_add(starts)
}

/// How many of some positions of a sample pass the masks, and how many positions these are.
fn count_passed(masks: &ByteMasks, sample: &[u8]) -> (usize, usize) {
    let (mut passed, mut all) = (0usize, 0usize);
    for stretch in sample.chunks(SPARSE) {
        if let [third, second, last, ..] = stretch {
            all = all.saturating_add(1);
            if masks.filter_byte(*third, *second, *last) != 0 {
                passed = passed.saturating_add(1);
            }
        }
    }
    (passed, all)
}
