//! The filter over slices.
ghost use Rattle.std.specs.Prelude.{◌≡◌, ◌≢◌, ◌↔◌, length, IsTrue};
ghost use Rattle.std.specs.List.{Any};
ghost use Rattle.byte_lanes.specs.Filtered.{IsFiltered};

use crate::entries::MaskEntries;
use crate::lanes::load;
use crate::one_by_one::filter_rest;
use crate::wide_lanes::{load_wide, nonzero_wide, store_wide};
use nib_mask::Masks;

/// Writes the filter number of each three bytes that stand at the same position of the three slices, by
/// comparisons and selections of lanes alone.
pub fn filter(masks: &Masks, x0: &[u8], x1: &[u8], x2: &[u8], out: &mut [u16])
    requires x1_length { length x1.now ≡ length x0.now }
    requires x2_length { length x2.now ≡ length x0.now }
    requires out_length { length out.old ≡ length x0.now }
    ensures { IsFiltered masks.now x0.now x1.now x2.now out.new }
{
    let entries = MaskEntries::of(masks);
    let mut at = 0;
    while out.len() - at >= 32 {
        let numbers = entries.filter(load(x0, at), load(x1, at), load(x2, at));
        store_wide(numbers, out, at);
        at += 32;
    }
    filter_rest(masks, x0, x1, x2, out, at);
}

/// Whether a number is not zero.
pub fn any_set(numbers: &[u16]) -> bool
    ensures { IsTrue result ↔ Any (λ number. number ≢ 0) numbers.now }
{
    let mut at = 0;
    while numbers.len() - at >= 32 {
        if nonzero_wide(load_wide(numbers, at)) != 0 {
            return true;
        }
        at += 32;
    }
    let (_, rest) = numbers.split_at(at);
    any_set_in(rest)
}

/// Whether one of a few numbers is not zero, tested one after the other.
fn any_set_in(numbers: &[u16]) -> bool
    ensures { IsTrue result ↔ Any (λ number. number ≢ 0) numbers.now }
{
    numbers.iter().any(|number| *number != 0)
}
