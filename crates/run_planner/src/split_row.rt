//! One row of potentials from the row of one run fewer, by divide and conquer. Where the prices meet the quadrangle
//! inequality, the best end of a run never moves back as its first place moves on. So the best end of the middle place
//! bounds the best ends of the places on both sides.

ghost use Rattle.std.specs.Prelude.{◌≡◌, ℕ, ◌+◌, ◌-◌, ◌*◌, ◌^◌, ◌<◌, ◌≤◌, All, length, slice_index};
ghost use Rattle.run_planner.specs.Splits.{IsBestEnd, IsLeastSplit, Suffice, SufficeAt};

use crate::meter::Meter;

/// The best end of a run, and the price of the run with the least price after it.
#[derive(Clone, Copy, Drop)]
struct Best {
    price: u64,
    end: u16,
}

/// The price of the run from `place` to `end` with the least price after it, by the row of one run fewer. There is no
/// price after the last place.
fn price_to<M: Meter>(meter: &mut M, later: &[u64], place: u16, end: u16) -> u64
    requires size { M.size meter.old ≡ length later.now }
    requires small { All (λ v. v < 2 ^ 40) later.now }
    requires some { place < end }
    requires within { end ≤ length later.now }
    requires room { M.count meter.old < 2 ^ 64 - 1 }
    ensures value { result ≡ M.prices meter.old place end + slice_index later.now end }
    ensures prices { M.prices meter.new ≡ M.prices meter.old }
    ensures size { M.size meter.new ≡ M.size meter.old }
    ensures count { M.count meter.new ≡ M.count meter.old + 1 }
{
    let left = later.get(usize::from(end)).copied().unwrap_or(0);
    meter.price(place, end) + left
}

/// The best of the ends from `first` to `last` of a run from `place`. It asks for each price once.
fn best_end<M: Meter>(meter: &mut M, later: &[u64], place: u16, first: u16, last: u16) -> Best
    requires size { M.size meter.old ≡ length later.now }
    requires few { length later.now ≤ 4096 }
    requires small { All (λ v. v < 2 ^ 40) later.now }
    requires inner { place < last }
    requires order { first ≤ last }
    requires within { last ≤ length later.now }
    requires suffice { SufficeAt (M.prices meter.old) (slice_index later.now) (length later.now) first last place }
    requires room { M.count meter.old + 8192 < 2 ^ 64 }
    ensures best { IsBestEnd (M.prices meter.old) (slice_index later.now) (length later.now) place result.end }
    ensures price { result.price ≡ M.prices meter.old place result.end + slice_index later.now result.end }
    ensures first { first ≤ result.end }
    ensures last { result.end ≤ last }
    ensures prices { M.prices meter.new ≡ M.prices meter.old }
    ensures size { M.size meter.new ≡ M.size meter.old }
    ensures count { M.count meter.new ≤ M.count meter.old + (last - first) + 1 }
{
    let from = first.max(place + 1);
    let mut best = Best {
        price: price_to(meter, later, place, from),
        end: from,
    };
    for end in from + 1..last + 1 {
        let price = price_to(meter, later, place, end);
        if price < best.price {
            best = Best { price, end };
        }
    }
    best
}

/// Fills the places of the row from `low` up to but not including `high`, where no end of a run from
/// one of them beats all those from `first` to `last`. It fills the middle place by all these ends, then the places
/// before it by the ends up to its best end, and the places after it by the ends from there on.
///
/// Both sides share only that end. So with d binary digits of the number of places it asks for at most `d * (last -
/// first)` prices, and one for each place.
pub(crate) fn fill_row<M: Meter>(
    meter: &mut M,
    later: &[u64],
    row: &mut [u64],
    low: u16,
    high: u16,
    first: u16,
    last: u16,
)
    requires size { M.size meter.old ≡ length later.now }
    requires few { length later.now ≤ 4096 }
    requires small { All (λ v. v < 2 ^ 40) later.now }
    requires row { length later.now ≤ length row.old }
    requires inner { high ≤ last }
    requires order { first ≤ last }
    requires within { last ≤ length later.now }
    requires suffice { Suffice (M.prices meter.old) (slice_index later.now) (length later.now) low high first last }
    requires room { M.count meter.old + 8192 * (high - low) < 2 ^ 64 }
    ensures filled { (p : ℕ) → low ≤ p → p < high →
        IsLeastSplit (M.prices meter.old) (slice_index later.now) (length later.now) p (slice_index row.new p) }
    ensures before { (p : ℕ) → p < low → slice_index row.new p ≡ slice_index row.old p }
    ensures after { (p : ℕ) → high ≤ p → low ≤ p → slice_index row.new p ≡ slice_index row.old p }
    ensures len { length row.new ≡ length row.old }
    ensures prices { M.prices meter.new ≡ M.prices meter.old }
    ensures size { M.size meter.new ≡ M.size meter.old }
    ensures count { (d : ℕ) → high - low < 2 ^ d
        → M.count meter.new ≤ M.count meter.old + d * (last - first) + (high - low) }
    ensures coarse { M.count meter.new ≤ M.count meter.old + 8192 * (high - low) }
{
    if low < high {
        let middle = low + (high - low) / 2;
        let best = best_end(meter, later, middle, first, last);
        row[usize::from(middle)] = best.price;
        fill_row(meter, later, row, low, middle, first, best.end);
        fill_row(meter, later, row, middle + 1, high, best.end, last);
    }
}
