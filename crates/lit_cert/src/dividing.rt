//! Whether the steps of a row hold, by divide and conquer: in time n log n, and with no memory.

ghost use Rattle.std.specs.Prelude.{◌≡◌, ◌+◌, ◌*◌, ◌^◌, ◌<◌, ◌≤◌, ◌↔◌, length, All, IsTrue};
ghost use Rattle.lit_base.specs.Costs.{MeetQuadrangle};
ghost use Rattle.lit_cert.specs.Certified.{EndRowsHold, StepsHold, cost_of};
ghost use Rattle.lit_cert.specs.Steps.{AllFit, IsLeastRun, RunsSuffice};

use lit_base::{LitList, cost, run_cost_law};

/// Whether no step of row r fails.
pub fn row_holds(list: &LitList, potentials: &[u64], r: usize) -> bool
    requires from_two { 2 ≤ r }
    requires within { r * length list.now.texts ≤ length potentials.now }
    requires ends { EndRowsHold list.now potentials.now r }
    ensures { IsTrue result ↔ StepsHold list.now potentials.now r (length list.now.texts) }
{
    let n = list.len();
    if n < 2 {
        return true;
    }
    let before = &potentials[(r - 2) * n..(r - 1) * n];
    let here = &potentials[(r - 1) * n..r * n];
    run_cost_law(list);
    places_hold(list, here, before, 0, n - 1, 1, n)
}

/// Whether no potential of the places from `low` up to `high` is above a run and the potential after it. Ends from
/// `first` up to `end` suffice for them. A cheapest run from the middle place divides the work: by the quadrangle
/// inequality the places before it need no later end than that run's, and the places after it no earlier one.
fn places_hold(
    list: &LitList,
    here: &[u64],
    before: &[u64],
    low: usize,
    high: usize,
    first: usize,
    end: usize,
) -> bool
    requires quadrangle { MeetQuadrangle (cost_of list.now) (length list.now.texts) }
    requires small { All (λ h. h < 2 ^ 40) before.now }
    requires after { high < end }
    requires within { end ≤ length before.now }
    requires before { length before.now ≡ length list.now.texts }
    requires here { length here.now ≡ length list.now.texts }
    requires first { first < end }
    requires suffice { RunsSuffice list.now here.now before.now low high first end }
    ensures { IsTrue result ↔ AllFit list.now here.now before.now low high }
{
    if high <= low {
        return true;
    }
    let p = low + (high - low) / 2;
    let (q, price) = least_run(list, before, p, first.max(p + 1), end);
    here[p] <= price
        && places_hold(list, here, before, low, p, first, q + 1)
        && places_hold(list, here, before, p + 1, high, q, end)
}

/// The end of a cheapest run from place p, among the ends from `first` up to `end`, and its cost with the potential
/// after it.
fn least_run(list: &LitList, before: &[u64], p: usize, first: usize, end: usize) -> (usize, u64)
    requires small { All (λ h. h < 2 ^ 40) before.now }
    requires within { end ≤ length before.now }
    requires before { length before.now ≡ length list.now.texts }
    requires after { p < first }
    requires some { first < end }
    ensures { IsLeastRun list.now before.now p first end result.0 result.1 }
{
    prove!(before.len() == list.len());
    let shortest = list.get(p).len();
    let mut best = first;
    let mut least = cost(first - p, shortest) + before[first];
    for q in first + 1..end {
        let price = cost(q - p, shortest) + before[q];
        if price < least {
            best = q;
            least = price;
        }
    }
    (best, least)
}
