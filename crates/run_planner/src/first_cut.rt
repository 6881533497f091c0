//! The first of the cheapest cuts, found from the potentials: the fewest runs that reach the price
//! of all, and for each run the first end that reaches its potential.

ghost use Rattle.std.specs.Prelude.{◌≡◌, ◌≢◌, ℕ, ◌+◌, ◌-◌, ◌*◌, ◌^◌, ◌<◌, ◌≤◌, All, List, ◌∷◌, length, slice_index};
ghost use Rattle.lit_base.specs.Cuts.{cut_price};
ghost use Rattle.lit_base.specs.Potentials.{potential};
ghost use Rattle.run_planner.specs.FirstCut.{IsFirstCut, IsFirstTail};
ghost use Rattle.run_planner.specs.Splits.{IsFirstReaching};
ghost use Rattle.run_planner.specs.TailCosts.{AreTailCosts};

use crate::meter::Meter;
use lit_base::Ends;

/// The ends of the first of the cheapest cuts into at most `most` runs, by the rows of potentials. It
/// asks for at most n prices.
pub(crate) fn first_cut<M: Meter>(meter: &mut M, n: u16, rows: &[u64], most: usize) -> Ends
    requires size { M.size meter.old ≡ n }
    requires some { 0 < n }
    requires few { n ≤ 4096 }
    requires from_one { 1 ≤ most }
    requires few_runs { most ≤ 16 }
    requires len { length rows.now ≡ most * n }
    requires filled { AreTailCosts (M.prices meter.old) n most rows.now }
    requires room { M.count meter.old + 8192 < 2 ^ 64 }
    ensures first { IsFirstCut (M.prices meter.old) most n result.items }
    ensures price { potential rows.now n most 0 ≡ cut_price (M.prices meter.old) 0 result.items }
    ensures prices { M.prices meter.new ≡ M.prices meter.old }
    ensures size { M.size meter.new ≡ M.size meter.old }
    ensures count { M.count meter.new ≤ M.count meter.old + n }
{
    let runs = fewest_runs(rows, n, most);
    first_ends(meter, n, rows, runs)
}

/// The fewest runs that cost no more than up to `most` runs do.
fn fewest_runs(rows: &[u64], n: u16, most: usize) -> usize
    requires some { 0 < n }
    requires from_one { 1 ≤ most }
    requires len { length rows.now ≡ most * n }
    ensures from_one { 1 ≤ result }
    ensures within { result ≤ most }
    ensures reaches { potential rows.now n result 0 ≡ potential rows.now n most 0 }
    ensures fewest { (r : ℕ) → 1 ≤ r → r < result → potential rows.now n r 0 ≢ potential rows.now n most 0 }
{
    let width = usize::from(n);
    let least = rows[(most - 1) * width];
    for r in 1..most {
        if rows[(r - 1) * width] == least {
            return r;
        }
    }
    most
}

/// The ends of the first of the cheapest cuts into at most `runs` runs. It asks for at most n prices.
fn first_ends<M: Meter>(meter: &mut M, n: u16, rows: &[u64], runs: usize) -> Ends
    requires size { M.size meter.old ≡ n }
    requires some { 0 < n }
    requires few { n ≤ 4096 }
    requires from_one { 1 ≤ runs }
    requires few_runs { runs ≤ 16 }
    requires within { runs * n ≤ length rows.now }
    requires filled { AreTailCosts (M.prices meter.old) n runs rows.now }
    requires room { M.count meter.old + 8192 < 2 ^ 64 }
    ensures first { IsFirstTail (M.prices meter.old) n runs 0 (potential rows.now n runs 0) result.items }
    ensures prices { M.prices meter.new ≡ M.prices meter.old }
    ensures size { M.size meter.new ≡ M.size meter.old }
    ensures count { M.count meter.new ≤ M.count meter.old + n }
{
    let mut ends = Ends::new();
    let mut place = 0;
    let mut left = runs;
    while place < n {
        place = first_run_end(meter, n, rows, left, place);
        ends.push(place);
        left -= 1;
    }
    ends
}

/// The end of the first run of the first of the cheapest cuts from `place` on into at most `runs`
/// runs. It asks for no more prices than the run has places.
fn first_run_end<M: Meter>(meter: &mut M, n: u16, rows: &[u64], runs: usize, place: u16) -> u16
    requires size { M.size meter.old ≡ n }
    requires few { n ≤ 4096 }
    requires from_one { 1 ≤ runs }
    requires within { runs * n ≤ length rows.now }
    requires filled { AreTailCosts (M.prices meter.old) n runs rows.now }
    requires inner { place < n }
    requires room { M.count meter.old + 4096 < 2 ^ 64 }
    ensures past { place < result }
    ensures within { result ≤ n }
    ensures more { result < n → 2 ≤ runs }
    ensures first { (ends : List ℕ)
        → IsFirstTail (M.prices meter.old) n (runs - 1) result (potential rows.now n (runs - 1) result) ends
        → IsFirstTail (M.prices meter.old) n runs place (potential rows.now n runs place) (result ∷ ends) }
    ensures prices { M.prices meter.new ≡ M.prices meter.old }
    ensures size { M.size meter.new ≡ M.size meter.old }
    ensures count { M.count meter.new + place ≤ M.count meter.old + result }
{
    if runs == 1 {
        return n;
    }
    let width = usize::from(n);
    let price = rows[(runs - 1) * width + usize::from(place)];
    let later = &rows[(runs - 2) * width..(runs - 1) * width];
    first_reaching(meter, later, n, place, price)
}

/// The first end before n of a run from `place` that costs `price` together with the least cost after it, by the row of
/// one run fewer; n if there is none.
fn first_reaching<M: Meter>(meter: &mut M, later: &[u64], n: u16, place: u16, price: u64) -> u16
    requires size { M.size meter.old ≡ n }
    requires few { n ≤ 4096 }
    requires len { length later.now ≡ n }
    requires small { All (λ v. v < 2 ^ 40) later.now }
    requires inner { place < n }
    requires room { M.count meter.old + 4096 < 2 ^ 64 }
    ensures end { IsFirstReaching (M.prices meter.old) (slice_index later.now) n place price result }
    ensures prices { M.prices meter.new ≡ M.prices meter.old }
    ensures size { M.size meter.new ≡ M.size meter.old }
    ensures count { M.count meter.new + place ≤ M.count meter.old + result }
{
    for end in place + 1..n {
        if meter.price(place, end) + later[usize::from(end)] == price {
            return end;
        }
    }
    n
}
