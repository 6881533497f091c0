//! The rows of potentials, from one run on: each from the row of one run fewer.

ghost use Rattle.std.specs.Prelude.{◌≡◌, ℕ, ◌+◌, ◌-◌, ◌*◌, ◌^◌, ◌<◌, ◌≤◌, length};
ghost use Rattle.run_planner.specs.TailCosts.{AreTailCosts};

use crate::meter::Meter;
use crate::split_row::fill_row;

/// Fills `most` rows of n potentials with the tail costs by the meter's prices.
pub(crate) fn fill_rows<M: Meter>(meter: &mut M, n: u16, most: usize, rows: &mut [u64])
    requires size { M.size meter.old ≡ n }
    requires some { 0 < n }
    requires few { n ≤ 4096 }
    requires from_one { 1 ≤ most }
    requires few_rows { most ≤ 64 }
    requires len { length rows.old ≡ most * n }
    requires room { M.count meter.old + 2 ^ 40 < 2 ^ 64 }
    ensures filled { AreTailCosts (M.prices meter.old) n most rows.new }
    ensures len { length rows.new ≡ length rows.old }
    ensures prices { M.prices meter.new ≡ M.prices meter.old }
    ensures size { M.size meter.new ≡ M.size meter.old }
    ensures count { (d : ℕ) → n < 2 ^ d
        → M.count meter.new ≤ M.count meter.old + n + (most - 1) * (d * (n - 1) + n) }
    ensures coarse { M.count meter.new ≤ M.count meter.old + 2 ^ 40 }
{
    fill_first_row(meter, n, rows);
    for r in 1..most {
        fill_next_row(meter, n, r, rows);
    }
}

/// Fills the row of one run: from each place one run to the end.
fn fill_first_row<M: Meter>(meter: &mut M, n: u16, rows: &mut [u64])
    requires size { M.size meter.old ≡ n }
    requires few { n ≤ 4096 }
    requires within { n ≤ length rows.old }
    requires room { M.count meter.old + 8192 < 2 ^ 64 }
    ensures filled { AreTailCosts (M.prices meter.old) n 1 rows.new }
    ensures len { length rows.new ≡ length rows.old }
    ensures prices { M.prices meter.new ≡ M.prices meter.old }
    ensures size { M.size meter.new ≡ M.size meter.old }
    ensures count { M.count meter.new ≡ M.count meter.old + n }
{
    for place in 0..n {
        rows[usize::from(place)] = meter.price(place, n);
    }
}

/// Fills the row of r + 1 runs, where those up to r runs are filled.
fn fill_next_row<M: Meter>(meter: &mut M, n: u16, r: usize, rows: &mut [u64])
    requires size { M.size meter.old ≡ n }
    requires some { 0 < n }
    requires few { n ≤ 4096 }
    requires from_one { 1 ≤ r }
    requires within { (r + 1) * n ≤ length rows.old }
    requires filled { AreTailCosts (M.prices meter.old) n r rows.old }
    requires room { M.count meter.old + 2 ^ 26 < 2 ^ 64 }
    ensures filled { AreTailCosts (M.prices meter.old) n (r + 1) rows.new }
    ensures len { length rows.new ≡ length rows.old }
    ensures prices { M.prices meter.new ≡ M.prices meter.old }
    ensures size { M.size meter.new ≡ M.size meter.old }
    ensures count { (d : ℕ) → n < 2 ^ d → M.count meter.new ≤ M.count meter.old + (d * (n - 1) + n) }
    ensures coarse { M.count meter.new ≤ M.count meter.old + 2 ^ 26 }
{
    let width = usize::from(n);
    let (done, rest) = rows.split_at_mut(r * width);
    let (_, later) = done.split_at((r - 1) * width);
    fill_row(meter, later, rest, 0, n, 1, n);
}
