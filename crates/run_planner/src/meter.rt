//! Meters, which give the price of a run, and the meter of a list of literals.

ghost use Rattle.std.specs.Prelude.{◌≡◌, ℕ, ◌+◌, ◌-◌, ◌^◌, ◌<◌, ◌≤◌, length};
ghost use Rattle.lit_base.specs.Literals.{lengths};
ghost use Rattle.lit_base.specs.Costs.{AreSmall, MeetQuadrangle, run_cost};

use lit_base::{LitList, cost, run_cost_law};

/// Gives the price of a run of places, and counts how often it did.
///
/// Its prices meet the quadrangle inequality: two runs that overlap cost together no more than the
/// run round both and the run within both.
pub trait Meter {
    /// How many places there are.
    ghost size: { Self → ℕ };

    /// The price of the run from one place up to but not including another.
    ghost prices: { Self → ℕ → ℕ → ℕ };

    /// How often it gave a price.
    ghost count: { Self → ℕ };

    /// The price of the run from place `p` up to but not including `q`.
    fn price(&mut self, p: u16, q: u16) -> u64
        requires some { p < q }
        requires within { q ≤ size self.old }
        requires room { count self.old < 2 ^ 64 - 1 }
        ensures value { result ≡ prices self.old p q }
        ensures prices { prices self.new ≡ prices self.old }
        ensures size { size self.new ≡ size self.old }
        ensures count { count self.new ≡ count self.old + 1 };

    /// Prices are below 2^40.
    ghost small: { (meter : Self) → AreSmall (prices meter) (size meter) };

    /// They meet the quadrangle inequality.
    ghost quadrangle: { (meter : Self) → MeetQuadrangle (prices meter) (size meter) };
}

/// The meter of a list of literals: a run's price is its cost.
#[derive(Drop)]
pub struct ListMeter<'a> {
    list: &'a LitList,
    count: u64,
    ghost few: { length list.now.texts ≤ 4096 },
    ghost stays_small: { AreSmall (run_cost (lengths list.now)) (length list.now.texts) },
    ghost meets_quadrangle: { MeetQuadrangle (run_cost (lengths list.now)) (length list.now.texts) },
}

impl<'a> ListMeter<'a> {
    /// The meter of the list, which gave no price yet.
    pub fn new(list: &'a LitList) -> Self
        ensures size { ⟦<ListMeter<'a> as Meter>⟧.size result ≡ length list.now.texts }
        ensures prices { ⟦<ListMeter<'a> as Meter>⟧.prices result ≡ run_cost (lengths list.now) }
        ensures count { ⟦<ListMeter<'a> as Meter>⟧.count result ≡ 0 }
    {
        let _few = list.len();
        run_cost_law(list);
        ListMeter { list, count: 0 }
    }

    /// How often it gave a price.
    pub fn count(&self) -> u64
        ensures { result ≡ ⟦<ListMeter<'a> as Meter>⟧.count self.now }
    {
        self.count
    }
}

impl<'a> Meter for ListMeter<'a> {
    ghost use Rattle.std.specs.Prelude.{length};
    ghost use Rattle.lit_base.specs.Literals.{lengths};
    ghost use Rattle.lit_base.specs.Costs.{run_cost};

    ghost size = { λ m. length m.list.now.texts };

    ghost prices = { λ m. run_cost (lengths m.list.now) };

    ghost count = { λ m. m.count };

    fn price(&mut self, p: u16, q: u16) -> u64 {
        self.count += 1;
        let start = usize::from(p);
        cost(usize::from(q) - start, self.list.get(start).len())
    }

    ghost small = { λ m. m.stays_small };

    ghost quadrangle = { λ m. m.meets_quadrangle };
}
