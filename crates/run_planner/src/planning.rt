//! The plan of a list, and of the places of any meter.

ghost use Rattle.std.specs.Prelude.{◌≡◌, ◌↔◌, ℕ, ◌+◌, ◌*◌, ◌^◌, ◌<◌, ◌≤◌, Err, IfOk, length};
ghost use Rattle.lit_base.specs.Assignments.{NoAssignmentBelow};
ghost use Rattle.lit_base.specs.Costs.{run_cost};
ghost use Rattle.lit_base.specs.Cuts.{cut_price};
ghost use Rattle.lit_base.specs.Literals.{lengths};
ghost use Rattle.lit_base.specs.Profiles.{buckets};
ghost use Rattle.lit_cert.specs.Certified.{IsCertified};
ghost use Rattle.run_planner.specs.FirstCut.{IsFirstCut};
ghost use Rattle.run_planner.specs.Plans.{IsOnlyPlan};
ghost use Rattle.run_planner.specs.TailCosts.{AreTailCosts};
ghost use Rattle.run_planner.specs.declared.fault.Fault.TheVariants.{NoLiterals};

use crate::fault::Fault;
use crate::first_cut::first_cut;
use crate::meter::{ListMeter, Meter};
use crate::tail_row::fill_rows;
use lit_base::{LitList, Profile, buckets};
use lit_cert::{Certificate, certified_law};
use std::alloc::Global;

/// Plans the literals: the first of the cheapest cuts into at most as many runs as the profile has buckets, its price,
/// and the potentials. Cuts are ordered by price, then by the number of runs, then by the ends. The potentials are the
/// least prices of cutting the remaining literals. The certificate passes the check, so that no assignment to buckets
/// is cheaper. No other certificate is a plan of the list.
///
/// # Errors
/// - `NoLiterals` where the list is empty.
/// - `OutOfMemory` where there is no memory for the potentials, one for each bucket and literal.
pub fn plan(alloc: Global, list: &LitList, profile: Profile) -> Result<Certificate, Fault>
    ensures profile { IfOk result (λ c. c.profile ≡ profile) }
    ensures first { IfOk result
        (λ c. IsFirstCut (run_cost (lengths list.now)) (buckets profile) (length list.now.texts) c.ends) }
    ensures cost { IfOk result (λ c. c.cost ≡ cut_price (run_cost (lengths list.now)) 0 c.ends) }
    ensures potentials { IfOk result
        (λ c. AreTailCosts (run_cost (lengths list.now)) (length list.now.texts) (buckets profile) c.potentials) }
    ensures len { IfOk result (λ c. length c.potentials ≡ buckets profile * length list.now.texts) }
    ensures only { IfOk result (IsOnlyPlan (run_cost (lengths list.now)) profile (length list.now.texts)) }
    ensures certified { IfOk result (λ c. IsCertified list.now c) }
    ensures least { IfOk result (λ c. NoAssignmentBelow (buckets profile) list.now c.cost) }
    ensures none { (result ≡ Err NoLiterals) ↔ (length list.now.texts ≡ 0) }
{
    let n = list.len() as u16;
    let mut meter = ListMeter::new(list);
    let certificate = plan_counted(alloc, n, profile, &mut meter)?;
    certified_law(list, &certificate);
    Ok(certificate)
}

/// Plans the meter's n places by its prices alone, as `plan` does a list by its costs. The certificate has the first of
/// the cheapest cuts into at most as many runs as the profile has buckets, its price, and the least prices of cutting
/// the remaining places. No other certificate is a plan of the places, so by a list's own meter it equals the
/// certificate of `plan`, byte for byte.
///
/// With b buckets of the profile and d binary digits of n it asks for at most `2 * b * n * d` prices, also where it
/// finds no memory. It asks for none where n is 0.
///
/// # Errors
/// - `NoLiterals` where n is 0.
/// - `OutOfMemory` where there is no memory for the potentials, one for each bucket and place.
pub fn plan_counted<M: Meter>(
    alloc: Global,
    n: u16,
    profile: Profile,
    meter: &mut M,
) -> Result<Certificate, Fault>
    requires size { n ≡ M.size meter.old }
    requires few { n ≤ 4096 }
    requires room { M.count meter.old ≤ 2 ^ 63 }
    ensures profile { IfOk result (λ c. c.profile ≡ profile) }
    ensures first { IfOk result (λ c. IsFirstCut (M.prices meter.old) (buckets profile) n c.ends) }
    ensures cost { IfOk result (λ c. c.cost ≡ cut_price (M.prices meter.old) 0 c.ends) }
    ensures potentials { IfOk result (λ c. AreTailCosts (M.prices meter.old) n (buckets profile) c.potentials) }
    ensures len { IfOk result (λ c. length c.potentials ≡ buckets profile * n) }
    ensures only { IfOk result (IsOnlyPlan (M.prices meter.old) profile n) }
    ensures none { (result ≡ Err NoLiterals) ↔ (n ≡ 0) }
    ensures prices { M.prices meter.new ≡ M.prices meter.old }
    ensures size { M.size meter.new ≡ M.size meter.old }
    ensures count { (d : ℕ) → n < 2 ^ d → M.count meter.new ≤ M.count meter.old + 2 * buckets profile * n * d }
{
    if n == 0 {
        return Err(Fault::NoLiterals);
    }
    let most = buckets(profile);
    let mut potentials = vec![in alloc; 0; most * usize::from(n)]?;
    fill_rows(meter, n, most, potentials.as_mut_slice());
    let ends = first_cut(meter, n, potentials.as_slice(), most);
    let cost = potentials[(most - 1) * usize::from(n)];
    Ok(Certificate {
        profile,
        ends,
        cost,
        potentials,
    })
}
