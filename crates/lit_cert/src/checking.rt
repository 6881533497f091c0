//! The check that a certificate shows its runs to be the cheapest.
ghost use Rattle.std.specs.Prelude.{◌≡◌, ◌+◌, ◌*◌, ◌<◌, ◌≤◌, ◌↔◌, length, IsTrue, IsOk, IsErrOf, OnOk, MatchOption, MatchResult};
ghost use Rattle.lit_base.specs.Literals.{lengths};
ghost use Rattle.lit_base.specs.Profiles.{buckets};
ghost use Rattle.lit_base.specs.Cuts.{IsCut, NoCutBelow};
ghost use Rattle.lit_base.specs.Assignments.{IsAssignment, NoAssignmentBelow, assign_price, assignment_of};
ghost use Rattle.lit_cert.specs.Certified.{EndRowsHold, EndsHold, HasLength, HasTotalFor, IsCertified, IsFirstEnd, IsFirstEndRow, IsFirstFailure, IsFirstRun, IsFirstStep, IsFirstStepRow, IsPricedFor, RunsHold, StepRowsHold, StepsHold};
ghost use Rattle.lit_cert.specs.declared.reason.Reason.{Reason};

use crate::certificate::Certificate;
use crate::dividing::row_holds;
use crate::reason::Reason;
use lit_base::{LitList, assignment_law, buckets, cost, cut_cost, is_cut, potentials_law};

/// Whether the certificate shows that its runs are the cheapest. If it does, its runs cost exactly what it says, and no
/// assignment of the literals to at most as many buckets as its profile has costs less. Otherwise `Err` has the first
/// condition that fails. The maker of the certificate is not trusted.
pub fn check(list: &LitList, certificate: &Certificate) -> Result<(), Reason>
    ensures yes { IsOk result ↔ IsCertified list.now certificate.now }
    ensures no { (reason : Reason) → IsErrOf result reason ↔ IsFirstFailure list.now certificate.now reason }

    ensures least { OnOk result (NoAssignmentBelow (buckets certificate.now.profile) list.now certificate.now.cost) }
    ensures least_cut { OnOk result (NoCutBelow (buckets certificate.now.profile) list.now certificate.now.cost) }
    ensures assignment { OnOk result (IsAssignment (buckets certificate.now.profile) (length list.now.texts) (assignment_of certificate.now.ends)) }
    ensures reached { OnOk result (assign_price (buckets certificate.now.profile) (lengths list.now) (assignment_of certificate.now.ends) ≡ certificate.now.cost) }
{
    check_priced(list, certificate)?;
    check_bounds(list, certificate)?;
    certified_law(list, certificate);
    Ok(())
}

/// The law that a certificate which holds is right: no cut, and no assignment to at most as many buckets as its profile
/// has, costs less than it says; its runs, read as an assignment, cost exactly that.
pub fn certified_law(list: &LitList, certificate: &Certificate)
    requires { IsCertified list.now certificate.now }
    ensures least { NoAssignmentBelow (buckets certificate.now.profile) list.now certificate.now.cost }
    ensures least_cut { NoCutBelow (buckets certificate.now.profile) list.now certificate.now.cost }
    ensures assignment { IsAssignment (buckets certificate.now.profile) (length list.now.texts) (assignment_of certificate.now.ends) }
    ensures reached { assign_price (buckets certificate.now.profile) (lengths list.now) (assignment_of certificate.now.ends) ≡ certificate.now.cost }
{
    let most = buckets(certificate.profile);
    potentials_law(list, most, certificate.potentials.as_slice());
    assignment_law(list, most, certificate.ends.as_slice());
}

/// Checks that the certificate is one for the literals, and states the price of its runs.
fn check_priced(list: &LitList, certificate: &Certificate) -> Result<(), Reason>
    ensures { MatchResult result
        (λ _. IsPricedFor (buckets certificate.now.profile) list.now certificate.now)
        (λ reason. IsFirstFailure list.now certificate.now reason) }
{
    let n = list.len();
    if n == 0 || certificate.potentials.len() != buckets(certificate.profile) * n {
        return Err(Reason::Length);
    }
    if !is_cut(list, certificate.profile, &certificate.ends) {
        return Err(Reason::Ends);
    }
    if !has_total(list, certificate) {
        return Err(Reason::Total);
    }
    Ok(())
}

/// Whether the price of the runs, the cost and the potential of all literals are one number.
fn has_total(list: &LitList, certificate: &Certificate) -> bool
    requires size { HasLength (buckets certificate.now.profile) list.now certificate.now.potentials }
    requires cut { IsCut (buckets certificate.now.profile) (length list.now.texts) certificate.now.ends }
    ensures { IsTrue result ↔ HasTotalFor (buckets certificate.now.profile) list.now certificate.now }
{
    let bound = certificate.potentials[(buckets(certificate.profile) - 1) * list.len()];
    cut_cost(list, &certificate.ends) == certificate.cost && bound == certificate.cost
}

/// Checks that the potentials bound the costs of runs from below.
fn check_bounds(list: &LitList, certificate: &Certificate) -> Result<(), Reason>
    requires { IsPricedFor (buckets certificate.now.profile) list.now certificate.now }
    ensures { MatchResult result
        (λ _. IsCertified list.now certificate.now)
        (λ reason. IsFirstFailure list.now certificate.now reason) }
{
    let most = buckets(certificate.profile);
    let potentials = certificate.potentials.as_slice();
    if let Some((r, p)) = first_end_row(list, potentials, most) {
        return Err(Reason::EndRow { r, p });
    }
    if let Some((r, p, q)) = first_step_row(list, potentials, most) {
        return Err(Reason::Step { r, p, q });
    }
    Ok(())
}

/// The first row r, and its first place p, at which `h(r, p)` is above `c(p, n)`.
fn first_end_row(list: &LitList, potentials: &[u64], most: usize) -> Option<(usize, usize)>
    requires { most * length list.now.texts ≤ length potentials.now }
    ensures { MatchOption result
        (EndRowsHold list.now potentials.now (most + 1))
        (λ s. IsFirstEndRow most list.now potentials.now s.0 s.1) }
{
    for r in 1..=most {
        if let Some(p) = first_above_end(list, potentials, r) {
            return Some((r, p));
        }
    }
    None
}

/// The first place p at which `h(r, p)` is above `c(p, n)`.
fn first_above_end(list: &LitList, potentials: &[u64], r: usize) -> Option<usize>
    requires from_one { 1 ≤ r }
    requires within { r * length list.now.texts ≤ length potentials.now }
    ensures { MatchOption result
        (EndsHold list.now potentials.now r (length list.now.texts))
        (λ p. IsFirstEnd list.now potentials.now r p) }
{
    let n = list.len();
    let row = &potentials[(r - 1) * n..r * n];
    for (p, here) in row.iter().enumerate() {
        if *here > cost(n - p, list.get(p).len()) {
            return Some(p);
        }
    }
    None
}

/// The first row r from 2 on, its first place p, and the first place q after p, at which `h(r, p)`
/// is above `c(p, q) + h(r - 1, q)`.
fn first_step_row(list: &LitList, potentials: &[u64], most: usize) -> Option<(usize, usize, usize)>
    requires within { most * length list.now.texts ≤ length potentials.now }
    requires ends { EndRowsHold list.now potentials.now (most + 1) }
    ensures { MatchOption result
        (StepRowsHold list.now potentials.now (most + 1))
        (λ s. IsFirstStepRow most list.now potentials.now s.0 s.1 s.2) }
{
    for r in 2..=most {
        if let Some((p, q)) = first_step(list, potentials, r) {
            return Some((r, p, q));
        }
    }
    None
}

/// The first place p of row r, and the first place q after it, at which the step fails. Where there is none it takes
/// time n log n, otherwise n^2.
fn first_step(list: &LitList, potentials: &[u64], r: usize) -> Option<(usize, usize)>
    requires from_two { 2 ≤ r }
    requires within { r * length list.now.texts ≤ length potentials.now }
    requires ends { EndRowsHold list.now potentials.now r }
    ensures { MatchOption result
        (StepsHold list.now potentials.now r (length list.now.texts))
        (λ s. IsFirstStep list.now potentials.now r s.0 s.1) }
{
    if row_holds(list, potentials, r) {
        return None;
    }
    for p in 0..list.len() {
        if let Some(q) = first_run(list, potentials, r, p) {
            return Some((p, q));
        }
    }
    None
}

/// The first place q after p at which `h(r, p)` is above `c(p, q) + h(r - 1, q)`.
fn first_run(list: &LitList, potentials: &[u64], r: usize, p: usize) -> Option<usize>
    requires from_two { 2 ≤ r }
    requires within { r * length list.now.texts ≤ length potentials.now }
    requires inner { p < length list.now.texts }
    ensures { MatchOption result
        (RunsHold list.now potentials.now r p (length list.now.texts))
        (λ q. IsFirstRun list.now potentials.now r p q) }
{
    let n = list.len();
    let shortest = list.get(p).len();
    let here = potentials[(r - 1) * n + p];
    let before = &potentials[(r - 2) * n..(r - 1) * n];
    for q in p + 1..n {
        if here.saturating_sub(before[q]) > cost(q - p, shortest) {
            return Some(q);
        }
    }
    None
}
