//! Planning and compiling in one call.
ghost use Rattle.std.specs.Prelude.{◌≡◌, ◌↔◌, Err, IfOk, length};
ghost use Rattle.lit_base.specs.Assignments.{NoAssignmentBelow};
ghost use Rattle.lit_base.specs.Profiles.{buckets};
ghost use Rattle.lit_cert.specs.Certified.{IsCertified};
ghost use Rattle.list_plan.specs.Planned.{IsPlanned};
ghost use Rattle.run_planner.specs.declared.fault.Fault.TheVariants.{NoLiterals};

use list_index::ListIndex;
use lit_base::{LitList, Profile};
use lit_plan::Compiled;
use run_planner::{Fault, plan};
use std::alloc::Global;

/// Compiles the list by the certificate that `plan` makes of it. Its cut is the first of the cheapest into at most as
/// many runs as the profile has buckets; its potentials are the least prices of cutting the remaining literals.
///
/// # Errors
/// - `NoLiterals` where the list is empty.
/// - `OutOfMemory` where there is no memory for the potentials, one for each bucket and literal, or for the index.
pub fn compile(alloc: Global, list: LitList, profile: Profile) -> Result<Compiled, Fault>
    ensures literals { IfOk result (λ p. p.literals ≡ list) }
    ensures planned { IfOk result (λ p. IsPlanned list profile p.certificate) }
    ensures certified { IfOk result (λ p. IsCertified list p.certificate) }
    ensures least { IfOk result (λ p. NoAssignmentBelow (buckets profile) list p.certificate.cost) }
    ensures none { (result ≡ Err NoLiterals) ↔ (length list.texts ≡ 0) }
{
    let certificate = plan(alloc, &list, profile)?;
    let index = ListIndex::new(alloc, list)?;
    // The answer of `plan` is certified. To check it again takes a seventh of all instructions of a run of grep with a
    // thousand literals and no text.
    Ok(Compiled::certified(index, certificate))
}
