//! From the literals of a Publish to their plan.
ghost use Rattle.std.specs.Prelude.{◌≡◌, IfOk, IsOkUnless};
ghost use Rattle.list_plan.specs.Planned.{IsPlanned};
ghost use Rattle.scan_wire.specs.Messages.{texts_of};
ghost use Rattle.scan_core.specs.Publishing.{IsSoundPlanOf};
ghost use Rattle.scan_core.specs.Steps.{IsSound};
ghost use Rattle.scan_core.specs.declared.fault.Fault.TheVariants.{OutOfMemory};

use crate::fault::Fault;
use flow_scan::Compiled;
use list_plan::compile;
use lit_base::{Fold, LitList, Profile, RawList};
use std::alloc::Global;

/// The plan of literals by a profile.
pub(crate) fn planned(
    alloc: Global,
    fold: Fold,
    profile: Profile,
    literals: &[Vec<u8>],
) -> Result<Compiled, Fault>
    ensures plan { IfOk result (IsSoundPlanOf fold profile (texts_of literals.now)) }
    ensures fault { IsOkUnless result OutOfMemory }
{
    let raw = raw_of(alloc, literals)?;
    let Ok(list) = LitList::normal_form(alloc, &raw, fold) else {
        return Err(Fault::OutOfMemory);
    };
    compiled(alloc, list, profile)
}

/// The literals as a list. The session has checked them, so only memory can run out.
fn raw_of(alloc: Global, literals: &[Vec<u8>]) -> Result<RawList, Fault>
    ensures ok { IfOk result (λ raw. raw ≡ texts_of literals.now) }
    ensures fault { IsOkUnless result OutOfMemory }
{
    let mut raw = RawList::new(alloc);
    for literal in literals {
        let Ok(()) = raw.push(literal) else {
            return Err(Fault::OutOfMemory);
        };
    }
    Ok(raw)
}

/// The plan of a list, which has a literal.
fn compiled(alloc: Global, list: LitList, profile: Profile) -> Result<Compiled, Fault>
    ensures literals { IfOk result (λ p. p.literals ≡ list) }
    ensures planned { IfOk result (λ p. IsPlanned list profile p.certificate) }
    ensures sound { IfOk result IsSound }
    ensures fault { IsOkUnless result OutOfMemory }
{
    list.normal_law();
    let Ok(plan) = compile(alloc, list, profile) else {
        return Err(Fault::OutOfMemory);
    };
    Ok(plan)
}
