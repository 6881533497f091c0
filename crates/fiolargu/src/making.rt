//! From patterns to a plan in a handle.
ghost use Rattle.std.specs.Prelude.{◌≡◌, ◌≤◌, ◌<◌, ◌⊎◌, [], IfErr, IfOk, None, Some, drop, length, map, take};
ghost use Rattle.std.specs.Arc.{arc_value};
ghost use Rattle.std.specs.List.{AllZip};
ghost use Rattle.lit_base.specs.Flags.{fold_of};
ghost use Rattle.lit_base.specs.NormalForm.{IsPlaceOf, normal_form};
ghost use Rattle.lit_base.specs.Lines.{lines};
ghost use Rattle.lit_base.specs.RawLists.{first_refusal, text_refusal};
ghost use Rattle.lit_base.specs.declared.fault.Fault.TheVariants.{OutOfMemory, TooManyLiterals};
ghost use Rattle.fiolargu.specs.Found.{plan_of};
ghost use Rattle.fiolargu.specs.Made.{IsPlanOf, bytes_of, number_at};
ghost use Rattle.fiolargu.specs.declared.statuses.TheConstants.{NO_LITERALS, NULL_HANDLE, OK, OUT_OF_MEMORY};

use crate::statuses::{NO_LITERALS, OK, OUT_OF_MEMORY};
use crate::views::Bytes;
use c_handle::{PlanHandle, SharedPlan};
use flow_scan::{Compiled, TunedPlan};
use list_plan::compile;
use lit_base::{Fault, LitList, RawList, fold_of, profile_of};
use std::alloc::Global;
use std::sync::Arc;

/// All flags: ASCII case is ignored, and sixteen buckets.
pub(crate) const ALL_FLAGS: u32 = 3;

/// The patterns of the caller, in order.
pub(crate) fn patterns_of(alloc: Global, patterns: &[Bytes]) -> Result<RawList, Fault>
    ensures ok { IfOk result (λ raw. raw ≡ bytes_of patterns.now) }
    ensures accepted { IfOk result (λ _. first_refusal 0 0 (bytes_of patterns.now) ≡ None) }
    ensures err { IfErr result (λ fault. (fault ≡ OutOfMemory) ⊎ (first_refusal 0 0 (bytes_of patterns.now) ≡ Some fault)) }
    ensures few { IfErr result (λ fault. fault ≡ TooManyLiterals → ⊥) }
{
    let mut raw = RawList::new(alloc);
    for pattern in patterns {
        raw.push(pattern.bytes)?;
    }
    Ok(raw)
}

/// The lines of a text, in order.
pub(crate) fn lines_of(alloc: Global, text: &[u8]) -> Result<RawList, Fault>
    ensures ok { IfOk result (λ raw. raw ≡ lines text.now) }
    ensures accepted { IfOk result (λ _. text_refusal [] text.now (lines text.now) ≡ None) }
    ensures err { IfErr result (λ fault. (fault ≡ OutOfMemory) ⊎ (text_refusal [] text.now (lines text.now) ≡ Some fault)) }
    ensures starved { IfErr result (λ fault. fault ≡ OutOfMemory → text_refusal [] text.now (lines text.now) ≡ None) }
    ensures few { IfErr result (λ fault. fault ≡ TooManyLiterals → ⊥) }
{
    let mut raw = RawList::new(alloc);
    match raw.add_file_bytes(text) {
        Ok(()) => Ok(raw),
        Err(fault) => Err(fault),
    }
}

/// The plan of patterns, and the place of each of them among its literals.
pub(crate) fn plan_of(
    alloc: Global,
    raw: &RawList,
    flags: u8,
) -> Result<(Compiled, Vec<Option<u16>>), i32>
    ensures made { IfOk result (λ made. IsPlanOf flags raw.now made.0) }
    ensures places { IfOk result (λ made. AllZip (IsPlaceOf (fold_of flags) made.0.literals.texts) raw.now made.1.items) }
    ensures refused { IfErr result (λ status. (status ≡ OUT_OF_MEMORY) ⊎ (status ≡ NO_LITERALS)) }
    ensures none { IfErr result (λ status. status ≡ NO_LITERALS → length (normal_form (fold_of flags) raw.now) ≡ 0) }
    ensures not_ok { IfErr result (λ status. status ≡ OK → ⊥) }
{
    let Ok((list, normal)) = LitList::normal(alloc, raw, fold_of(flags)) else {
        return Err(OUT_OF_MEMORY);
    };
    match compile(alloc, list, profile_of(flags)) {
        Ok(made) => Ok((made, normal.place_of)),
        Err(run_planner::Fault::NoLiterals) => Err(NO_LITERALS),
        Err(run_planner::Fault::OutOfMemory) => Err(OUT_OF_MEMORY),
    }
}

/// Writes the numbers of literals to the start of a buffer, if it has room for them.
pub(crate) fn write_numbers(places: &[Option<u16>], numbers: &mut [u32])
    ensures written { length places.now ≤ length numbers.old → take (length places.now) numbers.new ≡ map number_at places.now }
    ensures after { drop (length places.now) numbers.new ≡ drop (length places.now) numbers.old }
    ensures small { length numbers.old < length places.now → numbers.new ≡ numbers.old }
{
    if places.len() > numbers.len() {
        return;
    }
    let mut count = 0;
    for place in places {
        numbers[count] = number_at(*place);
        count += 1;
    }
}

/// The number by which C sees the place of a pattern.
fn number_at(place: Option<u16>) -> u32
    ensures { result ≡ number_at place }
{
    match place {
        Some(place) => u32::from(place),
        None => u32::MAX,
    }
}

/// Makes a handle one more owner of a plan.
pub(crate) fn set_shared(handle: &mut PlanHandle, alloc: Global, plan: Arc<Compiled>) -> i32
    ensures set { result ≡ OK → plan_of handle.new.held ≡ Some (arc_value plan) }
    ensures same { (result ≡ OK → ⊥) → handle.new.held ≡ handle.old.held }
    ensures refused { (result ≡ OK) ⊎ (result ≡ OUT_OF_MEMORY) }
    ensures not_null { result ≡ NULL_HANDLE → ⊥ }
{
    let held = SharedPlan {
        plan: TunedPlan::new(plan),
        out: Vec::new(alloc),
    };
    match Box::new(alloc, held) {
        Ok(held) => {
            handle.put(held);
            OK
        }
        Err(_) => OUT_OF_MEMORY,
    }
}

/// Makes a handle the owner of a plan.
pub(crate) fn set_plan(handle: &mut PlanHandle, alloc: Global, plan: Compiled) -> i32
    ensures set { result ≡ OK → plan_of handle.new.held ≡ Some plan }
    ensures same { (result ≡ OK → ⊥) → handle.new.held ≡ handle.old.held }
    ensures refused { (result ≡ OK) ⊎ (result ≡ OUT_OF_MEMORY) }
    ensures not_null { result ≡ NULL_HANDLE → ⊥ }
{
    match Arc::new(alloc, plan) {
        Ok(plan) => set_shared(handle, alloc, plan),
        Err(_) => OUT_OF_MEMORY,
    }
}
