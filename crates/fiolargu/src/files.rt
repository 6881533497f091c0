//! Exports that read and write plan files, and the version.
ghost use Rattle.std.specs.Prelude.{◌≡◌, ◌≤◌, ◌<◌, ◌⊎◌, ◌↔◌, List, [], ◌∷◌, IfErr, IfOk, IfSome, None, drop, length, take};
ghost use Rattle.std.specs.List.{slice_get};
ghost use Rattle.lit_plan.specs.Plans.{Plan};
ghost use Rattle.plan_file.specs.Spelling.{AnnouncesPlans, IsFile, spelling};
ghost use Rattle.plan_file.specs.declared.version.Version.TheVariants.{Two};
ghost use Rattle.fiolargu.specs.Files.{FaultIn, PlanIn, PlansIn};
ghost use Rattle.fiolargu.specs.Found.{plan_of};
ghost use Rattle.fiolargu.specs.declared.statuses.TheConstants.{BAD_PLAN_FILE, NO_SUCH_PLAN, NULL_HANDLE, OK, OUT_OF_MEMORY, SMALL_BUFFER};

use crate::making::set_plan;
use crate::plans::write_bytes;
use crate::statuses::{BAD_PLAN_FILE, NO_SUCH_PLAN, NULL_HANDLE, OK, OUT_OF_MEMORY};
use c_handle::PlanHandle;
use flow_scan::Compiled;
use plan_file::Fault;
use std::alloc::Global;

/// The version of the library: 1,000,000 times its first number, 1,000 times the second, and the third.
const VERSION: u32 = 2000;

/// The plans of a file's bytes; otherwise a status, and the offset of the first fault, or 0.
fn plans_of(alloc: Global, file: &[u8]) -> Result<Vec<Compiled>, (i32, usize)>
    ensures found { IfOk result (λ plans. IsFile file.now plans.items) }
    ensures refused { IfErr result (λ r. ((r.0 ≡ OUT_OF_MEMORY) × (r.1 ≡ 0)) ⊎ ((r.0 ≡ BAD_PLAN_FILE) × FaultIn file.now r.1)) }
    ensures right { (plans : List Plan) → IsFile file.now plans → IfErr result (λ r. r.0 ≡ OUT_OF_MEMORY) }
    ensures starved { IfErr result (λ r. r.0 ≡ OUT_OF_MEMORY → AnnouncesPlans file.now) }
{
    match plan_file::decode(alloc, file) {
        Ok(plans) => Ok(plans),
        Err(Fault::BadPlanFile { place, .. }) => Err((BAD_PLAN_FILE, place)),
        Err(Fault::OutOfMemory) => Err((OUT_OF_MEMORY, 0)),
        Err(Fault::ReadFault) => unreachable!(),
        Err(Fault::WriteFault) => unreachable!(),
    }
}

/// Reads a plan file and takes one of its plans.
///
/// # Errors
/// - `BAD_PLAN_FILE`, where the bytes are no plan file, or a certificate in it does not hold. Then `fault_at` is the
///   offset of the first fault; otherwise it is 0.
/// - `NO_SUCH_PLAN`, where the file has at most `which` plans.
/// - `OUT_OF_MEMORY`, where a growth was refused. It comes only if the bytes begin with the head of a file that has
///   plans.
#[unsafe(no_mangle)]
pub extern "C" fn fiolargu_plan_load(
    alloc: Global,
    plan: &mut PlanHandle,
    file: &[u8],
    which: usize,
    fault_at: &mut usize,
) -> i32
    ensures loaded { result ≡ OK → PlanIn file.now which (plan_of plan.new.held) }
    ensures missing { result ≡ NO_SUCH_PLAN → PlansIn file.now (λ count. count ≤ which) }
    ensures fault { result ≡ BAD_PLAN_FILE → FaultIn file.now fault_at.new }
    ensures right { (plans : List Plan) → IsFile file.now plans → result ≡ BAD_PLAN_FILE → ⊥ }
    ensures same { (result ≡ OK → ⊥) → plan.new.held ≡ plan.old.held }
    ensures none { (result ≡ BAD_PLAN_FILE → ⊥) → fault_at.new ≡ 0 }
    ensures starved { result ≡ OUT_OF_MEMORY → AnnouncesPlans file.now }
    ensures refused { (result ≡ OK) ⊎ ((result ≡ BAD_PLAN_FILE) ⊎ ((result ≡ NO_SUCH_PLAN) ⊎ (result ≡ OUT_OF_MEMORY))) }
{
    *fault_at = 0;
    match plans_of(alloc, file) {
        Ok(plans) => load(plan, alloc, plans, which),
        Err((status, place)) => {
            *fault_at = place;
            status
        }
    }
}

/// Puts one of some plans into a handle.
fn load(handle: &mut PlanHandle, alloc: Global, plans: Vec<Compiled>, which: usize) -> i32
    ensures set { result ≡ OK → plan_of handle.new.held ≡ slice_get plans.items which }
    ensures found { result ≡ OK → which < length plans.items }
    ensures missing { result ≡ NO_SUCH_PLAN ↔ (length plans.items ≤ which) }
    ensures refused { (result ≡ OK) ⊎ ((result ≡ NO_SUCH_PLAN) ⊎ (result ≡ OUT_OF_MEMORY)) }
    ensures same { (result ≡ OK → ⊥) → handle.new.held ≡ handle.old.held }
{
    let mut plans = plans;
    if which >= plans.len() {
        return NO_SUCH_PLAN;
    }
    let made = plans.swap_remove(which);
    set_plan(handle, alloc, made)
}

/// Writes a plan file with one plan.
///
/// # Errors
/// - `NULL_HANDLE`, where `plan` is null.
/// - `SMALL_BUFFER`, where the buffer has less room. Then `len` is the room that is needed; at other refusals it is 0.
/// - `OUT_OF_MEMORY`, where a growth was refused.
#[unsafe(no_mangle)]
pub extern "C" fn fiolargu_plan_save(
    alloc: Global,
    plan: &mut PlanHandle,
    buffer: &mut [u8],
    len: &mut usize,
) -> i32
    ensures plan { plan.new.held ≡ plan.old.held }
    ensures saved { result ≡ OK → IfSome (plan_of plan.old.held) (λ p. take len.new buffer.new ≡ spelling Two (p ∷ [])) }
    ensures file { result ≡ OK → IfSome (plan_of plan.old.held) (λ p. IsFile (take len.new buffer.new) (p ∷ [])) }
    ensures fits { result ≡ OK → len.new ≤ length buffer.old }
    ensures room { result ≡ SMALL_BUFFER → IfSome (plan_of plan.old.held) (λ p. (len.new ≡ length (spelling Two (p ∷ []))) × (length buffer.old < len.new)) }
    ensures null { result ≡ NULL_HANDLE ↔ plan.old.held ≡ None }
    ensures after { result ≡ OK → drop len.new buffer.new ≡ drop len.new buffer.old }
    ensures same { (result ≡ OK → ⊥) → buffer.new ≡ buffer.old }
    ensures none { (result ≡ OK → ⊥) → (result ≡ SMALL_BUFFER → ⊥) → len.new ≡ 0 }
    ensures refused { (result ≡ OK) ⊎ ((result ≡ NULL_HANDLE) ⊎ ((result ≡ SMALL_BUFFER) ⊎ (result ≡ OUT_OF_MEMORY))) }
{
    *len = 0;
    let Some(held) = plan.take(alloc) else {
        return NULL_HANDLE;
    };
    let status = save(alloc, held.plan.plan(), buffer, len);
    plan.put(held);
    status
}

/// Writes a plan file with this plan to the start of a buffer, if it has room. `len` gets the length of the file, also
/// if the buffer is too small; for want of memory it stays as it was.
fn save(alloc: Global, plan: &Compiled, buffer: &mut [u8], len: &mut usize) -> i32
    ensures saved { result ≡ OK → take len.new buffer.new ≡ spelling Two (plan.now ∷ []) }
    ensures file { result ≡ OK → IsFile (take len.new buffer.new) (plan.now ∷ []) }
    ensures fits { result ≡ OK → len.new ≤ length buffer.old }
    ensures room { result ≡ SMALL_BUFFER → (len.new ≡ length (spelling Two (plan.now ∷ []))) × (length buffer.old < len.new) }
    ensures not_null { result ≡ NULL_HANDLE → ⊥ }
    ensures after { result ≡ OK → drop len.new buffer.new ≡ drop len.new buffer.old }
    ensures same { (result ≡ OK → ⊥) → buffer.new ≡ buffer.old }
    ensures none { result ≡ OUT_OF_MEMORY → len.new ≡ len.old }
    ensures refused { (result ≡ OK) ⊎ ((result ≡ SMALL_BUFFER) ⊎ (result ≡ OUT_OF_MEMORY)) }
{
    match plan_file::encode(alloc, std::slice::from_ref(plan)) {
        Ok(text) => write_bytes(&text, buffer, len),
        Err(_) => OUT_OF_MEMORY,
    }
}

/// Reads a plan file and counts its plans.
///
/// # Errors
/// - `BAD_PLAN_FILE`, where the bytes are no plan file, or a certificate in it does not hold. Then `fault_at` is the
///   offset of the first fault; otherwise it is 0.
/// - `OUT_OF_MEMORY`, where a growth was refused. It comes only if the bytes begin with the head of a file that has
///   plans.
#[unsafe(no_mangle)]
pub extern "C" fn fiolargu_check(
    alloc: Global,
    file: &[u8],
    plans: &mut usize,
    fault_at: &mut usize,
) -> i32
    ensures file { result ≡ OK → PlansIn file.now (λ count. plans.new ≡ count) }
    ensures fault { result ≡ BAD_PLAN_FILE → FaultIn file.now fault_at.new }
    ensures right { (plans : List Plan) → IsFile file.now plans → result ≡ BAD_PLAN_FILE → ⊥ }
    ensures none { (result ≡ OK → ⊥) → plans.new ≡ 0 }
    ensures no_fault { (result ≡ BAD_PLAN_FILE → ⊥) → fault_at.new ≡ 0 }
    ensures starved { result ≡ OUT_OF_MEMORY → AnnouncesPlans file.now }
    ensures refused { (result ≡ OK) ⊎ ((result ≡ BAD_PLAN_FILE) ⊎ (result ≡ OUT_OF_MEMORY)) }
{
    *plans = 0;
    *fault_at = 0;
    match plans_of(alloc, file) {
        Ok(read) => {
            *plans = read.len();
            OK
        }
        Err((status, place)) => {
            *fault_at = place;
            status
        }
    }
}

/// The version of the library.
#[unsafe(no_mangle)]
pub extern "C" fn fiolargu_version() -> u32
    ensures { result ≡ 2000 }
{
    VERSION
}
