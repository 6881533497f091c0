//! Exports that make, share, show and free plans.
ghost use Rattle.std.specs.Prelude.{◌≡◌, ◌≤◌, ◌<◌, ◌⊎◌, ◌↔◌, [], IsSomeAnd, IfSome, None, Some, drop, length, take};
ghost use Rattle.std.specs.List.{slice_get};
ghost use Rattle.lit_base.specs.Flags.{fold_of};
ghost use Rattle.lit_base.specs.Lines.{lines};
ghost use Rattle.lit_base.specs.NormalForm.{normal_form};
ghost use Rattle.lit_base.specs.RawLists.{first_refusal, text_refusal};
ghost use Rattle.lit_base.specs.declared.fault.Fault.TheVariants.{ListTooLarge, LiteralTooLong, TooManyPatterns};
ghost use Rattle.fiolargu.specs.Found.{plan_of};
ghost use Rattle.fiolargu.specs.Answers.{IsListStatus};
ghost use Rattle.fiolargu.specs.Made.{AreNumbersOf, IsInfoOf, IsPlanOf, bytes_of};
ghost use Rattle.fiolargu.specs.declared.statuses.TheConstants.{LIST_TOO_LARGE, LITERAL_TOO_LONG, NO_LITERALS, NULL_HANDLE, OK, OUT_OF_MEMORY, OUT_OF_RANGE, SMALL_BUFFER, TOO_MANY_PATTERNS};

use crate::making::{
    ALL_FLAGS, lines_of, patterns_of, plan_of, set_plan, set_shared, write_numbers,
};
use crate::statuses::{NULL_HANDLE, OK, OUT_OF_MEMORY, OUT_OF_RANGE, SMALL_BUFFER, status_of_list};
use crate::views::{Bytes, PlanInfo};
use c_handle::PlanHandle;
use flow_scan::Compiled;
use lit_base::flags_of;
use std::alloc::Global;

/// Makes a plan of patterns. `literal_of` gets the number of each pattern's literal, if it has any room.
///
/// # Errors
/// - `OUT_OF_RANGE`, where a flag is unknown.
/// - `SMALL_BUFFER`, where `literal_of` has some room, but not for all patterns.
/// - `TOO_MANY_PATTERNS`, `LITERAL_TOO_LONG` or `LIST_TOO_LARGE`, whichever the patterns in order give first. After
///   `LITERAL_TOO_LONG`, `fault_at` is the position of the pattern; otherwise it is 0.
/// - `NO_LITERALS`, where no pattern has a byte.
/// - `OUT_OF_MEMORY`, where a growth was refused.
#[unsafe(no_mangle)]
pub extern "C" fn fiolargu_plan_new(
    alloc: Global,
    plan: &mut PlanHandle,
    patterns: &[Bytes],
    flags: u32,
    literal_of: &mut [u32],
    fault_at: &mut usize,
) -> i32
    ensures made { result ≡ OK → IsSomeAnd (plan_of plan.new.held) (IsPlanOf flags (bytes_of patterns.now)) }
    ensures accepted { result ≡ OK → first_refusal 0 0 (bytes_of patterns.now) ≡ None }
    ensures numbers { result ≡ OK → length patterns.now ≤ length literal_of.old
        → AreNumbersOf flags (bytes_of patterns.now) (take (length patterns.now) literal_of.new) }
    ensures after { drop (length patterns.now) literal_of.new ≡ drop (length patterns.now) literal_of.old }
    ensures unwritten { (result ≡ OK → ⊥) → literal_of.new ≡ literal_of.old }
    ensures same { (result ≡ OK → ⊥) → plan.new.held ≡ plan.old.held }
    ensures fault { result ≡ LITERAL_TOO_LONG → first_refusal 0 0 (bytes_of patterns.now) ≡ Some (LiteralTooLong fault_at.new) }
    ensures no_fault { (result ≡ LITERAL_TOO_LONG → ⊥) → fault_at.new ≡ 0 }
    ensures many { result ≡ TOO_MANY_PATTERNS → first_refusal 0 0 (bytes_of patterns.now) ≡ Some TooManyPatterns }
    ensures large { result ≡ LIST_TOO_LARGE → first_refusal 0 0 (bytes_of patterns.now) ≡ Some ListTooLarge }
    ensures none { result ≡ NO_LITERALS → length (normal_form (fold_of flags) (bytes_of patterns.now)) ≡ 0 }
    ensures unrefused { result ≡ NO_LITERALS → first_refusal 0 0 (bytes_of patterns.now) ≡ None }
    ensures flags { result ≡ OUT_OF_RANGE ↔ (3 < flags) }
    ensures room { flags ≤ 3 → result ≡ SMALL_BUFFER ↔ ((0 < length literal_of.old) × (length literal_of.old < length patterns.now)) }
    ensures refused { (result ≡ OK) ⊎ ((result ≡ OUT_OF_RANGE) ⊎ ((result ≡ SMALL_BUFFER) ⊎ IsListStatus result)) }
{
    *fault_at = 0;
    if flags > ALL_FLAGS {
        return OUT_OF_RANGE;
    }
    if !literal_of.is_empty() && literal_of.len() < patterns.len() {
        return SMALL_BUFFER;
    }
    let raw = match patterns_of(alloc, patterns) {
        Ok(raw) => raw,
        Err(fault) => {
            let (status, place) = status_of_list(fault);
            *fault_at = place;
            return status;
        }
    };
    match plan_of(alloc, &raw, flags as u8) {
        Ok((made, places)) => {
            let status = set_plan(plan, alloc, made);
            if status != OK {
                return status;
            }
            write_numbers(&places, literal_of);
            OK
        }
        Err(status) => status,
    }
}

/// Makes a plan of the lines of a text.
///
/// # Errors
/// The errors of `fiolargu_plan_new` for the lines, without `SMALL_BUFFER`. A text of more than `MAX_TEXT_LEN` bytes is
/// `LIST_TOO_LARGE` too.
#[unsafe(no_mangle)]
pub extern "C" fn fiolargu_plan_of_lines(
    alloc: Global,
    plan: &mut PlanHandle,
    text: &[u8],
    flags: u32,
    fault_at: &mut usize,
) -> i32
    ensures made { result ≡ OK → IsSomeAnd (plan_of plan.new.held) (IsPlanOf flags (lines text.now)) }
    ensures accepted { result ≡ OK → text_refusal [] text.now (lines text.now) ≡ None }
    ensures same { (result ≡ OK → ⊥) → plan.new.held ≡ plan.old.held }
    ensures fault { result ≡ LITERAL_TOO_LONG → text_refusal [] text.now (lines text.now) ≡ Some (LiteralTooLong fault_at.new) }
    ensures no_fault { (result ≡ LITERAL_TOO_LONG → ⊥) → fault_at.new ≡ 0 }
    ensures many { result ≡ TOO_MANY_PATTERNS → text_refusal [] text.now (lines text.now) ≡ Some TooManyPatterns }
    ensures large { result ≡ LIST_TOO_LARGE → text_refusal [] text.now (lines text.now) ≡ Some ListTooLarge }
    ensures none { result ≡ NO_LITERALS → length (normal_form (fold_of flags) (lines text.now)) ≡ 0 }
    ensures unrefused { result ≡ NO_LITERALS → text_refusal [] text.now (lines text.now) ≡ None }
    ensures starved { result ≡ OUT_OF_MEMORY → text_refusal [] text.now (lines text.now) ≡ None }
    ensures flags { result ≡ OUT_OF_RANGE ↔ (3 < flags) }
    ensures refused { (result ≡ OK) ⊎ ((result ≡ OUT_OF_RANGE) ⊎ IsListStatus result) }
{
    *fault_at = 0;
    if flags > ALL_FLAGS {
        return OUT_OF_RANGE;
    }
    let raw = match lines_of(alloc, text) {
        Ok(raw) => raw,
        Err(fault) => {
            let (status, place) = status_of_list(fault);
            *fault_at = place;
            return status;
        }
    };
    match plan_of(alloc, &raw, flags as u8) {
        Ok((made, _)) => set_plan(plan, alloc, made),
        Err(status) => status,
    }
}

/// Makes `other` a second owner of a plan.
///
/// # Errors
/// - `NULL_HANDLE`, where `plan` is null.
/// - `OUT_OF_MEMORY`, where a growth was refused.
#[unsafe(no_mangle)]
pub extern "C" fn fiolargu_plan_share(
    alloc: Global,
    plan: &mut PlanHandle,
    other: &mut PlanHandle,
) -> i32
    ensures plan { plan.new.held ≡ plan.old.held }
    ensures shared { result ≡ OK → plan_of other.new.held ≡ plan_of plan.old.held }
    ensures same { (result ≡ OK → ⊥) → other.new.held ≡ other.old.held }
    ensures null { result ≡ NULL_HANDLE ↔ plan.old.held ≡ None }
    ensures refused { (result ≡ OK) ⊎ ((result ≡ NULL_HANDLE) ⊎ (result ≡ OUT_OF_MEMORY)) }
{
    let Some(held) = plan.take(alloc) else {
        return NULL_HANDLE;
    };
    let status = match held.plan.share() {
        Ok(again) => set_shared(other, alloc, again),
        Err(_) => OUT_OF_MEMORY,
    };
    plan.put(held);
    status
}

/// What a plan has.
fn info_of(plan: &Compiled) -> PlanInfo
    ensures { IsInfoOf plan.now result }
{
    let certificate = plan.certificate();
    let list = plan.list();
    PlanInfo {
        literals: list.len() as u64,
        longest: list.longest() as u64,
        cost: certificate.cost,
        flags: u32::from(flags_of(list.fold(), certificate.profile)),
        runs: certificate.ends.len() as u32,
    }
}

/// Says what a plan has.
///
/// # Errors
/// `NULL_HANDLE`, where `plan` is null; `info` stays as it was.
#[unsafe(no_mangle)]
pub extern "C" fn fiolargu_plan_info(
    alloc: Global,
    plan: &mut PlanHandle,
    info: &mut PlanInfo,
) -> i32
    ensures plan { plan.new.held ≡ plan.old.held }
    ensures info { result ≡ OK → IfSome (plan_of plan.old.held) (λ p. IsInfoOf p info.new) }
    ensures null { result ≡ NULL_HANDLE ↔ plan.old.held ≡ None }
    ensures same { result ≡ NULL_HANDLE → info.new ≡ info.old }
    ensures ok { (result ≡ OK) ⊎ (result ≡ NULL_HANDLE) }
{
    let Some(held) = plan.take(alloc) else {
        return NULL_HANDLE;
    };
    *info = info_of(held.plan.plan());
    plan.put(held);
    OK
}

/// Writes the bytes of a literal.
///
/// # Errors
/// - `NULL_HANDLE`, where `plan` is null.
/// - `OUT_OF_RANGE`, where the plan has no such literal.
/// - `SMALL_BUFFER`, where the buffer has less room. Then `len` is the room that is needed; at other refusals it is 0.
#[unsafe(no_mangle)]
pub extern "C" fn fiolargu_plan_literal(
    alloc: Global,
    plan: &mut PlanHandle,
    literal: usize,
    buffer: &mut [u8],
    len: &mut usize,
) -> i32
    ensures plan { plan.new.held ≡ plan.old.held }
    ensures literal { result ≡ OK → IfSome (plan_of plan.old.held) (λ p. slice_get p.literals.texts literal ≡ Some (take len.new buffer.new)) }
    ensures null { result ≡ NULL_HANDLE ↔ plan.old.held ≡ None }
    ensures range { IfSome (plan_of plan.old.held) (λ p. result ≡ OUT_OF_RANGE ↔ (length p.literals.texts ≤ literal)) }
    ensures fits { result ≡ OK → len.new ≤ length buffer.old }
    ensures room { result ≡ SMALL_BUFFER → IfSome (plan_of plan.old.held) (λ p. IsSomeAnd (slice_get p.literals.texts literal) (λ text. (len.new ≡ length text) × (length buffer.old < len.new))) }
    ensures after { result ≡ OK → drop len.new buffer.new ≡ drop len.new buffer.old }
    ensures same { (result ≡ OK → ⊥) → buffer.new ≡ buffer.old }
    ensures none { (result ≡ OK → ⊥) → (result ≡ SMALL_BUFFER → ⊥) → len.new ≡ 0 }
    ensures refused { (result ≡ OK) ⊎ ((result ≡ NULL_HANDLE) ⊎ ((result ≡ OUT_OF_RANGE) ⊎ (result ≡ SMALL_BUFFER))) }
{
    *len = 0;
    let Some(held) = plan.take(alloc) else {
        return NULL_HANDLE;
    };
    let status = write_literal(held.plan.plan(), literal, buffer, len);
    plan.put(held);
    status
}

/// Writes the bytes of a literal to the start of a buffer, if the plan has the literal and the buffer has room.
fn write_literal(plan: &Compiled, literal: usize, buffer: &mut [u8], len: &mut usize) -> i32
    ensures literal { result ≡ OK → slice_get plan.now.literals.texts literal ≡ Some (take len.new buffer.new) }
    ensures not_null { result ≡ NULL_HANDLE → ⊥ }
    ensures range { result ≡ OUT_OF_RANGE ↔ (length plan.now.literals.texts ≤ literal) }
    ensures fits { result ≡ OK → len.new ≤ length buffer.old }
    ensures room { result ≡ SMALL_BUFFER → IsSomeAnd (slice_get plan.now.literals.texts literal) (λ text. (len.new ≡ length text) × (length buffer.old < len.new)) }
    ensures after { result ≡ OK → drop len.new buffer.new ≡ drop len.new buffer.old }
    ensures same { (result ≡ OK → ⊥) → buffer.new ≡ buffer.old }
    ensures none { result ≡ OUT_OF_RANGE → len.new ≡ len.old }
    ensures refused { (result ≡ OK) ⊎ ((result ≡ OUT_OF_RANGE) ⊎ (result ≡ SMALL_BUFFER)) }
{
    if literal >= plan.list().len() {
        return OUT_OF_RANGE;
    }
    write_bytes(plan.list().get(literal), buffer, len)
}

/// Writes bytes to the start of a buffer, if it has room. `len` gets how many they are.
pub(crate) fn write_bytes(bytes: &[u8], buffer: &mut [u8], len: &mut usize) -> i32
    ensures written { result ≡ OK → take len.new buffer.new ≡ bytes.now }
    ensures len { len.new ≡ length bytes.now }
    ensures fits { result ≡ OK → len.new ≤ length buffer.old }
    ensures room { result ≡ OK ↔ (length bytes.now ≤ length buffer.old) }
    ensures small { (result ≡ OK) ⊎ (result ≡ SMALL_BUFFER) }
    ensures not_null { result ≡ NULL_HANDLE → ⊥ }
    ensures not_range { result ≡ OUT_OF_RANGE → ⊥ }
    ensures after { result ≡ OK → drop len.new buffer.new ≡ drop len.new buffer.old }
    ensures same { (result ≡ OK → ⊥) → buffer.new ≡ buffer.old }
{
    *len = bytes.len();
    if bytes.len() > buffer.len() {
        return SMALL_BUFFER;
    }
    buffer[..bytes.len()].copy_from_slice(bytes);
    OK
}

/// Frees a plan and makes the handle null. A null handle stays null.
#[unsafe(no_mangle)]
pub extern "C" fn fiolargu_plan_free(alloc: Global, plan: &mut PlanHandle)
    ensures { plan.new.held ≡ None }
{
    drop(plan.take(alloc));
}
