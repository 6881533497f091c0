//! Exports that search texts in memory, and what writes hits for C.
ghost use Rattle.std.specs.Prelude.{◌≡◌, ◌-◌, ◌≤◌, ◌<◌, ◌⊎◌, ◌↔◌, [], IfSome, None, drop, length, map, take};
ghost use Rattle.std.specs.List.{slice_get};
ghost use Rattle.lit_base.specs.NextEnds.{NoEndAfter};
ghost use Rattle.text_ends.specs.HitsAfter.{StopsAt};
ghost use Rattle.fiolargu.specs.Found.{HaveLengths, IsNextOrNone, hit_of, length_of, plan_of};
ghost use Rattle.fiolargu.specs.declared.statuses.TheConstants.{NULL_HANDLE, OK, OUT_OF_MEMORY, OUT_OF_RANGE, SMALL_BUFFER};

use crate::statuses::{NULL_HANDLE, OK, OUT_OF_MEMORY, OUT_OF_RANGE, SMALL_BUFFER};
use crate::views::FoundHit;
use c_handle::{PlanHandle, SharedPlan};
use flow_scan::{Compiled, Hit, first_end_after};
use std::alloc::Global;

/// How many bytes the literal of a hit has.
fn length_of(plan: &Compiled, hit: Hit) -> u32
    ensures { result ≡ length_of (slice_get plan.now.literals.texts hit.0) }
{
    let list = plan.list();
    list.normal_law();
    match plan.literal_of(hit) {
        Some(literal) => literal.len() as u32,
        None => 0,
    }
}

/// Writes hits to the start of a buffer that has room for them, and returns their number.
pub(crate) fn write_hits(plan: &Compiled, hits: &[Hit], buffer: &mut [FoundHit]) -> usize
    requires { length hits.now ≤ length buffer.old }
    ensures count { result ≡ length hits.now }
    ensures hits { map hit_of (take result buffer.new) ≡ hits.now }
    ensures lengths { HaveLengths plan.now.literals (take result buffer.new) }
    ensures after { drop result buffer.new ≡ drop result buffer.old }
{
    let mut count = 0;
    for hit in hits {
        buffer[count] = FoundHit {
            end: hit.end_at,
            literal: u32::from(hit.lit),
            length: length_of(plan, *hit),
        };
        count += 1;
    }
    count
}

/// After how many hits a scan stops, so that all hits of its last end fit a buffer; 0 where the buffer is too small.
pub(crate) fn most_of(plan: &Compiled, buffer: &[FoundHit]) -> usize
    ensures { result ≡ length buffer.now - length plan.now.literals.texts }
{
    buffer.len().saturating_sub(plan.list().len())
}

/// Finds the hits of a text after `place`, up to the new `place`.
///
/// # Errors
/// - `NULL_HANDLE`, where `plan` is null.
/// - `SMALL_BUFFER`, where the buffer has no more room than the plan has literals.
/// - `OUT_OF_RANGE`, where `place` is after the end of the text.
/// - `OUT_OF_MEMORY`, where a growth was refused. It comes only if a literal ends after `place`.
#[unsafe(no_mangle)]
pub extern "C" fn fiolargu_scan(
    alloc: Global,
    plan: &mut PlanHandle,
    text: &[u8],
    place: &mut usize,
    buffer: &mut [FoundHit],
    count: &mut usize,
) -> i32
    ensures plan { plan_of plan.new.held ≡ plan_of plan.old.held }
    ensures found { result ≡ OK → IfSome (plan_of plan.old.held) (λ p.
        StopsAt p.literals text.now place.old place.old (length buffer.old - length p.literals.texts) place.new [] (map hit_of (take count.new buffer.new))) }
    ensures lengths { result ≡ OK → IfSome (plan_of plan.old.held) (λ p. HaveLengths p.literals (take count.new buffer.new)) }
    ensures after { result ≡ OK → drop count.new buffer.new ≡ drop count.new buffer.old }
    ensures unwritten { (result ≡ OK → ⊥) → buffer.new ≡ buffer.old }
    ensures null { result ≡ NULL_HANDLE ↔ plan_of plan.old.held ≡ None }
    ensures room { IfSome (plan_of plan.old.held) (λ p. result ≡ SMALL_BUFFER ↔ (length buffer.old ≤ length p.literals.texts)) }
    ensures range { result ≡ OUT_OF_RANGE → length text.now < place.old }
    ensures inside { result ≡ OK → place.old ≤ length text.now }
    ensures same { (result ≡ OK → ⊥) → (place.new ≡ place.old) × (count.new ≡ 0) }
    ensures starved { result ≡ OUT_OF_MEMORY → place.old ≤ length text.now }
    ensures quiet { result ≡ OUT_OF_MEMORY → IfSome (plan_of plan.old.held) (λ p. NoEndAfter p.literals text.now place.old → ⊥) }
    ensures refused { (result ≡ OK) ⊎ ((result ≡ NULL_HANDLE) ⊎ ((result ≡ SMALL_BUFFER) ⊎ ((result ≡ OUT_OF_RANGE) ⊎ (result ≡ OUT_OF_MEMORY)))) }
{
    *count = 0;
    let Some(mut held) = plan.take(alloc) else {
        return NULL_HANDLE;
    };
    let status = scan_held(alloc, &mut held, text, place, buffer, count);
    plan.put(held);
    status
}

/// Finds the hits of a text by the plan of a handle.
fn scan_held(
    alloc: Global,
    held: &mut SharedPlan,
    text: &[u8],
    place: &mut usize,
    buffer: &mut [FoundHit],
    count: &mut usize,
) -> i32
    ensures plan { held.new.plan ≡ held.old.plan }
    ensures found { result ≡ OK →
        StopsAt held.old.plan.literals text.now place.old place.old (length buffer.old - length held.old.plan.literals.texts) place.new []
        (map hit_of (take count.new buffer.new)) }
    ensures lengths { result ≡ OK → HaveLengths held.old.plan.literals (take count.new buffer.new) }
    ensures after { result ≡ OK → drop count.new buffer.new ≡ drop count.new buffer.old }
    ensures unwritten { (result ≡ OK → ⊥) → buffer.new ≡ buffer.old }
    ensures not_null { result ≡ NULL_HANDLE → ⊥ }
    ensures room { result ≡ SMALL_BUFFER ↔ (length buffer.old ≤ length held.old.plan.literals.texts) }
    ensures range { result ≡ OUT_OF_RANGE → length text.now < place.old }
    ensures inside { result ≡ OK → place.old ≤ length text.now }
    ensures same { (result ≡ OK → ⊥) → (place.new ≡ place.old) × (count.new ≡ count.old) }
    ensures starved { result ≡ OUT_OF_MEMORY → place.old ≤ length text.now }
    ensures quiet { result ≡ OUT_OF_MEMORY → NoEndAfter held.old.plan.literals text.now place.old → ⊥ }
    ensures refused { (result ≡ OK) ⊎ ((result ≡ SMALL_BUFFER) ⊎ ((result ≡ OUT_OF_RANGE) ⊎ (result ≡ OUT_OF_MEMORY))) }
{
    let most = most_of(held.plan.plan(), buffer);
    if most == 0 {
        return SMALL_BUFFER;
    }
    if *place > text.len() {
        return OUT_OF_RANGE;
    }
    held.out.clear();
    match held
        .plan
        .scan_until(alloc, text, *place, most, &mut held.out)
    {
        Ok(stop) => {
            *place = stop;
            *count = write_hits(held.plan.plan(), &held.out, buffer);
            OK
        }
        Err(_) => OUT_OF_MEMORY,
    }
}

/// Finds the first end after a position of a text, or 0 if there is none.
///
/// # Errors
/// - `NULL_HANDLE`, where `plan` is null.
/// - `OUT_OF_RANGE`, where `from` is after the end of the text.
#[unsafe(no_mangle)]
pub extern "C" fn fiolargu_next(
    alloc: Global,
    plan: &mut PlanHandle,
    text: &[u8],
    from: usize,
    end: &mut usize,
) -> i32
    ensures plan { plan.new.held ≡ plan.old.held }
    ensures found { result ≡ OK → IfSome (plan_of plan.old.held) (λ p. IsNextOrNone p.literals text.now from end.new) }
    ensures null { result ≡ NULL_HANDLE ↔ plan.old.held ≡ None }
    ensures range { IfSome plan.old.held (λ _. result ≡ OUT_OF_RANGE ↔ (length text.now < from)) }
    ensures same { (result ≡ OK → ⊥) → end.new ≡ 0 }
    ensures refused { (result ≡ OK) ⊎ ((result ≡ NULL_HANDLE) ⊎ (result ≡ OUT_OF_RANGE)) }
{
    *end = 0;
    let Some(held) = plan.take(alloc) else {
        return NULL_HANDLE;
    };
    let status = next_of(held.plan.plan(), text, from, end);
    plan.put(held);
    status
}

/// Finds the first end after a position of a text by a plan, or 0 if there is none.
fn next_of(plan: &Compiled, text: &[u8], from: usize, end: &mut usize) -> i32
    ensures found { result ≡ OK → IsNextOrNone plan.now.literals text.now from end.new }
    ensures range { result ≡ OUT_OF_RANGE ↔ (length text.now < from) }
    ensures refused { (result ≡ OK) ⊎ (result ≡ OUT_OF_RANGE) }
    ensures same { (result ≡ OK → ⊥) → end.new ≡ end.old }
{
    if from > text.len() {
        return OUT_OF_RANGE;
    }
    match first_end_after(plan, text, from) {
        Some(found) => *end = found,
        None => *end = 0,
    }
    OK
}
