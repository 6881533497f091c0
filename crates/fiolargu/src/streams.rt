//! Exports that search streams.
ghost use Rattle.std.specs.Prelude.{◌≡◌, ◌+◌, ◌-◌, ◌^◌, ◌++◌, ◌≤◌, ◌<◌, ◌⊎◌, ◌↔◌, [], IfSome, None, Some, drop, length, map, take};
ghost use Rattle.lit_base.specs.NextEnds.{NoEndAfter};
ghost use Rattle.flow_scan.specs.Scanners.{fed as fed_by, started};
ghost use Rattle.flow_scan.specs.Tails.{StopsIn};
ghost use Rattle.fiolargu.specs.Found.{HaveLengths, hit_of, plan_of, stream_of};
ghost use Rattle.fiolargu.specs.declared.statuses.TheConstants.{NULL_HANDLE, OK, OUT_OF_MEMORY, SMALL_BUFFER, STREAM_TOO_LONG};

use crate::scans::{most_of, write_hits};
use crate::statuses::{NULL_HANDLE, OK, OUT_OF_MEMORY, SMALL_BUFFER, STREAM_TOO_LONG};
use crate::views::FoundHit;
use c_handle::{OpenStream, PlanHandle, StreamHandle};
use flow_scan::{Fault, Stream, TunedPlan};
use std::alloc::Global;

/// Puts a scan into a handle.
fn set_stream(handle: &mut StreamHandle, alloc: Global, stream: Stream) -> i32
    ensures set { result ≡ OK → stream_of handle.new.held ≡ Some stream }
    ensures same { (result ≡ OK → ⊥) → handle.new.held ≡ handle.old.held }
    ensures refused { (result ≡ OK) ⊎ (result ≡ OUT_OF_MEMORY) }
    ensures not_null { result ≡ NULL_HANDLE → ⊥ }
{
    let held = OpenStream {
        stream,
        out: Vec::new(alloc),
    };
    match Box::new(alloc, held) {
        Ok(held) => {
            handle.put(held);
            OK
        }
        Err(_) => OUT_OF_MEMORY,
    }
}

/// Puts a new scan by a plan into a handle.
fn open(handle: &mut StreamHandle, alloc: Global, plan: &TunedPlan, base: u64) -> i32
    ensures set { result ≡ OK → stream_of handle.new.held ≡ Some (started plan.now base) }
    ensures same { (result ≡ OK → ⊥) → handle.new.held ≡ handle.old.held }
    ensures refused { (result ≡ OK) ⊎ (result ≡ OUT_OF_MEMORY) }
    ensures not_null { result ≡ NULL_HANDLE → ⊥ }
{
    let Ok(plan) = plan.share() else {
        return OUT_OF_MEMORY;
    };
    match Stream::new_at(alloc, plan, base) {
        Ok(stream) => set_stream(handle, alloc, stream),
        Err(_) => OUT_OF_MEMORY,
    }
}

/// Opens a stream, which has a share of the plan.
///
/// # Errors
/// - `NULL_HANDLE`, where `plan` is null.
/// - `OUT_OF_MEMORY`, where a growth was refused.
#[unsafe(no_mangle)]
pub extern "C" fn fiolargu_stream_open(
    alloc: Global,
    plan: &mut PlanHandle,
    stream: &mut StreamHandle,
    base: u64,
) -> i32
    ensures plan { plan.new.held ≡ plan.old.held }
    ensures opened { result ≡ OK → IfSome (plan_of plan.old.held) (λ p. stream_of stream.new.held ≡ Some (started p base)) }
    ensures same { (result ≡ OK → ⊥) → stream.new.held ≡ stream.old.held }
    ensures null { result ≡ NULL_HANDLE ↔ plan.old.held ≡ None }
    ensures refused { (result ≡ OK) ⊎ ((result ≡ NULL_HANDLE) ⊎ (result ≡ OUT_OF_MEMORY)) }
{
    let Some(held) = plan.take(alloc) else {
        return NULL_HANDLE;
    };
    let status = open(stream, alloc, &held.plan, base);
    plan.put(held);
    status
}

/// Feeds the next piece, up to the first end at which the buffer may be full.
///
/// # Errors
/// - `NULL_HANDLE`, where `stream` is null.
/// - `SMALL_BUFFER`, where the buffer has no more room than the plan has literals.
/// - `STREAM_TOO_LONG`, where the position would pass 2^64 - 1 with the whole piece.
/// - `OUT_OF_MEMORY`, where a growth was refused. It comes only if a literal ends in the piece.
#[unsafe(no_mangle)]
pub extern "C" fn fiolargu_stream_feed(
    alloc: Global,
    stream: &mut StreamHandle,
    piece: &[u8],
    fed: &mut usize,
    buffer: &mut [FoundHit],
    count: &mut usize,
) -> i32
    ensures found { result ≡ OK → IfSome (stream_of stream.old.held) (λ s.
        StopsIn s.plan.literals s.tail piece.now s.place (length buffer.old - length s.plan.literals.texts) fed.new [] (map hit_of (take count.new buffer.new))) }
    ensures lengths { result ≡ OK → IfSome (stream_of stream.old.held) (λ s. HaveLengths s.plan.literals (take count.new buffer.new)) }
    ensures after { result ≡ OK → drop count.new buffer.new ≡ drop count.new buffer.old }
    ensures unwritten { (result ≡ OK → ⊥) → buffer.new ≡ buffer.old }
    ensures stream { result ≡ OK → IfSome (stream_of stream.old.held) (λ s. stream_of stream.new.held ≡ Some (fed_by s (take fed.new piece.now))) }
    ensures same { (result ≡ OK → ⊥) → stream_of stream.new.held ≡ stream_of stream.old.held }
    ensures none { (result ≡ OK → ⊥) → (fed.new ≡ 0) × (count.new ≡ 0) }
    ensures null { result ≡ NULL_HANDLE ↔ stream_of stream.old.held ≡ None }
    ensures room { IfSome (stream_of stream.old.held) (λ s. result ≡ SMALL_BUFFER ↔ (length buffer.old ≤ length s.plan.literals.texts)) }
    ensures too_long { IfSome (stream_of stream.old.held) (λ s. result ≡ STREAM_TOO_LONG ↔ ((length s.plan.literals.texts < length buffer.old) × (2 ^ 64 ≤ s.place + length piece.now))) }
    ensures quiet { result ≡ OUT_OF_MEMORY → IfSome (stream_of stream.old.held) (λ s. NoEndAfter s.plan.literals (s.tail ++ piece.now) (length s.tail) → ⊥) }
    ensures refused { (result ≡ OK) ⊎ ((result ≡ NULL_HANDLE) ⊎ ((result ≡ SMALL_BUFFER) ⊎ ((result ≡ STREAM_TOO_LONG) ⊎ (result ≡ OUT_OF_MEMORY)))) }
{
    *count = 0;
    *fed = 0;
    let Some(mut held) = stream.take(alloc) else {
        return NULL_HANDLE;
    };
    let status = feed_held(alloc, &mut held, piece, fed, buffer, count);
    stream.put(held);
    status
}

/// Feeds the next piece to the stream of a handle.
fn feed_held(
    alloc: Global,
    held: &mut OpenStream,
    piece: &[u8],
    fed: &mut usize,
    buffer: &mut [FoundHit],
    count: &mut usize,
) -> i32
    ensures found { result ≡ OK →
        StopsIn held.old.stream.plan.literals held.old.stream.tail piece.now held.old.stream.place (length buffer.old - length held.old.stream.plan.literals.texts) fed.new []
        (map hit_of (take count.new buffer.new)) }
    ensures lengths { result ≡ OK → HaveLengths held.old.stream.plan.literals (take count.new buffer.new) }
    ensures after { result ≡ OK → drop count.new buffer.new ≡ drop count.new buffer.old }
    ensures unwritten { (result ≡ OK → ⊥) → buffer.new ≡ buffer.old }
    ensures stream { result ≡ OK → held.new.stream ≡ fed_by held.old.stream (take fed.new piece.now) }
    ensures same { (result ≡ OK → ⊥) → held.new.stream ≡ held.old.stream }
    ensures none { (result ≡ OK → ⊥) → (fed.new ≡ fed.old) × (count.new ≡ count.old) }
    ensures not_null { result ≡ NULL_HANDLE → ⊥ }
    ensures room { result ≡ SMALL_BUFFER ↔ (length buffer.old ≤ length held.old.stream.plan.literals.texts) }
    ensures too_long { result ≡ STREAM_TOO_LONG ↔ ((length held.old.stream.plan.literals.texts < length buffer.old) × (2 ^ 64 ≤ held.old.stream.place + length piece.now)) }
    ensures quiet { result ≡ OUT_OF_MEMORY → NoEndAfter held.old.stream.plan.literals (held.old.stream.tail ++ piece.now) (length held.old.stream.tail) → ⊥ }
    ensures refused { (result ≡ OK) ⊎ ((result ≡ SMALL_BUFFER) ⊎ ((result ≡ STREAM_TOO_LONG) ⊎ (result ≡ OUT_OF_MEMORY))) }
{
    let most = most_of(held.stream.plan(), buffer);
    if most == 0 {
        return SMALL_BUFFER;
    }
    held.out.clear();
    match held.stream.feed_until(alloc, piece, most, &mut held.out) {
        Ok(stop) => {
            *fed = stop;
            *count = write_hits(held.stream.plan(), &held.out, buffer);
            OK
        }
        Err(Fault::StreamTooLong) => STREAM_TOO_LONG,
        Err(_) => OUT_OF_MEMORY,
    }
}

/// The position of a stream.
///
/// # Errors
/// `NULL_HANDLE`, where `stream` is null; `place` stays as it was.
#[unsafe(no_mangle)]
pub extern "C" fn fiolargu_stream_place(
    alloc: Global,
    stream: &mut StreamHandle,
    place: &mut u64,
) -> i32
    ensures stream { stream.new.held ≡ stream.old.held }
    ensures place { result ≡ OK → IfSome (stream_of stream.old.held) (λ s. place.new ≡ s.place) }
    ensures null { result ≡ NULL_HANDLE ↔ stream.old.held ≡ None }
    ensures ok { (result ≡ OK) ⊎ (result ≡ NULL_HANDLE) }
    ensures same { (result ≡ OK → ⊥) → place.new ≡ place.old }
{
    let Some(held) = stream.take(alloc) else {
        return NULL_HANDLE;
    };
    *place = held.stream.place();
    stream.put(held);
    OK
}

/// Makes `other` an equal stream.
///
/// # Errors
/// - `NULL_HANDLE`, where `stream` is null.
/// - `OUT_OF_MEMORY`, where a growth was refused.
#[unsafe(no_mangle)]
pub extern "C" fn fiolargu_stream_copy(
    alloc: Global,
    stream: &mut StreamHandle,
    other: &mut StreamHandle,
) -> i32
    ensures stream { stream.new.held ≡ stream.old.held }
    ensures copied { result ≡ OK → stream_of other.new.held ≡ stream_of stream.old.held }
    ensures same { (result ≡ OK → ⊥) → other.new.held ≡ other.old.held }
    ensures null { result ≡ NULL_HANDLE ↔ stream.old.held ≡ None }
    ensures refused { (result ≡ OK) ⊎ ((result ≡ NULL_HANDLE) ⊎ (result ≡ OUT_OF_MEMORY)) }
{
    let Some(held) = stream.take(alloc) else {
        return NULL_HANDLE;
    };
    let status = match held.stream.copy() {
        Ok(again) => set_stream(other, alloc, again),
        Err(_) => OUT_OF_MEMORY,
    };
    stream.put(held);
    status
}

/// Begins a new stream by the same plan.
///
/// # Errors
/// `NULL_HANDLE`, where `stream` is null.
#[unsafe(no_mangle)]
pub extern "C" fn fiolargu_stream_reset(alloc: Global, stream: &mut StreamHandle, base: u64) -> i32
    ensures begun { result ≡ OK → IfSome (stream_of stream.old.held) (λ s. stream_of stream.new.held ≡ Some (started s.plan base)) }
    ensures null { result ≡ NULL_HANDLE ↔ stream.old.held ≡ None }
    ensures ok { (result ≡ OK) ⊎ (result ≡ NULL_HANDLE) }
    ensures same { result ≡ NULL_HANDLE → stream.new.held ≡ None }
{
    let Some(mut held) = stream.take(alloc) else {
        return NULL_HANDLE;
    };
    held.stream.restart(base);
    stream.put(held);
    OK
}

/// Closes a stream and makes the handle null. A null handle stays null.
#[unsafe(no_mangle)]
pub extern "C" fn fiolargu_stream_close(alloc: Global, stream: &mut StreamHandle)
    ensures { stream.new.held ≡ None }
{
    drop(stream.take(alloc));
}
