//! The literals of an entry, checked as they come.
ghost use Rattle.std.specs.Prelude.{◌≡◌, ◌+◌, ◌<◌, ◌≤◌, ◌∷◌, ◌++◌, [], length, sum_by, IfErr, IfOk, OnOk};
ghost use Rattle.std.specs.Ordering.{is_lt};
ghost use Rattle.lit_base.specs.Literals.{IsNormal, literal_cmp};
ghost use Rattle.lit_base.specs.declared.limits.TheConstants.{MAX_LITERALS, MAX_LITERAL_LEN, MAX_LIST_LEN};
ghost use Rattle.plan_file.specs.declared.fault.Stop.TheVariants.{OutOfMemory as no_memory_left};
ghost use Rattle.lit_base.specs.declared.fault.Fault.TheVariants.{OutOfMemory as refused_memory};
ghost use Rattle.plan_file.specs.Faults.{Gives};
ghost use Rattle.plan_file.specs.Reading.{folded_len as folded_len_of, list_at, literal_at, literals_at};

use crate::fault::{Cause, Stop, stop_at};
use crate::fields::{first_byte, first_bytes, first_u16};
use crate::version::Version;
use lit_base::{
    Fold, LitList, MAX_LIST_LEN, MAX_LITERAL_LEN, Profile, RawList, fold_byte, fold_of, profile_of,
};
use std::alloc::Global;

/// How many bytes at the start are folded.
fn folded_len(fold: Fold, text: &[u8]) -> usize
    ensures { result ≡ folded_len_of fold text.now }
{
    for (place, byte) in text.iter().enumerate() {
        if fold_byte(fold, *byte) != *byte {
            return place;
        }
    }
    text.len()
}

/// Whether a text is after another one, by length and then by bytes.
fn is_after(text: &[u8], before: &[u8]) -> bool
    ensures { result ≡ is_lt (literal_cmp before.now text.now) }
{
    let lengths = before.len().cmp(&text.len());
    lengths.then(before.cmp(text)).is_lt()
}

/// The literal at the start, which is after the one before it, and the bytes after it.
#[tactic(auto, unfolding(crate::specs::Reading::literal_at))]
fn first_literal<'a>(
    fold: Fold,
    room: usize,
    before: &[u8],
    bytes: &'a [u8],
) -> Result<(&'a [u8], &'a [u8]), Stop>
    ensures { Gives (λ x. (x.0.now, x.1.now)) result (literal_at fold room before.now bytes.entry.now) }
{
    let (len, rest) = first_u16(bytes)?;
    let len = usize::from(len);
    if len < 1 || len > MAX_LITERAL_LEN || len > room {
        return Err(stop_at(bytes, Cause::Literal));
    }
    let (literal, after) = first_bytes(len, rest)?;
    let folded = folded_len(fold, literal);
    if folded < literal.len() {
        let (_, unfolded) = rest.split_at(folded);
        return Err(stop_at(unfolded, Cause::Literal));
    }
    if !is_after(literal, before) {
        return Err(stop_at(bytes, Cause::Order));
    }
    Ok((literal, after))
}

/// The one refusal of a list that is within its limits.
fn no_memory(_refusal: lit_base::Fault) -> Stop
    requires { _refusal ≡ refused_memory }
    ensures { result ≡ no_memory_left }
{
    Stop::OutOfMemory
}

/// Appends a literal for which there is room.
fn push(list: &mut RawList, literal: &[u8]) -> Result<(), Stop>
    requires few { length list.old < MAX_LITERALS }
    requires short { length literal.now ≤ MAX_LITERAL_LEN }
    requires small { sum_by length list.old + length literal.now ≤ MAX_LIST_LEN }
    ensures ok { OnOk result (list.new ≡ list.old ++ literal.now ∷ []) }
    ensures err { IfErr result (λ stop. stop ≡ no_memory_left) }
{
    match list.push(literal) {
        Ok(()) => Ok(()),
        Err(refusal) => Err(no_memory(refusal)),
    }
}

/// `count` literals, and the bytes after them.
fn literals_of(
    alloc: Global,
    fold: Fold,
    count: usize,
    bytes: &[u8],
) -> Result<(RawList, &[u8]), Stop>
    requires { count ≤ MAX_LITERALS }
    ensures { Gives (λ x. (x.0, x.1.now)) result (literals_at fold count MAX_LIST_LEN [] bytes.now) }
{
    let mut list = RawList::new(alloc);
    let mut room = MAX_LIST_LEN;
    let mut before: &[u8] = &[];
    let mut rest = bytes;
    for _ in 0..count {
        let (literal, after) = first_literal(fold, room, before, rest)?;
        push(&mut list, literal)?;
        room -= literal.len();
        before = literal;
        rest = after;
    }
    Ok((list, rest))
}

/// The list of literals that are in normal form already.
fn list_of(alloc: Global, fold: Fold, literals: RawList) -> Result<LitList, Stop>
    requires { IsNormal (record { folding = fold; texts = literals }) }
    ensures ok { IfOk result (λ list. list ≡ record { folding = fold; texts = literals }) }
    ensures err { IfErr result (λ stop. stop ≡ no_memory_left) }
{
    LitList::from_normal(alloc, literals, fold).map_err(no_memory)
}

/// The profile and the literals of the entry at the start, and the bytes after them. `Err` has the first fault of their
/// fields, or says that memory is short.
#[tactic(auto, unfolding(crate::specs::Reading::list_at))]
pub fn first_list(
    alloc: Global,
    version: Version,
    bytes: &[u8],
) -> Result<(Profile, LitList, &[u8]), Stop>
    ensures { Gives (λ x. ((x.0, x.1), x.2.now)) result (list_at version bytes.now) }
{
    let (flags, rest) = first_byte(bytes)?;
    if flags > version.last_flags() {
        return Err(stop_at(bytes, Cause::Flags));
    }
    let (count, literals) = first_u16(rest)?;
    let count = usize::from(count);
    if count < 1 || count > version.max_literals() {
        return Err(stop_at(rest, Cause::Count));
    }
    let fold = fold_of(flags);
    let (list, rest) = literals_of(alloc, fold, count, literals)?;
    let list = list_of(alloc, fold, list)?;
    Ok((profile_of(flags), list, rest))
}
