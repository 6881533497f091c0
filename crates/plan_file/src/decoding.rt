//! Plans read back from a text that is held whole.
ghost use Rattle.std.specs.Prelude.{◌≡◌, ◌≢◌, ℕ, ◌<◌, ◌≤◌, ◌++◌, List, length, take, IfErr, IsOkUnless, IfOk, IsOkAnd};
ghost use Rattle.lit_plan.specs.Plans.{Plan};
ghost use Rattle.plan_file.specs.declared.fault.Cause.{Cause};
ghost use Rattle.plan_file.specs.Faults.{Gives, IfBadFile, IfWrong};
ghost use Rattle.plan_file.specs.FirstFaults.{AreEntries, IsFirstFault, IsWrong, IsWrongAfter, IsWrongEntry};
ghost use Rattle.plan_file.specs.Reading.{head_at, plan_at};
ghost use Rattle.plan_file.specs.Spelling.{AnnouncesPlans, BeginsDraft, BeginsFile, IsFile, IsPlan, plan_text};

use crate::certificates::first_certificate;
use crate::encoding::encode;
use crate::fault::{Cause, Fault, Stop, stop_at};
use crate::fields::{first_u16, first_u32};
use crate::limits::{MAGIC, MAX_PLANS};
use crate::literals::first_list;
use crate::version::Version;
use list_index::ListIndex;
use lit_base::LitList;
use lit_cert::Certificate;
use lit_plan::Compiled;
use std::alloc::Global;

/// The version and the number of plans in the head at the start, and the bytes after it. It takes no memory.
#[tactic(auto, unfolding(crate::specs::Reading::head_at))]
fn head_of(bytes: &[u8]) -> Result<(Version, u16, &[u8]), Stop>
    ensures head { Gives (λ x. ((x.0, x.1), x.2.now)) result (head_at bytes.now) }
    ensures not_starved { result ≢ Err Stop.OutOfMemory }
{
    let (magic, rest) = first_u32(bytes)?;
    if magic != MAGIC {
        return Err(stop_at(bytes, Cause::Magic));
    }
    let (number, after) = first_u16(rest)?;
    let Some(version) = Version::of(number) else {
        return Err(stop_at(rest, Cause::Version));
    };
    let (count, entries) = first_u16(after)?;
    if usize::from(count) > MAX_PLANS {
        return Err(stop_at(after, Cause::Count));
    }
    Ok((version, count, entries))
}

/// An entry, whose certificate is not checked yet.
#[derive(Drop)]
struct Entry {
    list: LitList,
    certificate: Certificate,
}

/// The entry at the start, and the bytes after it.
#[tactic(auto, unfolding(crate::specs::Reading::plan_at))]
fn first_entry(alloc: Global, version: Version, bytes: &[u8]) -> Result<(Entry, &[u8]), Stop>
    ensures { Gives (λ x. (record { literals = x.0.list; certificate = x.0.certificate }, x.1.now)) result (plan_at version bytes.now) }
{
    let (profile, list, rest) = first_list(alloc, version, bytes)?;
    let (certificate, rest) = first_certificate(alloc, profile, list.len(), rest)?;
    Ok((Entry { list, certificate }, rest))
}

/// The plan of the entry at the start, if its certificate holds, and the bytes after it.
fn first_plan(alloc: Global, version: Version, bytes: &[u8]) -> Result<(Compiled, &[u8]), Stop>
    ensures found { IfOk result (λ x. IsPlan version x.0 × (bytes.now ≡ plan_text x.0 ++ x.1.now)) }
    ensures wrong { IfErr result (IfWrong (IsWrongEntry version bytes.now)) }
{
    let (entry, rest) = first_entry(alloc, version, bytes)?;
    let index = ListIndex::new(alloc, entry.list)?;
    match Compiled::new(index, entry.certificate) {
        Ok(plan) => Ok((plan, rest)),
        Err((lit_plan::Fault::NotCertified { reason }, _, _)) => {
            Err(stop_at(bytes, Cause::NotCertified { reason }))
        }
        Err(_) => unreachable!(),
    }
}

/// `count` plans, which are all of the bytes.
fn plans_of(
    alloc: Global,
    version: Version,
    count: u16,
    bytes: &[u8],
) -> Result<Vec<Compiled>, Stop>
    ensures found { IfOk result (λ plans. AreEntries version count bytes.now plans.items) }
    ensures wrong { IfErr result (IfWrong (IsWrongAfter version count bytes.now)) }
    ensures starved { result ≡ Err Stop.OutOfMemory → 0 < count }
{
    let mut plans = Vec::new(alloc);
    let mut rest = bytes;
    for _ in 0..count {
        let (plan, after) = first_plan(alloc, version, rest)?;
        plans.push(plan)?;
        rest = after;
    }
    if !rest.is_empty() {
        return Err(stop_at(rest, Cause::Trailing));
    }
    Ok(plans)
}

/// The plans of the whole text.
fn all_plans(alloc: Global, bytes: &[u8]) -> Result<Vec<Compiled>, Stop>
    ensures found { IfOk result (λ plans. IsFile bytes.now plans.items) }
    ensures wrong { IfErr result (IfWrong (IsWrong bytes.now)) }
    ensures starved { result ≡ Err Stop.OutOfMemory → AnnouncesPlans bytes.now }
{
    let (version, count, rest) = head_of(bytes)?;
    plans_of(alloc, version, count, rest)
}

/// The plans in the text of a file of version 1 or 2.
///
/// # Errors
/// - `BadPlanFile` with the first cause in reading order, and the place of its field.
/// - `OutOfMemory`, where a growth was refused. It comes only if the bytes begin with the head of a file that has
///   plans. A number in the file costs no memory before its bytes are there.
pub fn decode(alloc: Global, bytes: &[u8]) -> Result<Vec<Compiled>, Fault>
    // A text that is read is a file of the plans returned.
    ensures found { IfOk result (λ plans. IsFile bytes.now plans.items) }
    // A file of either version is read, unless memory runs out.
    ensures only { (plans : List Plan) → IsFile bytes.now plans →
        result ≢ Err Fault.OutOfMemory → IsOkAnd result (λ read. read.items ≡ plans) }

    // The fault returned is the first one, and the first one is returned.
    ensures wrong { IfErr result (IfBadFile (IsFirstFault bytes.now)) }
    ensures exact { (place : ℕ) (cause : Cause) → IsFirstFault bytes.now place cause →
        result ≢ Err Fault.OutOfMemory → result ≡ Err (Fault.BadPlanFile place cause) }
    // Bytes that announce no plans take no memory.
    ensures starved { result ≡ Err Fault.OutOfMemory → AnnouncesPlans bytes.now }
{
    match all_plans(alloc, bytes) {
        Ok(plans) => Ok(plans),
        Err(Stop::OutOfMemory) => Err(Fault::OutOfMemory),
        Err(Stop::Wrong(wrong)) => Err(Fault::BadPlanFile {
            place: bytes.len() - wrong.left,
            cause: wrong.cause,
        }),
    }
}

/// The law of first faults. A text has at most one, and none if it is a file. The bytes before it begin a file of
/// drafts. Unless its cause is `Short`, it is the first fault whatever bytes follow, and the text begins no file.
pub fn fault_law()
    ensures one { (text : List ℕ) (place other : ℕ) (cause another : Cause) →
        IsFirstFault text place cause → IsFirstFault text other another → (place ≡ other) × (cause ≡ another) }
    ensures none { (text : List ℕ) (plans : List Plan) (place : ℕ) (cause : Cause) →
        IsFile text plans → IsFirstFault text place cause → ⊥ }
    ensures begins { (text : List ℕ) (place : ℕ) (cause : Cause) →
        IsFirstFault text place cause → BeginsDraft (take place text) }
    ensures stays { (text more : List ℕ) (place : ℕ) (cause : Cause) →
        IsFirstFault text place cause → cause ≢ Cause.Short → IsFirstFault (text ++ more) place cause }
    ensures never { (text : List ℕ) (place : ℕ) (cause : Cause) →
        IsFirstFault text place cause → cause ≢ Cause.Short → BeginsFile text → ⊥ }
{}

/// The plans that `decode` reads in the text that `encode` makes of some plans: the same plans. The only error is
/// `OutOfMemory`.
pub fn read_back(alloc: Global, plans: &[Compiled]) -> Result<Vec<Compiled>, Fault>
    requires { length plans.now ≤ 64 }
    ensures same { IfOk result (λ read. read.items ≡ plans.now) }
    ensures refused { IsOkUnless result Fault.OutOfMemory }
{
    let text = encode(alloc, plans)?;
    decode(alloc, &text)
}
