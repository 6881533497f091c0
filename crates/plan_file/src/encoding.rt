//! The one text of each list of plans in version 2.
ghost use Rattle.std.specs.Prelude.{◌≡◌, ◌≢◌, ℕ, List, ◌^◌, ◌<◌, ◌≤◌, ◌++◌, All, length, IfErr, IfOk, IsOkUnless, IsTrue, OnErr, OnOk};
ghost use Rattle.std.specs.Io.KnownBytes.{Appends};
ghost use Rattle.byte_io.specs.Transfers.{AppendsPart};
ghost use Rattle.lit_base.specs.Literals.{IsNormal};
ghost use Rattle.lit_base.specs.declared.profile.Profile.TheVariants.{Eight};
ghost use Rattle.lit_plan.specs.Plans.{Plan};
ghost use Rattle.plan_file.specs.Faults.{IsWritersFault};
ghost use Rattle.std.specs.List.{flat_map};
ghost use Rattle.std.specs.Int.{w16, w64};
ghost use Rattle.plan_file.specs.declared.fault.Fault.TheVariants.{OutOfMemory};
ghost use Rattle.plan_file.specs.declared.version.Version.{Version};
ghost use Rattle.plan_file.specs.declared.version.Version.TheVariants.{One, Two};
ghost use Rattle.plan_file.specs.Spelling.{ArePlans, IsFileOf, IsPlan, certificate_text, head_text, literal_text, literals_text, numbers_text, plan_text, spelling};

use crate::fault::Fault;
use crate::limits::MAGIC;
use crate::version::Version;
use byte_io::{ByteOut, Failed, write_all};
use lit_base::{LitList, Profile, flags_of};
use lit_cert::Certificate;
use lit_plan::Compiled;
use std::alloc::{AllocError, Global};

/// Appends the head of a file of `count` plans.
#[tactic(auto, unfolding(crate::specs::Spelling::head_text))]
fn push_head(out: &mut Vec<u8>, count: u16) -> Result<(), AllocError>
    ensures { OnOk result (out.new.items ≡ out.old.items ++ head_text Two count) }
{
    out.extend_from_slice(&MAGIC.to_be_bytes())?;
    out.extend_from_slice(&Version::Two.number().to_be_bytes())?;
    out.extend_from_slice(&count.to_be_bytes())
}

/// Appends a literal.
fn push_literal(out: &mut Vec<u8>, literal: &[u8]) -> Result<(), AllocError>
    requires { length literal.now < 2 ^ 16 }
    ensures { OnOk result (out.new.items ≡ out.old.items ++ literal_text literal.now) }
{
    let len = literal.len() as u16;
    out.extend_from_slice(&len.to_be_bytes())?;
    out.extend_from_slice(literal)
}

/// Appends the literals of a plan, with their fold, its profile and their number.
fn push_literals(out: &mut Vec<u8>, profile: Profile, list: &LitList) -> Result<(), AllocError>
    ensures text { OnOk result (out.new.items ≡ out.old.items ++ literals_text profile list.now) }
    ensures normal { IsNormal list.now }
{
    list.normal_law();
    let count = list.len();
    out.push(flags_of(list.fold(), profile))?;
    out.extend_from_slice(&(count as u16).to_be_bytes())?;
    for place in 0..count {
        push_literal(out, list.get(place))?;
    }
    Ok(())
}

/// Appends ends, one after the other. Each fits its field.
fn push_ends(out: &mut Vec<u8>, ends: &[u16]) -> Result<(), AllocError>
    ensures text { OnOk result (out.new.items ≡ out.old.items ++ numbers_text w16 ends.now) }
    ensures small { All (λ e. e < 2 ^ 16) ends.now }
{
    for end in ends {
        out.extend_from_slice(&end.to_be_bytes())?;
    }
    Ok(())
}

/// Appends potentials, one after the other. Each fits its field.
fn push_potentials(out: &mut Vec<u8>, potentials: &[u64]) -> Result<(), AllocError>
    ensures text { OnOk result (out.new.items ≡ out.old.items ++ numbers_text w64 potentials.now) }
    ensures small { All (λ h. h < 2 ^ 64) potentials.now }
{
    for potential in potentials {
        out.extend_from_slice(&potential.to_be_bytes())?;
    }
    Ok(())
}

/// Appends a certificate. Each of its numbers fits its field.
fn push_certificate(out: &mut Vec<u8>, certificate: &Certificate) -> Result<(), AllocError>
    ensures text { OnOk result (out.new.items ≡ out.old.items ++ certificate_text certificate.now) }
    ensures small_ends { OnOk result (All (λ e. e < 2 ^ 16) certificate.now.ends) }
    ensures small_cost { OnOk result (certificate.now.cost < 2 ^ 64) }
    ensures small_potentials { OnOk result (All (λ h. h < 2 ^ 64) certificate.now.potentials) }
{
    let ends = certificate.ends.as_slice();
    out.push(ends.len() as u8)?;
    push_ends(out, ends)?;
    out.extend_from_slice(&certificate.cost.to_be_bytes())?;
    push_potentials(out, &certificate.potentials)
}

/// Appends an entry. Its plan can stand in a file.
#[tactic(auto, unfolding(crate::specs::Spelling::plan_text))]
fn push_plan(out: &mut Vec<u8>, plan: &Compiled) -> Result<(), AllocError>
    ensures text { OnOk result (out.new.items ≡ out.old.items ++ plan_text plan.now) }
    ensures right { OnOk result (IsPlan Two plan.now) }
{
    let certificate = plan.certificate();
    push_literals(out, certificate.profile, plan.list())?;
    push_certificate(out, certificate)
}

/// Appends entries, one after the other. Their plans can stand in a file.
fn push_plans(out: &mut Vec<u8>, plans: &[Compiled]) -> Result<(), AllocError>
    ensures text { OnOk result (out.new.items ≡ out.old.items ++ flat_map plan_text plans.now) }
    ensures right { OnOk result (All (IsPlan Two) plans.now) }
{
    for plan in plans {
        push_plan(out, plan)?;
    }
    Ok(())
}

/// The text of a file of the plans, in version 2.
fn text_of(alloc: Global, plans: &[Compiled]) -> Result<Vec<u8>, AllocError>
    requires { length plans.now ≤ 64 }
    ensures { IfOk result (λ text. ArePlans Two plans.now × (text.items ≡ spelling Two plans.now)) }
{
    let mut text = Vec::new(alloc);
    push_head(&mut text, plans.len() as u16)?;
    push_plans(&mut text, plans)?;
    Ok(text)
}

/// The text of a file of the plans, at most 64, in version 2: `decode` reads it as exactly the same plans, unless
/// memory runs out. The only error is `OutOfMemory`.
pub fn encode(alloc: Global, plans: &[Compiled]) -> Result<Vec<u8>, Fault>
    requires { length plans.now ≤ 64 }
    // `decode` reads the text: the plans can stand in a file, and it is their spelling.
    ensures ok { IfOk result (λ text. ArePlans Two plans.now × (text.items ≡ spelling Two plans.now)) }
    ensures refused { IsOkUnless result OutOfMemory }
{
    Ok(text_of(alloc, plans)?)
}

/// Writes the text of a file of the plans, at most 64, in version 2.
///
/// # Errors
/// - `WriteFault`, where a write failed or took nothing.
/// - `OutOfMemory`, where a growth was refused. Nothing was written then.
///
/// After a write fault a prefix of the text was written.
pub fn write_plans<W: ByteOut>(alloc: Global, plans: &[Compiled], out: &mut W) -> Result<(), Fault>
    requires few { length plans.now ≤ 64 }
    // `read_plans` reads the bytes that are written.
    ensures ok { OnOk result (ArePlans Two plans.now
        × Appends (W.written out.old) (W.written out.new) (spelling Two plans.now)) }
    ensures err { OnErr result
        (AppendsPart (W.written out.old) (W.written out.new) (spelling Two plans.now)) }
    ensures same { result ≡ Err Fault.OutOfMemory → out.new ≡ out.old }

    // `WriteFault` is returned only if a write failed.
    ensures fault { result ≡ Err Fault.WriteFault → IsTrue (W.has_failed out.new) }
    ensures flag { result ≢ Err Fault.WriteFault → W.has_failed out.new ≡ W.has_failed out.old }
    ensures faults { IfErr result IsWritersFault }
{
    let text = text_of(alloc, plans)?;
    match write_all(out, &text) {
        Ok(()) => Ok(()),
        Err(Failed) => Err(Fault::WriteFault),
    }
}

/// The law of spellings. A list of plans has at most one text in each version. If it has one in version 1, it has one
/// in version 2. The reverse holds if each plan has eight buckets and at most 1,024 literals.
pub fn spelling_law()
    ensures one { (version : Version) (plans : List Plan) (text other : List ℕ) →
        IsFileOf version text plans → IsFileOf version other plans → text ≡ other }
    ensures newer { (plans : List Plan) → ArePlans One plans → ArePlans Two plans }
    ensures older { (plans : List Plan) → ArePlans Two plans →
        All (λ p. (p.certificate.profile ≡ Eight) × (length p.literals.texts ≤ 1024)) plans → ArePlans One plans }
{}
