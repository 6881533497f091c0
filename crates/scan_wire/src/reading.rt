//! The payloads of requests.
ghost use Rattle.std.specs.Prelude.{◌≡◌, ◌≢◌, ℕ, ◌^◌, ◌<◌, ◌∷◌, ◌++◌, length, IfErr, IfNone, IfOk, IfSome};
ghost use Rattle.scan_wire.specs.declared.fault.Cause.TheVariants.{Payload};
ghost use Rattle.scan_wire.specs.declared.fault.Fault.TheVariants.{OutOfMemory};
ghost use Rattle.lit_base.specs.Flags.{flags_of};
ghost use Rattle.scan_wire.specs.Causes.{AnnouncesLiterals, IfBadFrame};
ghost use Rattle.scan_wire.specs.Frames.{AreLiterals, list_text, literal_text};
ghost use Rattle.scan_wire.specs.Messages.{texts_of};
ghost use Rattle.scan_wire.specs.Numbers.{u16_text, u64_text};
ghost use Rattle.scan_wire.specs.Reading.{AreRead, NoList, NoLiteral, NoLiterals};

use crate::fault::{Cause, Fault};
use crate::numbers::{first_u16, first_u64};
use lit_base::{Fold, Profile, fold_and_profile};
use std::alloc::Global;

/// The refusal of a payload.
pub const BAD_PAYLOAD: Fault = Fault::BadFrame {
    cause: Cause::Payload,
};

/// A literal and the bytes after it, where it is whole.
fn first_literal(bytes: &[u8]) -> Option<(&[u8], &[u8])>
    ensures found { IfSome result (λ x.
        (length x.0.now < 2 ^ 16) × (bytes.now ≡ literal_text x.0.now ++ x.1.now)) }
    ensures none { IfNone result (NoLiteral bytes.now) }
{
    let (len, rest) = first_u16(bytes)?;
    let len = usize::from(len);
    if rest.len() < len {
        return None;
    }
    Some(rest.split_at(len))
}

/// `count` literals, which are all of the bytes.
fn literals_of(alloc: Global, count: u16, bytes: &[u8]) -> Result<Vec<Vec<u8>>, Fault>
    ensures found { IfOk result (λ literals. AreRead count bytes.now (texts_of literals.items)) }
    ensures wrong { IfErr result
        (IfBadFrame (λ cause. (cause ≡ Payload) × NoLiterals count bytes.now)) }
    ensures starved { result ≡ Err OutOfMemory → 0 < count }
{
    let mut literals = Vec::new(alloc);
    let mut rest = bytes;
    for _ in 0..count {
        let Some((literal, after)) = first_literal(rest) else {
            return Err(BAD_PAYLOAD);
        };
        literals.push(Vec::from_slice(alloc, literal)?)?;
        rest = after;
    }
    if rest.is_empty() {
        Ok(literals)
    } else {
        Err(BAD_PAYLOAD)
    }
}

/// The fold, the profile and the number of literals of a Publish, and the bytes after them.
fn list_head(payload: &[u8]) -> Option<(Fold, Profile, u16, &[u8])>
    ensures found { IfSome result (λ x. (x.2 < 2 ^ 16)
        × (payload.now ≡ flags_of x.0 x.1 ∷ (u16_text x.2 ++ x.3.now))) }
    ensures none { IfNone result (NoList payload.now) }
{
    let (flags, rest) = payload.split_first()?;
    let (fold, profile) = fold_and_profile(*flags)?;
    let (count, rest) = first_u16(rest)?;
    Some((fold, profile, count, rest))
}

/// The list of literals of a Publish, with the fold and the profile that it asks for. `Err` is `BAD_PAYLOAD` if the
/// payload is none, or `OutOfMemory`, which only a payload that announces literals may be refused with.
pub fn list_of(alloc: Global, payload: &[u8]) -> Result<(Fold, Profile, Vec<Vec<u8>>), Fault>
    ensures found { IfOk result (λ x. AreLiterals (texts_of x.2.items)
        × (payload.now ≡ list_text x.0 x.1 (texts_of x.2.items))) }
    ensures wrong { IfErr result (IfBadFrame (λ cause. (cause ≡ Payload) × NoList payload.now)) }
    ensures starved { result ≡ Err OutOfMemory → AnnouncesLiterals payload.now }
{
    let Some((fold, profile, count, rest)) = list_head(payload) else {
        return Err(BAD_PAYLOAD);
    };
    let literals = literals_of(alloc, count, rest)?;
    Ok((fold, profile, literals))
}

/// The number that is the whole payload of an Open, or `None` if the payload has not eight bytes.
pub fn number_of(payload: &[u8]) -> Option<u64>
    ensures found { IfSome result (λ number. (number < 2 ^ 64) × (payload.now ≡ u64_text number)) }
    ensures none { IfNone result ((number : ℕ) → payload.now ≢ u64_text number) }
{
    let (number, rest) = first_u64(payload)?;
    if rest.is_empty() { Some(number) } else { None }
}
