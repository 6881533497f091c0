//! Numbers as bytes, the greatest byte first.
ghost use Rattle.std.specs.Prelude.{◌≡◌, ◌^◌, ◌<◌, ◌++◌, length, IfNone, IfSome, OnOk};
ghost use Rattle.scan_wire.specs.Growth.{Extends};
ghost use Rattle.scan_wire.specs.Numbers.{u16_text, u32_text, u64_text};

use std::alloc::AllocError;

/// The number that the first two bytes are, and the bytes after them, where there are as many.
pub fn first_u16(bytes: &[u8]) -> Option<(u16, &[u8])>
    ensures found { IfSome result (λ x. (x.0 < 2 ^ 16) × (bytes.now ≡ u16_text x.0 ++ x.1.now)) }
    ensures none { IfNone result (length bytes.now < 2) }
{
    if bytes.len() < 2 {
        return None;
    }
    let (prefix, rest) = bytes.split_at(2);
    Some((u16::from_be_bytes([prefix[0], prefix[1]]), rest))
}

/// The number that the first four bytes are, and the bytes after them, where there are as many.
pub fn first_u32(bytes: &[u8]) -> Option<(u32, &[u8])>
    ensures found { IfSome result (λ x. (x.0 < 2 ^ 32) × (bytes.now ≡ u32_text x.0 ++ x.1.now)) }
    ensures none { IfNone result (length bytes.now < 4) }
{
    if bytes.len() < 4 {
        return None;
    }
    let (prefix, rest) = bytes.split_at(4);
    let number = u32::from_be_bytes([prefix[0], prefix[1], prefix[2], prefix[3]]);
    Some((number, rest))
}

/// The number that the first eight bytes are, and the bytes after them, where there are as many.
pub fn first_u64(bytes: &[u8]) -> Option<(u64, &[u8])>
    ensures found { IfSome result (λ x. (x.0 < 2 ^ 64) × (bytes.now ≡ u64_text x.0 ++ x.1.now)) }
    ensures none { IfNone result (length bytes.now < 8) }
{
    if bytes.len() < 8 {
        return None;
    }
    let (prefix, rest) = bytes.split_at(8);
    let number = u64::from_be_bytes([
        prefix[0], prefix[1], prefix[2], prefix[3], prefix[4], prefix[5], prefix[6], prefix[7],
    ]);
    Some((number, rest))
}

/// Appends a number as two bytes.
#[tactic(auto, unfolding(crate::specs::Numbers::u16_text))]
pub fn push_u16(out: &mut Vec<u8>, number: u16) -> Result<(), AllocError>
    ensures ok { OnOk result (out.new.items ≡ out.old.items ++ u16_text number) }
    ensures kept { Extends out.old.items out.new.items }
{
    out.extend_from_slice(&number.to_be_bytes())
}

/// Appends a number as four bytes.
#[tactic(auto, unfolding(crate::specs::Numbers::u32_text))]
pub fn push_u32(out: &mut Vec<u8>, number: u32) -> Result<(), AllocError>
    ensures ok { OnOk result (out.new.items ≡ out.old.items ++ u32_text number) }
    ensures kept { Extends out.old.items out.new.items }
{
    out.extend_from_slice(&number.to_be_bytes())
}

/// Appends a number as eight bytes.
#[tactic(auto, unfolding(crate::specs::Numbers::u64_text))]
pub fn push_u64(out: &mut Vec<u8>, number: u64) -> Result<(), AllocError>
    ensures ok { OnOk result (out.new.items ≡ out.old.items ++ u64_text number) }
    ensures kept { Extends out.old.items out.new.items }
{
    out.extend_from_slice(&number.to_be_bytes())
}
