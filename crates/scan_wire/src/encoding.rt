//! The one text of each reply.
ghost use Rattle.std.specs.Prelude.{◌≡◌, ◌+◌, [], ◌∷◌, ◌++◌, ◌≤◌, length, IfOk, IsOkUnless, OnErr, OnOk};
ghost use Rattle.std.specs.List.{flat_map};
ghost use Rattle.scan_wire.specs.declared.fault.Fault.TheVariants.{OutOfMemory};
ghost use Rattle.scan_wire.specs.Frames.{FitsReply, IsBlock, frame_text, hit_text, reply_text};
ghost use Rattle.scan_wire.specs.Growth.{Extends};
ghost use Rattle.scan_wire.specs.Messages.{Hits, Plan, Refused, reply_parts};
ghost use Rattle.scan_wire.specs.Numbers.{u16_text, u32_text, u64_text};

use crate::fault::Fault;
use crate::kinds::{
    CLOSED_KIND, FED_KIND, HITS_KIND, OPENED_KIND, PLAN_KIND, PUBLISHED_KIND, REFUSED_KIND,
};
use crate::message::Reply;
use crate::numbers::{push_u16, push_u32, push_u64};
use lit_base::{Fold, Profile, flags_of};
use std::alloc::{AllocError, Global};
use text_ends::Hit;

/// Appends the head of a frame, before a payload of `len` bytes.
fn push_head(out: &mut Vec<u8>, kind: u8, stream: u32, len: u32) -> Result<(), AllocError>
    requires { len ≤ 65536 }
    ensures ok { OnOk result
        (out.new.items ≡ out.old.items ++ (u32_text (5 + len) ++ (kind ∷ u32_text stream))) }
    ensures kept { Extends out.old.items out.new.items }
{
    push_u32(out, 5 + len)?;
    out.push(kind)?;
    push_u32(out, stream)
}

/// Appends a frame without payload.
#[tactic(auto, using(crate::proofs::ReplyLemmas::frame_done))]
fn push_bare(out: &mut Vec<u8>, kind: u8, stream: u32) -> Result<(), AllocError>
    ensures ok { OnOk result (out.new.items ≡ out.old.items
        ++ frame_text (record { kind = kind; stream = stream; payload = [] })) }
    ensures kept { Extends out.old.items out.new.items }
{
    push_head(out, kind, stream, 0)
}

/// Appends a frame whose payload is a number of eight bytes.
fn push_number(out: &mut Vec<u8>, kind: u8, stream: u32, number: u64) -> Result<(), AllocError>
    ensures ok { OnOk result (out.new.items ≡ out.old.items
        ++ frame_text (record { kind = kind; stream = stream; payload = u64_text number })) }
    ensures kept { Extends out.old.items out.new.items }
{
    push_head(out, kind, stream, 8)?;
    push_u64(out, number)
}

/// Appends hits, one after the other.
fn push_hits(out: &mut Vec<u8>, hits: &[Hit]) -> Result<(), AllocError>
    ensures ok { OnOk result (out.new.items ≡ out.old.items ++ flat_map hit_text hits.now) }
    ensures kept { Extends out.old.items out.new.items }
{
    for hit in hits {
        push_u16(out, hit.lit)?;
        push_u64(out, hit.end_at)?;
    }
    Ok(())
}

/// Appends ends, one after the other.
fn push_ends(out: &mut Vec<u8>, ends: &[u16]) -> Result<(), AllocError>
    ensures ok { OnOk result (out.new.items ≡ out.old.items ++ flat_map u16_text ends.now) }
    ensures kept { Extends out.old.items out.new.items }
{
    for end in ends {
        push_u16(out, *end)?;
    }
    Ok(())
}

/// Appends a Hits reply.
fn push_block(out: &mut Vec<u8>, stream: u32, hits: &[Hit]) -> Result<(), AllocError>
    requires { IsBlock (length hits.now) }
    ensures ok { OnOk result (out.new.items ≡ out.old.items ++ reply_text (Hits stream hits.now)) }
    ensures kept { Extends out.old.items out.new.items }
{
    let count = hits.len() as u32;
    push_head(out, HITS_KIND, stream, 2 + 10 * count)?;
    push_u16(out, hits.len() as u16)?;
    push_hits(out, hits)
}

/// Appends a Plan reply.
fn push_plan(
    out: &mut Vec<u8>,
    stream: u32,
    fold: Fold,
    profile: Profile,
    count: u16,
    cost: u64,
    ends: &[u16],
) -> Result<(), AllocError>
    requires { length ends.now ≤ 16 }
    ensures ok { OnOk result
        (out.new.items ≡ out.old.items ++ reply_text (Plan stream fold profile count cost ends.now)) }
    ensures kept { Extends out.old.items out.new.items }
{
    let ends_count = ends.len() as u8;
    push_head(out, PLAN_KIND, stream, 12 + 2 * u32::from(ends_count))?;
    out.push(flags_of(fold, profile))?;
    push_u16(out, count)?;
    push_u64(out, cost)?;
    out.push(ends_count)?;
    push_ends(out, ends)
}

/// Appends a Refused reply.
fn push_refusal(out: &mut Vec<u8>, stream: u32, code: u8, detail: u16) -> Result<(), AllocError>
    ensures ok { OnOk result
        (out.new.items ≡ out.old.items ++ reply_text (Refused stream code detail)) }
    ensures kept { Extends out.old.items out.new.items }
{
    push_head(out, REFUSED_KIND, stream, 3)?;
    out.push(code)?;
    push_u16(out, detail)
}

/// Appends a reply.
fn push_reply(out: &mut Vec<u8>, reply: &Reply) -> Result<(), AllocError>
    requires { FitsReply (reply_parts reply.now) }
    ensures ok { OnOk result (out.new.items ≡ out.old.items ++ reply_text (reply_parts reply.now)) }
    ensures kept { Extends out.old.items out.new.items }
{
    match reply {
        Reply::Published { number } => push_number(out, PUBLISHED_KIND, 0, *number),
        Reply::Opened { stream } => push_bare(out, OPENED_KIND, *stream),
        Reply::Hits { stream, hits } => push_block(out, *stream, hits),
        Reply::Fed { stream, place } => push_number(out, FED_KIND, *stream, *place),
        Reply::Closed { stream } => push_bare(out, CLOSED_KIND, *stream),
        Reply::Plan {
            stream,
            fold,
            profile,
            count,
            cost,
            ends,
        } => push_plan(
            out,
            *stream,
            *fold,
            *profile,
            *count,
            *cost,
            ends.as_slice(),
        ),
        Reply::Refused {
            stream,
            code,
            detail,
        } => push_refusal(out, *stream, *code, *detail),
    }
}

/// Appends the text of a reply. The only refusal is `OutOfMemory`, after which the buffer is as before.
pub fn append_reply(out: &mut Vec<u8>, reply: &Reply) -> Result<(), Fault>
    requires { FitsReply (reply_parts reply.now) }
    ensures ok { OnOk result
        (out.new.items ≡ out.old.items ++ reply_text (reply_parts reply.now)) }
    ensures same { OnErr result (out.new.items ≡ out.old.items) }
    ensures refused { IsOkUnless result OutOfMemory }
{
    let before = out.len();
    let Ok(()) = push_reply(out, reply) else {
        out.truncate(before);
        return Err(Fault::OutOfMemory);
    };
    Ok(())
}

/// Appends the text of a Hits reply, without a list of its own for the hits. The only refusal is
/// `OutOfMemory`, after which the buffer is as before.
pub fn append_hits(out: &mut Vec<u8>, stream: u32, hits: &[Hit]) -> Result<(), Fault>
    requires { IsBlock (length hits.now) }
    ensures ok { OnOk result (out.new.items ≡ out.old.items ++ reply_text (Hits stream hits.now)) }
    ensures same { OnErr result (out.new.items ≡ out.old.items) }
    ensures refused { IsOkUnless result OutOfMemory }
{
    let before = out.len();
    let Ok(()) = push_block(out, stream, hits) else {
        out.truncate(before);
        return Err(Fault::OutOfMemory);
    };
    Ok(())
}

/// The text of a reply. The only refusal is `OutOfMemory`.
pub fn encode_reply(alloc: Global, reply: &Reply) -> Result<Vec<u8>, Fault>
    requires { FitsReply (reply_parts reply.now) }
    ensures ok { IfOk result (λ text. text.items ≡ reply_text (reply_parts reply.now)) }
    ensures refused { IsOkUnless result OutOfMemory }
{
    let mut text = Vec::new(alloc);
    append_reply(&mut text, reply)?;
    Ok(text)
}
