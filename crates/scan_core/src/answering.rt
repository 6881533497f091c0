//! Adding the hits of a piece to the replies.
ghost use Rattle.std.specs.Prelude.{◌≡◌, OnErr, OnOk};
ghost use Rattle.scan_core.specs.Answers.{Extends, RepliesBlocks, RepliesHits};

use crate::fault::Fault;
use flow_scan::Hit;
use scan_wire::{MAX_HITS, Reply};
use std::alloc::AllocError;

/// Adds the hits of a piece of a stream, in blocks that are all full except the last, and the place reached. If memory
/// is refused, the replies are as they were.
pub(crate) fn push_answer(
    stream: u32,
    hits: &[Hit],
    place: u64,
    out: &mut Vec<Reply>,
) -> Result<(), Fault>
    ensures ok { OnOk result (RepliesHits stream hits.now place out.old.items out.new.items) }
    ensures err { OnErr result (out.new.items ≡ out.old.items) }
{
    let before = out.len();
    let Ok(()) = push_all(stream, hits, place, out) else {
        out.truncate(before);
        return Err(Fault::OutOfMemory);
    };
    Ok(())
}

/// Adds the hits and the place. If memory is refused, some replies were added.
fn push_all(stream: u32, hits: &[Hit], place: u64, out: &mut Vec<Reply>) -> Result<(), AllocError>
    ensures ok { OnOk result (RepliesHits stream hits.now place out.old.items out.new.items) }
    ensures kept { Extends out.old.items out.new.items }
{
    push_blocks(stream, hits, out)?;
    out.push(Reply::Fed { stream, place })?;
    Ok(())
}

/// Adds the hits. If memory is refused, some replies were added.
fn push_blocks(stream: u32, hits: &[Hit], out: &mut Vec<Reply>) -> Result<(), AllocError>
    ensures ok { OnOk result (RepliesBlocks stream hits.now out.old.items out.new.items) }
    ensures kept { Extends out.old.items out.new.items }
{
    let mut rest = hits;
    while !rest.is_empty() {
        let (block, others) = rest.split_at(MAX_HITS.min(rest.len()));
        let hits = Vec::from_slice(*out.allocator(), block)?;
        out.push(Reply::Hits { stream, hits })?;
        rest = others;
    }
    Ok(())
}
