//! A stream from its first call to its last.
use crate::plans::{fiolargu_plan_free, fiolargu_plan_new};
use crate::statuses::OK;
use crate::streams::{fiolargu_stream_close, fiolargu_stream_feed, fiolargu_stream_open};
use crate::views::{Bytes, FoundHit};
use c_handle::{PlanHandle, StreamHandle};
use std::alloc::Global;

/// The statuses of making a plan for one word and of opening a stream by it, and the stream. The plan's own handle is
/// freed.
fn opened(alloc: Global, word: &[u8]) -> (i32, i32, StreamHandle) {
    let mut plan = PlanHandle::empty(alloc);
    let mut stream = StreamHandle::empty(alloc);
    let mut fault_at = 0;
    let words = [Bytes { bytes: word }];
    let made = fiolargu_plan_new(alloc, &mut plan, &words, 0, &mut [], &mut fault_at);
    let status = fiolargu_stream_open(alloc, &mut plan, &mut stream, 100);
    fiolargu_plan_free(alloc, &mut plan);
    (made, status, stream)
}

/// The status of feeding a piece, and the end of its last hit, or 0.
fn last_end(alloc: Global, stream: &mut StreamHandle, piece: &[u8]) -> (i32, u64) {
    let (mut fed, mut count) = (0, 0);
    let mut hits = [FoundHit {
        end: 0,
        literal: 0,
        length: 0,
    }; 4];
    let status = fiolargu_stream_feed(alloc, stream, piece, &mut fed, &mut hits, &mut count);
    let end = if count == 1 { hits[0].end } else { 0 };
    (status, end)
}

#[test]
fn a_hit_may_begin_in_the_piece_before(rt: HostRuntime) {
    let alloc = rt.alloc();
    let (made, status, mut stream) = opened(alloc, b"cat");
    assert_eq!(rt; made, OK);
    assert_eq!(rt; status, OK);
    assert_eq!(rt; last_end(alloc, &mut stream, b"a ca"), (OK, 0));
    assert_eq!(rt; last_end(alloc, &mut stream, b"t"), (OK, 105));
    fiolargu_stream_close(alloc, &mut stream);
}
