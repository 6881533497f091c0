//! A plan from its first call to its last.
use crate::plans::{fiolargu_plan_free, fiolargu_plan_new, fiolargu_plan_share};
use crate::scans::fiolargu_scan;
use crate::statuses::{NULL_HANDLE, OK};
use crate::views::{Bytes, FoundHit};
use c_handle::PlanHandle;
use std::alloc::Global;

const NO_HIT: FoundHit = FoundHit {
    end: 0,
    literal: 0,
    length: 0,
};

/// The statuses of making, sharing and freeing a plan, and of a scan by the share.
fn statuses(alloc: Global) -> (i32, i32, i32, usize, u64) {
    let mut plan = PlanHandle::empty(alloc);
    let mut other = PlanHandle::empty(alloc);
    let mut fault_at = 0;
    let (mut place, mut count) = (0, 0);
    let mut hits = [NO_HIT; 4];
    let made = fiolargu_plan_new(
        alloc,
        &mut plan,
        &[Bytes { bytes: b"cat" }],
        0,
        &mut [],
        &mut fault_at,
    );
    let shared = fiolargu_plan_share(alloc, &mut plan, &mut other);
    fiolargu_plan_free(alloc, &mut plan);
    let scanned = fiolargu_scan(
        alloc, &mut other, b"a cat", &mut place, &mut hits, &mut count,
    );
    fiolargu_plan_free(alloc, &mut other);
    (made, shared, scanned, count, hits[0].end)
}

#[test]
fn a_share_outlives_its_plan(rt: HostRuntime) {
    let (made, shared, scanned, count, end) = statuses(rt.alloc());
    assert_eq!(rt; made, OK);
    assert_eq!(rt; shared, OK);
    assert_eq!(rt; scanned, OK);
    assert_eq!(rt; (count, end), (1, 5));
}

/// The status of sharing a handle that was freed twice.
fn status_of_freed(alloc: Global) -> i32 {
    let mut plan = PlanHandle::empty(alloc);
    let mut other = PlanHandle::empty(alloc);
    fiolargu_plan_free(alloc, &mut plan);
    fiolargu_plan_free(alloc, &mut plan);
    fiolargu_plan_share(alloc, &mut plan, &mut other)
}

#[test]
fn a_freed_handle_is_null(rt: HostRuntime) {
    assert_eq!(rt; status_of_freed(rt.alloc()), NULL_HANDLE);
}
