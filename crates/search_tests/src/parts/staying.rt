//! A gate that sees how long a worker stays inside.
use par_scan::Gate;
use std::sync::atomic::{AtomicU64, Ordering};
use std::time::Clock;

/// A gate that keeps when one worker entered and left.
#[derive(Drop)]
pub(super) struct Watch<'a, C> {
    clock: &'a C,
    worker: usize,
    entered_at: AtomicU64,
    left_at: AtomicU64,
}

impl<'a, C: Clock> Watch<'a, C> {
    /// A gate that watches this worker.
    pub(super) fn new(clock: &'a C, worker: usize) -> Watch<'a, C> {
        Watch {
            clock,
            worker,
            entered_at: AtomicU64::new(0),
            left_at: AtomicU64::new(0),
        }
    }

    /// How many nanoseconds the worker was inside.
    pub(super) fn stay(&self) -> u64 {
        self.left_at
            .load(Ordering::SeqCst)
            .saturating_sub(self.entered_at.load(Ordering::SeqCst))
    }

    /// Keeps the time in nanoseconds if it is this worker's.
    fn keep(&self, at: &AtomicU64, worker: usize) {
        if worker == self.worker
            && let Ok(now) = self.clock.monotonic()
            && let Ok(nanos) = u64::try_from(now.as_nanos())
        {
            at.store(nanos, Ordering::SeqCst);
        }
    }
}

impl<C: Clock + Sync> Gate for Watch<'_, C> {
    fn enter(&self, worker: usize) {
        self.keep(&self.entered_at, worker);
    }

    fn leave(&self, worker: usize) {
        self.keep(&self.left_at, worker);
    }
}
