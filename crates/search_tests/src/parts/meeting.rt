//! A gate at which workers wait for one another.
use par_scan::Gate;
use std::sync::atomic::{AtomicU64, Ordering};
use std::thread::sleep;
use std::time::{Clock, Duration};

/// How often a worker looks whether the others have come, a millisecond apart.
const TURNS: u32 = 10_000;

/// A gate that holds some workers until others have entered. Workers are the bits of a number.
#[derive(Drop)]
pub(super) struct Meeting<'a, C> {
    clock: &'a C,
    held: u64,
    until: u64,
    entered: AtomicU64,
    left: AtomicU64,
    late: AtomicU64,
}

/// The counts of a gate: the workers that entered and those that left, each as often as it did, and how many waited
/// without result.
#[derive(Clone, Copy, Debug, PartialEq, Eq)]
pub(super) struct Seen {
    pub(super) entered: u64,
    pub(super) left: u64,
    pub(super) late: u64,
}

impl<'a, C: Clock> Meeting<'a, C> {
    /// A gate that holds these workers until those have entered.
    pub(super) fn new(clock: &'a C, held: u64, until: u64) -> Meeting<'a, C> {
        Meeting {
            clock,
            held,
            until,
            entered: AtomicU64::new(0),
            left: AtomicU64::new(0),
            late: AtomicU64::new(0),
        }
    }

    /// Its counts.
    pub(super) fn seen(&self) -> Seen {
        Seen {
            entered: self.entered.load(Ordering::SeqCst),
            left: self.left.load(Ordering::SeqCst),
            late: self.late.load(Ordering::SeqCst),
        }
    }

    /// Whether all for whom it holds workers have entered.
    fn is_met(&self) -> bool {
        self.entered.load(Ordering::SeqCst) & self.until == self.until
    }

    /// Waits for them.
    fn hold(&self) {
        for _ in 0..TURNS {
            if self.is_met() {
                return;
            }
            sleep(self.clock, Duration::from_millis(1));
        }
        self.late.fetch_add(1, Ordering::SeqCst);
    }
}

impl<C: Clock + Sync> Gate for Meeting<'_, C> {
    fn enter(&self, worker: usize) {
        let bit = bit_of(worker);
        self.entered.fetch_add(bit, Ordering::SeqCst);
        if self.held & bit != 0 {
            self.hold();
        }
    }

    fn leave(&self, worker: usize) {
        self.left.fetch_add(bit_of(worker), Ordering::SeqCst);
    }
}

/// The bit of a worker.
pub(super) fn bit_of(worker: usize) -> u64 {
    1 << (worker % 64)
}
