//! Calls of workers before and after their parts.
use std::marker::Sync;

/// What each worker calls before it scans its part and after it. Workers are numbered from 1, and
/// several may be inside at once. A gate may hold a worker, but no answer depends on it.
pub trait Gate: Sync {
    /// Called before a worker scans its part.
    fn enter(&self, worker: usize);

    /// Called after a worker has scanned its part.
    fn leave(&self, worker: usize);
}

/// A gate that holds nobody.
#[derive(Clone, Copy, Debug, Default)]
pub struct NoGate;

impl Gate for NoGate {
    fn enter(&self, _worker: usize) {}

    fn leave(&self, _worker: usize) {}
}
