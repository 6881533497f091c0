//! Scans by several workers at once: the hits are the hits of one scan, whoever finds them.
#![tactic(auto)]

mod fault;
mod gate;
mod parts;

pub use fault::Fault;
pub use gate::{Gate, NoGate};
pub use parts::{MAX_WORKERS, scan_parts, scan_parts_after};
