//! Plan files: plans as bytes, read back only where each byte is as it must be and each plan's
//! certificate holds. Both versions of the format are read, and version 2 is written.
#![tactic(auto)]

mod certificates;
mod decoding;
mod encoding;
mod fault;
mod fields;
mod limits;
mod literals;
mod reading;
mod version;

pub use decoding::{decode, fault_law, read_back};
pub use encoding::{encode, spelling_law, write_plans};
pub use fault::{Cause, Fault};
pub use limits::{MAX_PLANS, limits_law};
pub use reading::read_plans;
