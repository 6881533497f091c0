//! The frames of the scan server: the requests, read from a stream in whatever pieces it comes, and the one text of
//! each reply.
#![tactic(auto)]

mod decoder;
mod encoding;
mod fault;
mod frames;
mod kinds;
mod laws;
mod message;
mod numbers;
mod reading;

pub use decoder::Decoder;
pub use encoding::{append_hits, append_reply, encode_reply};
pub use fault::{Cause, Fault};
pub use frames::first_request;
pub use laws::limits_law;
pub use message::{Borrowed, MAX_HITS, MAX_PAYLOAD, Reply, Request};
