//! A session of the scan server: requests in, replies out, one event at a time over a store of plans
//! that all sessions share.
#![tactic(auto)]

mod answering;
mod bounded_vec;
mod fault;
mod limits;
mod publishing;
mod refusal;
mod session;
mod session_finder;
mod stream;
mod tickets;
mod together;
mod tuning;
mod world;

pub use fault::Fault;
pub use limits::{MAX_PLANS, MAX_STREAMS, limits_law};
pub use refusal::Refusal;
pub use session::Session;
pub use tickets::agrees_with;
pub use together::{Answered, answered_at_once, fit_law, together_law};
pub use world::{event_law, world_law};
