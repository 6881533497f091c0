//! What the handles own.
use flow_scan::{Hit, Stream, TunedPlan};

/// One owner of a plan. Other handles may own it too, in other threads.
#[derive(Drop)]
pub struct SharedPlan {
    /// The plan, with the finder that the searches by this handle have tuned.
    pub plan: TunedPlan,
    /// Room for hits. It is used again, so that a call allocates only if it finds more hits than each call before.
    pub out: Vec<Hit>,
}

/// A stream that is open, with its share of a plan.
#[derive(Drop)]
pub struct OpenStream {
    /// The scan, with the finder that it has tuned.
    pub stream: Stream,
    /// Room for hits, which is used again.
    pub out: Vec<Hit>,
}
