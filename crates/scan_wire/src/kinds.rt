//! The kinds of frames.

// Requests.

/// The kind of a Publish.
pub(crate) const PUBLISH_KIND: u8 = 0x01;

/// The kind of an Open.
pub(crate) const OPEN_KIND: u8 = 0x02;

/// The kind of a Feed.
pub(crate) const FEED_KIND: u8 = 0x03;

/// The kind of a Close.
pub(crate) const CLOSE_KIND: u8 = 0x04;

/// The kind of a ShowPlan.
pub(crate) const SHOW_PLAN_KIND: u8 = 0x05;

// Replies.

/// The kind of a Published.
pub(crate) const PUBLISHED_KIND: u8 = 0x11;

/// The kind of an Opened.
pub(crate) const OPENED_KIND: u8 = 0x12;

/// The kind of a Hits.
pub(crate) const HITS_KIND: u8 = 0x13;

/// The kind of a Fed.
pub(crate) const FED_KIND: u8 = 0x14;

/// The kind of a Closed.
pub(crate) const CLOSED_KIND: u8 = 0x15;

/// The kind of a Plan.
pub(crate) const PLAN_KIND: u8 = 0x16;

/// The kind of a Refused.
pub(crate) const REFUSED_KIND: u8 = 0x17;
