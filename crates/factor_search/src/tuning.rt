//! The prices and thresholds of the search by factors. They change the time of a search, never its result. Prices are
//! in tenths of a nanosecond.

// Prices.

/// A hash bit at which nothing ends. How it was chosen is not recorded.
pub(crate) const FALSE_POSITIVE_COST: usize = 250;

/// The masks for 1,024 bytes, if no position passes. `text_search` charges it for the packed filter of a plan too. How
/// it was chosen is not recorded.
pub const MASKS_COST: usize = 1536;

/// A position that passes the masks and has no hash bit. Each width of its probe adds half of this. How it was chosen
/// is not recorded.
pub(crate) const PASS_COST: usize = 20;

/// A block with a position that passes, in addition: it is probed as a whole, and the number of passes is hard to
/// predict. Measured for 30 rare literals in log lines, English, JSON and source code: estimates are 0.8 to 1.1 of the
/// cost. With three times this value they are 1.1 to 1.8; others were not tried.
pub(crate) const BLOCK_COST: usize = 60;

/// A new start after an end: a block is filtered and probed from there on, mostly in vain. Shift-or starts with eight
/// probes. Not varied.
pub(crate) const START_COST: usize = 500;

/// The same in an estimate, which then leaves frequent literals to other engines. Measured: with masks for all lists,
/// 100 frequent literals took 1.3 times as long in English text and log lines.
pub(crate) const ESTIMATED_START_COST: usize = 900;

// Thresholds.

/// One position of this many is counted in a sample. How it was chosen is not recorded.
pub(crate) const SPARSE: usize = 31;
