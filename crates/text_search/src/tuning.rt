//! The prices and thresholds by which `strategy` chooses an engine. They change the time of a search, never its result.
//!
//! Prices are in tenths of a nanosecond. `factor_search` and `shift_search` estimate by prices of their own, each in
//! its `tuning.rt`.

// Literals.

/// Literals. A list of at most this length has no finder: one to three bytes of each leave few false positives.
/// Not varied.
pub const MOST_WITHOUT_FINDER: usize = 3;

/// Literals. A list of at most this length is tuned by the smaller sample, which shows its rare factors. Not varied.
pub(crate) const MOST_BY_SMALL_SAMPLE: usize = 32;

/// Literals. A longer list is not searched for by factors: too many positions pass its masks. Measured with 1,000
/// literals, 100 of them short: a third of the positions pass.
pub(crate) const MOST_BY_FACTORS: usize = 128;

/// Literals. The plan's masks serve lists of at most this length well: two for each bucket. Not varied.
pub(crate) const MOST_BY_PLAN_MASKS: usize = 16;

// Bytes of a text.

/// Bytes. A shorter text or sample says too little, so shorter pieces of a stream are gathered. Not varied.
pub const LEAST_SAMPLE: usize = 16384;

/// Bytes. The longest sample. Not varied.
pub(crate) const SAMPLE: usize = 65536;

/// Bytes. The longest sample for at most `MOST_BY_SMALL_SAMPLE` literals. Not varied.
pub(crate) const SMALL_SAMPLE: usize = 32768;

/// Bytes. A scan uses one engine for this long: no more than a sample, so that a bad choice ends early. Measured with
/// `LEAST_LOSS`.
pub(crate) const SPAN: usize = SAMPLE;

/// Parts of the first span; a scan in memory may tune after each. Not varied.
pub(crate) const FIRST_SPANS: usize = 4;

/// Bytes. The prefilter searches shorter texts, such as the boundary of two pieces, since factors probe each byte
/// there. Not varied.
pub(crate) const LEAST_CHOSEN: usize = 64;

/// Bytes. The prefilter searches shorter texts instead of the automaton, which starts slowly. Measured: with 512,
/// frequent lists in short pieces took twice as long.
pub(crate) const LEAST_BY_AUTOMATON: usize = 128;

/// Bytes. A shorter piece, without the bytes at its boundary, is not gathered: it gains less than tuned searches of it
/// cost. Measured, not varied.
pub(crate) const LEAST_GATHERED: usize = 192;

/// Bytes. The same for at most `MOST_BY_PLAN_MASKS` literals. Measured, not varied.
pub(crate) const LEAST_GATHERED_BY_PLAN_MASKS: usize = 3072;

/// Bytes between two ends. At this distance an end costs factors and shift-or as much as the prefilter. Measured on
/// four lists.
pub(crate) const DENSE: usize = 3;

// Prices, in tenths of a nanosecond.

/// A false positive of the prefilter. Chosen with `LEAST_LOSS` on one seed, not measured.
pub(crate) const PREFILTER_FALSE_POSITIVE_COST: usize = 400;

/// What the prefilter may take for 1,024 bytes in addition to its filter: a little more than one false positive.
/// Not varied.
pub(crate) const PREFILTER_SLACK: usize = 512;

/// What another engine may take for 1,024 bytes beyond one and a half times its estimate. Not varied.
pub(crate) const TUNED_SLACK: usize = 2048;

/// An end of a scan by the prefilter, less the cost of an end by factors, which continue in the same block. Measured,
/// not varied.
pub(crate) const PREFILTER_END_COST: usize = 500;

/// The automaton, for 1,024 bytes without ends, while its rows stay in the cache. Measured.
pub(crate) const AUTOMATON_COST: usize = 9500;

/// States whose rows stay in the cache; each further one for which the automaton has room costs half a unit for 1,024
/// bytes. Measured on four lists of 1,000.
pub(crate) const NEAR_STATES: usize = 1024;

/// To begin a lane of 1,024 positions, for each byte of the overlap, which it reads first. Measured.
pub(crate) const LANE_COST: usize = 24;

/// To build the automaton, for each state for which it has room. Measured on lists of 2,000 and 4,096, not varied.
pub(crate) const STATE_PRICE: usize = 3000;

/// The gain of the automaton at an end of a scan, since its states list all literals there. Measured on ten lists: 390
/// to 970.
pub(crate) const AUTOMATON_GAIN: usize = 500;

// Losses, in tenths of a nanosecond.

/// A finder tunes at this loss. It is less than tuning costs, since the rest of the text gains too. Chosen with
/// `PREFILTER_FALSE_POSITIVE_COST`.
pub(crate) const LEAST_LOSS: usize = 1_500_000;

/// The largest multiple of the least loss for which a finder waits, if tuning gains little. Not varied.
pub(crate) const MOST_WAIT: usize = 128;

/// A finder tunes at once if the loss expected in the rest of a text in memory is this multiple of the loss that it
/// waits for. Not varied.
pub(crate) const SURE: usize = 10;

/// A search has a finder once this many bytes were searched. At two nanoseconds a byte, a slow search of them takes as
/// long as it takes to make a finder and to tune it. Not varied.
pub const LEAST_WITH_FINDER: u64 = 262_144;
