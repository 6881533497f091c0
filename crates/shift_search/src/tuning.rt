//! The prices and thresholds of shift-or. They change the time of a search, never its result. Prices are in tenths of a
//! nanosecond.

// Prices.

/// Probes at each of 1,024 positions, if all ends are ruled out. How it was chosen is not recorded.
pub(crate) const STRIDE_ONE_COST: usize = 4300;

/// Probes at every second of 1,024 positions, if all ends are ruled out. No estimate of shift-or is below it. Probes
/// take about 0.28 ns a byte, but factors too cost more than their estimate. Measured with twenty lists of 30 rare
/// literals: six take 0.69 to 0.91 of the time that a value of 2,900 gives, and the others as long.
pub const STRIDE_TWO_COST: usize = 2100;

/// A false positive, for each bucket. How it was chosen is not recorded.
pub(crate) const FALSE_POSITIVE_COST: usize = 190;

/// A false positive in a text with so few ends that most of it is searched by blocks. Measured: with 90 and with 120
/// all but one of 24 lists use the same stride, and they take 0.74 to 1.02 of the time that 190 gives.
pub(crate) const FALSE_POSITIVE_IN_BLOCK_COST: usize = 100;

/// The extra cost of an end in a scan, compared with factors. Chosen by forcing either engine for 26 lists of 30 to
/// 1,000 frequent literals. The engine with the lower estimate was faster for 23 of them, and took at most 1.19 times
/// as long for the others.
pub(crate) const HIT_COST: usize = 300;

/// A new start after an end. How it was chosen is not recorded.
pub(crate) const START_COST: usize = 190;

// Thresholds.

/// One position of this many is counted in a sample. How it was chosen is not recorded.
pub(crate) const SPARSE: usize = 31;

/// Bytes. At a group with an end that was not ruled out, a search tries blocks if it has gone this far and the last
/// such group is nearer than this. A nearer end is found without blocks, since a block with an end is probed twice.
/// Measured: with fewer such groups, blocks took 1.03 to 1.06 times as long.
pub(crate) const LEAST_BEFORE_BLOCKS: usize = 1024;
