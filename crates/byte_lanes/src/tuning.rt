//! The thresholds by which one byte of a literal is searched for alone. They change the time of a search, never its
//! result.

// Bytes of a text.

/// Bytes. After each byte of a literal was common, this many bytes of the text are searched by all of them before the
/// first has another turn. That is half of the bytes that a run of grep reads at once. Measured: 8,192 at first, and
/// four times as many each further time, makes no difference.
pub(crate) const WAIT: usize = 65536;

/// Bytes. A candidate at most this near is found by all bytes that the test reads; only after this many ends is one
/// byte of a literal searched for alone. Measured with a literal each 1,300 bytes: with 2,048 it takes 1.12 times as
/// long as without the search for one byte, with this 1.01 to 1.05.
pub(crate) const SHORT_RANGE: usize = 8192;

// Blocks of a text.

/// Blocks. A stop costs about as much as the search for one byte alone saves in this many: two mispredicted branches,
/// and a comparison of all bytes, for some 3 ns a block. The number is an estimate; measured, 4 makes no difference.
pub(crate) const STOP_COST: usize = 8;

/// Blocks that a byte starts with before it counts as common. Not varied.
pub(crate) const START_CREDIT: usize = STOP_COST;

/// Blocks. No more gain than this counts, so that a byte is soon given up where it becomes common. Not varied.
pub(crate) const MOST_CREDIT: usize = 64;
