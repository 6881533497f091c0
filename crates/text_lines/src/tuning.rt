//! The thresholds by which a text is cut into lines, and by which the end of a literal in its line is guessed. They
//! change the time of a search, never its result.

// Bytes of a text.

/// Bytes. Lines of fewer bytes are short: some of them end in the same 64 bytes. Not varied.
pub(crate) const SHORT_LINE: usize = 16;

/// Bytes at the start of a text that show how long its lines are. Not varied.
pub(crate) const SAMPLE: usize = 1024;

/// Newlines. If more of the sample's bytes are newlines, most lines are empty. How it was chosen is not recorded.
pub(crate) const MOSTLY_EMPTY: usize = SAMPLE / 4 * 3;

// Hits.

/// Hits. A column is tried once this many more hits in a row had it. Not varied.
pub(crate) const LEAST_TRUST: u8 = 2;

/// Hits. The bound of trust: a column survives two lines in a row that are made otherwise, and is given up at the
/// third. Not varied.
pub(crate) const MOST_TRUST: u8 = 4;
