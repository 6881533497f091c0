//! The prices and thresholds by which lines are split or searched for. They change the time of a run, never its result.

// Bytes of a text.

/// Bytes. Under -x a hit of at most `MOST_SEARCHED_WHOLE` literals and its line take as long as splitting this many
/// bytes into lines. Measured in English text: 120 ns for a hit of one literal, 0.5 ns a byte for splitting.
pub(crate) const HIT_BYTES: usize = 256;

/// Bytes. The same where lines are short: measured, a byte of them takes four times as long to split.
pub(crate) const SHORT_LINE_HIT_BYTES: usize = 64;

/// Bytes. A line that came in several pieces is searched by this many at a time: as many as a finder's longest sample.
/// Not varied.
pub(crate) const LINE_SPAN: usize = 65536;

// Literals.

/// Literals. Under -x a longer list is not searched for: each line is split and compared, unless lines are short.
/// Measured in English text: that took 0.6 ns a byte, and a search for 30 of its words 4.5 ns.
pub(crate) const MOST_SEARCHED_WHOLE: usize = 3;

// Hits.

/// Hits. Under -x, after this many with nothing passed over between them, the rest of a text is split line by line.
/// Measured with 1,000 words, one in most lines: that is 16 times as fast. Not varied.
pub(crate) const MOST_HITS_IN_A_ROW: usize = 16;
