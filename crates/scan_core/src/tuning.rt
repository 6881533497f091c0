//! The threshold by which the streams of a session share a finder. It changes the time of a scan, never its result.

/// Bytes. Once streams of other plans were fed this many in a row, the finder is made anew for one of these plans, if it
/// gains by one. Where two plans take turns, the first keeps the finder. Not varied.
pub(crate) const MOST_FED_TO_OTHERS: usize = 1 << 20;
