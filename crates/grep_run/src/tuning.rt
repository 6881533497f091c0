//! The threshold by which a run over many inputs makes a finder. It changes the time of a run, never its result.

/// Inputs. After this many a run is long. Measured when a finder's tables were written at once, and not since they are
/// written late: to search them took about as long as to make the finder. Inputs of 16 KiB and more gain by it as well.
/// Not varied.
pub(crate) const MANY_INPUTS: usize = 16;
