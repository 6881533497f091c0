//! A threshold of the index. It changes the time of a search, never its result.

/// Places: a longer chain of keys has tables by more of its literals' last bytes. Not varied.
pub(crate) const LONG_CHAIN: usize = 16;
