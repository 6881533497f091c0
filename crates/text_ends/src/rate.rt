//! How often literals end in a text.
ghost use Rattle.std.specs.Prelude.{◌≡◌};

/// At how many positions of some bytes of a text literals end, and after how many of these a new search began. A search
/// for single ends begins anew after each, a scan after none. An estimate takes the counts for 1,024 bytes.
#[derive(Clone, Copy, Debug)]
pub struct EndRate {
    /// Positions at which a literal ends.
    pub ends: usize,
    /// Ends after which the search began anew.
    pub starts: usize,
}

impl EndRate {
    /// The rate of an unknown text.
    #[inline]
    pub fn nothing() -> EndRate
        ensures ends { result.ends ≡ 0 }
        ensures starts { result.starts ≡ 0 }
    {
        EndRate { ends: 0, starts: 0 }
    }

    /// The rate of a scan that found `ends` ends.
    #[inline]
    pub fn of_scan(ends: usize) -> EndRate
        ensures ends { result.ends ≡ ends }
        ensures starts { result.starts ≡ 0 }
    {
        EndRate { ends, starts: 0 }
    }

    /// The rate of searches that found `ends` ends, each search begun anew.
    #[inline]
    pub fn of_searches(ends: usize) -> EndRate
        ensures ends { result.ends ≡ ends }
        ensures starts { result.starts ≡ ends }
    {
        EndRate { ends, starts: ends }
    }
}
