//! Where in its line a literal probably ends.
ghost use Rattle.std.specs.Prelude.{◌≡◌, ◌≢◌, ◌+◌, ◌-◌, ◌<◌, ◌≤◌, MatchOption, min};

use crate::tuning::{LEAST_TRUST, MOST_TRUST};

/// Where in its line a literal probably ends. The lines of a log, or of JSON, begin alike: where literals are frequent,
/// one often ends as many bytes after the start of a line as in the line before. That position is tried first, and the
/// line is searched only if no literal ends there.
#[derive(Drop)]
pub(crate) struct Column {
    /// The number of bytes of a line up to the end of a literal.
    end: usize,
    /// How often that was right, less how often it was wrong, up to a bound: 0 again where the column changes.
    trust: u8,
    /// The place in the list of the literal found last where a column was tried, at first 0: it is compared before the
    /// other literals.
    pub literal: usize,
}

impl Column {
    /// A column before any hit.
    pub fn new() -> Column
        ensures { result ≡ record { end = 0; trust = 0; literal = 0 } }
    {
        Column {
            end: 0,
            trust: 0,
            literal: 0,
        }
    }

    /// The number of bytes of a line after which a literal probably ends, if that is worth trying.
    #[inline(always)]
    pub fn likely_end(&self) -> Option<usize>
        ensures { MatchOption result (self.now.trust < 2) (λ end. (2 ≤ self.now.trust) × (end ≡ self.now.end)) }
    {
        if self.trust < LEAST_TRUST {
            None
        } else {
            Some(self.end)
        }
    }

    /// A line has an end there.
    #[inline(always)]
    pub fn was_right(&mut self)
        ensures { self.new ≡ record self.old { trust = min 4 (self.old.trust + 1) } }
    {
        self.trust = MOST_TRUST.min(self.trust.saturating_add(1));
    }

    /// A line has none there.
    #[inline(always)]
    pub fn was_wrong(&mut self)
        ensures { self.new ≡ record self.old { trust = self.old.trust - 1 } }
    {
        self.trust = self.trust.saturating_sub(1);
    }

    /// Notes that the first literal of a line ends after this many bytes, where the line was searched.
    #[inline(always)]
    pub fn note(&mut self, end: usize)
        ensures right { end ≡ self.old.end → self.new ≡ record self.old { trust = min 4 (self.old.trust + 1) } }
        ensures other { end ≢ self.old.end → self.old.trust < 2 → self.new ≡ record self.old { end = end; trust = 0 } }
        ensures kept { end ≢ self.old.end → 2 ≤ self.old.trust → self.new ≡ self.old }
    {
        if end == self.end {
            self.was_right();
        } else if self.trust < LEAST_TRUST {
            self.end = end;
            self.trust = 0;
        }
    }
}
