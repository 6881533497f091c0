//! The counters of a search.
ghost use Rattle.std.specs.Prelude.{◌≡◌, ◌+◌, ◌-◌, ◌^◌, min};
ghost use Rattle.std.specs.Int.RustNames.{count_ones};

/// The counters of a search.
#[derive(Clone, Copy, Debug)]
pub struct Tally {
    /// Positions that passed the masks of the factors. Only a search by factors counts them; those at the border of two
    /// blocks may be counted twice.
    pub passed: usize,
    /// Candidates and pending ends at which no literal ends. A search by factors counts each pending end when its block
    /// is probed, and takes it off again where a literal ends.
    pub false_positives: usize,
    /// Ends that were found.
    pub ends: usize,
}

impl Tally {
    /// All counters 0.
    #[inline]
    pub fn nothing() -> Tally
        ensures { result ≡ record { passed = 0; false_positives = 0; ends = 0 } }
    {
        Tally {
            passed: 0,
            false_positives: 0,
            ends: 0,
        }
    }

    /// Counts the positions whose bits are set in `mask`: they passed the masks of the factors.
    #[inline(always)]
    pub fn pass(&mut self, mask: u64)
        ensures { self.new ≡ record self.old { passed = min (self.old.passed + count_ones mask) (2 ^ 64 - 1) } }
    {
        self.passed = self.passed.saturating_add(mask.count_ones() as usize);
    }

    /// Counts a pending end for each of the hash bits, as a false positive until a literal is found to end there.
    #[inline(always)]
    pub fn pending(&mut self, hash_bits: u64)
        ensures { self.new ≡ record self.old { false_positives = min (self.old.false_positives + count_ones hash_bits) (2 ^ 64 - 1) } }
    {
        self.false_positives = self
            .false_positives
            .saturating_add(hash_bits.count_ones() as usize);
    }

    /// Counts one false positive.
    #[inline(always)]
    pub fn miss(&mut self)
        ensures { self.new ≡ record self.old { false_positives = min (self.old.false_positives + 1) (2 ^ 64 - 1) } }
    {
        self.false_positives = self.false_positives.saturating_add(1);
    }

    /// Counts a literal that ends at a pending end: this one is no false positive.
    #[inline(always)]
    pub fn hit(&mut self)
        ensures { self.new ≡ record self.old { false_positives = self.old.false_positives - 1; ends = min (self.old.ends + 1) (2 ^ 64 - 1) } }
    {
        self.false_positives = self.false_positives.saturating_sub(1);
        self.end();
    }

    /// Counts one end.
    #[inline(always)]
    pub fn end(&mut self)
        ensures { self.new ≡ record self.old { ends = min (self.old.ends + 1) (2 ^ 64 - 1) } }
    {
        self.ends = self.ends.saturating_add(1);
    }
}
