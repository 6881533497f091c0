//! The test of ends by a filter's tables.
ghost use Rattle.std.specs.Prelude.{◌≡◌};
ghost use Rattle.nib_mask.specs.Halves.{widened};
ghost use Rattle.byte_lanes.specs.WideTables.{AreTablesOf};

use crate::end_test::EndTest;
use crate::one_by_one;
use crate::tables::Tables;
use nib_mask::ByteMasks;

/// Masks, and their tables as vectors.
#[derive(Clone, Copy)]
pub struct Nibbles<'a> {
    masks: &'a ByteMasks,
    tables: Tables,
    ghost of: { AreTablesOf (widened masks.now) tables },
}

impl<'a> Nibbles<'a> {
    /// The test by these masks. It loads their tables into vectors.
    #[inline(always)]
    pub fn new(masks: &'a ByteMasks) -> Nibbles<'a>
        ensures { result.masks.now ≡ masks.now }
    {
        Nibbles {
            masks,
            tables: Tables::of(masks),
        }
    }
}

impl<'a> EndTest for Nibbles<'a> {
    ghost use Rattle.nib_mask.specs.Candidates.{IsCandidate};
    ghost use Rattle.nib_mask.specs.Halves.{widened};

    ghost candidate = { λ s. IsCandidate (widened s.masks.now) };

    ghost reaches = { λ _. 3 };

    fn reach(&self) -> usize {
        3
    }

    fn is_candidate(&self, text: &[u8], end: usize) -> bool {
        one_by_one::is_candidate(self.masks, text, end)
    }

    fn local_law(&self, text: &[u8], longer: &[u8]) {}

    #[inline(always)]
    fn passing(&self, text: &[u8], first: usize) -> u64 {
        self.tables.passing(text, first - 3)
    }
}
