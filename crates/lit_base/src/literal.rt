//! A literal, in the order of the normal form.
ghost use Rattle.std.specs.Prelude.{◌≡◌, ◌==◌, IfOk, List, ℕ, length};
ghost use Rattle.std.proofs.Common.{rules};
ghost use Rattle.std.specs.Cmp.{partial_order_from_own_ties};
ghost use Rattle.std.specs.Cmp.Rules.{comparing};
ghost use Rattle.std.specs.Cmp.Lexicographic.{pointwise, slice_cmp};
ghost use Rattle.std.specs.Ordering.{nat_cmp, on, then_cmp, as_partial_cmp, eq_of_both};
ghost use Rattle.lit_base.specs.Folding.{folded_text};

use crate::fold::{Fold, fold_byte};
use std::alloc::{AllocError, Global};
use std::cmp::Ordering;
use std::marker::Model;

/// One literal. Literals are ordered by length, and by bytes where they are equally long.
#[derive(Debug, Drop)]
pub(crate) struct Literal {
    bytes: Vec<u8>,
}

impl Model for Literal {
    ghost Value = { List ℕ };

    ghost view = { λ l. l.bytes.items };
}

impl Literal {
    /// The pattern without its case, as the fold says.
    pub fn folded(alloc: Global, pattern: &[u8], fold: Fold) -> Result<Literal, AllocError>
        ensures { IfOk result (λ l. l ≡ folded_text fold pattern.now) }
    {
        let bytes = pattern
            .iter()
            .map(|byte| fold_byte(fold, *byte))
            .collect(alloc)?;
        Ok(Literal { bytes })
    }

    /// The pattern as it is.
    pub fn of(bytes: Vec<u8>) -> Literal
        ensures { result ≡ bytes.items }
    {
        Literal { bytes }
    }

    pub fn as_slice(&self) -> &[u8]
        ensures { result.now ≡ self.now }
    {
        self.bytes.as_slice()
    }
}

impl PartialEq for Literal {
    ghost eq = { eq_of_both (on length ◌==◌) (pointwise ◌==◌) };

    ghost laws = { Prim.search (comparing, rules) };

    fn eq(&self, other: &Literal) -> bool {
        self.bytes.len() == other.bytes.len() && self.bytes.as_slice() == other.bytes.as_slice()
    }
}

impl Eq for Literal {
    ghost laws = { Prim.search (comparing, rules) };
}

impl Ord for Literal {
    ghost cmp = { then_cmp (on length nat_cmp) (slice_cmp nat_cmp) };

    ghost total = { Prim.search (comparing, rules) };

    ghost matches_partial_cmp = { Prim.search (comparing, rules) };

    ghost matches_eq = { Prim.search (comparing, rules) };

    fn cmp(&self, other: &Literal) -> Ordering {
        let lengths = self.bytes.len().cmp(&other.bytes.len());
        lengths.then(self.bytes.as_slice().cmp(other.bytes.as_slice()))
    }
}

impl PartialOrd for Literal {
    ghost partial_cmp = { as_partial_cmp (then_cmp (on length nat_cmp) (slice_cmp nat_cmp)) };

    ghost laws = { partial_order_from_own_ties (Prim.search (comparing, rules)) (Prim.search (comparing, rules)) };

    fn partial_cmp(&self, other: &Literal) -> Option<Ordering> {
        Some(self.cmp(other))
    }
}
