//! Lists of literals, with tables for a search.
ghost use Rattle.std.specs.Prelude.{◌≡◌, ℕ, ◌-◌, ◌<◌, ◌≤◌, ◌↔◌, List, [], All, IfOk, IfSome, IsTrue, MatchOption, length, slice_index, slice_index_or};
ghost use Rattle.std.specs.List.Sorted.{IsNonDecreasing};
ghost use Rattle.lit_base.specs.Literals.{lengths, IsNormal};
ghost use Rattle.lit_base.specs.NextEnds.{NoEndUpTo};
ghost use Rattle.lit_base.specs.Occurrences.{IsFirstEnding, NoneEnds, Occurs};
ghost use Rattle.list_index.specs.Alone.{IsAlone};
ghost use Rattle.lit_base.specs.declared.limits.TheConstants.{MAX_LITERALS};

use crate::alone::ends_alone;
use crate::suffixes::Suffixes;
use lit_base::{Fold, LitList};
use std::alloc::{AllocError, Global};
use std::marker::Model;
use std::sync::Arc;

/// A list of literals, with the tables by which a search finds the literals that end at a position. A contract sees the
/// literals alone.
#[derive(Debug, Drop)]
pub struct ListIndex {
    pub(crate) list: LitList,
    pub(crate) suffixes: Suffixes,
    /// For each literal, whether it ends alone.
    alone: Vec<bool>,
}

impl Model for ListIndex {
    ghost use Rattle.lit_base.specs.Literals.{Literals, IsNormal};
    ghost use Rattle.list_index.specs.Checks.{AreSuffixesOf};
    ghost use Rattle.list_index.specs.Alone.{SayAlone};

    ghost Value = { Literals };

    ghost view = { λ x. x.list };

    ghost invariant = { λ x. IsNormal x.list × AreSuffixesOf x.list x.suffixes
        × SayAlone x.list x.alone.items };
}

impl ListIndex {
    /// The index of a list, which a plan and its engines share. It takes 8 KiB, and memory for each literal. `Err` if
    /// memory is short.
    pub fn new(alloc: Global, list: LitList) -> Result<Arc<ListIndex>, AllocError>
        ensures { IfOk result (λ index. index.value ≡ list) }
    {
        Ok(Arc::new(alloc, ListIndex::of(alloc, list)?)?)
    }

    /// The index of a list.
    fn of(alloc: Global, list: LitList) -> Result<ListIndex, AllocError>
        ensures { IfOk result (λ index. index ≡ list) }
    {
        list.normal_law();
        let suffixes = Suffixes::new(alloc, &list)?;
        let alone = ends_alone(alloc, &list, &suffixes)?;
        Ok(ListIndex {
            list,
            suffixes,
            alone,
        })
    }

    /// The list.
    #[inline]
    pub fn list(&self) -> &LitList
        ensures { result.now ≡ self.now }
    {
        &self.list
    }

    /// How many literals there are.
    #[inline]
    pub fn len(&self) -> usize
        ensures value { result ≡ length self.now.texts }
        ensures few { result ≤ MAX_LITERALS }
        ensures rising { IsNonDecreasing (lengths self.now) }
    {
        self.list.len()
    }

    /// Whether there is no literal.
    #[inline]
    pub fn is_empty(&self) -> bool
        ensures { IsTrue result ↔ (self.now.texts ≡ []) }
    {
        self.list.is_empty()
    }

    /// The fold that the literals are compared under.
    #[inline]
    pub fn fold(&self) -> Fold
        ensures { result ≡ self.now.folding }
    {
        self.list.fold()
    }

    /// The length of the shortest literal, which is the first.
    pub fn shortest(&self) -> usize
        requires { 0 < length self.now.texts }
        ensures first { result ≡ slice_index (lengths self.now) 0 }
        ensures least { All (λ len. result ≤ len) (lengths self.now) }
    {
        self.list.shortest()
    }

    /// The length of the longest literal, which is the last, or 0 if there is none.
    pub fn longest(&self) -> usize
        ensures last { result ≡ slice_index (lengths self.now) (length self.now.texts - 1) }
        ensures greatest { All (λ len. len ≤ result) (lengths self.now) }
    {
        self.list.longest()
    }

    /// The law that the literals are in normal form.
    pub fn normal_law(&self)
        ensures { IsNormal self.now }
    {
        self.list.normal_law();
    }

    /// The first of the literals from place `from` on that ends at `end` in the text, if there is one.
    #[inline]
    pub fn next_ending(&self, text: &[u8], end: usize, from: usize) -> Option<usize>
        requires { end ≤ length text.now }
        ensures first { MatchOption result
            (NoneEnds self.now text.now from end)
            (λ place. IsFirstEnding self.now text.now from end place) }
        ensures within { IfSome result (λ place. place < length self.now.texts) }
    {
        if self.list.len() == 1 {
            return self.only_ending(text, end, from);
        }
        self.suffixes.next_ending(&self.list, text, end, from)
    }

    /// The first of the literals that ends at `end` in the text, if there is one. It is inlined where each candidate is
    /// verified: few literals, each often in the text, are searched for in small pieces a tenth faster.
    #[inline(always)]
    pub fn first_ending(&self, text: &[u8], end: usize) -> Option<usize>
        requires { end ≤ length text.now }
        ensures first { MatchOption result
            (NoneEnds self.now text.now 0 end)
            (λ place. IsFirstEnding self.now text.now 0 end place) }
        ensures within { IfSome result (λ place. place < length self.now.texts) }
    {
        if self.list.len() == 1 {
            return self.only_ending(text, end, 0);
        }
        self.suffixes.next_ending(&self.list, text, end, 0)
    }

    /// The only literal, if it is from place `from` on and ends at `end`. It is compared at once: through the
    /// tables, a search for a literal that each seventh line has took 1.12 times as long.
    #[inline]
    fn only_ending(&self, text: &[u8], end: usize, from: usize) -> Option<usize>
        requires one { length self.now.texts ≡ 1 }
        requires inside { end ≤ length text.now }
        ensures { MatchOption result
            (NoneEnds self.now text.now from end)
            (λ place. IsFirstEnding self.now text.now from end place) }
    {
        if from == 0 && self.list.ends_at(0, text, end) {
            Some(0)
        } else {
            None
        }
    }

    /// Whether no other literal ends where the one at a place is the first to end, in any text.
    #[inline]
    pub fn ends_alone(&self, place: usize) -> bool
        requires { place < length self.now.texts }
        ensures { IsTrue result ↔ IsAlone self.now place }
    {
        self.alone[place]
    }

    /// A position from `from` on up to which no literal can end, since each is longer. A search that begins there skips
    /// the single probes near the start of a text.
    pub fn skip_short_ends(&self, from: usize) -> usize
        ensures ahead { from ≤ result }
        ensures none { (text : List ℕ) → NoEndUpTo self.now text from result }
    {
        if self.is_empty() {
            return from;
        }
        from.max(self.shortest().saturating_sub(1))
    }

    /// Whether the literal at a place ends at `end` in the text.
    #[inline]
    pub fn ends_at(&self, place: usize, text: &[u8], end: usize) -> bool
        requires within { place < length self.now.texts }
        requires inside { end ≤ length text.now }
        ensures { IsTrue result ↔ Occurs self.now text.now place end }
    {
        self.list.ends_at(place, text, end)
    }

    /// The literal at a place.
    #[inline]
    pub fn get(&self, place: usize) -> &[u8]
        requires { place < length self.now.texts }
        ensures value { result.now ≡ slice_index_or self.now.texts place result.now }
        ensures len { length result.now ≡ slice_index (lengths self.now) place }
        ensures nonempty { 0 < length result.now }
    {
        self.list.get(place)
    }
}
