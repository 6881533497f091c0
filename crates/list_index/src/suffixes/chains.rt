//! All literals, chained by the hash of their keys.
ghost use Rattle.std.specs.Prelude.{◌≡◌, ℕ, ◌<◌, ◌≤◌, ◌↔◌, length, slice_index, IfOk, IsTrue, MatchOption};
ghost use Rattle.list_index.specs.Chains.{AreChainsOf, IsFirstKeyed, NoneKeyedEnds, key_width_at, key_at};
ghost use Rattle.lit_base.specs.Occurrences.{Occurs};
ghost use Rattle.list_index.specs.Suffixes.{suffix_key};
ghost use Rattle.lit_base.specs.declared.limits.TheConstants.{MAX_LITERALS};

use crate::suffixes::key::{key_width, suffix_key};
use crate::suffixes::key_chains::KeyChains;
use crate::suffixes::long_chains::LongChains;
use lit_base::{Fold, LitList};
use std::alloc::{AllocError, Global};

/// The literals, chained by the hash of their keys.
#[derive(Debug, Drop)]
pub(crate) struct SuffixChains {
    /// The literals by their keys, of at most eight bytes.
    pub short: KeyChains,
    /// The literals by more of their last bytes, in a list that has a long chain.
    pub long: Option<LongChains>,
}

impl SuffixChains {
    /// The chains of a list's literals.
    pub fn new(alloc: Global, list: &LitList) -> Result<SuffixChains, AllocError>
        ensures { IfOk result (AreChainsOf list.now) }
    {
        let _count = list.len();
        let short = KeyChains::new(alloc, keys_of(alloc, list)?)?;
        let long = if short.has_long_chain() {
            Some(LongChains::new(alloc, list, &short)?)
        } else {
            None
        };
        Ok(SuffixChains { short, long })
    }

    /// The first of the literals from place `from` on that have a key of `width` bytes and end at `end` in the text, if
    /// there is one.
    #[inline]
    pub fn next_keyed(
        &self,
        literals: &LitList,
        text: &[u8],
        end: usize,
        from: usize,
        width: usize,
    ) -> Option<usize>
        requires of { AreChainsOf literals.now self.now }
        requires few { length literals.now.texts ≤ MAX_LITERALS }
        requires some { 0 < width }
        requires narrow { width ≤ 8 }
        requires room { width ≤ end }
        requires inside { end ≤ length text.now }
        ensures { MatchOption result
            (NoneKeyedEnds literals.now text.now from end width)
            (λ place. IsFirstKeyed literals.now text.now from end width place) }
    {
        if literals.len() <= from {
            return None;
        }
        if let Some(long) = &self.long {
            if width == 8 {
                return long.next_keyed(&self.short, literals, text, end, from);
            }
        }
        let key = suffix_key(literals.fold(), text, end, width);
        let mut next = self.short.first_with(key, from);
        while next < literals.len() {
            if from <= next && self.ends_with_key(literals, text, end, key, width, next) {
                return Some(next);
            }
            next = self.short.links[next] as usize;
        }
        None
    }

    /// Whether a literal has a key of `width` bytes and ends at `end`, given the text's key of as many bytes before
    /// `end`. If case counts, the key spells all bytes of a short literal, which are not compared again.
    fn ends_with_key(
        &self,
        literals: &LitList,
        text: &[u8],
        end: usize,
        key: u64,
        width: usize,
        place: usize,
    ) -> bool
        requires of { AreChainsOf literals.now self.now }
        requires narrow { width ≤ 8 }
        requires room { width ≤ end }
        requires inside { end ≤ length text.now }
        requires key { key ≡ suffix_key literals.now.folding text.now end width }
        requires within { place < length literals.now.texts }
        ensures { IsTrue result ↔ ((key_width_at literals.now place ≡ width) × Occurs literals.now text.now place end) }
    {
        if self.short.keys[place] != key {
            return false;
        }
        let literal = literals.get(place);
        if key_width(literal.len()) != width {
            return false;
        }
        if literal.len() == width && literals.fold() == Fold::No {
            return true;
        }
        literals.ends_at(place, text, end)
    }
}

/// The keys of the literals.
fn keys_of(alloc: Global, list: &LitList) -> Result<Vec<u64>, AllocError>
    ensures len { IfOk result (λ keys. length keys.items ≡ length list.now.texts) }
    ensures keyed { IfOk result (λ keys. (place : ℕ) → place < length keys.items → slice_index keys.items place ≡ key_at list.now place) }
{
    let mut keys = Vec::with_capacity(alloc, list.len())?;
    for place in 0..list.len() {
        let literal = list.get(place);
        let width = key_width(literal.len());
        keys.push(suffix_key(list.fold(), literal, literal.len(), width))?;
    }
    Ok(keys)
}
