//! The last bytes of a list's literals, by which the literals that end at a position are found.
mod chains;
mod checks;
mod hash_bits;
mod key;
mod key_chains;
mod long_chains;

ghost use Rattle.std.specs.Prelude.{◌≡◌, ℕ, ◌+◌, ◌-◌, ◌^◌, ◌<◌, ◌≤◌, IfOk, IfSome, MatchOption, length, max};
ghost use Rattle.std.specs.Int.{bit_at};
ghost use Rattle.list_index.specs.Chains.{HaveWidths};
ghost use Rattle.list_index.specs.Checks.{AreSuffixesOf};
ghost use Rattle.lit_base.specs.Literals.{IsNormal, Literals};
ghost use Rattle.lit_base.specs.Occurrences.{IsFirstEnding, NoneEnds};
ghost use Rattle.list_index.specs.declared.suffixes.checks.TheConstants.{CHECK_BITS, LEAST_CHECKED};

use crate::suffixes::chains::SuffixChains;
use crate::suffixes::checks::SuffixChecks;
pub use crate::suffixes::hash_bits::{has_bit, set_hash_bit};
pub use crate::suffixes::key::{
    case_bits, hash_of, last_word, masked_key, suffix_key, word_before,
};
use lit_base::LitList;
use std::alloc::{AllocError, Global};

/// Checks and chains, in two steps. Checks give the key widths of the literals that may end at a position: none at most
/// positions where no literal ends. For the rest, chains give the literals.
#[derive(Debug, Drop)]
pub(crate) struct Suffixes {
    pub chains: SuffixChains,
    pub checks: SuffixChecks,
}

impl Suffixes {
    /// The suffixes of a list's literals.
    pub fn new(alloc: Global, list: &LitList) -> Result<Suffixes, AllocError>
        ensures { IfOk result (AreSuffixesOf list.now) }
    {
        Ok(Suffixes {
            chains: SuffixChains::new(alloc, list)?,
            checks: SuffixChecks::new(alloc, list)?,
        })
    }

    /// The first of the literals from place `from` on that ends at `end` in the text, if there is one.
    #[inline]
    pub fn next_ending(
        &self,
        literals: &LitList,
        text: &[u8],
        end: usize,
        from: usize,
    ) -> Option<usize>
        requires of { AreSuffixesOf literals.now self.now }
        requires normal { IsNormal literals.now }
        requires inside { end ≤ length text.now }
        ensures { MatchOption result
            (NoneEnds literals.now text.now from end)
            (λ place. IsFirstEnding literals.now text.now from end place) }
    {
        let mut widths = self.widths_at(text, end);
        if widths == 0 {
            return None;
        }
        self.next_by_widths(literals, text, end, from, &mut widths)
    }

    /// The key widths of the literals that may end at `end`: bit `width - 1` stands for keys of `width` bytes. With
    /// fewer than eight bytes before `end` it gives all widths.
    #[inline(always)]
    pub fn widths_at(&self, text: &[u8], end: usize) -> u8
        requires some { 0 < self.now.checks.least }
        requires narrow { self.now.checks.least ≤ 8 }
        requires most { self.now.checks.most ≡ max self.now.checks.least LEAST_CHECKED }
        requires room { length self.now.checks.widths.items ≡ 2 ^ CHECK_BITS }
        requires inside { end ≤ length text.now }
        ensures { (l : Literals) → AreSuffixesOf l self.now → HaveWidths l text.now 0 end result }
    {
        if end < 8 {
            return u8::MAX;
        }
        self.checks.widths_at(text, end)
    }

    /// The search of `next_ending` among the literals whose key widths are in `widths`: bit `width - 1` stands for keys
    /// of `width` bytes. A literal with a wider key comes later in the list. After a literal is found, `widths` keeps
    /// the widths of later literals.
    #[inline(never)]
    pub fn next_by_widths(
        &self,
        literals: &LitList,
        text: &[u8],
        end: usize,
        from: usize,
        widths: &mut u8,
    ) -> Option<usize>
        requires of { AreSuffixesOf literals.now self.now }
        requires normal { IsNormal literals.now }
        requires inside { end ≤ length text.now }
        requires keyed { HaveWidths literals.now text.now from end widths.old }
        ensures first { MatchOption result
            (NoneEnds literals.now text.now from end)
            (λ place. IsFirstEnding literals.now text.now from end place) }
        ensures keyed { IfSome result (λ place. HaveWidths literals.now text.now (place + 1) end widths.new) }
    {
        let mut left = *widths;
        while left != 0 {
            let lowest = left.trailing_zeros() as usize;
            let width = lowest + 1;
            if end < width {
                return None;
            }
            if let Some(place) = self.chains.next_keyed(literals, text, end, from, width) {
                *widths = widths_after(left, width);
                return Some(place);
            }
            left &= !(1 << lowest);
        }
        None
    }
}

/// The key widths, out of `widths`, of literals that may end after a literal of `len` bytes at the same position. A
/// literal whose key has all its bytes is the only one of its length there.
#[inline]
pub(crate) fn widths_after(widths: u8, len: usize) -> u8
    requires { 0 < len }
    ensures { (width : ℕ) → 0 < width → width ≤ 8 → (width ≡ len → width ≡ 8) → bit_at widths (width - 1) ≡ 1 → bit_at result (width - 1) ≡ 1 }
{
    if len < 8 {
        widths & !(1 << (len - 1))
    } else {
        widths
    }
}
