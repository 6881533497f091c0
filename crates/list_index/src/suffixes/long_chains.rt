//! The literals of a list of which many end alike, chained by more of their last bytes than a key has.
ghost use Rattle.std.specs.Prelude.{◌≡◌, ℕ, ◌+◌, ◌<◌, ◌≤◌, length, slice_index, IfOk, MatchOption};
ghost use Rattle.list_index.specs.Chains.{AreKeyed, IsFirstKeyed, NoneKeyedEnds};
ghost use Rattle.list_index.specs.KeyChains.{hash_at};
ghost use Rattle.list_index.specs.LongChains.{AreHashed, AreLongChainsOf, AreSkips, IsFirstHashed, IsSkip, NoneHashedEnds, hashed_width, hashed_width_at, last_hash, suffix_hash};

use crate::suffixes::key::{case_bits, suffix_key};
use crate::suffixes::key_chains::KeyChains;
use lit_base::{Fold, LitList};
use std::alloc::{AllocError, Global};

/// A literal is hashed by this many of its last bytes, or by all if it has fewer. So a look at one position of a text
/// hashes no more bytes than these.
pub(crate) const MOST_HASHED: usize = 64;

/// The literals by the hash of their last bytes. Along the chain of a key, a walk takes one step for each width among
/// its literals, hashes as many bytes of the text, and looks that hash up.
#[derive(Debug, Drop)]
pub(crate) struct LongChains {
    /// The literals, chained by the hash of their last bytes.
    pub hashes: KeyChains,
    /// For each literal the next one with its key's hash that is hashed by more bytes, or the number of literals.
    pub skips: Vec<u16>,
}

impl LongChains {
    /// The chains of a list's literals, and the skips along their short chains.
    pub fn new(alloc: Global, list: &LitList, short: &KeyChains) -> Result<LongChains, AllocError>
        requires { AreKeyed list.now short.now }
        ensures { IfOk result (AreLongChainsOf list.now short.now) }
    {
        let _count = list.len();
        let hashes = KeyChains::new(alloc, hashes_of(alloc, list)?)?;
        let skips = skips_of(alloc, list, short)?;
        Ok(LongChains { hashes, skips })
    }

    /// The first of the literals from place `from` on that have a key of eight bytes and end at `end` in the text, if
    /// there is one.
    #[inline(never)]
    pub fn next_keyed(
        &self,
        short: &KeyChains,
        literals: &LitList,
        text: &[u8],
        end: usize,
        from: usize,
    ) -> Option<usize>
        requires keyed { AreKeyed literals.now short.now }
        requires of { AreLongChainsOf literals.now short.now self.now }
        requires within { from < length literals.now.texts }
        requires room { 8 ≤ end }
        requires inside { end ≤ length text.now }
        ensures { MatchOption result
            (NoneKeyedEnds literals.now text.now from end 8)
            (λ place. IsFirstKeyed literals.now text.now from end 8 place) }
    {
        literals.normal_law();
        let mut next = short.first_with(suffix_key(literals.fold(), text, end, 8), from);
        let mut hashed = 0;
        let mut hash = 1;
        while next < literals.len() {
            let width = hashed_width(literals.get(next).len());
            if end < width {
                return None;
            }
            if 8 <= width {
                hash = longer_hash(literals.fold(), text, end, hashed, width, hash);
                hashed = width;
                if let Some(place) = self.next_hashed(literals, text, end, from, width, hash) {
                    return Some(place);
                }
            }
            next = self.skips[next] as usize;
        }
        None
    }

    /// The first of the literals from place `from` on that are hashed by `width` bytes and end at `end` in the text, if
    /// there is one, given the hash of as many bytes before `end`.
    fn next_hashed(
        &self,
        literals: &LitList,
        text: &[u8],
        end: usize,
        from: usize,
        width: usize,
        hash: u64,
    ) -> Option<usize>
        requires hashed { AreHashed literals.now self.now.hashes }
        requires within { from < length literals.now.texts }
        requires inside { end ≤ length text.now }
        requires hash { hash ≡ suffix_hash literals.now.folding text.now end width }
        ensures { MatchOption result
            (NoneHashedEnds literals.now text.now from end width)
            (λ place. IsFirstHashed literals.now text.now from end width place) }
    {
        let mut next = self.hashes.first_with(hash, from);
        while next < literals.len() {
            if from <= next
                && self.hashes.keys[next] == hash
                && hashed_width(literals.get(next).len()) == width
                && literals.ends_at(next, text, end)
            {
                return Some(next);
            }
            next = self.hashes.links[next] as usize;
        }
        None
    }
}

/// The hash of the last bytes of each literal.
fn hashes_of(alloc: Global, list: &LitList) -> Result<Vec<u64>, AllocError>
    ensures len { IfOk result (λ hashes. length hashes.items ≡ length list.now.texts) }
    ensures hashed { IfOk result (λ hashes. (place : ℕ) → place < length hashes.items → slice_index hashes.items place ≡ last_hash list.now place) }
{
    let mut hashes = Vec::with_capacity(alloc, list.len())?;
    for place in 0..list.len() {
        let literal = list.get(place);
        let width = hashed_width(literal.len());
        hashes.push(longer_hash(list.fold(), literal, literal.len(), 0, width, 1))?;
    }
    Ok(hashes)
}

/// For each literal the next on the chain of its key that is hashed by more bytes.
fn skips_of(alloc: Global, list: &LitList, short: &KeyChains) -> Result<Vec<u16>, AllocError>
    requires { AreKeyed list.now short.now }
    ensures len { IfOk result (λ skips. length skips.items ≡ length list.now.texts) }
    ensures skips { IfOk result (λ skips. AreSkips list.now short.now 0 skips.items) }
{
    let count = list.len();
    let mut skips = Vec::from_elem(alloc, 0, count)?;
    let mut low = count;
    while 0 < low {
        low -= 1;
        let skip = skip_of(list, short, skips.as_slice(), low);
        skips[low] = skip;
    }
    Ok(skips)
}

/// The skip of the literal at a place, given the skips of the literals after it.
fn skip_of(list: &LitList, short: &KeyChains, skips: &[u16], place: usize) -> u16
    requires keyed { AreKeyed list.now short.now }
    requires within { place < length list.now.texts }
    requires len { length skips.now ≡ length list.now.texts }
    requires later { AreSkips list.now short.now (place + 1) skips.now }
    ensures { IsSkip (hash_at short.now.bits short.now.keys.items) (hashed_width_at list.now) (length list.now.texts) place result }
{
    let next = short.links[place];
    let after = next as usize;
    if after < list.len()
        && hashed_width(list.get(after).len()) == hashed_width(list.get(place).len())
    {
        return skips[after];
    }
    next
}

/// How many of its last bytes a literal of `len` bytes is hashed by.
#[inline]
fn hashed_width(len: usize) -> usize
    ensures { result ≡ hashed_width len }
{
    len.min(MOST_HASHED)
}

/// The hash of the last `width` bytes before `end`, given that of the last `hashed`.
#[inline]
fn longer_hash(fold: Fold, text: &[u8], end: usize, hashed: usize, width: usize, hash: u64) -> u64
    requires longer { hashed ≤ width }
    requires room { width ≤ end }
    requires inside { end ≤ length text.now }
    requires hash { hash ≡ suffix_hash fold text.now end hashed }
    ensures { result ≡ suffix_hash fold text.now end width }
{
    let case_bits = case_bits(fold);
    let mut longer = hash;
    for back in hashed..width {
        let byte = text[end - 1 - back] as u64;
        longer = longer
            .wrapping_mul(0x9e37_79b9_7f4a_7c15)
            .wrapping_add(byte | case_bits);
    }
    longer
}
