//! Places of a list, chained by the hashes of their keys.
ghost use Rattle.std.specs.Prelude.{◌≡◌, ℕ, ◌^◌, ◌<◌, ◌≤◌, length, slice_index, IfOk};
ghost use Rattle.list_index.specs.KeyChains.{AreChained, hash_at};
ghost use Rattle.list_index.specs.Suffixes.{hash_of};
ghost use Rattle.lit_base.specs.declared.limits.TheConstants.{MAX_LITERALS};

use crate::suffixes::key::hash_of;
use crate::tuning::LONG_CHAIN;
use std::alloc::{AllocError, Global};

/// The places of a list, chained by the hashes of their keys. Each chain rises. The number of places stands for none.
#[derive(Debug, Drop)]
pub(crate) struct KeyChains {
    /// How many bits a hash has.
    pub bits: usize,
    /// The key of each place.
    pub keys: Vec<u64>,
    /// For each hash the first place that has it.
    pub heads: Vec<u16>,
    /// For each place the next one with its hash.
    pub links: Vec<u16>,
}

impl KeyChains {
    /// The chains of places with these keys, made from the last to the first.
    pub fn new(alloc: Global, keys: Vec<u64>) -> Result<KeyChains, AllocError>
        requires few { length keys.items ≤ MAX_LITERALS }
        ensures keys { IfOk result (λ chains. chains.keys.items ≡ keys.items) }
        ensures chained { IfOk result AreChained }
    {
        let count = keys.len();
        let bits = table_bits(count);
        let mut heads = Vec::from_elem(alloc, count as u16, 1 << bits)?;
        let mut links = Vec::from_elem(alloc, count as u16, count)?;
        let mut low = count;
        while 0 < low {
            low -= 1;
            let hash = hash_of(bits, keys[low]);
            links[low] = heads[hash];
            heads[hash] = low as u16;
        }
        Ok(KeyChains {
            bits,
            keys,
            heads,
            links,
        })
    }

    /// The first place from `from` on whose hash is the key's, or a place of the same chain before it. It continues
    /// from the place before `from`, if that has the key, and otherwise begins at the head of the chain.
    #[inline]
    pub fn first_with(&self, key: u64, from: usize) -> usize
        requires chained { AreChained self.now }
        requires within { from ≤ length self.now.keys.items }
        ensures within { result ≤ length self.now.keys.items }
        ensures skipped { (i : ℕ) → from ≤ i → i < result → slice_index self.now.keys.items i ≡ key → ⊥ }
        ensures has { result < length self.now.keys.items → hash_at self.now.bits self.now.keys.items result ≡ hash_of self.now.bits key }
    {
        if 0 < from && self.keys[from - 1] == key {
            return self.links[from - 1] as usize;
        }
        self.heads[hash_of(self.bits, key)] as usize
    }

    /// Whether some chain has more than `LONG_CHAIN` places.
    pub fn has_long_chain(&self) -> bool
        requires { AreChained self.now }
    {
        for place in 0..self.keys.len() {
            if self.is_long_from(place) {
                return true;
            }
        }
        false
    }

    /// Whether more than `LONG_CHAIN` places stand on a chain from `place` on.
    fn is_long_from(&self, place: usize) -> bool
        requires { AreChained self.now }
    {
        let mut next = place;
        for _ in 0..LONG_CHAIN {
            if self.keys.len() <= next {
                return false;
            }
            next = self.links[next] as usize;
        }
        next < self.keys.len()
    }
}

/// The number of bits of a hash for `count` places: there are more than four times as many hashes.
fn table_bits(count: usize) -> usize
    requires { count ≤ MAX_LITERALS }
    ensures some { 0 < result }
    ensures few { result ≤ 32 }
{
    (4 * count + 1).ilog2() as usize + 1
}
