//! Tables of bits by the hashes of keys.
ghost use Rattle.std.specs.Prelude.{◌≡◌, ◌^◌, ◌<◌, ◌≤◌, ◌↔◌, vec_len, IsTrue};
ghost use Rattle.list_index.specs.HashBits.{IsSet};
ghost use Rattle.list_index.specs.Suffixes.{hash_of};
ghost use Rattle.std.specs.Int.{bit_at};

use crate::suffixes::key::hash_of;

/// Sets a bit in the byte at the hash of a key. A hash has this many bits.
pub fn set_hash_bit(table: &mut Vec<u8>, bits: usize, key: u64, bit: usize)
    requires hashed { (0 < bits) × (bits ≤ 32) }
    requires bit { bit < 8 }
    requires room { vec_len table.old ≡ 2 ^ bits }
    ensures len { vec_len table.new ≡ vec_len table.old }
    ensures set { IsSet table.old.items table.new.items (hash_of bits key) bit }
{
    table[hash_of(bits, key)] |= 1 << bit;
}

/// Whether a byte has a bit.
#[inline(always)]
pub fn has_bit(byte: u8, bit: usize) -> bool
    requires { bit < 8 }
    ensures { IsTrue result ↔ (bit_at byte bit ≡ 1) }
{
    byte >> bit & 1 == 1
}
