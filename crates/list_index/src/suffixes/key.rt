//! Keys of the last bytes of a text, and their hashes.
ghost use Rattle.std.specs.Prelude.{◌≡◌, ◌+◌, ◌-◌, ◌^◌, ◌<◌, ◌≤◌, ◌++◌, length, replicate, slice_range};
ghost use Rattle.list_index.specs.Suffixes.{case_bits, hash_of, key_width, masked_key, spelled, suffix_key, suffix_mask};

use lit_base::Fold;

/// The key width of a literal of `len` bytes: all of them, up to eight.
#[inline]
pub(crate) fn key_width(len: usize) -> usize
    ensures { result ≡ key_width len }
{
    len.min(8)
}

/// The key of the `width` bytes before `end`. Texts that fold alike have equal keys.
#[inline]
pub fn suffix_key(fold: Fold, text: &[u8], end: usize, width: usize) -> u64
    requires some { 0 < width }
    requires narrow { width ≤ 8 }
    requires room { width ≤ end }
    requires inside { end ≤ length text.now }
    ensures { result ≡ suffix_key fold text.now end width }
{
    masked_key(word_before(text, end), width, case_bits(fold))
}

/// The key of the last `width` of the eight bytes that a word spells.
#[inline(always)]
pub fn masked_key(word: u64, width: usize, case_bits: u64) -> u64
    requires some { 0 < width }
    requires narrow { width ≤ 8 }
    ensures { result ≡ masked_key word width case_bits }
{
    (word & suffix_mask(width)) | case_bits
}

/// The bits of the last `width` bytes of eight.
#[inline]
fn suffix_mask(width: usize) -> u64
    requires some { 0 < width }
    requires narrow { width ≤ 8 }
    ensures { result ≡ suffix_mask width }
{
    u64::MAX << (8 * (8 - width))
}

/// What the eight bytes before `end` spell. Zeros stand for bytes before the text.
#[inline(always)]
pub fn word_before(text: &[u8], end: usize) -> u64
    requires { end ≤ length text.now }
    ensures { result ≡ spelled (replicate (8 - end) 0 ++ slice_range text.now (end - (8 - (8 - end))) end) }
{
    if end < 8 {
        padded_word(&text[..end])
    } else {
        last_word(text, end)
    }
}

/// What the eight bytes before `end` spell.
#[inline]
pub fn last_word(text: &[u8], end: usize) -> u64
    requires room { 8 ≤ end }
    requires inside { end ≤ length text.now }
    ensures { result ≡ spelled (slice_range text.now (end - 8) end) }
{
    let at = end - 8;
    u64::from_le_bytes([
        text[at],
        text[at + 1],
        text[at + 2],
        text[at + 3],
        text[at + 4],
        text[at + 5],
        text[at + 6],
        text[at + 7],
    ])
}

/// What at most eight bytes spell after zeros.
fn padded_word(bytes: &[u8]) -> u64
    requires { length bytes.now ≤ 8 }
    ensures { result ≡ spelled (replicate (8 - length bytes.now) 0 ++ bytes.now) }
{
    let mut word = [0; 8];
    word[8 - bytes.len()..].copy_from_slice(bytes);
    last_word(&word, 8)
}

/// The bit of letter case in each of eight bytes, or no bit if case counts.
#[inline]
pub fn case_bits(fold: Fold) -> u64
    ensures { result ≡ case_bits fold }
{
    match fold {
        Fold::No => 0,
        Fold::Ascii => 0x2020_2020_2020_2020,
    }
}

/// The hash of a key, of this many bits.
#[inline]
pub fn hash_of(bits: usize, key: u64) -> usize
    requires { (0 < bits) × (bits ≤ 32) }
    ensures value { result ≡ hash_of bits key }
    ensures below { result < 2 ^ bits }
{
    (key.wrapping_mul(0x9e37_79b9_7f4a_7c15) >> (64 - bits)) as usize
}
