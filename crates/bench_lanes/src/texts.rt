//! Literals and texts, the same in each run.
ghost use Rattle.std.specs.Prelude.{◌≡◌, IfOk, length};
ghost use Rattle.lit_base.specs.declared.fold.Fold.TheVariants.{No};

use anyhow::Result;
use lit_base::{Fold, LitList, RawList};
use std::alloc::{AllocError, Global};

/// How many bytes apart the literals stand in a text that has some.
const DISTANCE: usize = 4096;

/// Numbers that look random.
#[derive(Drop)]
struct Numbers {
    state: u64,
}

impl Numbers {
    fn next(&mut self) -> u64 {
        self.state = self
            .state
            .wrapping_mul(6_364_136_223_846_793_005)
            .wrapping_add(1_442_695_040_888_963_407);
        self.state >> 33
    }

    /// One of the bytes.
    fn pick(&mut self, bytes: &[u8]) -> u8 {
        let place = self.next() % (bytes.len() as u64).max(1);
        bytes.get(place as usize).copied().unwrap_or(0)
    }
}

/// `count` words of six to nine small letters, compared byte by byte.
pub fn literals(alloc: Global, count: u16) -> Result<LitList>
    ensures { IfOk result (λ list. list.folding ≡ No) }
{
    let mut numbers = Numbers { state: 1 };
    let mut raw = RawList::new(alloc);
    for _ in 0..count {
        let mut word = [0; 9];
        for byte in word.iter_mut() {
            *byte = numbers.pick(b"abcdefghijklmnopqrstuvwxyz");
        }
        let len = 6 + (numbers.next() % 4) as usize;
        raw.push(&word[..len])?;
    }
    let list = LitList::normal_form(alloc, &raw, Fold::No)?;
    Ok(list)
}

/// A text of `len` capitals, digits and spaces, in which no literal occurs and no filter finds one.
pub fn quiet_text(alloc: Global, len: usize) -> Result<Vec<u8>, AllocError>
    ensures { IfOk result (λ text. length text.items ≡ len) }
{
    let mut numbers = Numbers { state: 2 };
    let mut text = Vec::new(alloc);
    text.reserve(len)?;
    for _ in 0..len {
        text.push(numbers.pick(b"ABCDEFGHIJKLMNO0123456789  "))?;
    }
    Ok(text)
}

/// A quiet text with a literal now and then.
pub fn rare_text(alloc: Global, len: usize, list: &LitList) -> Result<Vec<u8>, AllocError>
    ensures { IfOk result (λ text. length text.items ≡ len) }
{
    let mut text = quiet_text(alloc, len)?;
    place_literals(text.as_mut_slice(), list);
    Ok(text)
}

/// Writes a literal in every stretch of the text.
fn place_literals(text: &mut [u8], list: &LitList) {
    if list.len() == 0 {
        return;
    }
    let mut place = DISTANCE / 2;
    for turn in 0..text.len() / DISTANCE {
        for (byte, letter) in text.iter_mut().skip(place).zip(list.get(turn % list.len())) {
            *byte = *letter;
        }
        place = place.saturating_add(DISTANCE);
    }
}
