//! Reading a certificate from a text that is held whole.
ghost use Rattle.std.specs.Prelude.{◌≡◌, ◌≢◌, ℕ, ◌+◌, ◌*◌, ◌^◌, ◌<◌, ◌≤◌, List, ◌∷◌, ◌++◌, map, All, IfSome, IfNone, IfOk, IfErr};
ghost use Rattle.std.specs.List.{join_with_byte};
ghost use Rattle.std.specs.Fmt.{decimal};
ghost use Rattle.lit_cert.specs.Spelling.{HasEnds, HasText, IsCount, line_text, literals_words, version_words, ends_words, cost_words, row_words, spelling};
ghost use Rattle.lit_base.specs.Profiles.{buckets};
ghost use Rattle.lit_base.specs.declared.profile.Profile.{Profile};
ghost use Rattle.lit_cert.specs.Reading.{NoLine, IsBadLine, IsRow, HasNumbers, StartsWithHead, StartsWithRows, IsBadRow, IsBadText};

use crate::certificate::Certificate;
use crate::fault::Fault;
use lit_base::{Ends, MAX_LITERALS, Profile, buckets};
use std::alloc::Global;

/// The number that the word is, in decimal, with no sign and no leading zero.
fn number_of(word: &[u8]) -> Option<u64>
    ensures found { IfSome result (λ n. (n < 2 ^ 64) × (word.now ≡ decimal n)) }
    ensures none { IfNone result ((n : ℕ) → n < 2 ^ 64 → word.now ≢ decimal n) }
{
    let first = *word.first()?;
    if first == b'0' {
        return if word.len() == 1 { Some(0) } else { None };
    }
    if first == b'+' {
        return None;
    }
    str::from_utf8(word).ok()?.parse().ok()
}

/// The first line, and the text after it, where a newline ends the line.
fn first_line(text: &[u8]) -> Option<(&[u8], &[u8])>
    ensures found { IfSome result (λ x.
        (text.now ≡ x.0.now ++ 10 ∷ x.1.now) × All (λ b. b ≢ 10) x.0.now) }
    ensures none { IfNone result (All (λ b. b ≢ 10) text.now) }
{
    let end = text.iter().position(|byte| *byte == b'\n')?;
    let (line, rest) = text.split_at(end);
    Some((line, &rest[1..]))
}

/// The text after a line that is the same in every text.
fn after_fixed<'a>(text: &'a [u8], fixed: &[u8]) -> Option<&'a [u8]>
    requires { All (λ b. b ≢ 10) fixed.now }
    ensures found { IfSome result (λ rest. text.entry.now ≡ fixed.now ++ 10 ∷ rest.now) }
    ensures none { IfNone result ((rest : List ℕ) → text.entry.now ≢ fixed.now ++ 10 ∷ rest) }
{
    let (line, rest) = first_line(text)?;
    if line == fixed { Some(rest) } else { None }
}

/// The profile that the first line gives, and the text after it.
fn profile_line(text: &[u8]) -> Option<(Profile, &[u8])>
    ensures found { IfSome result (λ x. text.now ≡ line_text (version_words (buckets x.0)) ++ x.1.now) }
    ensures none { IfNone result ((profile : Profile) (rest : List ℕ) → text.now ≢ line_text (version_words (buckets profile)) ++ rest) }
{
    if let Some(rest) = after_fixed(text, b"litcert 1") {
        return Some((Profile::Eight, rest));
    }
    let rest = after_fixed(text, b"litcert 2")?;
    Some((Profile::Sixteen, rest))
}

/// The number of literals that the second line gives, and the text after it.
fn literals_line(text: &[u8]) -> Option<(usize, &[u8])>
    ensures found { IfSome result (λ x.
        IsCount x.0 × (text.now ≡ line_text (literals_words x.0) ++ x.1.now)) }
    ensures none { IfNone result (NoLine IsCount literals_words text.now) }
{
    let (line, rest) = first_line(text)?;
    let n = number_of(line.strip_prefix(b"literals ")?)?;
    if n < 1 || n > MAX_LITERALS as u64 {
        return None;
    }
    Some((n as usize, rest))
}

/// The ends that the third line gives, and the text after it.
fn ends_line(text: &[u8], profile: Profile) -> Option<(Ends, &[u8])>
    ensures found { IfSome result (λ x.
        HasEnds (buckets profile) x.0.items × (text.now ≡ line_text (ends_words x.0.items) ++ x.1.now)) }
    ensures none { IfNone result (NoLine (HasEnds (buckets profile)) ends_words text.now) }
{
    let (line, rest) = first_line(text)?;
    let ends = ends_of(line.strip_prefix(b"ends ")?, profile)?;
    Some((ends, rest))
}

/// The ends that words are, at most as many as the profile has buckets.
fn ends_of(words: &[u8], profile: Profile) -> Option<Ends>
    ensures found { IfSome result (λ ends.
        HasEnds (buckets profile) ends.items × (words.now ≡ join_with_byte 32 (map decimal ends.items))) }
    ensures none { IfNone result ((ends : List ℕ) →
        HasEnds (buckets profile) ends → words.now ≢ join_with_byte 32 (map decimal ends)) }
{
    let mut ends = Ends::new();
    for word in words.split(|byte| *byte == b' ') {
        let end = u16::try_from(number_of(word)?).ok()?;
        if ends.len() == buckets(profile) {
            return None;
        }
        ends.push(end);
    }
    Some(ends)
}

/// The price that the fourth line gives, and the text after it.
fn cost_line(text: &[u8]) -> Option<(u64, &[u8])>
    ensures found { IfSome result (λ x.
        (x.0 < 2 ^ 64) × (text.now ≡ line_text (cost_words x.0) ++ x.1.now)) }
    ensures none { IfNone result (NoLine (λ cost. cost < 2 ^ 64) cost_words text.now) }
{
    let (line, rest) = first_line(text)?;
    let cost = number_of(line.strip_prefix(b"cost ")?)?;
    Some((cost, rest))
}

/// The numbers that the words of the line at this place are, at most `most`.
fn numbers_of(alloc: Global, place: u32, line: &[u8], most: usize) -> Result<Vec<u64>, Fault>
    ensures found { IfOk result (λ v. HasNumbers most line.now v.items) }
    ensures wrong { IfErr result (IsBadLine place ((xs : List ℕ) → HasNumbers most line.now xs → ⊥)) }
{
    let wrong = Fault::BadCertText { line: place };
    let mut numbers = Vec::new(alloc);
    for word in line.split(|byte| *byte == b' ') {
        if numbers.len() == most {
            return Err(wrong);
        }
        numbers.push(number_of(word).ok_or(wrong)?)?;
    }
    Ok(numbers)
}

/// The numbers of row r + 1, its own number first, and the text after it.
fn row_line(alloc: Global, text: &[u8], r: u32, n: usize) -> Result<(Vec<u64>, &[u8]), Fault>
    requires few_rows { r < 16 }
    requires few_literals { n ≤ MAX_LITERALS }
    ensures found { IfOk result (λ x.
        (row : List ℕ) × IsRow n row × (x.0.items ≡ (r + 1) ∷ row)
        × (text.now ≡ line_text (row_words (r + 1) row) ++ x.1.now)) }
    ensures wrong { IfErr result (IsBadLine (r + 5)
        (NoLine (IsRow n) (row_words (r + 1)) text.now)) }
{
    let wrong = Fault::BadCertText { line: r + 5 };
    let (line, rest) = first_line(text).ok_or(wrong)?;
    let numbers = numbers_of(alloc, r + 5, line, n + 1)?;
    if numbers.len() != n + 1 || numbers[0] != u64::from(r + 1) {
        return Err(wrong);
    }
    Ok((numbers, rest))
}

/// The potentials of all rows, one after the other, and the text after them.
fn rows(alloc: Global, text: &[u8], profile: Profile, n: usize) -> Result<(Vec<u64>, &[u8]), Fault>
    requires few_literals { n ≤ MAX_LITERALS }
    ensures found { IfOk result (λ x. StartsWithRows (buckets profile) n text.now x.0.items x.1.now) }
    ensures wrong { IfErr result (IsBadRow (buckets profile) n text.now) }
{
    let mut potentials = Vec::new(alloc);
    let mut left = text;
    for r in 0..buckets(profile) as u32 {
        let (numbers, rest) = row_line(alloc, left, r, n)?;
        potentials.extend_from_slice(&numbers[1..])?;
        left = rest;
    }
    Ok((potentials, left))
}

/// The contents of the lines before the rows.
#[derive(Drop)]
struct Head {
    profile: Profile,
    literals: usize,
    ends: Ends,
    cost: u64,
}

/// The contents of the four lines before the rows, and the text after them.
fn head_of(text: &[u8]) -> Result<(Head, &[u8]), Fault>
    ensures found { IfOk result (λ x.
        StartsWithHead (buckets x.0.profile) x.0.literals x.0.cost x.0.ends.items text.now x.1.now) }
    ensures wrong { IfErr result (IsBadText text.now) }
{
    let (profile, rest) = profile_line(text).ok_or(Fault::BadCertText { line: 1 })?;
    let (literals, rest) = literals_line(rest).ok_or(Fault::BadCertText { line: 2 })?;
    let (ends, rest) = ends_line(rest, profile).ok_or(Fault::BadCertText { line: 3 })?;
    let (cost, rest) = cost_line(rest).ok_or(Fault::BadCertText { line: 4 })?;
    let head = Head {
        profile,
        literals,
        ends,
        cost,
    };
    Ok((head, rest))
}

/// The certificate whose text this is.
///
/// # Errors
/// - `BadCertText` with the first line that is not of its form, or is not ended by a newline.
///   A missing line has the number that it would have, and what stands after the last one is the next line.
/// - `OutOfMemory`, where a growth was refused.
pub fn certificate_of(alloc: Global, text: &[u8]) -> Result<Certificate, Fault>
    ensures found { IfOk result (λ c. HasText c × (text.now ≡ spelling c)) }
    ensures wrong { IfErr result (IsBadText text.now) }
{
    let (head, rest) = head_of(text)?;
    let (potentials, rest) = rows(alloc, rest, head.profile, head.literals)?;
    let last = buckets(head.profile) as u32 + 5;
    let rest = after_fixed(rest, b"end").ok_or(Fault::BadCertText { line: last })?;
    if !rest.is_empty() {
        return Err(Fault::BadCertText { line: last + 1 });
    }
    Ok(Certificate {
        profile: head.profile,
        ends: head.ends,
        cost: head.cost,
        potentials,
    })
}
