//! Where a text is cut into lines.
ghost use Rattle.std.specs.Prelude.{◌≡◌, ◌+◌, ◌<◌, ◌≤◌, IfSome, MatchOption, drop, length, slice_index, take};
ghost use Rattle.lit_base.specs.Lines.{IsOnePiece};
ghost use Rattle.text_lines.specs.Cutting.{AreNewlines, IsFirstLine, IsLastCut};

use crate::counting::{
    LANES, bytes_after_newline, count_newlines, first_newline, first_newline_of_two, newline_mask,
};
use crate::tuning::{MOSTLY_EMPTY, SAMPLE, SHORT_LINE};
use memchr::{memchr, memrchr};

/// Whether the first lines of a text are short. False for a text shorter than the sample.
pub fn has_short_lines(text: &[u8]) -> bool {
    lines_in_sample(text) > SAMPLE / SHORT_LINE
}

/// Whether the first lines of a text are short, but not mostly empty. Such lines are cut by masks. An empty line is cut
/// faster by its first byte, if this can be predicted.
pub fn suits_masks(text: &[u8]) -> bool {
    let lines = lines_in_sample(text);
    lines > SAMPLE / SHORT_LINE && lines < MOSTLY_EMPTY
}

/// How many lines end in the sample at the start of a text, or 0 where the text is shorter.
fn lines_in_sample(text: &[u8]) -> usize {
    if text.len() < SAMPLE {
        return 0;
    }
    let (prefix, _) = text.split_at(SAMPLE);
    count_newlines(prefix)
}

/// The text before the first newline, and the text after it, if there is a newline.
#[inline(always)]
pub fn split_line(text: &[u8]) -> Option<(&[u8], &[u8])>
    ensures { MatchOption result
        (IsOnePiece text.now)
        (λ parts. IsFirstLine text.now parts.0.now parts.1.now) }
{
    let end = memchr(b'\n', text)?;
    Some(split_at_newline(text, end))
}

/// The text before the newline at `end`, and the text after it.
#[inline(always)]
fn split_at_newline(text: &[u8], end: usize) -> (&[u8], &[u8])
    requires inside { end < length text.now }
    requires newline { slice_index text.now end ≡ 10 }
    requires apart { IsOnePiece (take end text.now) }
    ensures line { IsFirstLine text.now result.0.now result.1.now }
    ensures len { length result.0.now ≡ end }
    ensures after { result.1.now ≡ drop (end + 1) text.now }
{
    let (line, after) = text.split_at(end);
    (line, &after[1..])
}

/// The text before and after the first newline, if there is one. A newline among the first 128 bytes is found by one
/// comparison, which is faster there than a search. An empty line takes none.
#[inline(always)]
pub(crate) fn split_near_line(text: &[u8]) -> Option<(&[u8], &[u8])>
    ensures { MatchOption result
        (IsOnePiece text.now)
        (λ parts. IsFirstLine text.now parts.0.now parts.1.now) }
{
    if let [b'\n', after @ ..] = text {
        let (line, _) = text.split_at(0);
        return Some((line, after));
    }
    if text.len() >= 2 * LANES {
        let end = first_newline_of_two(text);
        if end < 2 * LANES {
            return Some(split_at_newline(text, end));
        }
    }
    split_line(text)
}

/// A line, the text after its newline, and a mask of the newlines in the first bytes of this text.
#[derive(Drop)]
pub struct CutLine<'t> {
    /// The line, without its newline.
    pub line: &'t [u8],
    /// The text after the newline.
    pub after: &'t [u8],
    /// Bit k is set where byte k of that text is known to be a newline.
    pub newlines: u64,
}

/// The first line of a text, if there is a newline. By masks, one comparison of 64 bytes finds all newlines in them,
/// and `newlines` is the mask of those that are still ahead, or 0. So a line of two bytes is cut in half the time.
/// Longer lines are cut one by one, since it cannot be predicted which of them is the last one of a mask.
#[inline(always)]
pub fn split_next_line(text: &[u8], newlines: u64, by_masks: bool) -> Option<CutLine<'_>>
    requires { AreNewlines text.now newlines }
    ensures line { MatchOption result
        (IsOnePiece text.now)
        (λ cut. IsFirstLine text.now cut.line.now cut.after.now) }
    ensures newlines { IfSome result (λ cut. AreNewlines cut.after.now cut.newlines) }
{
    if !by_masks {
        return split_alone(text);
    }
    let ahead = mask_or_next(text, newlines);
    if ahead == 0 {
        return split_alone(text);
    }
    Some(split_by_mask(text, ahead))
}

/// The mask, or where it has no newline the mask of the first bytes of the text.
#[inline(always)]
fn mask_or_next(text: &[u8], newlines: u64) -> u64
    requires { AreNewlines text.now newlines }
    ensures { AreNewlines text.now result }
{
    if newlines == 0 {
        newline_mask(text)
    } else {
        newlines
    }
}

/// The first line of a text, if there is a newline, with no mask.
#[inline(always)]
fn split_alone(text: &[u8]) -> Option<CutLine<'_>>
    ensures line { MatchOption result
        (IsOnePiece text.now)
        (λ cut. IsFirstLine text.now cut.line.now cut.after.now) }
    ensures newlines { IfSome result (λ cut. AreNewlines cut.after.now cut.newlines) }
{
    let (line, after) = split_near_line(text)?;
    Some(CutLine {
        line,
        after,
        newlines: 0,
    })
}

/// The first line of a text, which the first newline of a mask ends.
#[inline(always)]
fn split_by_mask(text: &[u8], newlines: u64) -> CutLine<'_>
    requires mask { AreNewlines text.now newlines }
    requires some { 0 < newlines }
    ensures line { IsFirstLine text.now result.line.now result.after.now }
    ensures newlines { AreNewlines result.after.now result.newlines }
{
    let end = newlines.trailing_zeros() as usize;
    let (line, after) = split_at_newline(text, end);
    CutLine {
        line,
        after,
        newlines: newlines >> end >> 1,
    }
}

/// The first line of a text and the text after its newline, if the newline stands at `place` or later, among the first
/// 128 bytes. One comparison cuts the line of a hit that ends at `place`. `None` says nothing about the text.
#[inline(always)]
pub(crate) fn split_line_after(text: &[u8], place: usize) -> Option<(&[u8], &[u8])>
    ensures line { IfSome result (λ parts. IsFirstLine text.now parts.0.now parts.1.now) }
    ensures after { IfSome result (λ parts. place ≤ length parts.0.now) }
{
    if place >= 2 * LANES || text.len() < 2 * LANES {
        return None;
    }
    let end = first_newline_of_two(text);
    if end < place || end >= 2 * LANES {
        return None;
    }
    Some(split_at_newline(text, end))
}

/// The text up to its last newline, with it, and the text after it.
pub fn split_ended(text: &[u8]) -> (&[u8], &[u8])
    ensures { IsLastCut text.now result.0.now result.1.now }
{
    match memrchr(b'\n', text) {
        Some(at) => text.split_at(at + 1),
        None => text.split_at(0),
    }
}

/// The prefix of a text up to its last newline, and the rest. One comparison does it where the newline is near the end,
/// or where the prefix is short and has none: for a few bytes a search from the end takes longer.
#[inline(always)]
pub(crate) fn split_prefix<'t>(prefix: &'t [u8], text: &[u8]) -> (&'t [u8], &'t [u8])
    requires { prefix.now ≡ take (length prefix.now) text.now }
    ensures { IsLastCut prefix.now result.0.now result.1.now }
{
    if prefix.len() >= LANES {
        return split_near_end(prefix);
    }
    if text.len() >= LANES && prefix.len() <= first_newline(text) {
        return prefix.split_at(0);
    }
    split_ended(prefix)
}

/// A text of at least 64 bytes up to its last newline, and the rest, by one comparison if this newline is near the end.
#[inline(always)]
fn split_near_end(text: &[u8]) -> (&[u8], &[u8])
    requires { 64 ≤ length text.now }
    ensures { IsLastCut text.now result.0.now result.1.now }
{
    let after = bytes_after_newline(text);
    if after < LANES {
        return text.split_at(text.len() - after);
    }
    split_ended(text)
}
