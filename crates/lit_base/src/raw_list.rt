//! Patterns as they are given, within the limits.
ghost use Rattle.std.specs.Prelude.{◌≡◌, ℕ, ◌+◌, ◌<◌, ◌≤◌, ◌++◌, ◌∷◌, [], length, map, sum_by, slice_index_or, Contains, IfOk, OnOk, OnErr, MatchResult, IsTrue, ◌↔◌};
ghost use Rattle.lit_base.specs.Faults.{RefusedBy};
ghost use Rattle.lit_base.specs.Lines.{pieces, lines};
ghost use Rattle.lit_base.specs.RawLists.{pattern_refusal, first_refusal, text_refusal, IsWithinLimits};
ghost use Rattle.lit_base.specs.Patterns.{patterns_of};
ghost use Rattle.lit_base.specs.declared.limits.TheConstants.{MAX_LIST_LEN, MAX_PATTERNS, MAX_LITERAL_LEN};

use crate::fault::Fault;
use crate::limits::{MAX_LIST_LEN, MAX_LITERAL_LEN, MAX_PATTERNS, MAX_TEXT_LEN};
use crate::literal::Literal;
use crate::patterns::Patterns;
use std::alloc::{AllocError, Global};
use std::marker::Model;

/// The patterns of a search as they were given: any bytes, in order, repeated or null as they come.
#[derive(Debug, Drop)]
pub struct RawList {
    patterns: Vec<Vec<u8>>,
    len_in_all: usize,
}

impl Model for RawList {
    ghost use Rattle.std.specs.Prelude.{◌≡◌, ℕ, List, length, map, sum_by};
    ghost use Rattle.lit_base.specs.RawLists.{IsWithinLimits};

    ghost Value = { List (List ℕ) };

    ghost view = { λ r. map (λ p. p.items) r.patterns.items };

    ghost invariant = { λ r. (r.len_in_all ≡ sum_by length (map (λ p. p.items) r.patterns.items)) × IsWithinLimits (map (λ p. p.items) r.patterns.items) };
}

impl RawList {
    /// A list without patterns. It takes no memory.
    pub fn new(alloc: Global) -> RawList
        ensures { result ≡ [] }
    {
        RawList {
            patterns: Vec::new(alloc),
            len_in_all: 0,
        }
    }

    /// How many patterns there are.
    pub fn len(&self) -> usize
        ensures value { result ≡ length self.now }
        ensures limits { IsWithinLimits self.now }
    {
        self.patterns.len()
    }

    /// Whether there is no pattern.
    pub fn is_empty(&self) -> bool
        ensures { IsTrue result ↔ (self.now ≡ []) }
    {
        self.patterns.is_empty()
    }

    /// Whether a pattern is null.
    pub fn has_null(&self) -> bool
        ensures { IsTrue result ↔ Contains self.now [] }
    {
        for place in 0..self.len() {
            if self.get(place).is_empty() {
                return true;
            }
        }
        false
    }

    /// The patterns as literals, as they are.
    pub(crate) fn into_literals(self, alloc: Global) -> Result<Vec<Literal>, AllocError>
        ensures { IfOk result (λ literals. literals.items ≡ self) }
    {
        self.patterns.into_iter().map(Literal::of).collect(alloc)
    }

    /// The pattern at a place.
    pub fn get(&self, place: usize) -> &[u8]
        requires { place < length self.now }
        ensures value { result.now ≡ slice_index_or self.now place result.now }
        ensures short { length result.now ≤ MAX_LITERAL_LEN }
    {
        self.patterns[place].as_slice()
    }

    /// Appends a pattern, which may be null. Refusals, in this order: `TooManyPatterns`, `LiteralTooLong` with the
    /// place that it would have had, `ListTooLarge`, `OutOfMemory`. A refusal leaves the list unchanged.
    pub fn push(&mut self, pattern: &[u8]) -> Result<(), Fault>
        ensures ok { OnOk result (self.new ≡ self.old ++ pattern.now ∷ []) }
        ensures refused { RefusedBy (pattern_refusal (length self.old) (sum_by length self.old) (length pattern.now)) result }
        ensures err { OnErr result (self.new ≡ self.old) }
    {
        let len_in_all = len_with(self.patterns.len(), self.len_in_all, pattern.len())?;
        let copy = Vec::from_slice(*self.patterns.allocator(), pattern)?;
        self.patterns.push(copy)?;
        self.len_in_all = len_in_all;
        Ok(())
    }

    /// Appends the patterns of an option's list: the pieces between its newlines. So two adjacent
    /// newlines hold a null pattern, a last newline ends in one, and the empty text is one. (The
    /// strict reading of POSIX.1-2017 `grep`, OPTIONS, -e.)
    ///
    /// Refusals: `ListTooLarge` at once for a text of more than `MAX_TEXT_LEN` bytes; then the refusal of the first
    /// piece that `push` would refuse; then `OutOfMemory`. A refusal leaves the list unchanged.
    pub fn add_text_list(&mut self, text: &[u8]) -> Result<(), Fault>
        ensures ok { OnOk result (self.new ≡ self.old ++ pieces text.now) }
        ensures refused { RefusedBy (text_refusal self.old text.now (pieces text.now)) result }
        ensures err { OnErr result (self.new ≡ self.old) }
    {
        if text.len() > MAX_TEXT_LEN {
            return Err(Fault::ListTooLarge);
        }
        self.add(Patterns::of_list(text))
    }

    /// Appends the patterns of a pattern file: its lines. So an empty file has none, and a last
    /// piece without newline is one. (POSIX.1-2017 `grep`, OPTIONS, -f.)
    ///
    /// Refusals are the same as for `add_text_list`.
    pub fn add_file_bytes(&mut self, text: &[u8]) -> Result<(), Fault>
        ensures ok { OnOk result (self.new ≡ self.old ++ lines text.now) }
        ensures refused { RefusedBy (text_refusal self.old text.now (lines text.now)) result }
        ensures err { OnErr result (self.new ≡ self.old) }
    {
        if text.len() > MAX_TEXT_LEN {
            return Err(Fault::ListTooLarge);
        }
        self.add(Patterns::of_file(text))
    }

    fn add(&mut self, patterns: Patterns<'_>) -> Result<(), Fault>
        ensures ok { OnOk result (self.new ≡ self.old ++ patterns_of patterns.entry) }
        ensures refused { RefusedBy (first_refusal (length self.old) (sum_by length self.old) (patterns_of patterns.entry)) result }
        ensures err { OnErr result (self.new ≡ self.old) }
    {
        let len_in_all = len_with_all(self.patterns.len(), self.len_in_all, patterns)?;
        append(&mut self.patterns, patterns)?;
        self.len_in_all = len_in_all;
        Ok(())
    }
}

/// The total length with one more pattern, or its refusal.
fn len_with(count: usize, len_in_all: usize, len: usize) -> Result<usize, Fault>
    requires { len_in_all ≤ MAX_LIST_LEN }
    ensures { MatchResult result (λ all. (all ≡ len_in_all + len) × (pattern_refusal count len_in_all len ≡ None))
        (λ fault. pattern_refusal count len_in_all len ≡ Some fault) }
{
    if count >= MAX_PATTERNS {
        return Err(Fault::TooManyPatterns);
    }
    if len > MAX_LITERAL_LEN {
        return Err(Fault::LiteralTooLong { place: count });
    }
    if len_in_all + len > MAX_LIST_LEN {
        return Err(Fault::ListTooLarge);
    }
    Ok(len_in_all + len)
}

/// The total length with these patterns, or the first refusal.
fn len_with_all(
    mut count: usize,
    mut len_in_all: usize,
    patterns: Patterns<'_>,
) -> Result<usize, Fault>
    requires few { count ≤ MAX_PATTERNS }
    requires small { len_in_all ≤ MAX_LIST_LEN }
    ensures { MatchResult result (λ all. (all ≡ len_in_all + sum_by length (patterns_of patterns.entry)) × (first_refusal count len_in_all (patterns_of patterns.entry) ≡ None))
        (λ fault. first_refusal count len_in_all (patterns_of patterns.entry) ≡ Some fault) }
{
    for pattern in patterns {
        len_in_all = len_with(count, len_in_all, pattern.len())?;
        count += 1;
    }
    Ok(len_in_all)
}

/// Appends copies of all the patterns, or none.
fn append(list: &mut Vec<Vec<u8>>, patterns: Patterns<'_>) -> Result<(), AllocError>
    ensures ok { OnOk result (map (λ p. p.items) list.new.items ≡ map (λ p. p.items) list.old.items ++ patterns_of patterns.entry) }
    ensures err { OnErr result (map (λ p. p.items) list.new.items ≡ map (λ p. p.items) list.old.items) }
{
    let before = list.len();
    for pattern in patterns {
        if let Err(refused) = push_copy(list, pattern) {
            list.truncate(before);
            return Err(refused);
        }
    }
    Ok(())
}

/// Appends a copy of the pattern.
fn push_copy(list: &mut Vec<Vec<u8>>, pattern: &[u8]) -> Result<(), AllocError>
    ensures ok { OnOk result (map (λ p. p.items) list.new.items ≡ map (λ p. p.items) list.old.items ++ pattern.now ∷ []) }
    ensures err { OnErr result (list.new.items ≡ list.old.items) }
{
    let copy = Vec::from_slice(*list.allocator(), pattern)?;
    list.push(copy)?;
    Ok(())
}
