//! Lists of literals in normal form.
ghost use Rattle.std.specs.Prelude.{◌≡◌, ◌<◌, ◌≤◌, ◌-◌, ◌↔◌, [], All, Contains, IfErr, IfOk, IsTrue, length, slice_index_or, slice_index};
ghost use Rattle.std.specs.List.{AllZip};
ghost use Rattle.std.specs.List.Sorted.{IsNonDecreasing};
ghost use Rattle.lit_base.specs.Literals.{lengths, IsNormal};
ghost use Rattle.lit_base.specs.NormalForm.{IsNormalForm, IsPlaceOf, normal_form};
ghost use Rattle.lit_base.specs.Occurrences.{Occurs};
ghost use Rattle.lit_base.specs.declared.fault.Fault.TheVariants.{OutOfMemory};
ghost use Rattle.lit_base.specs.declared.limits.TheConstants.{MAX_LITERALS};

use crate::fault::Fault;
use crate::fold::{Fold, equals_folded};
use crate::literal::Literal;
use crate::normal_form::{literals_of, places};
use crate::raw_list::RawList;
use std::alloc::Global;
use std::marker::Model;

/// Literals in normal form: nonempty, folded, each once, ordered by length and then by bytes.
#[derive(Debug, Drop)]
pub struct LitList {
    fold: Fold,
    literals: Vec<Literal>,
}

impl Model for LitList {
    ghost use Rattle.lit_base.specs.Literals.{Literals, IsNormal};

    ghost Value = { Literals };

    ghost view = { λ l. record { folding = l.fold; texts = l.literals.items } };

    ghost invariant = { λ l. IsNormal (record { folding = l.fold; texts = l.literals.items }) };
}

impl LitList {
    /// The normal form of the raw list under the fold.
    ///
    /// The only error is `OutOfMemory`, since a list has no more literals than patterns. It takes time n log n for n
    /// pattern bytes.
    pub fn normal_form(alloc: Global, raw: &RawList, fold: Fold) -> Result<LitList, Fault>
        ensures list { IfOk result (λ list. list ≡ record { folding = fold; texts = normal_form fold raw.now }) }
        ensures form { IfOk result (λ list. IsNormalForm fold raw.now list.texts) }
        ensures few { IfOk result (λ list. length list.texts ≤ MAX_LITERALS) }
        ensures refused { IfErr result (λ fault. fault ≡ OutOfMemory) }
    {
        let literals = literals_of(alloc, raw, fold)?;
        Ok(LitList { fold, literals })
    }

    /// As `normal_form`, with the place in the list of each raw pattern, for which it folds each pattern once more, and
    /// whether one is null.
    pub fn normal(alloc: Global, raw: &RawList, fold: Fold) -> Result<(LitList, Normal), Fault>
        ensures list { IfOk result (λ found. found.0 ≡ record { folding = fold; texts = normal_form fold raw.now }) }
        ensures form { IfOk result (λ found. IsNormalForm fold raw.now found.0.texts) }
        ensures few { IfOk result (λ found. length found.0.texts ≤ MAX_LITERALS) }
        ensures places { IfOk result (λ found. AllZip (IsPlaceOf fold found.0.texts) raw.now found.1.place_of.items) }
        ensures empty { IfOk result (λ found. IsTrue found.1.has_empty ↔ Contains raw.now []) }
        ensures refused { IfErr result (λ fault. fault ≡ OutOfMemory) }
    {
        let literals = literals_of(alloc, raw, fold)?;
        let place_of = places(alloc, raw, fold, literals.as_slice())?;
        let list = LitList { fold, literals };
        let has_empty = raw.has_null();
        Ok((
            list,
            Normal {
                has_empty,
                place_of,
            },
        ))
    }

    /// The list of literals that stand in normal form already, each kept as it is: neither ordered nor
    /// folded anew.
    ///
    /// The only refusal is `OutOfMemory`.
    pub fn from_normal(alloc: Global, literals: RawList, fold: Fold) -> Result<LitList, Fault>
        requires { IsNormal (record { folding = fold; texts = literals }) }
        ensures ok { IfOk result (λ list. list ≡ record { folding = fold; texts = literals }) }
        ensures err { IfErr result (λ fault. fault ≡ OutOfMemory) }
    {
        let literals = literals.into_literals(alloc)?;
        Ok(LitList { fold, literals })
    }

    /// How many literals there are.
    #[inline]
    pub fn len(&self) -> usize
        ensures value { result ≡ length self.now.texts }
        ensures few { result ≤ MAX_LITERALS }
        ensures rising { IsNonDecreasing (lengths self.now) }
    {
        self.literals.len()
    }

    /// Whether there is no literal.
    pub fn is_empty(&self) -> bool
        ensures { IsTrue result ↔ (self.now.texts ≡ []) }
    {
        self.literals.is_empty()
    }

    /// The fold that the literals are compared under.
    #[inline]
    pub fn fold(&self) -> Fold
        ensures { result ≡ self.now.folding }
    {
        self.fold
    }

    /// The length of the shortest literal, which is the first.
    pub fn shortest(&self) -> usize
        requires { 0 < length self.now.texts }
        ensures first { result ≡ slice_index (lengths self.now) 0 }
        ensures least { All (λ len. result ≤ len) (lengths self.now) }
    {
        self.normal_law();
        self.get(0).len()
    }

    /// The length of the longest literal, which is the last, or 0 if there is none.
    pub fn longest(&self) -> usize
        ensures last { result ≡ slice_index (lengths self.now) (length self.now.texts - 1) }
        ensures greatest { All (λ len. len ≤ result) (lengths self.now) }
    {
        self.normal_law();
        if self.is_empty() {
            return 0;
        }
        self.get(self.len() - 1).len()
    }

    /// The law that the literals are in normal form.
    pub fn normal_law(&self)
        ensures { IsNormal self.now }
    {
        let _literals = &self.literals;
    }

    /// Whether the literal at a place ends at `end` in the text.
    #[inline]
    pub fn ends_at(&self, place: usize, text: &[u8], end: usize) -> bool
        requires within { place < length self.now.texts }
        requires inside { end ≤ length text.now }
        ensures { IsTrue result ↔ Occurs self.now text.now place end }
    {
        let literal = self.get(place);
        literal.len() <= end && equals_folded(self.fold, &text[end - literal.len()..end], literal)
    }

    /// The literal at a place.
    #[inline]
    pub fn get(&self, place: usize) -> &[u8]
        requires { place < length self.now.texts }
        ensures value { result.now ≡ slice_index_or self.now.texts place result.now }
        ensures len { length result.now ≡ slice_index (lengths self.now) place }
        ensures nonempty { 0 < length result.now }
    {
        self.literals[place].as_slice()
    }
}

/// How a raw list and its normal form correspond.
#[derive(Debug, Drop)]
pub struct Normal {
    /// Whether a raw pattern is null.
    pub has_empty: bool,
    /// For each raw pattern its place in the normal form; `None` for a null pattern.
    pub place_of: Vec<Option<u16>>,
}
