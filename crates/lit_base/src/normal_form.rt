//! How a normal form is made of patterns.
ghost use Rattle.std.specs.Prelude.{◌≡◌, ◌≢◌, ◌≤◌, ◌<◌, [], length, IfOk, Contains};
ghost use Rattle.std.specs.List.{AllZip};
ghost use Rattle.std.specs.List.Sorted.{IsStrictlySortedBy};
ghost use Rattle.lit_base.specs.Folding.{folded_text};
ghost use Rattle.lit_base.specs.Literals.{literal_cmp};
ghost use Rattle.lit_base.specs.NormalForm.{normal_form, IsPlaceOf, NormalFormLaw};
ghost use Rattle.lit_base.specs.RawLists.{IsWithinLimits};
ghost use Rattle.lit_base.specs.declared.limits.TheConstants.{MAX_LITERALS};

use crate::fold::Fold;
use crate::literal::Literal;
use crate::raw_list::RawList;
use std::alloc::{AllocError, Global};
use std::collections::BTreeSet;

/// The literals of the normal form.
pub(crate) fn literals_of(
    alloc: Global,
    raw: &RawList,
    fold: Fold,
) -> Result<Vec<Literal>, AllocError>
    ensures form { IfOk result (λ list. list.items ≡ normal_form fold raw.now) }
    ensures few { IfOk result (λ list. length list.items ≤ MAX_LITERALS) }
    ensures limits { IsWithinLimits raw.now }
{
    in_order(alloc, distinct(alloc, raw, fold)?)
}

/// The nonempty patterns, folded, each once, in their order.
fn distinct(alloc: Global, raw: &RawList, fold: Fold) -> Result<BTreeSet<Literal>, AllocError>
    ensures keys { IfOk result (λ set. set.keys ≡ normal_form fold raw.now) }
    ensures few { IfOk result (λ set. length set.keys ≤ MAX_LITERALS) }
    ensures limits { IsWithinLimits raw.now }
{
    let mut literals = BTreeSet::new(alloc);
    for place in 0..raw.len() {
        let pattern = raw.get(place);
        if !pattern.is_empty() {
            literals.insert(Literal::folded(alloc, pattern, fold)?)?;
        }
    }
    Ok(literals)
}

/// The literals as a list.
fn in_order(alloc: Global, literals: BTreeSet<Literal>) -> Result<Vec<Literal>, AllocError>
    ensures { IfOk result (λ list. list.items ≡ literals.keys) }
{
    let mut list = Vec::with_capacity(alloc, literals.len())?;
    for literal in literals {
        list.push(literal)?;
    }
    Ok(list)
}

/// Where each pattern stands among the literals.
pub(crate) fn places(
    alloc: Global,
    raw: &RawList,
    fold: Fold,
    literals: &[Literal],
) -> Result<Vec<Option<u16>>, AllocError>
    requires few { length literals.now ≤ MAX_LITERALS }
    requires form { literals.now ≡ normal_form fold raw.now }
    ensures { IfOk result (λ places. AllZip (IsPlaceOf fold literals.now) raw.now places.items) }
{
    let mut places = Vec::with_capacity(alloc, raw.len())?;
    for place in 0..raw.len() {
        places.push(place_among(alloc, raw.get(place), fold, literals)?)?;
    }
    Ok(places)
}

/// Where the pattern stands among the literals, which have it unless it is null.
fn place_among(
    alloc: Global,
    pattern: &[u8],
    fold: Fold,
    literals: &[Literal],
) -> Result<Option<u16>, AllocError>
    requires few { length literals.now ≤ MAX_LITERALS }
    requires rising { IsStrictlySortedBy literal_cmp literals.now }
    requires there { pattern.now ≢ [] → Contains literals.now (folded_text fold pattern.now) }
    ensures { IfOk result (IsPlaceOf fold literals.now pattern.now) }
{
    if pattern.is_empty() {
        return Ok(None);
    }
    let literal = Literal::folded(alloc, pattern, fold)?;
    match literals.binary_search(&literal) {
        Ok(place) => Ok(Some(place as u16)),
        Err(_) => unreachable!(),
    }
}

/// The law that each pattern list has one normal form.
pub fn normal_form_law()
    ensures { NormalFormLaw }
{}
