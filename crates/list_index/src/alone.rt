//! Which literals end alone.
//!
//! Literals that end together are suffixes of each other. The first of them is the shortest, and so the shortest suffix
//! of each other one. A literal that is no such suffix of any other is alone wherever it is the first to end.
ghost use Rattle.std.specs.Prelude.{IfOk};
ghost use Rattle.lit_base.specs.Literals.{IsNormal};
ghost use Rattle.list_index.specs.Alone.{SayAlone};
ghost use Rattle.list_index.specs.Checks.{AreSuffixesOf};

use crate::suffixes::Suffixes;
use lit_base::LitList;
use std::alloc::{AllocError, Global};

/// For each literal, whether it ends alone.
pub(crate) fn ends_alone(
    alloc: Global,
    list: &LitList,
    suffixes: &Suffixes,
) -> Result<Vec<bool>, AllocError>
    requires of { AreSuffixesOf list.now suffixes.now }
    requires normal { IsNormal list.now }
    ensures { IfOk result (λ flags. SayAlone list.now flags.items) }
{
    let mut flags = Vec::from_elem(alloc, true, list.len())?;
    for place in 0..list.len() {
        let literal = list.get(place);
        if let Some(first) = suffixes.next_ending(list, literal, literal.len(), 0) {
            if first < place {
                flags[first] = false;
            }
        }
    }
    Ok(flags)
}
