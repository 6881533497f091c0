//! Patterns made ready for search: a plan of their literals, and whether one of them is null.
ghost use Rattle.std.specs.Prelude.{◌≡◌, All, IfErr, IfOk, IfSome};
ghost use Rattle.lit_base.specs.Lines.{IsOnePiece};
ghost use Rattle.line_pick.specs.Matching.{AreInLines, StandsFor, literals_of};

use line_pick::standing_law;
use list_plan::compile;
use lit_base::{Fault, Fold, LitList, Profile, RawList};
use lit_plan::Compiled;
use std::alloc::Global;

/// What stands for patterns in a search: the plan of their literals, where there are some, and whether
/// one of them is null.
#[derive(Debug, Drop)]
pub struct CompiledPatterns {
    pub plan: Option<Compiled>,
    pub has_empty: bool,
    ghost apart: { AreInLines plan },
}

impl CompiledPatterns {
    /// The plan and the null pattern for these patterns; none of them holds a newline. The only error is `OutOfMemory`.
    pub fn new(alloc: Global, patterns: &RawList, fold: Fold) -> Result<CompiledPatterns, Fault>
        requires { All IsOnePiece patterns.now }
        ensures ok { IfOk result (λ compiled. StandsFor fold patterns.now compiled.plan compiled.has_empty) }
        ensures err { IfErr result (λ fault. fault ≡ Fault.OutOfMemory) }
    {
        let list = LitList::normal_form(alloc, patterns, fold)?;
        let plan = planned(alloc, list)?;
        standing_law();
        let has_empty = patterns.has_null();
        Ok(CompiledPatterns { plan, has_empty })
    }
}

/// The plan of the literals, if there are some.
fn planned(alloc: Global, list: LitList) -> Result<Option<Compiled>, Fault>
    ensures literals { IfOk result (λ plan. literals_of plan ≡ list.texts) }
    ensures fold { IfOk result (λ plan. IfSome plan (λ p. p.literals.folding ≡ list.folding)) }
    ensures err { IfErr result (λ fault. fault ≡ Fault.OutOfMemory) }
{
    if list.is_empty() {
        return Ok(None);
    }
    match compile(alloc, list, Profile::Eight) {
        Ok(compiled) => Ok(Some(compiled)),
        // There are literals, so that only memory can be wanting.
        Err(_) => Err(Fault::OutOfMemory),
    }
}
