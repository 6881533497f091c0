//! A plan with the finder that its searches have tuned.
ghost use Rattle.std.specs.Prelude.{◌≡◌, ◌≤◌, IfOk, IsOkUnless, length};
ghost use Rattle.std.specs.Arc.{arc_value};
ghost use Rattle.lit_plan.specs.declared.fault.Fault.TheVariants.{OutOfMemory};
ghost use Rattle.text_search.specs.Searched.{AddsHits};

use crate::scanning::scan_until;
use lit_plan::{Compiled, Fault};
use std::alloc::{AllocError, Global};
use std::marker::Model;
use std::sync::Arc;
use text_ends::Hit;
use text_search::{EndFinder, make_if_long};

/// A share of a plan, with a finder once its owner has searched enough bytes. A contract sees the plan alone.
#[derive(Drop)]
pub struct TunedPlan {
    plan: Arc<Compiled>,
    finder: Option<EndFinder>,
    /// How many bytes its scans have passed.
    bytes: u64,
}

impl Model for TunedPlan {
    ghost use Rattle.std.specs.Prelude.{◌≡◌, IfSome};
    ghost use Rattle.lit_plan.specs.Plans.{Plan};

    ghost Value = { Plan };

    ghost view = { λ t. t.plan.value };

    ghost invariant = { λ t. IfSome t.finder (λ list. list ≡ t.plan.value.literals) };
}

impl TunedPlan {
    /// A plan without a finder yet. It takes no memory.
    pub fn new(plan: Arc<Compiled>) -> TunedPlan
        ensures { result ≡ arc_value plan }
    {
        TunedPlan {
            plan,
            finder: None,
            bytes: 0,
        }
    }

    /// The plan.
    pub fn plan(&self) -> &Compiled
        ensures { result.now ≡ self.now }
    {
        &self.plan
    }

    /// Another share of the plan, without the finder.
    pub fn share(&self) -> Result<Arc<Compiled>, AllocError>
        ensures { IfOk result (λ plan. arc_value plan ≡ self.now) }
    {
        Ok(Arc::try_clone(&self.plan)?)
    }

    /// Adds to `out` the hits of a text that end after `from`, as `scan_until` does. It tunes itself to the texts; the
    /// hits do not depend on this. Without memory for a finder it goes on by the plan alone.
    pub fn scan_until(
        &mut self,
        alloc: Global,
        text: &[u8],
        from: usize,
        most: usize,
        out: &mut Vec<Hit>,
    ) -> Result<usize, Fault>
        requires { from ≤ length text.now }
        ensures same { self.new ≡ self.old }
        ensures hits { AddsHits self.old.literals text.now from from most out.old.items out.new.items result }
        ensures refused { IsOkUnless result OutOfMemory }
    {
        let compiled: &Compiled = &self.plan;
        let ahead = self.bytes.saturating_add((text.len() - from) as u64);
        make_if_long(&mut self.finder, alloc, compiled, ahead);
        let stop = scan_until(&mut self.finder, compiled, text, from, most, out)?;
        self.bytes = self.bytes.saturating_add((stop - from) as u64);
        Ok(stop)
    }
}
