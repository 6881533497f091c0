//! The plans that were published, each under its number.
ghost use Rattle.std.specs.Prelude.{◌≡◌, IfErr, IfOk, IfSome, IsOkUnless, IsSomeAnd};
ghost use Rattle.lit_cert.specs.Certified.{IsCertified};
ghost use Rattle.plan_store.specs.Tickets.{IsOf};
ghost use Rattle.plan_store.specs.declared.fault.Fault.TheVariants.{OutOfMemory};

use crate::fault::Fault;
use crate::ticket::Ticket;
use lit_plan::Compiled;
use std::alloc::Global;
use std::marker::Model;
use std::sync::Wait;

/// Plans that were published, which threads share through a `&`. A plan stays under its number, and
/// is never replaced. Looking at one waits for nobody.
#[derive(Drop)]
pub struct PlanStore {
    plans: boxcar::Vec<Compiled>,
}

/// A contract sees how the store is laid out, and so which tickets are of it.
impl Model for PlanStore {
    ghost use Rattle.boxcar.specs.Table.{Shelves, shelves_coded};

    ghost Value = { Shelves };

    ghost coded = { shelves_coded };

    ghost view = { λ s. s.plans };
}

impl PlanStore {
    /// A store without plans. The only refusal is `OutOfMemory`.
    pub fn new(alloc: Global) -> Result<PlanStore, Fault>
        ensures { IsOkUnless result OutOfMemory }
    {
        let plans = boxcar::Vec::new(alloc)?;
        Ok(PlanStore { plans })
    }

    /// Stores the plan under a number of its own. The only error is `OutOfMemory`, with the plan. It may wait for
    /// another thread that makes room for plans at this moment.
    pub fn publish(&self, rt: &impl Wait, plan: Compiled) -> Result<Ticket, (Fault, Compiled)>
        ensures here { IfOk result (λ ticket. IsOf self.now ticket) }
        ensures plan { IfOk result (λ ticket. ticket.plan ≡ plan) }
        ensures fault { IfErr result (λ refusal. refusal.0 ≡ OutOfMemory) }
        ensures back { IfErr result (λ refusal. refusal.1 ≡ plan) }
    {
        match self.plans.push_shown(rt, plan) {
            Ok(pushed) => Ok(Ticket { pushed }),
            Err(plan) => Err((Fault::OutOfMemory, plan)),
        }
    }

    /// The plan of a ticket of this store. It takes no memory.
    pub fn at(&self, ticket: &Ticket) -> &Compiled
        requires { IsOf self.now ticket.now }
        ensures plan { result.now ≡ ticket.now.plan }
        ensures certified { IsCertified result.now.literals result.now.certificate }
    {
        let plan = self.plans.value(&ticket.pushed);
        let _certified = plan.certificate();
        plan
    }

    /// The number of a ticket of this store. It takes no memory.
    pub fn number(&self, ticket: &Ticket) -> u64
        requires { IsOf self.now ticket.now }
        ensures { result ≡ ticket.now.number }
    {
        ticket.pushed.index() as u64
    }

    /// A ticket of the plan with this number, if there is one now. It takes no memory.
    pub fn find(&self, number: u64) -> Option<Ticket>
        ensures here { IfSome result (λ ticket. IsOf self.now ticket) }
        ensures number { IfSome result (λ ticket. ticket.number ≡ number) }
    {
        let pushed = self.plans.witness(number as usize)?;
        Some(Ticket { pushed })
    }

    /// The plan with this number, if there is one now. Who has a ticket of that number is sure to be
    /// shown its plan. It takes no memory.
    pub(crate) fn look(&self, number: u64, ticket: &Ticket) -> Option<&Compiled>
        requires { IsOf self.now ticket.now }
        ensures { number ≡ ticket.now.number → IsSomeAnd result (λ plan. plan.now ≡ ticket.now.plan) }
    {
        self.plans.get_seen(number as usize, &ticket.pushed)
    }

    /// The law that a number has one plan: two tickets of it show the same. It takes no memory.
    pub fn agree(&self, a: &Ticket, b: &Ticket)
        requires { IsOf self.now a.now × IsOf self.now b.now }
        ensures { a.now.number ≡ b.now.number → a.now.plan ≡ b.now.plan }
    {
        if a.pushed.index() == b.pushed.index() {
            self.plans.agrees(&a.pushed, &b.pushed);
        }
    }
}
