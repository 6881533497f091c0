//! The laws of a store whose calls are made in several threads. Each function makes such calls, and
//! its contract is the law.
ghost use Rattle.std.specs.Prelude.{◌≡◌, ◌≢◌, IfErr, IfOk, IfSome, IsOkUnless, IsSomeAnd};
ghost use Rattle.plan_store.specs.Meetings.{IsFound, ShowsPlan};
ghost use Rattle.plan_store.specs.Tickets.{IsOf};
ghost use Rattle.plan_store.specs.declared.fault.Fault.TheVariants.{OutOfMemory};

use crate::fault::Fault;
use crate::store::PlanStore;
use crate::ticket::Ticket;
use lit_plan::Compiled;
use std::sync::Wait;
use std::thread::{Threads, join};

/// The result of one of two threads: the ticket of its own plan, and the ticket that it found under the other's number.
pub type Met = (Ticket, Option<Ticket>);

/// The law that a plan is shown in every thread: one thread publishes it, and another that gets the ticket is shown
/// this plan. The only error is `OutOfMemory`, with the plan.
pub fn published_is_shown<'s, R: Threads + Wait + Sync>(
    rt: &R,
    store: &'s PlanStore,
    plan: Compiled,
) -> Result<(Ticket, &'s Compiled), (Fault, Compiled)>
    ensures ticket { IfOk result (λ met. ShowsPlan store.now plan met.0) }
    ensures shown { IfOk result (λ met. met.1.now ≡ plan) }
    ensures fault { IfErr result (λ refusal. refusal.0 ≡ OutOfMemory) }
    ensures back { IfErr result (λ refusal. refusal.1 ≡ plan) }
{
    let (published, ()) = join(rt, move || store.publish(rt, plan), || ());
    let ticket = published?;
    let (shown, ()) = join(rt, || store.at(&ticket), || ());
    Ok((ticket, shown))
}

/// The law that a published plan is never missed under its number: one thread publishes it, and another
/// looks the number up in the store, with the ticket to show that the plan is there. The only error is
/// `OutOfMemory`, with the plan.
pub fn published_is_there<'s, R: Threads + Wait + Sync>(
    rt: &R,
    store: &'s PlanStore,
    plan: Compiled,
) -> Result<(Ticket, Option<&'s Compiled>), (Fault, Compiled)>
    ensures ticket { IfOk result (λ met. ShowsPlan store.now plan met.0) }
    ensures there { IfOk result (λ met. IsSomeAnd met.1 (λ shown. shown.now ≡ plan)) }
    ensures fault { IfErr result (λ refusal. refusal.0 ≡ OutOfMemory) }
    ensures back { IfErr result (λ refusal. refusal.1 ≡ plan) }
{
    let (published, ()) = join(rt, move || store.publish(rt, plan), || ());
    let ticket = published?;
    let number = store.number(&ticket);
    let (shown, ()) = join(rt, || store.look(number, &ticket), || ());
    Ok((ticket, shown))
}

/// The law that a number leads to its plan: one thread publishes the plan, and another that has only the number looks
/// it up. If the look-up finds a ticket, it is a ticket of this number and of this plan. The only error is
/// `OutOfMemory`, with the plan.
pub fn published_is_found<R: Threads + Wait + Sync>(
    rt: &R,
    store: &PlanStore,
    plan: Compiled,
) -> Result<(Ticket, Option<Ticket>), (Fault, Compiled)>
    ensures ticket { IfOk result (λ met. ShowsPlan store.now plan met.0) }
    ensures found { IfOk result (λ met. IfSome met.1 (λ found. IsFound store.now met.0.number plan found)) }
    ensures fault { IfErr result (λ refusal. refusal.0 ≡ OutOfMemory) }
    ensures back { IfErr result (λ refusal. refusal.1 ≡ plan) }
{
    let (published, ()) = join(rt, move || store.publish(rt, plan), || ());
    let ticket = published?;
    let number = store.number(&ticket);
    let (found, ()) = join(rt, move || store.find(number), || ());
    if let Some(found) = &found {
        store.agree(found, &ticket);
    }
    Ok((ticket, found))
}

/// The law that it does not matter who is first: while one thread publishes a plan, another looks up a number of its
/// choice. If the plan got this number, and the look-up finds a ticket, it is a ticket of this plan. The only error is
/// `OutOfMemory`, with the plan.
pub fn published_beside_a_find<R: Threads + Wait + Sync>(
    rt: &R,
    store: &PlanStore,
    plan: Compiled,
    wanted: u64,
) -> Result<(Ticket, Option<Ticket>), (Fault, Compiled)>
    ensures ticket { IfOk result (λ met. ShowsPlan store.now plan met.0) }
    ensures here { IfOk result (λ met. IfSome met.1 (λ found. IsOf store.now found × (found.number ≡ wanted))) }
    ensures found { IfOk result (λ met. IfSome met.1 (λ found. met.0.number ≡ wanted → found.plan ≡ plan)) }
    ensures fault { IfErr result (λ refusal. refusal.0 ≡ OutOfMemory) }
    ensures back { IfErr result (λ refusal. refusal.1 ≡ plan) }
{
    let (published, found) = join(
        rt,
        move || store.publish(rt, plan),
        move || store.find(wanted),
    );
    let ticket = published?;
    if let Some(found) = &found {
        store.agree(found, &ticket);
    }
    Ok((ticket, found))
}

/// The law that no number is given to two plans: two threads publish at once, each gets the number of its own plan, and
/// where the plans differ, so do the numbers. The only error is `OutOfMemory`.
pub fn numbers_are_apart<R: Threads + Wait + Sync>(
    rt: &R,
    store: &PlanStore,
    one: Compiled,
    other: Compiled,
) -> Result<(Ticket, Ticket), Fault>
    ensures first { IfOk result (λ tickets. ShowsPlan store.now one tickets.0) }
    ensures second { IfOk result (λ tickets. ShowsPlan store.now other tickets.1) }
    ensures apart { IfOk result (λ tickets. one ≢ other → tickets.0.number ≢ tickets.1.number) }
    ensures fault { IsOkUnless result OutOfMemory }
{
    let (first, second) = join(
        rt,
        move || store.publish(rt, one),
        move || store.publish(rt, other),
    );
    let (Ok(first), Ok(second)) = (first, second) else {
        return Err(Fault::OutOfMemory);
    };
    store.agree(&first, &second);
    Ok((first, second))
}

/// The law that two threads find the plans of each other: they publish at once, and then each looks up the number that
/// the other got. A look-up that returns a ticket shows the plan of the other thread. The only error is `OutOfMemory`.
pub fn each_finds_the_other<R: Threads + Wait + Sync>(
    rt: &R,
    store: &PlanStore,
    one: Compiled,
    other: Compiled,
) -> Result<(Met, Met), Fault>
    ensures first { IfOk result (λ met. ShowsPlan store.now one met.0.0) }
    ensures second { IfOk result (λ met. ShowsPlan store.now other met.1.0) }
    ensures by_first { IfOk result (λ met. IfSome met.0.1 (λ found. IsFound store.now met.1.0.number other found)) }
    ensures by_second { IfOk result (λ met. IfSome met.1.1 (λ found. IsFound store.now met.0.0.number one found)) }
    ensures fault { IsOkUnless result OutOfMemory }
{
    let (first, second) = numbers_are_apart(rt, store, one, other)?;
    let first_number = store.number(&first);
    let second_number = store.number(&second);
    let (by_first, by_second) = join(
        rt,
        move || store.find(second_number),
        move || store.find(first_number),
    );
    if let Some(found) = &by_first {
        store.agree(found, &second);
    }
    if let Some(found) = &by_second {
        store.agree(found, &first);
    }
    Ok(((first, by_first), (second, by_second)))
}
