//! What no clause says: that there is a plan where there is memory, that each has a number of its own,
//! that it is found by any thread, and that no other number is.
ghost use Rattle.plan_store.specs.Tickets.{IsOf};

use list_plan::compile;
use lit_base::{Fold, LitList, Profile, RawList};
use lit_plan::Compiled;
use plan_store::{
    PlanStore, Ticket, each_finds_the_other, numbers_are_apart, published_beside_a_find,
    published_is_found, published_is_shown, published_is_there,
};
use std::alloc::Global;
use std::sync::Wait;
use std::thread::{Threads, map_indices};

/// How many threads publish, and how many plans each.
const THREADS: usize = 8;

const PLANS: u8 = 64;

/// The one literal of a plan.
type Pair = (u8, u8);

const CA: Pair = (b'c', b'a');

const DO: Pair = (b'd', b'o');

#[test]
fn finds_what_was_published(rt: HostRuntime) {
    let under = [Some(CA), Some(DO), None, None];
    let wanted = (None, [0, 1], under);
    assert_eq!(rt; found_in_new(&rt, rt.alloc()), Some(wanted));
}

#[test]
fn finds_what_eight_threads_published(rt: HostRuntime) {
    let all = THREADS * usize::from(PLANS);
    assert_eq!(rt; counts_of_threads(&rt, rt.alloc()), Some((all, all)));
}

#[test]
fn shows_in_one_thread_what_another_published(rt: HostRuntime) {
    let wanted = [(0, CA), (1, DO), (2, CA), (3, DO)];
    assert_eq!(rt; all_shown(&rt, rt.alloc()), Some((wanted, None)));
}

#[test]
fn gives_two_threads_two_numbers(rt: HostRuntime) {
    assert_eq!(rt; numbers_in_new(&rt, rt.alloc()), Some((0, 1)));
}

#[test]
fn finds_in_each_of_two_threads_what_the_other_published(rt: HostRuntime) {
    assert_eq!(rt; found_by_each_in_new(&rt, rt.alloc()), Some((DO, CA)));
}

/// The plan of one literal of two bytes.
fn plan_of(alloc: Global, literal: Pair) -> Option<Compiled> {
    let mut raw = RawList::new(alloc);
    raw.push(&[literal.0, literal.1]).ok()?;
    let (list, _) = LitList::normal(alloc, &raw, Fold::No).ok()?;
    compile(alloc, list, Profile::Eight).ok()
}

/// The number under which the plan of a literal was stored, if the ticket shows that plan.
fn publish<R: Wait>(rt: &R, alloc: Global, store: &PlanStore, literal: Pair) -> Option<u64> {
    let ticket = store.publish(rt, plan_of(alloc, literal)?).ok()?;
    if literal_shown(store, &ticket.again()) != Some(literal) {
        return None;
    }
    Some(store.number(&ticket))
}

/// The literal of the plan with a number, if there is one.
fn found(store: &PlanStore, number: u64) -> Option<Pair> {
    let ticket = store.find(number)?;
    literal_shown(store, &ticket)
}

/// What a store has under the first two numbers, and under two others.
fn four_found(store: &PlanStore) -> [Option<Pair>; 4] {
    [
        found(store, 0),
        found(store, 1),
        found(store, 2),
        found(store, u64::MAX),
    ]
}

/// The plan of a new store under 5, the numbers that it then gives two plans, and the plans under them.
fn found_in_new<R: Wait>(
    rt: &R,
    alloc: Global,
) -> Option<(Option<Pair>, [u64; 2], [Option<Pair>; 4])> {
    let store = PlanStore::new(alloc).ok()?;
    let before = found(&store, 5);
    let got = publish_two(rt, alloc, &store)?;
    Some((before, got, four_found(&store)))
}

/// The numbers under which two plans were stored.
fn publish_two<R: Wait>(rt: &R, alloc: Global, store: &PlanStore) -> Option<[u64; 2]> {
    let first = publish(rt, alloc, store, CA)?;
    Some([first, publish(rt, alloc, store, DO)?])
}

/// The literal of the plan that a ticket shows.
fn literal_shown(store: &PlanStore, ticket: &Ticket) -> Option<Pair>
    requires { IsOf store.now ticket.now }
{
    literal_of(store.at(ticket))
}

/// The literal of a plan that has one, of two bytes.
fn literal_of(plan: &Compiled) -> Option<Pair> {
    let list = plan.list();
    if list.len() != 1 {
        return None;
    }
    match list.get(0) {
        [first, second] => Some((*first, *second)),
        _ => None,
    }
}

/// The numbers of the plans that a thread stores, each of its own number and the plan's.
fn publish_all<R: Wait>(rt: &R, alloc: Global, store: &PlanStore, thread: usize) -> Vec<u64> {
    let mut numbers = Vec::new(alloc);
    let thread = u8::try_from(thread).unwrap_or(u8::MAX);
    for plan in 0..PLANS {
        let Some(number) = publish(rt, alloc, store, (thread, plan)) else {
            return numbers;
        };
        let Ok(()) = numbers.push(number) else {
            return numbers;
        };
    }
    numbers
}

/// The numbers that each thread got, all of them storing at the same time.
fn publish_in_threads<R: Threads + Wait + Sync>(
    rt: &R,
    alloc: Global,
    store: &PlanStore,
) -> Option<Vec<Vec<u64>>> {
    let publish_own = |thread: usize| publish_all(rt, alloc, store, thread);
    map_indices(rt, alloc, THREADS, &publish_own).ok()
}

/// How many of the numbers that a new store gave have the right plans, and how many differ.
fn counts_of_threads<R: Threads + Wait + Sync>(rt: &R, alloc: Global) -> Option<(usize, usize)> {
    let store = PlanStore::new(alloc).ok()?;
    let got = publish_in_threads(rt, alloc, &store)?;
    Some((found_count(&store, &got), distinct_count(alloc, &got)?))
}

/// How many of a thread's numbers have its plans.
fn found_of(store: &PlanStore, thread: usize, numbers: &[u64]) -> usize {
    let thread = u8::try_from(thread).unwrap_or(u8::MAX);
    (0..PLANS)
        .zip(numbers.iter())
        .filter(|(plan, number)| found(store, **number) == Some((thread, *plan)))
        .count()
}

/// How many of the given numbers have the right plans.
fn found_count(store: &PlanStore, got: &[Vec<u64>]) -> usize {
    let mut count = 0usize;
    for (thread, numbers) in got.iter().enumerate() {
        count = count.saturating_add(found_of(store, thread, numbers));
    }
    count
}

/// How many different numbers were given.
fn distinct_count(alloc: Global, got: &[Vec<u64>]) -> Option<usize> {
    let mut all: Vec<u64> = Vec::new(alloc);
    for numbers in got {
        all.extend_from_slice(numbers).ok()?;
    }
    all.sort().ok()?;
    all.dedup();
    Some(all.len())
}

/// The number that one thread gets for a plan, and the plan that its ticket shows another.
fn shown<R: Threads + Wait + Sync>(
    rt: &R,
    alloc: Global,
    store: &PlanStore,
    literal: Pair,
) -> Option<(u64, Pair)> {
    let (ticket, plan) = published_is_shown(rt, store, plan_of(alloc, literal)?).ok()?;
    Some((store.number(&ticket), literal_of(plan)?))
}

/// The number that one thread gets for a plan, and the plan there for another that has the ticket.
fn there<R: Threads + Wait + Sync>(
    rt: &R,
    alloc: Global,
    store: &PlanStore,
    literal: Pair,
) -> Option<(u64, Pair)> {
    let (ticket, plan) = published_is_there(rt, store, plan_of(alloc, literal)?).ok()?;
    Some((store.number(&ticket), literal_of(plan?)?))
}

/// The number that one thread gets for a plan, and the plan that another finds under it.
fn handed_on<R: Threads + Wait + Sync>(
    rt: &R,
    alloc: Global,
    store: &PlanStore,
    literal: Pair,
) -> Option<(u64, Pair)> {
    let (ticket, found) = published_is_found(rt, store, plan_of(alloc, literal)?).ok()?;
    Some((store.number(&ticket), literal_shown(store, &found?)?))
}

/// The number that one thread gets for a plan, and the plan that another finds meanwhile under the number it wants.
fn found_meanwhile<R: Threads + Wait + Sync>(
    rt: &R,
    alloc: Global,
    store: &PlanStore,
    literal: Pair,
    wanted: u64,
) -> Option<(u64, Pair)> {
    let plan = plan_of(alloc, literal)?;
    let (ticket, found) = published_beside_a_find(rt, store, plan, wanted).ok()?;
    Some((store.number(&ticket), literal_shown(store, &found?)?))
}

/// The plans that a store shows of four, in each of the ways.
fn four_shown<R: Threads + Wait + Sync>(
    rt: &R,
    alloc: Global,
    store: &PlanStore,
) -> Option<[(u64, Pair); 4]> {
    let first = shown(rt, alloc, store, CA)?;
    let second = there(rt, alloc, store, DO)?;
    let third = handed_on(rt, alloc, store, CA)?;
    Some([
        first,
        second,
        third,
        found_meanwhile(rt, alloc, store, CA, 1)?,
    ])
}

/// The same of a new store, and the plan then found under a number that it has not given.
fn all_shown<R: Threads + Wait + Sync>(
    rt: &R,
    alloc: Global,
) -> Option<([(u64, Pair); 4], Option<(u64, Pair)>)> {
    let store = PlanStore::new(alloc).ok()?;
    let shown = four_shown(rt, alloc, &store)?;
    Some((shown, found_meanwhile(rt, alloc, &store, CA, 9)))
}

/// The numbers that two threads get for equal plans.
fn numbers_of_two<R: Threads + Wait + Sync>(
    rt: &R,
    alloc: Global,
    store: &PlanStore,
    literal: Pair,
) -> Option<(u64, u64)> {
    let plan = plan_of(alloc, literal)?;
    let same = plan_of(alloc, literal)?;
    let (first, second) = numbers_are_apart(rt, store, plan, same).ok()?;
    Some((store.number(&first), store.number(&second)))
}

/// The numbers of a new store, the lower first.
fn numbers_in_new<R: Threads + Wait + Sync>(rt: &R, alloc: Global) -> Option<(u64, u64)> {
    let store = PlanStore::new(alloc).ok()?;
    let (one, other) = numbers_of_two(rt, alloc, &store, CA)?;
    Some((one.min(other), one.max(other)))
}

/// The plan that each of two threads finds under the number that the other got.
fn found_by_each<R: Threads + Wait + Sync>(
    rt: &R,
    alloc: Global,
    store: &PlanStore,
    one: Pair,
    other: Pair,
) -> Option<(Pair, Pair)> {
    let one = plan_of(alloc, one)?;
    let other = plan_of(alloc, other)?;
    let (first, second) = each_finds_the_other(rt, store, one, other).ok()?;
    let (_, by_first) = first;
    let (_, by_second) = second;
    Some((
        literal_shown(store, &by_first?)?,
        literal_shown(store, &by_second?)?,
    ))
}

/// That in a new store.
fn found_by_each_in_new<R: Threads + Wait + Sync>(rt: &R, alloc: Global) -> Option<(Pair, Pair)> {
    let store = PlanStore::new(alloc).ok()?;
    found_by_each(rt, alloc, &store, CA, DO)
}
