//! Facts that no clause states: a request is answered where there is memory; numbers begin at 0; a number of another
//! session is found, in another thread too. Where memory runs out a test says so, once it has seen that there are no
//! replies. Worked sessions and the limits are rows of `tests/cases/session_cases.py`, for `scand`.
ghost use Rattle.std.specs.Prelude.{◌≡◌, IfSome};

use lit_base::{Fold, Profile};
use plan_store::PlanStore;
use scan_core::{Answered, Session, answered_at_once};
use scan_wire::{Reply, Request};
use std::alloc::Global;
use std::process::Abort;
use std::sync::Wait;
use std::thread::Threads;

/// What a client asks.
#[derive(Clone, Copy)]
enum Ask<'a> {
    Publish(Fold, Profile, &'a [&'a [u8]]),
    Open(u32, u64),
    Feed(u32, &'a [u8]),
    Close(u32),
    ShowPlan(u32),
}

/// What a reply says: of hits how many, and the last place; of a plan its fold, profile, count, cost, runs; or that
/// memory ran out.
#[derive(Clone, Copy, Debug, PartialEq, Eq)]
enum ReplyKind {
    Published(u64),
    Opened(u32),
    Hits(u32, usize, u64),
    Fed(u32, u64),
    Closed(u32),
    Plan(u32, Fold, Profile, u16, u64, usize),
    Refused(u32, u8, u16),
    OutOfMemory,
}

/// Up to three replies to one request.
type Replies = [Option<ReplyKind>; 3];

/// What stands for them where memory ran out.
const STARVED: Replies = [Some(ReplyKind::OutOfMemory), None, None];

/// The replies, none where memory ran out.
fn unless_starved(replies: Replies) -> Option<Replies> {
    if replies == STARVED {
        None
    } else {
        Some(replies)
    }
}

/// One reply.
fn one(said: ReplyKind) -> Replies {
    [Some(said), None, None]
}

/// What a reply says.
fn said(reply: &Reply) -> ReplyKind {
    match reply {
        Reply::Published { number } => ReplyKind::Published(*number),
        Reply::Opened { stream } => ReplyKind::Opened(*stream),
        Reply::Hits { stream, hits } => {
            let last = hits.last().map_or(0, |hit| hit.end_at);
            ReplyKind::Hits(*stream, hits.len(), last)
        }
        Reply::Fed { stream, place } => ReplyKind::Fed(*stream, *place),
        Reply::Closed { stream } => ReplyKind::Closed(*stream),
        Reply::Plan {
            stream,
            fold,
            profile,
            count,
            cost,
            ends,
        } => ReplyKind::Plan(*stream, *fold, *profile, *count, *cost, ends.len()),
        Reply::Refused {
            stream,
            code,
            detail,
        } => ReplyKind::Refused(*stream, *code, *detail),
    }
}

/// What replies say, none of more than three.
fn all_said(replies: &[Reply]) -> Replies {
    match replies {
        [first] => [Some(said(first)), None, None],
        [first, second] => [Some(said(first)), Some(said(second)), None],
        [first, second, third] => [Some(said(first)), Some(said(second)), Some(said(third))],
        _ => [None; 3],
    }
}

/// A copy of literals.
fn copied(alloc: Global, literals: &[&[u8]]) -> Option<Vec<Vec<u8>>> {
    let mut all = Vec::new(alloc);
    for literal in literals {
        all.push(Vec::from_slice(alloc, literal).ok()?).ok()?;
    }
    Some(all)
}

/// The request of an ask.
fn request_of(alloc: Global, ask: Ask<'_>) -> Option<Request> {
    Some(match ask {
        Ask::Publish(fold, profile, literals) => Request::Publish {
            fold,
            profile,
            literals: copied(alloc, literals)?,
        },
        Ask::Open(stream, number) => Request::Open { stream, number },
        Ask::Feed(stream, bytes) => Request::Feed {
            stream,
            bytes: Vec::from_slice(alloc, bytes).ok()?,
        },
        Ask::Close(stream) => Request::Close { stream },
        Ask::ShowPlan(stream) => Request::ShowPlan { stream },
    })
}

/// What a session answers to a request; where memory ran out, nothing may be added.
fn answered<R: Wait>(
    rt: &R,
    alloc: Global,
    session: &mut Session<'_>,
    request: Request,
) -> Replies {
    let mut out = Vec::new(alloc);
    match session.handle(rt, alloc, request, &mut out) {
        Ok(()) => all_said(&out),
        Err(_) if out.is_empty() => STARVED,
        Err(_) => [None; 3],
    }
}

/// The answer of a session to an ask.
fn asked<R: Wait>(rt: &R, alloc: Global, session: &mut Session<'_>, ask: Ask<'_>) -> Replies {
    match request_of(alloc, ask) {
        Some(request) => answered(rt, alloc, session, request),
        None => STARVED,
    }
}

/// The answer of a session to the last ask, or to the first for which memory ran out.
fn last_answer<R: Wait>(
    rt: &R,
    alloc: Global,
    session: &mut Session<'_>,
    asks: &[Ask<'_>],
) -> Replies {
    let mut last = [None; 3];
    for ask in asks {
        last = asked(rt, alloc, session, *ask);
        if last == STARVED {
            return last;
        }
    }
    last
}

/// The answer of a session of a new store to the last ask.
fn last_of<R: Wait>(rt: &R, alloc: Global, asks: &[Ask<'_>]) -> Replies {
    match PlanStore::new(alloc) {
        Ok(store) => last_answer(rt, alloc, &mut Session::new(&store), asks),
        Err(_) => STARVED,
    }
}

const CAT: Ask = Ask::Publish(Fold::No, Profile::Eight, &[b"cat"]);

const CONCAT: Ask = Ask::Feed(7, b"concat");

const OPEN: Ask = Ask::Open(7, 0);

/// The replies to `concat`, or to what completes it.
const OF_CONCAT: Replies = [
    Some(ReplyKind::Hits(7, 1, 6)),
    Some(ReplyKind::Fed(7, 6)),
    None,
];

/// Asserts the answer of a session of a new store to the last ask.
fn assert_last<R: Abort + AllocGlobal + Wait>(rt: &R, asks: &[Ask<'_>], wanted: Replies) {
    assert_eq!(*rt; last_of(rt, rt.alloc(), asks), wanted);
}

#[test]
fn answers_each_kind_of_request(rt: HostRuntime) {
    let plan = ReplyKind::Plan(7, Fold::No, Profile::Eight, 1, 351, 1);
    assert_last(&rt, &[CAT], one(ReplyKind::Published(0)));
    assert_last(&rt, &[CAT, OPEN], one(ReplyKind::Opened(7)));
    assert_last(&rt, &[CAT, OPEN, CONCAT], OF_CONCAT);
    assert_last(&rt, &[CAT, OPEN, Ask::ShowPlan(7)], one(plan));
    assert_last(&rt, &[CAT, OPEN, Ask::Close(7)], one(ReplyKind::Closed(7)));
    assert_last(&rt, &[CONCAT], one(ReplyKind::Refused(7, 13, 0)));
}

/// Nine literals that sixteen buckets hold in a run each, and eight do not.
const LETTERS: [&[u8]; 9] = [b"a", b"b", b"c", b"d", b"e", b"f", b"g", b"h", b"i"];

#[test]
fn plans_by_the_profile_asked_for(rt: HostRuntime) {
    let by_eight = Ask::Publish(Fold::No, Profile::Eight, &LETTERS);
    let eight = ReplyKind::Plan(7, Fold::No, Profile::Eight, 9, 46656, 8);
    assert_last(&rt, &[by_eight, OPEN, Ask::ShowPlan(7)], one(eight));
    let by_sixteen = Ask::Publish(Fold::No, Profile::Sixteen, &LETTERS);
    let sixteen = ReplyKind::Plan(7, Fold::No, Profile::Sixteen, 9, 38664, 9);
    assert_last(&rt, &[by_sixteen, OPEN, Ask::ShowPlan(7)], one(sixteen));
}

/// The answer of a new session to the last ask, none where memory ran out.
fn answer_by<R: Wait>(
    rt: &R,
    alloc: Global,
    store: &PlanStore,
    asks: &[Ask<'_>],
) -> Option<Replies> {
    unless_starved(last_answer(rt, alloc, &mut Session::new(store), asks))
}

/// The same with another session that published `dog` and then `cat`.
fn answer_of_another<R: Wait>(rt: &R, alloc: Global, asks: &[Ask<'_>]) -> Option<Replies> {
    let store = PlanStore::new(alloc).ok()?;
    let dog = Ask::Publish(Fold::No, Profile::Eight, &[b"dog"]);
    let _ = answer_by(rt, alloc, &store, &[dog, CAT])?;
    answer_by(rt, alloc, &store, asks)
}

/// Asserts that this is the answer.
fn assert_another<R: Abort + AllocGlobal + Wait>(rt: &R, asks: &[Ask<'_>], wanted: Replies) {
    assert_eq!(*rt; answer_of_another(rt, rt.alloc(), asks), Some(wanted));
}

#[test]
fn opens_what_another_session_published(rt: HostRuntime) {
    assert_another(&rt, &[Ask::Open(7, 1)], one(ReplyKind::Opened(7)));
    assert_another(&rt, &[Ask::Open(7, 1), CONCAT], OF_CONCAT);
    assert_another(&rt, &[OPEN, CONCAT], one(ReplyKind::Fed(7, 6)));
    assert_another(&rt, &[Ask::Open(7, 2)], one(ReplyKind::Refused(7, 14, 0)));
}

/// The number in a Published reply.
fn number_in(replies: &[Reply]) -> Option<u64> {
    match replies {
        [Reply::Published { number }] => Some(*number),
        _ => None,
    }
}

/// Two sessions of a store, each after its asks in a thread of its own.
fn both_asked<'s, R: Threads + Wait + Sync>(
    rt: &R,
    alloc: Global,
    one: Session<'s>,
    ask_of_one: Ask<'_>,
    other: Session<'s>,
    ask_of_other: Ask<'_>,
) -> Option<(Answered<'s>, Answered<'s>)>
    requires { one.store ≡ other.store }
    ensures { IfSome result (λ met. met.0.session.store ≡ met.1.session.store) }
{
    let of_one = request_of(alloc, ask_of_one)?;
    let of_other = request_of(alloc, ask_of_other)?;
    match answered_at_once(rt, alloc, one, of_one, other, of_other) {
        Ok(met) => Some(met),
        Err(_) => None,
    }
}

/// Two sessions of a store, each after an Open of the number that the other got.
fn both_opened<'s, R: Threads + Wait + Sync>(
    rt: &R,
    alloc: Global,
    one: Answered<'s>,
    other: Answered<'s>,
) -> Option<(Answered<'s>, Answered<'s>)>
    requires { one.session.store ≡ other.session.store }
    ensures { IfSome result (λ met. met.0.session.store ≡ met.1.session.store) }
{
    let of_one = Ask::Open(7, number_in(&other.replies)?);
    let of_other = Ask::Open(7, number_in(&one.replies)?);
    both_asked(rt, alloc, one.session, of_one, other.session, of_other)
}

/// What two sessions of a store in two threads answer to `concat`, each by the plan that the other published.
fn answers_by<R: Threads + Wait + Sync>(
    rt: &R,
    alloc: Global,
    store: &PlanStore,
) -> Option<(Replies, Replies)> {
    let con = Ask::Publish(Fold::No, Profile::Eight, &[b"con"]);
    let (one, other) = (Session::new(store), Session::new(store));
    let (one, other) = both_asked(rt, alloc, one, CAT, other, con)?;
    let (one, other) = both_opened(rt, alloc, one, other)?;
    let (one, other) = both_asked(rt, alloc, one.session, CONCAT, other.session, CONCAT)?;
    Some((all_said(&one.replies), all_said(&other.replies)))
}

/// The same of a new store.
fn answers_of_two<R: Threads + Wait + Sync>(rt: &R, alloc: Global) -> Option<(Replies, Replies)> {
    let store = PlanStore::new(alloc).ok()?;
    answers_by(rt, alloc, &store)
}

#[test]
fn opens_in_each_of_two_threads_what_the_other_published(rt: HostRuntime) {
    let of_con = [
        Some(ReplyKind::Hits(7, 1, 3)),
        Some(ReplyKind::Fed(7, 6)),
        None,
    ];
    assert_eq!(rt; answers_of_two(&rt, rt.alloc()), Some((of_con, OF_CONCAT)));
}
