//! What no clause says: that there are hits where there is memory, that workers run at the same time,
//! and that each finds the hits of its part between its calls of the gate.
mod meeting;
mod staying;

use self::meeting::{Meeting, Seen, bit_of};
use self::staying::Watch;
use flow_scan::{Compiled, Hit};
use list_plan::compile;
use lit_base::{Fold, LitList, Profile, RawList};
use par_scan::{Gate, MAX_WORKERS, NoGate, scan_parts};
use std::alloc::{AllocError, Global};
use std::test::Fail;
use std::thread::Threads;
use std::time::Clock;

/// The plan of the literals.
fn plan_of(alloc: Global, literals: &[&[u8]]) -> Result<Compiled, Fail> {
    let mut raw = RawList::new(alloc);
    for literal in literals {
        raw.push(literal)?;
    }
    let (list, _) = LitList::normal(alloc, &raw, Fold::No)?;
    Ok(compile(alloc, list, Profile::Eight)?)
}

/// Whether these are the hits, each a literal and an end.
fn are(hits: &[Hit], wanted: &[(u16, u64)]) -> bool {
    hits.len() == wanted.len()
        && hits.iter().zip(wanted.iter()).all(|(hit, (lit, end_at))| hit.lit == *lit
            && hit.end_at == *end_at)
}

/// Whether `workers` workers find these hits in a text.
fn find<R: Threads + Sync + AllocGlobal>(
    rt: &R,
    compiled: &Compiled,
    text: &[u8],
    workers: usize,
    wanted: &[(u16, u64)],
) -> Result<bool, Fail> {
    let hits = scan_parts(
        rt,
        rt.alloc(),
        &NoGate,
        compiled,
        text,
        workers.clamp(1, MAX_WORKERS),
    )?;
    Ok(are(&hits, wanted))
}

/// The first of 1 to 16 workers who do not find these hits in a text, if any do not.
fn first_wrong<R: Threads + Sync + AllocGlobal>(
    rt: &R,
    literals: &[&[u8]],
    text: &[u8],
    wanted: &[(u16, u64)],
) -> Result<Option<usize>, Fail> {
    let compiled = plan_of(rt.alloc(), literals)?;
    for workers in 1..=MAX_WORKERS {
        if !find(rt, &compiled, text, workers, wanted)? {
            return Ok(Some(workers));
        }
    }
    Ok(None)
}

const PRONOUNS: [&[u8]; 4] = [b"he", b"his", b"she", b"hers"];

#[test]
fn finds_the_worked_hits(rt: HostRuntime) -> Result<(), Fail> {
    let pronouns = [(0, 4), (2, 4), (3, 6)];
    assert_eq!(rt; first_wrong(&rt, &PRONOUNS, b"ushers", &pronouns)?, None);
    assert_eq!(rt;
        first_wrong(&rt, &[b"aa"], b"aaa", &[(0, 2), (0, 3)])?,
        None
    );
    assert_eq!(rt; first_wrong(&rt, &[b"aa"], b"", &[])?, None);
    Ok(())
}

/// A text of 100 bytes in which `xyz` ends at one place.
fn text_with_end(alloc: Global, end: usize) -> Result<Vec<u8>, AllocError> {
    let mut text = vec![in alloc; b'.'; 100]?;
    for (place, byte) in text.iter_mut().enumerate() {
        *byte = match end.saturating_sub(place) {
            3 => b'x',
            2 => b'y',
            1 => b'z',
            _ => b'.',
        };
    }
    Ok(text)
}

/// The first number of workers who do not find the end in the text, or find another.
fn first_wrong_at<R: Threads + Sync + AllocGlobal>(
    rt: &R,
    end: usize,
) -> Result<Option<usize>, Fail> {
    let text = text_with_end(rt.alloc(), end)?;
    first_wrong(rt, &[b"xyz"], &text, &[(0, end as u64)])
}

#[test]
fn finds_an_end_wherever_parts_meet(rt: HostRuntime) -> Result<(), Fail> {
    for end in 3..=100 {
        assert_eq!(rt; first_wrong_at(&rt, end)?, None, "at {end}");
    }
    Ok(())
}

/// The counts of a gate that held some workers until others had entered, and whether the hits are the pronouns' hits.
fn seen_at<R: Threads + Clock + Sync + AllocGlobal>(
    rt: &R,
    workers: usize,
    held: u64,
    until: u64,
) -> Result<(Seen, bool), Fail> {
    let gate = Meeting::new(rt, held, until);
    let compiled = plan_of(rt.alloc(), &PRONOUNS)?;
    let hits = scan_parts(
        rt,
        rt.alloc(),
        &gate,
        &compiled,
        b"ushers",
        workers.clamp(1, MAX_WORKERS),
    )?;
    Ok((gate.seen(), are(&hits, &[(0, 4), (2, 4), (3, 6)])))
}

/// The counts where all workers came in time, and left.
fn all_came(workers: u64) -> (Seen, bool) {
    let seen = Seen {
        entered: workers,
        left: workers,
        late: 0,
    };
    (seen, true)
}

#[test]
fn runs_two_workers_at_once(rt: HostRuntime) -> Result<(), Fail> {
    let both = bit_of(1) | bit_of(2);
    assert_eq!(rt; seen_at(&rt, 2, bit_of(1), bit_of(2))?, all_came(both));
    assert_eq!(rt; seen_at(&rt, 2, bit_of(2), bit_of(1))?, all_came(both));
    assert_eq!(rt; seen_at(&rt, 2, both, both)?, all_came(both));
    Ok(())
}

#[test]
fn runs_sixteen_workers_at_once(rt: HostRuntime) -> Result<(), Fail> {
    let all = 0x1_fffe;
    assert_eq!(rt; seen_at(&rt, 16, all, all)?, all_came(all));
    Ok(())
}

/// The hits in the part of each worker. They fill 1.6 megabytes.
const HITS_OF_EACH: usize = 100_000;

/// Any worker needs more nanoseconds for that: no memory takes 80 bytes in one.
const LEAST_STAY: u64 = 20_000;

/// Whether `workers` workers find all hits of a text, and this one stays inside the gate while it finds the hits of its
/// part.
fn finds_inside<R: Threads + Clock + Sync + AllocGlobal>(
    rt: &R,
    workers: usize,
    worker: usize,
) -> Result<bool, Fail> {
    let alloc = rt.alloc();
    let workers = workers.clamp(1, MAX_WORKERS);
    let text = vec![in alloc; b'a'; workers * HITS_OF_EACH]?;
    let compiled = plan_of(alloc, &[b"a"])?;
    let gate = Watch::new(rt, worker);
    let hits = scan_parts(rt, alloc, &gate, &compiled, &text, workers)?;
    Ok(hits.len() == text.len() && gate.stay() > LEAST_STAY)
}

#[test]
fn scans_each_part_between_the_calls_of_the_gate(rt: HostRuntime) -> Result<(), Fail> {
    for workers in 1..4 {
        for worker in 1..=workers {
            assert!(rt;
                finds_inside(&rt, workers, worker)?,
                "{worker} of {workers}"
            );
        }
    }
    Ok(())
}

/// A step of a small generator (numbers of Knuth's MMIX).
fn next_random(state: &mut u64) -> u64 {
    *state = state
        .wrapping_mul(6_364_136_223_846_793_005)
        .wrapping_add(1_442_695_040_888_963_407);
    *state >> 33
}

/// Fewer than `limit` random letters.
fn random_text(alloc: Global, state: &mut u64, limit: u64) -> Result<Vec<u8>, AllocError> {
    let mut text = Vec::new(alloc);
    for _ in 0..next_random(state) % limit.max(1) {
        text.push(if next_random(state) % 3 == 0 {
            b'b'
        } else {
            b'a'
        })?;
    }
    Ok(text)
}

/// The plan of a few random literals.
fn random_plan(alloc: Global, state: &mut u64) -> Result<Compiled, Fail> {
    let mut raw = RawList::new(alloc);
    raw.push(b"ab")?;
    for _ in 0..next_random(state) % 6 {
        raw.push(&random_text(alloc, state, 8)?)?;
    }
    let (list, _) = LitList::normal(alloc, &raw, Fold::No)?;
    Ok(compile(alloc, list, Profile::Eight)?)
}

/// The hits by a loop over all slices.
fn plain_hits(alloc: Global, list: &LitList, text: &[u8]) -> Result<Vec<Hit>, AllocError> {
    let mut hits = Vec::new(alloc);
    for end in 1..=text.len() {
        let (prefix, _) = text.split_at(end);
        for place in 0..list.len() {
            if prefix.ends_with(list.get(place)) {
                hits.push(Hit {
                    lit: place as u16,
                    end_at: end as u64,
                })?;
            }
        }
    }
    Ok(hits)
}

/// Whether some workers find what the plain loop does in a random text.
fn agrees<R: Threads + Sync + AllocGlobal>(rt: &R, state: &mut u64) -> Result<bool, Fail> {
    let alloc = rt.alloc();
    let compiled = random_plan(alloc, state)?;
    let text = random_text(alloc, state, 90)?;
    let workers = 1 + (next_random(state) as usize) % MAX_WORKERS;
    let hits = scan_parts(rt, alloc, &NoGate, &compiled, &text, workers)?;
    let wanted = plain_hits(alloc, compiled.list(), &text)?;
    Ok(hits.as_slice() == wanted.as_slice())
}

/// The first of many random texts in which they do not, if there is one.
fn first_disagreement<R: Threads + Sync + AllocGlobal>(
    rt: &R,
    seed: u64,
) -> Result<Option<u32>, Fail> {
    let mut state = seed;
    for turn in 0..2_500 {
        if !agrees(rt, &mut state)? {
            return Ok(Some(turn));
        }
    }
    Ok(None)
}

#[test]
fn agrees_with_a_plain_loop_from_seed_1(rt: HostRuntime) -> Result<(), Fail> {
    assert_eq!(rt; first_disagreement(&rt, 1)?, None);
    Ok(())
}

#[test]
fn agrees_with_a_plain_loop_from_seed_2(rt: HostRuntime) -> Result<(), Fail> {
    assert_eq!(rt; first_disagreement(&rt, 2)?, None);
    Ok(())
}

#[test]
fn agrees_with_a_plain_loop_from_seed_3(rt: HostRuntime) -> Result<(), Fail> {
    assert_eq!(rt; first_disagreement(&rt, 3)?, None);
    Ok(())
}

#[test]
fn agrees_with_a_plain_loop_from_seed_4(rt: HostRuntime) -> Result<(), Fail> {
    assert_eq!(rt; first_disagreement(&rt, 4)?, None);
    Ok(())
}

/// What long texts are made of.
const WORDS: [&[u8]; 8] = [
    b"con", b"nect", b"ion ", b"sess", b"the ", b"plan", b"ner ", b"of ",
];

/// Literals that occur in such texts, and others that nearly do.
const PHRASES: [&[u8]; 6] = [
    b"connection ",
    b"session ",
    b"the plan",
    b"planner of",
    b"sesscon",
    b"necessary",
];

/// At least `len` bytes of words drawn by chance.
fn long_text(alloc: Global, len: usize) -> Result<Vec<u8>, AllocError> {
    let mut text = Vec::new(alloc);
    let mut state = 9;
    for _ in 0..len {
        let word = WORDS.get((next_random(&mut state) % 8) as usize);
        if let Some(word) = word
            && text.len() < len
        {
            text.extend_from_slice(word)?;
        }
    }
    Ok(text)
}

/// Whether `workers` workers find all of many hits in a long text, whose parts are long enough for tuning.
fn find_all_of_many<R: Threads + Sync + AllocGlobal>(rt: &R, workers: usize) -> Result<bool, Fail> {
    let alloc = rt.alloc();
    let text = long_text(alloc, 540_000)?;
    let compiled = plan_of(alloc, &PHRASES)?;
    let workers = workers.clamp(1, MAX_WORKERS);
    let hits = scan_parts(rt, alloc, &NoGate, &compiled, &text, workers)?;
    let wanted = plain_hits(alloc, compiled.list(), &text)?;
    Ok(hits.as_slice() == wanted.as_slice() && wanted.len() > 1_000)
}

#[test]
fn finds_all_hits_of_long_parts(rt: HostRuntime) -> Result<(), Fail> {
    assert!(rt; find_all_of_many(&rt, 2)?);
    Ok(())
}
