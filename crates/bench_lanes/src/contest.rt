//! The contestants, in turn over the same text.
ghost use Rattle.std.specs.Prelude.{◌≤◌, ◌^◌};

use crate::texts::{literals, quiet_text, rare_text};
use anyhow::{Result, ensure};
use lane_filter::{Candidates, Prefilter, filter};
use lit_base::{Ends, LitList, Profile, is_cut};
use memchr::memchr;
use nib_mask::Masks;
use std::rt::Clock;
use std::time::Instant;

/// How many turns each contestant has. The median counts.
const TURNS: usize = 31;

/// About how many bytes a turn reads.
const BYTES: u64 = 1 << 22;

#[derive(Clone, Copy)]
enum Contestant {
    Scalar,
    Filter,
    QuietCursor,
    RareCursor,
    OneByte,
}

const CONTESTANTS: [Contestant; 5] = [
    Contestant::Scalar,
    Contestant::Filter,
    Contestant::QuietCursor,
    Contestant::RareCursor,
    Contestant::OneByte,
];

impl Contestant {
    fn name(self) -> &'static str {
        match self {
            Contestant::Scalar => "scalar loop",
            Contestant::Filter => "filter",
            Contestant::QuietCursor => "cursor, no candidate",
            Contestant::RareCursor => "cursor, one in 4 KiB",
            Contestant::OneByte => "memchr",
        }
    }
}

/// The times of the turns of each contestant, in nanoseconds.
type Times = [[u64; TURNS]; 5];

/// Measures all contestants over texts of `len` bytes, with the tables of `count` literals.
pub fn measure<R: Clock + Print + AllocGlobal>(rt: &R, len: usize, count: u16) -> Result<()>
    requires { len ≤ 2 ^ 30 }
{
    let list = literals(rt.alloc(), count)?;
    let ends = equal_runs(&list);
    ensure!(
        is_cut(&list, Profile::Sixteen, &ends),
        "no cut of the literals"
    );
    let masks = Masks::of(&list, &ends);
    let mut quiet = quiet_text(rt.alloc(), len + 2)?;
    let mut rare = rare_text(rt.alloc(), len + 2, &list)?;
    let mut out: Vec<u16> = vec![in rt.alloc(); 0; len]?;
    let mut times = [[0; TURNS]; 5];
    let mut sum = 0u64;
    for turn in 0..TURNS {
        for place in 0..CONTESTANTS.len() {
            let contestant = CONTESTANTS[place];
            let text = match contestant {
                Contestant::RareCursor => &mut rare,
                _ => &mut quiet,
            };
            let start = Instant::now(rt)?;
            let found = take_turn(contestant, &masks, text, &mut out);
            let nanos = start.elapsed(rt)?.as_nanos();
            times[place][turn] = u64::try_from(nanos).unwrap_or(u64::MAX);
            sum = sum.wrapping_add(found);
        }
    }
    println!(rt; "{len} bytes, {count} literals, the median of {TURNS} turns; found {sum}")?;
    report(rt, &times, (len as u64).saturating_mul(rounds(len)))
}

/// A cut of the literals into at most eight runs of nearly equal numbers.
fn equal_runs(list: &LitList) -> Ends {
    let mut ends = Ends::new();
    let count = list.len();
    for run in 1..=8usize {
        if let Ok(end) = u16::try_from(count.saturating_mul(run) / 8) {
            if ends.last().is_none_or(|last| *last < end) && end > 0 {
                let _ = ends.try_push(end);
            }
        }
    }
    ends
}

/// How often a contestant reads a text in its turn: until about `BYTES` bytes were read.
fn rounds(len: usize) -> u64 {
    (BYTES / (len as u64).max(1)).max(1)
}

/// The text changes in each round, so that none can be left out.
fn take_turn(contestant: Contestant, masks: &Masks, text: &mut [u8], out: &mut [u16]) -> u64 {
    let mut sum = 0u64;
    for round in 0..rounds(out.len()) {
        if let Some(byte) = text.get_mut(round as usize) {
            *byte ^= 1;
        }
        sum = sum.wrapping_add(go_over(contestant, masks, text, out));
    }
    sum
}

/// Speeds are medians of the turns, and ratios medians of the ratios within a turn: what else runs on
/// the machine slows the contestants of a turn alike.
fn report<R: Print>(rt: &R, times: &Times, bytes: u64) -> Result<()> {
    for place in 0..CONTESTANTS.len() {
        let mut speeds = [0; TURNS];
        let mut ratios = [0; TURNS];
        for turn in 0..TURNS {
            let nanos = times[place][turn].max(1);
            speeds[turn] = bytes.saturating_mul(100) / nanos;
            ratios[turn] = times[0][turn].saturating_mul(100) / nanos;
        }
        let (speed, ratio) = (median(speeds), median(ratios));
        let name = CONTESTANTS[place].name();
        let (speed, speed_part) = (speed / 100, speed % 100);
        let (ratio, ratio_part) = (ratio / 100, ratio % 100);
        println!(rt;
            "{name}: {speed}.{speed_part:02} GB/s, {ratio}.{ratio_part:02} times the scalar loop"
        )?;
    }
    Ok(())
}

fn median(mut numbers: [u64; TURNS]) -> u64 {
    numbers.sort_unstable();
    numbers[TURNS / 2]
}

/// How many places a contestant finds, or one of the numbers that it writes.
#[inline(never)]
fn go_over(contestant: Contestant, masks: &Masks, text: &[u8], out: &mut [u16]) -> u64 {
    let len = out.len();
    let (Some(x0), Some(x1), Some(x2)) = (
        text.get(..len),
        text.get(1..len + 1),
        text.get(2..len + 2),
    ) else {
        return 0;
    };
    match contestant {
        Contestant::Scalar => filter_scalar(masks, x0, x1, x2, out),
        Contestant::Filter => filter(masks, x0, x1, x2, out),
        Contestant::QuietCursor | Contestant::RareCursor => return candidates(masks, text),
        Contestant::OneByte => return memchr(b'~', text).map_or(0, |place| place as u64),
    }
    u64::from(out.last().copied().unwrap_or(0))
}

/// The filter by six look-ups for each place.
#[inline(never)]
fn filter_scalar(masks: &Masks, x0: &[u8], x1: &[u8], x2: &[u8], out: &mut [u16]) {
    for (((a, b), c), number) in x0.iter().zip(x1).zip(x2).zip(out.iter_mut()) {
        *number = masks.low[0][usize::from(*a & 15)]
            & masks.high[0][usize::from(*a >> 4)]
            & masks.low[1][usize::from(*b & 15)]
            & masks.high[1][usize::from(*b >> 4)]
            & masks.low[2][usize::from(*c & 15)]
            & masks.high[2][usize::from(*c >> 4)];
    }
}

/// How many candidates a text has, by the tables of at most eight runs.
#[inline(never)]
fn candidates(masks: &Masks, text: &[u8]) -> u64 {
    let prefilter = Prefilter::Nibbles(masks.first_eight());
    let mut cursor = Candidates::new(&prefilter, text, 0);
    let mut count = 0u64;
    for _ in 0..=text.len() {
        if cursor.next().is_none() {
            break;
        }
        count = count.wrapping_add(1);
    }
    count
}
