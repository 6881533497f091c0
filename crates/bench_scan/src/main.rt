//! How long a scan takes: `bench_scan TEXT LITERALS all|tuned|stream|tuned-stream|WORKERS TURNS [8|16]` reads both
//! files and prints the median seconds of a scan and the number of hits. A number of workers from 1 to 16 share the
//! text. A stream comes in pieces of 64 KiB, or as `stream:1000` in pieces of so many bytes. The plan has eight buckets
//! unless the last word is 16. It prints nothing without arguments; `bench/README.md` says what it is measured beside.
#![tactic(auto)]

use anyhow::{Result, bail, ensure};
use flow_scan::{Compiled, EndFinder, Hit, Scanner, scan_after, scan_all};
use list_plan::compile;
use lit_base::{Fold, LitList, Profile, RawList};
use par_scan::{MAX_WORKERS, NoGate, scan_parts};
use std::alloc::Global;
use std::rt::{Clock, Files};
use std::thread::Threads;
use std::time::Instant;
use std::{env, fs};

/// Bytes of a piece of a stream where nothing else is said.
const PIECE: usize = 65536;

/// How a text is fed.
#[derive(Clone, Copy)]
enum Mode {
    /// In one call.
    Whole,
    /// In one call, by a search that tunes itself to the text.
    Tuned,
    /// As a stream, in pieces of this many bytes.
    Pieces(usize),
    /// As a stream in pieces, by a search that tunes itself to them.
    TunedPieces(usize),
    /// By this many workers; each scans a part.
    Parts(usize),
}

fn main(rt: HostRuntime) -> Result<()> {
    let words: Vec<String> = env::args(&rt)?.skip(1).collect(rt.alloc())?;
    let [text, literals, mode, turns, buckets @ ..] = words.as_slice() else {
        return Ok(());
    };
    let mode = mode_of(mode.as_str())?;
    let profile = profile_of(buckets)?;
    let text = fs::read(&rt, text.as_str())?;
    let literals = fs::read(&rt, literals.as_str())?;
    let compiled = compiled_of(rt.alloc(), literals.as_slice(), profile)?;
    measure(
        &rt,
        &compiled,
        text.as_slice(),
        mode,
        turns.as_str().parse::<usize>()?,
    )
}

/// The mode that a word names.
fn mode_of(word: &str) -> Result<Mode> {
    let (name, size) = match word.split_once(':') {
        Some((name, size)) => (name, size.parse::<usize>()?),
        None => (word, PIECE),
    };
    ensure!(size > 0, "no byte in a piece");
    Ok(match name {
        "all" => Mode::Whole,
        "tuned" => Mode::Tuned,
        "stream" => Mode::Pieces(size),
        "tuned-stream" => Mode::TunedPieces(size),
        workers => Mode::Parts(workers.parse::<usize>()?),
    })
}

/// The profile of as many buckets as the word says, eight without a word.
fn profile_of(words: &[String]) -> Result<Profile> {
    let Some(word) = words.first() else {
        return Ok(Profile::Eight);
    };
    ensure!(words.len() == 1, "too many words");
    match word.as_str() {
        "8" => Ok(Profile::Eight),
        "16" => Ok(Profile::Sixteen),
        _ => bail!("8 or 16 buckets"),
    }
}

/// The literals of a file with their plan.
fn compiled_of(alloc: Global, file: &[u8], profile: Profile) -> Result<Compiled> {
    let mut raw = RawList::new(alloc);
    raw.add_file_bytes(file)?;
    let list = LitList::normal_form(alloc, &raw, Fold::No)?;
    Ok(compile(alloc, list, profile)?)
}

fn measure<R: Clock + Print + AllocGlobal + Threads + Sync>(
    rt: &R,
    compiled: &Compiled,
    text: &[u8],
    mode: Mode,
    turns: usize,
) -> Result<()> {
    ensure!(turns > 0, "no turn");
    let mut times = Vec::new(rt.alloc());
    let mut hits = 0;
    for _ in 0..turns {
        let start = Instant::now(rt)?;
        hits = scan(rt, rt.alloc(), compiled, text, mode)?;
        times.push(start.elapsed(rt)?.as_nanos())?;
    }
    times.sort()?;
    let nanoseconds = times.get(turns / 2).copied().unwrap_or(0);
    let (seconds, rest) = (nanoseconds / 1_000_000_000, nanoseconds % 1_000_000_000);
    println!(rt; "{seconds}.{rest:09} {hits}")?;
    Ok(())
}

/// How many hits a text has.
fn scan<R: Threads + Sync>(
    rt: &R,
    alloc: Global,
    compiled: &Compiled,
    text: &[u8],
    mode: Mode,
) -> Result<usize> {
    match mode {
        Mode::Whole => Ok(scan_all(alloc, compiled, text)?.len()),
        Mode::Tuned => scan_tuned(alloc, compiled, text),
        Mode::Pieces(size) => scan_pieces(alloc, compiled, text, size),
        Mode::TunedPieces(size) => scan_pieces_tuned(alloc, compiled, text, size),
        Mode::Parts(workers) => {
            ensure!((1..=MAX_WORKERS).contains(&workers), "1 to 16 workers");
            Ok(scan_parts(rt, alloc, &NoGate, compiled, text, workers)?.len())
        }
    }
}

/// How many hits a text has, by a finder that tunes itself to it if the list has literals enough.
fn scan_tuned(alloc: Global, compiled: &Compiled, text: &[u8]) -> Result<usize> {
    let mut finder = EndFinder::new_unless_few(alloc, compiled)?;
    Ok(scan_after(&mut finder, alloc, compiled, text, 0)?.len())
}

/// How many hits a text has, fed in pieces, the hits of each let go before the next.
fn scan_pieces(alloc: Global, compiled: &Compiled, text: &[u8], size: usize) -> Result<usize> {
    let mut scanner = Scanner::new(alloc, compiled)?;
    let mut out: Vec<Hit> = Vec::new(alloc);
    let mut count = 0usize;
    for piece in text.chunks(size.max(1)) {
        scanner.feed(piece, &mut out)?;
        count = count.saturating_add(out.len());
        out.clear();
    }
    Ok(count)
}

/// The same in pieces, to which the finder tunes itself.
fn scan_pieces_tuned(
    alloc: Global,
    compiled: &Compiled,
    text: &[u8],
    size: usize,
) -> Result<usize> {
    let Some(mut finder) = EndFinder::new_unless_few(alloc, compiled)? else {
        return scan_pieces(alloc, compiled, text, size);
    };
    let mut scanner = Scanner::new(alloc, compiled)?;
    let mut out: Vec<Hit> = Vec::new(alloc);
    let mut count = 0usize;
    'pieces: for piece in text.chunks(size.max(1)) {
        scanner.feed_until(&mut finder, piece, usize::MAX, &mut out)?;
        count = count.saturating_add(out.len());
        out.clear();
    }
    Ok(count)
}
