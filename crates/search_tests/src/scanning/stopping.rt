//! Where scans stop after enough hits.
use super::{PRONOUNS, plan_of};
use flow_scan::{Compiled, EndFinder, PrefilterSearch, Scanner, scan_until};
use lit_base::Fold;
use std::alloc::Global;

/// How many bytes a scan has passed, and how many hits it gained.
type Stop = (usize, usize);

/// Where a scanner stops in a piece.
fn by_feeding(alloc: Global, compiled: &Compiled, piece: &[u8], most: usize) -> Option<Stop> {
    let mut hits = Vec::new(alloc);
    let mut scanner = Scanner::new(alloc, compiled).ok()?;
    let count = scanner
        .feed_until(&mut PrefilterSearch, piece, most, &mut hits)
        .ok()?;
    Some((count, hits.len()))
}

/// Where a scanner with a finder stops in a piece.
fn by_tuning(alloc: Global, compiled: &Compiled, piece: &[u8], most: usize) -> Option<Stop> {
    let mut hits = Vec::new(alloc);
    let mut scanner = Scanner::new(alloc, compiled).ok()?;
    let mut finder = EndFinder::new(alloc, compiled).ok()?;
    let fed = scanner.feed_until(&mut finder, piece, most, &mut hits);
    Some((fed.ok()?, hits.len()))
}

/// Where a scan stops in a text.
fn by_scanning(alloc: Global, compiled: &Compiled, text: &[u8], most: usize) -> Option<Stop> {
    let mut hits = Vec::new(alloc);
    let stop = scan_until(&mut PrefilterSearch, compiled, text, 0, most, &mut hits).ok()?;
    Some((stop, hits.len()))
}

/// Where each of them stops in a text.
fn stops_in(alloc: Global, literals: &[&[u8]], text: &[u8], most: usize) -> Option<[Stop; 3]> {
    let compiled = plan_of(alloc, Fold::No, literals)?;
    let fed = by_feeding(alloc, &compiled, text, most)?;
    let tuned = by_tuning(alloc, &compiled, text, most)?;
    let scanned = by_scanning(alloc, &compiled, text, most)?;
    Some([fed, tuned, scanned])
}

#[test]
fn stops_at_the_first_end_with_enough_hits(rt: HostRuntime) {
    let alloc = rt.alloc();
    assert_eq!(rt; stops_in(alloc, &[b"a"], b"aaaa", 2), Some([(2, 2); 3]));
    assert_eq!(rt; stops_in(alloc, &[b"a"], b"aaaa", 5), Some([(4, 4); 3]));
}

/// Where each of them stops in a long text with one hit, if none is wanted.
fn stops_for_no_hit(alloc: Global) -> Option<[Stop; 3]> {
    let mut text = Vec::from_elem(alloc, b'.', 70_000).ok()?;
    text[69_000] = b'a';
    stops_in(alloc, &[b"a"], &text, 0)
}

#[test]
fn stops_at_an_end_where_no_hit_is_wanted(rt: HostRuntime) {
    assert_eq!(rt; stops_for_no_hit(rt.alloc()), Some([(69_001, 1); 3]));
}

#[test]
fn adds_all_hits_of_the_end_where_it_stops(rt: HostRuntime) {
    let alloc = rt.alloc();
    for (most, stop) in [(1, (4, 2)), (2, (4, 2)), (3, (6, 3))] {
        assert_eq!(rt;
            stops_in(alloc, &PRONOUNS, b"ushershe", most),
            Some([stop; 3])
        );
    }
}
