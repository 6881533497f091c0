//! Worked scans, and what no clause says.
mod extending;
mod profiles;
mod single;
mod spoilt;
mod stopping;

use flow_scan::{Compiled, Fault, Hit, Scanner, least_law, pieces_law, scan_all, scan_pieces};
use list_index::ListIndex;
use lit_base::{Fold, LitList, MAX_LITERAL_LEN, Profile, RawList};
use lit_cert::{Certificate, Reason};
use nib_mask::{Masks, plain_byte};
use run_planner::plan;
use std::alloc::Global;
use std::sync::Arc;

/// The list of the literals.
fn list_of(alloc: Global, fold: Fold, literals: &[&[u8]]) -> Option<LitList> {
    let mut raw = RawList::new(alloc);
    for literal in literals {
        raw.push(literal).ok()?;
    }
    let (list, _) = LitList::normal(alloc, &raw, fold).ok()?;
    Some(list)
}

/// The plan of the literals.
fn plan_of(alloc: Global, fold: Fold, literals: &[&[u8]]) -> Option<Compiled> {
    plan_under(alloc, Profile::Eight, fold, literals)
}

/// Their plan of this profile.
fn plan_under(alloc: Global, profile: Profile, fold: Fold, literals: &[&[u8]]) -> Option<Compiled> {
    let list = list_of(alloc, fold, literals)?;
    let certificate = plan(alloc, &list, profile).ok()?;
    Compiled::new(ListIndex::new(alloc, list).ok()?, certificate).ok()
}

/// The hit of a literal that ends there.
fn hit(lit: u16, end_at: u64) -> Hit {
    Hit { lit, end_at }
}

/// The hits that pieces give, fed in turn.
fn hits_of_pieces(alloc: Global, compiled: &Compiled, pieces: &[&[u8]]) -> Option<Vec<Hit>> {
    let mut hits = Vec::new(alloc);
    let mut scanner = Scanner::new(alloc, compiled).ok()?;
    for piece in pieces {
        scanner.feed(piece, &mut hits).ok()?;
    }
    Some(hits)
}

/// Whether these are the hits of pieces.
fn are_of_pieces(
    alloc: Global,
    compiled: &Compiled,
    pieces: &[&[u8]],
    wanted: &[Hit],
) -> Option<bool> {
    let hits = hits_of_pieces(alloc, compiled, pieces)?;
    Some(hits.as_slice() == wanted)
}

/// Whether these are the hits of the literals in pieces.
fn gives(alloc: Global, literals: &[&[u8]], pieces: &[&[u8]], wanted: &[Hit]) -> Option<bool> {
    let compiled = plan_of(alloc, Fold::No, literals)?;
    are_of_pieces(alloc, &compiled, pieces, wanted)
}

/// Whether these are all hits in a text.
fn are_of_text(alloc: Global, compiled: &Compiled, text: &[u8], wanted: &[Hit]) -> Option<bool> {
    let hits = scan_all(alloc, compiled, text).ok()?;
    Some(hits.as_slice() == wanted)
}

/// Whether these are all hits of the literals in a text.
fn finds_in(alloc: Global, literals: &[&[u8]], text: &[u8], wanted: &[Hit]) -> Option<bool> {
    let compiled = plan_of(alloc, Fold::No, literals)?;
    are_of_text(alloc, &compiled, text, wanted)
}

const PRONOUNS: [&[u8]; 4] = [b"he", b"his", b"she", b"hers"];

/// Those in `ushers`.
const OF_USHERS: [Hit; 3] = [
    Hit { lit: 0, end_at: 4 },
    Hit { lit: 2, end_at: 4 },
    Hit { lit: 3, end_at: 6 },
];

#[test]
fn gives_hits_as_pieces_come(rt: HostRuntime) {
    let alloc = rt.alloc();
    assert_eq!(rt; gives(alloc, &PRONOUNS, &[b"us", b"h"], &[]), Some(true));
    assert_eq!(rt;
        gives(alloc, &PRONOUNS, &[b"us", b"h", b"ers"], &OF_USHERS),
        Some(true)
    );
}

/// The hits that a copy of a scanner gives for a piece.
fn hits_of_copy(alloc: Global, scanner: &Scanner, piece: &[u8]) -> Option<Vec<Hit>> {
    let mut hits = Vec::new(alloc);
    let mut copy = scanner.copy().ok()?;
    copy.feed(piece, &mut hits).ok()?;
    Some(hits)
}

/// Whether these are the hits of a piece by a copy of a scanner that was fed another piece before, in
/// which nothing ends.
fn copy_gives(alloc: Global, compiled: &Compiled, wanted: &[Hit]) -> Option<bool> {
    let mut none = Vec::new(alloc);
    let mut scanner = Scanner::new(alloc, compiled).ok()?;
    scanner.feed(b"ush", &mut none).ok()?;
    let hits = hits_of_copy(alloc, &scanner, b"ers")?;
    Some(none.is_empty() && hits.as_slice() == wanted)
}

/// That for the pronouns.
fn copy_goes_on(alloc: Global) -> Option<bool> {
    let compiled = plan_of(alloc, Fold::No, &PRONOUNS)?;
    copy_gives(alloc, &compiled, &OF_USHERS)
}

#[test]
fn goes_on_by_a_copy(rt: HostRuntime) {
    assert_eq!(rt; copy_goes_on(rt.alloc()), Some(true));
}

#[test]
fn gives_the_worked_hits_of_whole_texts(rt: HostRuntime) {
    let alloc = rt.alloc();
    let thrice = [hit(0, 2), hit(0, 3), hit(0, 4)];
    assert_eq!(rt; finds_in(alloc, &[b"aa"], b"aaaa", &thrice), Some(true));
    assert_eq!(rt;
        finds_in(alloc, &[b"ab", b"abc"], b"ab", &[hit(0, 2)]),
        Some(true)
    );
}

/// Dots, with `xyz` ending at one place.
fn text_with_end(end: usize) -> [u8; 100] {
    let mut text = [b'.'; 100];
    for (place, byte) in text.iter_mut().enumerate() {
        *byte = match end.saturating_sub(place) {
            3 => b'x',
            2 => b'y',
            1 => b'z',
            _ => b'.',
        };
    }
    text
}

/// Whether the end in the text is found, and no other.
fn is_found_at(alloc: Global, end: usize) -> Option<bool> {
    finds_in(alloc, &[b"xyz"], &text_with_end(end), &[hit(0, end as u64)])
}

#[test]
fn finds_an_end_at_each_edge_of_a_vector(rt: HostRuntime) {
    for end in [31, 32, 33, 34, 63, 64, 65, 66, 100] {
        assert_eq!(rt; is_found_at(rt.alloc(), end), Some(true), "at {end}");
    }
}

/// The cost of the plan of the literals, and its filter number where the three bytes end.
fn cost_and_mark(alloc: Global, literals: &[&[u8]], bytes: [u8; 3]) -> Option<(u64, u16)> {
    let compiled = plan_of(alloc, Fold::No, literals)?;
    let certificate = compiled.certificate();
    let masks = Masks::of(compiled.list(), &certificate.ends);
    let [x0, x1, x2] = bytes;
    Some((certificate.cost, plain_byte(&masks, x0, x1, x2)))
}

#[test]
fn verifies_what_the_filter_lets_through(rt: HostRuntime) {
    let alloc = rt.alloc();
    let literals: [&[u8]; 2] = [b"abcdefgh", b"abcdefxy"];
    assert_eq!(rt; cost_and_mark(alloc, &literals, *b"fgy"), Some((232, 1)));
    assert_eq!(rt; finds_in(alloc, &literals, b"abcdefgy", &[]), Some(true));
}

/// The hits of a scan of `count` letters `a`, fed one by one.
fn ends_of_letters(alloc: Global, compiled: &Compiled, count: u32) -> Option<Vec<Hit>> {
    let mut hits = Vec::new(alloc);
    let mut scanner = Scanner::new(alloc, compiled).ok()?;
    for _ in 0..count {
        scanner.feed(b"a", &mut hits).ok()?;
    }
    Some(hits)
}

/// How many hits of a literal these are, if each stands one place after the one before, and the first
/// at a place.
fn count_from(hits: &[Hit], first: u64) -> Option<usize> {
    let are_in_order = hits.iter().enumerate().all(|(place, found)| found.lit == 0
        && found.end_at == first.saturating_add(place as u64));
    if are_in_order { Some(hits.len()) } else { None }
}

/// How many hits a literal of letters `a` has in `count` letters fed one by one: one at each of their last positions.
fn count_in_letters(alloc: Global, literal: &[u8], count: u32) -> Option<usize> {
    let compiled = plan_of(alloc, Fold::No, &[literal])?;
    let hits = ends_of_letters(alloc, &compiled, count)?;
    count_from(&hits, literal.len() as u64)
}

#[test]
fn carries_the_longest_literal_byte_by_byte(rt: HostRuntime) {
    let alloc = rt.alloc();
    let literal = [b'a'; MAX_LITERAL_LEN];
    assert_eq!(rt; cost_and_mark(alloc, &[&literal], *b"aaa"), Some((208, 1)));
    assert_eq!(rt; count_in_letters(alloc, &literal, 4094), Some(0));
    assert_eq!(rt; count_in_letters(alloc, &literal, 4095), Some(1));
    assert_eq!(rt; count_in_letters(alloc, &literal, 4096), Some(2));
}

#[test]
fn gives_each_end_once_over_many_boundaries(rt: HostRuntime) {
    assert_eq!(rt; count_in_letters(rt.alloc(), b"aa", 100_000), Some(99_999));
}

/// Whether a scanner with one place left refuses two bytes, and is then as it was.
fn refuses_two(scanner: &mut Scanner, hits: &mut Vec<Hit>) -> bool {
    let before = scanner.place();
    let is_refused = matches!(scanner.feed(b"aa", hits), Err(Fault::StreamTooLong));
    is_refused && scanner.place() == before && hits.is_empty()
}

/// Whether it then takes one; none where memory ran out, and it is as it was.
fn takes_one(scanner: &mut Scanner, hits: &mut Vec<Hit>) -> Option<bool> {
    let before = scanner.place();
    let fed = scanner.feed(b"a", hits);
    if fed == Err(Fault::OutOfMemory) && scanner.place() == before && hits.is_empty() {
        return None;
    }
    let is_taken = fed.is_ok() && scanner.place() == u64::MAX;
    Some(is_taken && hits.as_slice() == [hit(0, u64::MAX)].as_slice())
}

/// Both, of a scanner by this plan.
fn refuses_two_and_takes_one(alloc: Global, compiled: &Compiled) -> Option<bool> {
    let mut hits = Vec::new(alloc);
    let mut scanner = Scanner::new_at(alloc, compiled, u64::MAX - 1).ok()?;
    let is_refused = refuses_two(&mut scanner, &mut hits);
    Some(takes_one(&mut scanner, &mut hits)? && is_refused)
}

/// Both, of a scanner for a letter.
fn stops_at_the_last_place(alloc: Global) -> Option<bool> {
    let compiled = plan_of(alloc, Fold::No, &[b"a"])?;
    refuses_two_and_takes_one(alloc, &compiled)
}

#[test]
fn refuses_to_pass_the_last_place(rt: HostRuntime) {
    assert_eq!(rt; stops_at_the_last_place(rt.alloc()), Some(true));
}

/// Whether a plan with a wrong cost is refused, and one literal and this cost are handed back.
fn is_handed_back(index: Arc<ListIndex>, certificate: Certificate, cost: u64) -> bool {
    match Compiled::new(index, certificate) {
        Ok(_compiled) => false,
        Err((fault, index, certificate)) => {
            let reason = Reason::Total;
            fault == Fault::NotCertified { reason } && index.len() == 1 && certificate.cost == cost
        }
    }
}

/// That for a letter, with a cost of one more.
fn hands_back(alloc: Global) -> Option<bool> {
    let list = list_of(alloc, Fold::No, &[b"a"])?;
    let mut certificate = plan(alloc, &list, Profile::Eight).ok()?;
    certificate.cost = 4297;
    let index = ListIndex::new(alloc, list).ok()?;
    Some(is_handed_back(index, certificate, 4297))
}

#[test]
fn hands_back_what_it_refuses(rt: HostRuntime) {
    assert_eq!(rt; hands_back(rt.alloc()), Some(true));
}

/// How many hits the pieces of a list have.
fn count_in_pieces(alloc: Global, compiled: &Compiled) -> Option<usize> {
    least_law(compiled);
    let first = Vec::from_slice(alloc, b"ab").ok()?;
    let pieces = vec![in alloc; first, Vec::new(alloc)].ok()?;
    let hits = scan_pieces(alloc, compiled, &pieces).ok()?;
    Some(hits.len())
}

/// That for two letters, whose plan meets the laws.
fn meets_its_laws(alloc: Global) -> Option<usize> {
    let compiled = plan_of(alloc, Fold::No, &[b"a", b"b"])?;
    if !compiled.list().is_empty() {
        pieces_law(compiled.list(), &[]);
    }
    count_in_pieces(alloc, &compiled)
}

#[test]
fn scans_lists_of_pieces(rt: HostRuntime) {
    assert_eq!(rt; meets_its_laws(rt.alloc()), Some(2));
}
