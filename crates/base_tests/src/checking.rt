//! What the check answers for worked certificates.
use lit_base::{Ends, Fault, Fold, LitList, Profile, RawList};
use lit_cert::{Certificate, Reason, check};
use std::alloc::{AllocError, Global};
use std::test::Fail;

/// The list of the literals.
fn list_of(alloc: Global, literals: &[&[u8]]) -> Result<LitList, Fault> {
    let mut raw = RawList::new(alloc);
    for literal in literals {
        raw.push(literal)?;
    }
    let (list, _) = LitList::normal(alloc, &raw, Fold::No)?;
    Ok(list)
}

/// These ends, without those past the sixteenth.
fn ends_of(ends: &[u16]) -> Ends {
    let mut kept = Ends::new();
    for end in ends {
        let _ = kept.try_push(*end);
    }
    kept
}

/// A certificate of the parts.
fn certificate_of(
    alloc: Global,
    profile: Profile,
    ends: &[u16],
    cost: u64,
    rows: &[&[u64]],
) -> Result<Certificate, AllocError> {
    let mut potentials = Vec::new(alloc);
    for row in rows {
        potentials.extend_from_slice(row)?;
    }
    Ok(Certificate {
        profile,
        ends: ends_of(ends),
        cost,
        potentials,
    })
}

const ANIMALS: [&[u8]; 3] = [b"cat", b"dog", b"horse"];

/// The certificate of the animals.
fn of_animals(alloc: Global) -> Result<Certificate, AllocError> {
    let last: &[u64] = &[934, 583, 232];
    let rows: [&[u64]; 8] = [
        &[1559, 804, 232],
        &[1036, 583, 232],
        last,
        last,
        last,
        last,
        last,
        last,
    ];
    certificate_of(alloc, Profile::Eight, &[1, 2, 3], 934, &rows)
}

/// The certificate of `a`, with this potential of one run.
fn of_letter(alloc: Global, first: u64) -> Result<Certificate, AllocError> {
    let least: &[u64] = &[4296];
    let rows: [&[u64]; 8] = [&[first], least, least, least, least, least, least, least];
    certificate_of(alloc, Profile::Eight, &[1], 4296, &rows)
}

/// The check's answer for a certificate of the literals.
fn answer(
    alloc: Global,
    literals: &[&[u8]],
    certificate: Certificate,
) -> Result<Result<(), Reason>, Fault> {
    let list = list_of(alloc, literals)?;
    Ok(check(&list, &certificate))
}

#[test]
fn accepts_the_cheapest_alone(rt: HostRuntime) -> Result<(), Fail> {
    let alloc = rt.alloc();
    assert_eq!(rt; answer(alloc, &ANIMALS, of_animals(alloc)?)?, Ok(()));
    assert_eq!(rt; answer(alloc, &[b"a"], of_letter(alloc, 4296)?)?, Ok(()));
    let above = answer(alloc, &[b"a"], of_letter(alloc, 4297)?)?;
    assert_eq!(rt; above, Err(Reason::EndRow { r: 1, p: 0 }));
    Ok(())
}

/// What the check answers for the animals' certificate with one potential changed. Places count all
/// potentials, row after row.
fn answer_with(alloc: Global, place: usize, potential: u64) -> Result<Result<(), Reason>, Fault> {
    let mut certificate = of_animals(alloc)?;
    if let Some(changed) = certificate.potentials.get_mut(place) {
        *changed = potential;
    }
    answer(alloc, &ANIMALS, certificate)
}

#[test]
fn names_the_place_of_a_changed_potential(rt: HostRuntime) -> Result<(), Fail> {
    let alloc = rt.alloc();
    assert_eq!(rt; answer_with(alloc, 21, 935)?, Err(Reason::Total));
    let step = Reason::Step { r: 3, p: 1, q: 2 };
    assert_eq!(rt; answer_with(alloc, 7, 584)?, Err(step));
    let step = Reason::Step { r: 2, p: 0, q: 2 };
    assert_eq!(rt; answer_with(alloc, 3, 1037)?, Err(step));
    assert_eq!(rt; answer_with(alloc, 0, 0)?, Ok(()));
    Ok(())
}

#[test]
fn refuses_a_certificate_of_other_ends_or_literals(rt: HostRuntime) -> Result<(), Fail> {
    let alloc = rt.alloc();
    let mut equal = of_animals(alloc)?;
    equal.ends = ends_of(&[1, 1, 3]);
    assert_eq!(rt; answer(alloc, &ANIMALS, equal)?, Err(Reason::Ends));
    let other = answer(alloc, &[b"a"], of_animals(alloc)?)?;
    assert_eq!(rt; other, Err(Reason::Length));
    let zeros = certificate_of(alloc, Profile::Eight, &[1, 2, 3], 934, &[&[0; 24]])?;
    assert_eq!(rt; answer(alloc, &ANIMALS, zeros)?, Err(Reason::Total));
    Ok(())
}

/// The letters from `a` to `i`.
const LETTERS: [&[u8]; 9] = [b"a", b"b", b"c", b"d", b"e", b"f", b"g", b"h", b"i"];

/// A certificate of nine letters in nine runs, with `rows` rows of potentials.
fn of_nine_runs(alloc: Global, profile: Profile, rows: usize) -> Result<Certificate, AllocError> {
    let rows = vec![in alloc; NINE_ZEROS; rows]?;
    certificate_of(alloc, profile, &[1, 2, 3, 4, 5, 6, 7, 8, 9], 38_664, &rows)
}

/// A row of potentials that shows nothing.
const NINE_ZEROS: &[u64] = &[0; 9];

/// What the check answers for that.
fn answer_to_nine_runs(
    alloc: Global,
    profile: Profile,
    rows: usize,
) -> Result<Result<(), Reason>, Fault> {
    let certificate = of_nine_runs(alloc, profile, rows)?;
    answer(alloc, &LETTERS, certificate)
}

#[test]
fn counts_ends_and_rows_by_the_profile(rt: HostRuntime) -> Result<(), Fail> {
    let alloc = rt.alloc();
    let verdict = answer_to_nine_runs(alloc, Profile::Eight, 8)?;
    assert_eq!(rt; verdict, Err(Reason::Ends));
    let verdict = answer_to_nine_runs(alloc, Profile::Eight, 16)?;
    assert_eq!(rt; verdict, Err(Reason::Length));
    let verdict = answer_to_nine_runs(alloc, Profile::Sixteen, 8)?;
    assert_eq!(rt; verdict, Err(Reason::Length));
    let verdict = answer_to_nine_runs(alloc, Profile::Sixteen, 16)?;
    assert_eq!(rt; verdict, Err(Reason::Total));
    Ok(())
}
