//! The text of a certificate of sixteen buckets.
use super::{bad_line, with_line};
use arrayvec::ArrayVec;
use byte_io::{CutIn, CutOut};
use lit_base::Profile;
use lit_cert::{Certificate, Fault, read_cert, write_cert};
use std::alloc::Global;
use std::test::Fail;

/// That for `cat`, `dog` and `horse`.
const TEXT: &[u8] = b"litcert 2
literals 3
ends 1 2 3
cost 934
1 1559 804 232
2 1036 583 232
3 934 583 232
4 934 583 232
5 934 583 232
6 934 583 232
7 934 583 232
8 934 583 232
9 934 583 232
10 934 583 232
11 934 583 232
12 934 583 232
13 934 583 232
14 934 583 232
15 934 583 232
16 934 583 232
end
";

const POTENTIALS: [u64; 48] = [
    1559, 804, 232, 1036, 583, 232, 934, 583, 232, 934, 583, 232, 934, 583, 232, 934, 583, 232,
    934, 583, 232, 934, 583, 232, 934, 583, 232, 934, 583, 232, 934, 583, 232, 934, 583, 232, 934,
    583, 232, 934, 583, 232, 934, 583, 232, 934, 583, 232,
];

/// Whether the text is read as a text of sixteen buckets.
fn is_read(alloc: Global) -> Result<bool, Fault> {
    let certificate = read_cert(alloc, &mut CutIn::whole(TEXT))?;
    Ok(
        certificate.profile == Profile::Sixteen
            && certificate.ends.as_slice() == [1, 2, 3].as_slice()
            && certificate.cost == 934
            && certificate.potentials.as_slice() == POTENTIALS.as_slice(),
    )
}

#[test]
fn reads_the_certificate_of_sixteen_buckets(rt: HostRuntime) -> Result<(), Fail> {
    assert!(rt; is_read(rt.alloc())?);
    Ok(())
}

/// Whether the text is the one written.
fn is_written(alloc: Global) -> Result<bool, Fault> {
    let mut ends = ArrayVec::new();
    ends.push(1);
    ends.push(2);
    ends.push(3);
    let certificate = Certificate {
        profile: Profile::Sixteen,
        ends,
        cost: 934,
        potentials: POTENTIALS.to_vec(alloc)?,
    };
    let mut space = vec![in alloc; 0u8; 400]?;
    let mut out = CutOut::within(&mut space);
    write_cert(alloc, &certificate, &mut out)?;
    Ok(out.written() == TEXT)
}

#[test]
fn writes_the_text_of_sixteen_buckets(rt: HostRuntime) -> Result<(), Fail> {
    assert!(rt; is_written(rt.alloc())?);
    Ok(())
}

/// The bad line of the text with another line at this place.
fn line_of_other(alloc: Global, place: usize, line: &[u8]) -> Result<u32, Fault> {
    let text = with_line(alloc, TEXT, place, line)?;
    bad_line(alloc, &text)
}

/// Lines that are wrong, by their places.
static WRONG_LINES: [(usize, &[u8]); 7] = [
    (1, b"litcert 16"),
    (2, b"literals 4097"),
    (3, b"ends 1 2 3 4 5 6 7 8 9 10 11 12 13 14 15 16 17"),
    (13, b"end"),
    (20, b"16 934 583"),
    (21, b"END"),
    (22, b"x"),
];

#[test]
fn names_the_first_bad_line_of_sixteen_rows(rt: HostRuntime) -> Result<(), Fail> {
    for (place, line) in &WRONG_LINES {
        let named = line_of_other(rt.alloc(), *place, line)?;
        assert_eq!(rt; named as usize, *place, "{line:?}");
    }
    Ok(())
}

#[test]
fn takes_up_to_sixteen_ends(rt: HostRuntime) -> Result<(), Fail> {
    let ends = b"ends 1 2 3 4 5 6 7 8 9 10 11 12 13 14 15 16";
    assert_eq!(rt; line_of_other(rt.alloc(), 3, ends)?, 0);
    // The rows after the eighth are too many for eight buckets.
    assert_eq!(rt; line_of_other(rt.alloc(), 1, b"litcert 1")?, 13);
    Ok(())
}
