//! Texts of certificates read and written, bad lines, and reads that fail.
mod sixteen;

use arrayvec::ArrayVec;
use byte_io::{CutIn, CutOut};
use lit_base::Profile;
use lit_cert::{Certificate, Fault, read_cert, write_cert};
use std::alloc::{AllocError, Global};
use std::test::Fail;

/// The text of the certificate for `cat`, `dog` and `horse`.
const TEXT: &[u8] = b"litcert 1
literals 3
ends 1 2 3
cost 934
1 1559 804 232
2 1036 583 232
3 934 583 232
4 934 583 232
5 934 583 232
6 934 583 232
7 934 583 232
8 934 583 232
end
";

const POTENTIALS: [u64; 24] = [
    1559, 804, 232, 1036, 583, 232, 934, 583, 232, 934, 583, 232, 934, 583, 232, 934, 583, 232,
    934, 583, 232, 934, 583, 232,
];

/// Whether the text is read as the certificate of three literals.
fn is_read_as_three(alloc: Global) -> Result<bool, Fault> {
    let certificate = read_cert(alloc, &mut CutIn::whole(TEXT))?;
    Ok(
        certificate.profile == Profile::Eight
            && certificate.ends.as_slice() == [1, 2, 3].as_slice()
            && certificate.cost == 934
            && certificate.potentials.as_slice() == POTENTIALS.as_slice(),
    )
}

#[test]
fn reads_the_certificate_of_three_literals(rt: HostRuntime) -> Result<(), Fail> {
    assert!(rt; is_read_as_three(rt.alloc())?);
    Ok(())
}

/// The text written of the certificate of three literals where there is room for `room` bytes, and the answer.
fn written_of_three(alloc: Global, room: usize) -> Result<(Vec<u8>, Option<Fault>), AllocError> {
    let mut ends = ArrayVec::new();
    ends.push(1);
    ends.push(2);
    ends.push(3);
    let certificate = Certificate {
        profile: Profile::Eight,
        ends,
        cost: 934,
        potentials: POTENTIALS.to_vec(alloc)?,
    };
    let mut space = vec![in alloc; 0u8; room]?;
    let mut out = CutOut::within(&mut space);
    let fault = write_cert(alloc, &certificate, &mut out).err();
    Ok((out.written().to_vec(alloc)?, fault))
}

#[test]
fn writes_the_text_of_three_literals(rt: HostRuntime) -> Result<(), Fail> {
    let (text, fault) = written_of_three(rt.alloc(), 300)?;
    assert_eq!(rt; fault, None);
    assert!(rt; text.as_slice() == TEXT);
    Ok(())
}

#[test]
fn writes_as_much_of_it_as_there_is_room_for(rt: HostRuntime) -> Result<(), Fail> {
    let (text, fault) = written_of_three(rt.alloc(), 12)?;
    assert_eq!(rt; fault, Some(Fault::WriteFault));
    assert!(rt; text.as_slice() == b"litcert 1\nli".as_slice());
    Ok(())
}

/// The bad line that the reader names, or 0 where it takes the text.
fn bad_line(alloc: Global, text: &[u8]) -> Result<u32, Fault> {
    match read_cert(alloc, &mut CutIn::whole(text)) {
        Ok(_) => Ok(0),
        Err(Fault::BadCertText { line }) => Ok(line),
        Err(fault) => Err(fault),
    }
}

/// The number of the line in which this place of the text lies.
fn line_at(place: usize) -> u32 {
    let mut line = 1u32;
    for byte in &TEXT[..place.min(TEXT.len())] {
        if *byte == b'\n' {
            line = line.wrapping_add(1);
        }
    }
    line
}

/// The text with an `x` at this place.
fn with_letter(alloc: Global, place: usize) -> Result<Vec<u8>, AllocError> {
    let mut text = TEXT.to_vec(alloc)?;
    if let Some(byte) = text.get_mut(place) {
        *byte = b'x';
    }
    Ok(text)
}

/// The bad line of the text with an `x` at this place.
fn line_of_letter(alloc: Global, place: usize) -> Result<u32, Fault> {
    let text = with_letter(alloc, place)?;
    bad_line(alloc, &text)
}

#[test]
fn names_the_line_of_a_letter_at_each_place(rt: HostRuntime) -> Result<(), Fail> {
    for place in 0..TEXT.len() {
        let line = line_of_letter(rt.alloc(), place)?;
        assert_eq!(rt; line, line_at(place), "at {place}");
    }
    Ok(())
}

#[test]
fn names_the_line_that_is_cut_off_or_missing(rt: HostRuntime) -> Result<(), Fail> {
    for len in 0..TEXT.len() {
        let line = bad_line(rt.alloc(), &TEXT[..len])?;
        assert_eq!(rt; line, line_at(len), "of the first {len} bytes");
    }
    Ok(())
}

/// The text with another line at this place, from 1.
fn with_line(alloc: Global, text: &[u8], place: usize, line: &[u8]) -> Result<Vec<u8>, AllocError> {
    let lines: Vec<&[u8]> = text.split(|byte| *byte == b'\n').collect(alloc)?;
    let mut other = Vec::new(alloc);
    for (i, old) in lines.iter().enumerate() {
        if i > 0 {
            other.push(b'\n')?;
        }
        other.extend_from_slice(if i + 1 == place { line } else { old })?;
    }
    Ok(other)
}

/// The bad line of the text of three literals with another line at this place.
fn line_of_other(alloc: Global, place: usize, line: &[u8]) -> Result<u32, Fault> {
    let text = with_line(alloc, TEXT, place, line)?;
    bad_line(alloc, &text)
}

/// Lines that are wrong, by their places in the text of three literals.
static WRONG_LINES: [(usize, &[u8]); 30] = [
    (1, b"litcert 3"),
    (1, b"litcert  1"),
    (1, b" litcert 1"),
    (2, b"literals 0"),
    (2, b"literals 03"),
    (2, b"literals +3"),
    (2, b"literals 4097"),
    (2, b"literals 18446744073709551619"),
    (2, b"literals"),
    (2, b"literals 3 "),
    (2, b"literals 1000000000"),
    (3, b"ends"),
    (3, b"ends "),
    (3, b"ends 1  2"),
    (3, b"ends 65536"),
    (3, b"ends -1"),
    (3, b"ends 00"),
    (3, b"ends 1 2 3 4 5 6 7 8 9"),
    (4, b"cost 18446744073709551616"),
    (4, b"cost 0934"),
    (4, b"cost 9 34"),
    (5, b"01 1559 804 232"),
    (5, b"2 1559 804 232"),
    (5, b"1 1559 804"),
    (5, b"1 1559 804 232 0"),
    (5, b"1"),
    (12, b"8 934 583 18446744073709551616"),
    (13, b"end "),
    (13, b"END"),
    (14, b"x"),
];

#[test]
fn names_the_first_bad_line(rt: HostRuntime) -> Result<(), Fail> {
    for (place, line) in &WRONG_LINES {
        let named = line_of_other(rt.alloc(), *place, line)?;
        assert_eq!(rt; named as usize, *place, "{line:?}");
    }
    Ok(())
}

#[test]
fn names_the_line_that_another_number_makes_wrong(rt: HostRuntime) -> Result<(), Fail> {
    // Sixteen rows are wanted, the ninth in place of the end; and more numbers in each row.
    assert_eq!(rt; line_of_other(rt.alloc(), 1, b"litcert 2")?, 13);
    assert_eq!(rt; line_of_other(rt.alloc(), 2, b"literals 4096")?, 5);
    Ok(())
}

#[test]
fn names_the_line_after_a_break(rt: HostRuntime) -> Result<(), Fail> {
    assert_eq!(rt; line_of_other(rt.alloc(), 3, b"ends 1 2\n3")?, 4);
    assert_eq!(rt; line_of_other(rt.alloc(), 4, b"cost 93\n4")?, 5);
    Ok(())
}

/// Lines of the least and the greatest numbers, by their places.
static EXTREME_LINES: [(usize, &[u8]); 6] = [
    (3, b"ends 0"),
    (3, b"ends 65535 0 7 7 7 1 2 3"),
    (4, b"cost 0"),
    (4, b"cost 18446744073709551615"),
    (5, b"1 0 0 0"),
    (12, b"8 18446744073709551615 0 1"),
];

#[test]
fn takes_each_number_within_its_limit(rt: HostRuntime) -> Result<(), Fail> {
    for (place, line) in &EXTREME_LINES {
        let named = line_of_other(rt.alloc(), *place, line)?;
        assert_eq!(rt; named, 0, "line {place}: {line:?}");
    }
    Ok(())
}

/// The cost of the certificate for three literals, read by 50 bytes, where this call is refused.
fn cost_read_with_refusal(alloc: Global, call: u64) -> Result<u64, Fault> {
    let mut input = CutIn::failing_at(TEXT, call).with_step(50);
    Ok(read_cert(alloc, &mut input)?.cost)
}

/// Whether the reader answers a refusal of this call, or the cost where it makes fewer calls.
fn reports_refusal(alloc: Global, call: u64) -> Result<bool, AllocError> {
    let cost = cost_read_with_refusal(alloc, call);
    if cost == Err(Fault::OutOfMemory) {
        return Err(AllocError);
    }
    // Reads of at most 50 bytes, and the read that finds the end.
    let is_read = call >= TEXT.len().div_ceil(50) as u64 + 1;
    Ok(
        cost == if is_read {
            Ok(934)
        } else {
            Err(Fault::ReadFault)
        },
    )
}

#[test]
fn reports_each_refused_read(rt: HostRuntime) -> Result<(), Fail> {
    for call in 0..9 {
        assert!(rt; reports_refusal(rt.alloc(), call)?, "at call {call}");
    }
    Ok(())
}
