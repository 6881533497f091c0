//! Plan files of both versions, written, read back, cut and altered.
use byte_io::{CutIn, CutOut};
use list_plan::compile;
use lit_base::{Fold, LitList, Profile, RawList};
use lit_cert::Reason;
use lit_plan::Compiled;
use plan_file::{Cause, Fault, decode, encode, read_back, read_plans, write_plans};
use std::alloc::{AllocError, Global};
use std::test::Fail;

/// The file of one plan: of the literal `a`, with eight buckets.
pub(crate) const ONE: [u8; 89] = [
    0x4C, 0x50, 0x4C, 0x46, 0x00, 0x02, 0x00, 0x01, // LPLF, version 2, one plan
    0x00, 0x00, 0x01, // no folding, eight buckets, one literal
    0x00, 0x01, 0x61, // `a`
    0x01, 0x00, 0x01, // one run, which ends at 1
    0x00, 0x00, 0x00, 0x00, 0x00, 0x00, 0x10, 0xC8, // cost 4296
    0x00, 0x00, 0x00, 0x00, 0x00, 0x00, 0x10, 0xC8, // the potentials of rows 1 to 8
    0x00, 0x00, 0x00, 0x00, 0x00, 0x00, 0x10, 0xC8, 0x00, 0x00, 0x00, 0x00, 0x00, 0x00, 0x10, 0xC8,
    0x00, 0x00, 0x00, 0x00, 0x00, 0x00, 0x10, 0xC8, 0x00, 0x00, 0x00, 0x00, 0x00, 0x00, 0x10, 0xC8,
    0x00, 0x00, 0x00, 0x00, 0x00, 0x00, 0x10, 0xC8, 0x00, 0x00, 0x00, 0x00, 0x00, 0x00, 0x10, 0xC8,
    0x00, 0x00, 0x00, 0x00, 0x00, 0x00, 0x10, 0xC8,
];

/// The same plan with sixteen buckets.
const SIXTEEN: [u8; 153] = [
    0x4C, 0x50, 0x4C, 0x46, 0x00, 0x02, 0x00, 0x01, // LPLF, version 2, one plan
    0x02, 0x00, 0x01, // no folding, sixteen buckets, one literal
    0x00, 0x01, 0x61, // `a`
    0x01, 0x00, 0x01, // one run, which ends at 1
    0x00, 0x00, 0x00, 0x00, 0x00, 0x00, 0x10, 0xC8, // cost 4296
    0x00, 0x00, 0x00, 0x00, 0x00, 0x00, 0x10, 0xC8, // the potentials of rows 1 to 16
    0x00, 0x00, 0x00, 0x00, 0x00, 0x00, 0x10, 0xC8, 0x00, 0x00, 0x00, 0x00, 0x00, 0x00, 0x10, 0xC8,
    0x00, 0x00, 0x00, 0x00, 0x00, 0x00, 0x10, 0xC8, 0x00, 0x00, 0x00, 0x00, 0x00, 0x00, 0x10, 0xC8,
    0x00, 0x00, 0x00, 0x00, 0x00, 0x00, 0x10, 0xC8, 0x00, 0x00, 0x00, 0x00, 0x00, 0x00, 0x10, 0xC8,
    0x00, 0x00, 0x00, 0x00, 0x00, 0x00, 0x10, 0xC8, 0x00, 0x00, 0x00, 0x00, 0x00, 0x00, 0x10, 0xC8,
    0x00, 0x00, 0x00, 0x00, 0x00, 0x00, 0x10, 0xC8, 0x00, 0x00, 0x00, 0x00, 0x00, 0x00, 0x10, 0xC8,
    0x00, 0x00, 0x00, 0x00, 0x00, 0x00, 0x10, 0xC8, 0x00, 0x00, 0x00, 0x00, 0x00, 0x00, 0x10, 0xC8,
    0x00, 0x00, 0x00, 0x00, 0x00, 0x00, 0x10, 0xC8, 0x00, 0x00, 0x00, 0x00, 0x00, 0x00, 0x10, 0xC8,
    0x00, 0x00, 0x00, 0x00, 0x00, 0x00, 0x10, 0xC8,
];

/// The file of one plan in version 1.
fn old() -> [u8; 89] {
    let mut text = ONE;
    text[5] = 0x01;
    text
}

/// Whether a text is refused at this place for this cause.
fn is_wrong(alloc: Global, text: &[u8], place: usize, cause: Cause) -> Result<bool, AllocError> {
    match decode(alloc, text) {
        Err(Fault::OutOfMemory) => Err(AllocError),
        Err(fault) => Ok(fault == Fault::BadPlanFile { place, cause }),
        Ok(_) => Ok(false),
    }
}

/// Whether a file with one byte altered is refused so.
fn is_wrong_with(
    alloc: Global,
    file: [u8; 89],
    at: usize,
    byte: u8,
    place: usize,
    cause: Cause,
) -> Result<bool, AllocError> {
    let mut text = file;
    if at < text.len() {
        text[at] = byte;
    }
    is_wrong(alloc, &text, place, cause)
}

/// Whether the file of each version with one byte altered is refused so.
fn are_wrong_with(
    alloc: Global,
    at: usize,
    byte: u8,
    place: usize,
    cause: Cause,
) -> Result<bool, AllocError> {
    Ok(
        is_wrong_with(alloc, ONE, at, byte, place, cause)?
            && is_wrong_with(alloc, old(), at, byte, place, cause)?,
    )
}

/// Whether a file is read as one plan, which is written as another file.
fn is_read_and_written(alloc: Global, file: &[u8], written: &[u8]) -> Result<bool, Fault> {
    let plans = decode(alloc, file)?;
    let text = encode(alloc, &plans)?;
    Ok(plans.len() == 1 && text.as_slice() == written)
}

#[test]
fn reads_and_writes_the_file_of_one_literal(rt: HostRuntime) -> Result<(), Fail> {
    assert!(rt; is_read_and_written(rt.alloc(), &ONE, &ONE)?);
    Ok(())
}

#[test]
fn reads_and_writes_the_file_of_sixteen_buckets(rt: HostRuntime) -> Result<(), Fail> {
    assert!(rt; is_read_and_written(rt.alloc(), &SIXTEEN, &SIXTEEN)?);
    Ok(())
}

#[test]
fn writes_version_2_of_a_file_of_version_1(rt: HostRuntime) -> Result<(), Fail> {
    assert!(rt; is_read_and_written(rt.alloc(), &old(), &ONE)?);
    Ok(())
}

/// The file of sixteen buckets said to be of version 1.
fn sixteen_in_version_1() -> [u8; 153] {
    let mut text = SIXTEEN;
    text[5] = 0x01;
    text
}

#[test]
fn refuses_what_version_1_cannot_express(rt: HostRuntime) -> Result<(), Fail> {
    let alloc = rt.alloc();
    assert!(rt; is_wrong(alloc, &sixteen_in_version_1(), 8, Cause::Flags)?);
    assert!(rt; is_wrong_with(alloc, old(), 8, 0x02, 8, Cause::Flags)?);
    assert!(rt; is_wrong_with(alloc, old(), 9, 0x04, 9, Cause::Count)?);
    Ok(())
}

#[test]
fn refuses_what_version_2_cannot_express(rt: HostRuntime) -> Result<(), Fail> {
    let alloc = rt.alloc();
    assert!(rt; is_wrong_with(alloc, ONE, 8, 0x04, 8, Cause::Flags)?);
    assert!(rt; is_wrong_with(alloc, ONE, 9, 0x10, 9, Cause::Count)?);
    assert!(rt; is_wrong_with(alloc, ONE, 8, 0x02, 89, Cause::Short)?);
    Ok(())
}

#[test]
fn refuses_each_altered_field_of_the_head(rt: HostRuntime) -> Result<(), Fail> {
    let alloc = rt.alloc();
    assert!(rt; are_wrong_with(alloc, 0, 0x00, 0, Cause::Magic)?);
    assert!(rt; are_wrong_with(alloc, 3, 0x00, 0, Cause::Magic)?);
    assert!(rt; are_wrong_with(alloc, 5, 0x00, 4, Cause::Version)?);
    assert!(rt; are_wrong_with(alloc, 5, 0x03, 4, Cause::Version)?);
    assert!(rt; are_wrong_with(alloc, 7, 0x41, 6, Cause::Count)?);
    Ok(())
}

#[test]
fn refuses_each_altered_field_of_the_literals(rt: HostRuntime) -> Result<(), Fail> {
    let alloc = rt.alloc();
    assert!(rt; are_wrong_with(alloc, 8, 0x80, 8, Cause::Flags)?);
    assert!(rt; are_wrong_with(alloc, 10, 0x00, 9, Cause::Count)?);
    assert!(rt; are_wrong_with(alloc, 12, 0x00, 11, Cause::Literal)?);
    assert!(rt; are_wrong_with(alloc, 11, 0x10, 11, Cause::Literal)?);
    Ok(())
}

#[test]
fn refuses_each_altered_field_of_the_certificate(rt: HostRuntime) -> Result<(), Fail> {
    let alloc = rt.alloc();
    let ends = Reason::Ends;
    let total = Reason::Total;
    let end_row = Reason::EndRow { r: 1, p: 0 };
    assert!(rt; are_wrong_with(alloc, 14, 0x09, 14, Cause::Runs)?);
    assert!(rt; are_wrong_with(alloc, 16, 0x02, 8, Cause::NotCertified { reason: ends })?);
    assert!(rt; are_wrong_with(alloc, 24, 0xC9, 8, Cause::NotCertified { reason: total })?);
    assert!(rt; are_wrong_with(alloc, 32, 0xC9, 8, Cause::NotCertified { reason: end_row })?);
    Ok(())
}

/// A prefix of a file of version 1, with nine runs after the literals `a` to `i`.
const NINE_RUNS: [u8; 39] = [
    0x4C, 0x50, 0x4C, 0x46, 0x00, 0x01, 0x00, 0x01, 0x00, 0x00, 0x09, 0x00, 0x01, 0x61, 0x00, 0x01,
    0x62, 0x00, 0x01, 0x63, 0x00, 0x01, 0x64, 0x00, 0x01, 0x65, 0x00, 0x01, 0x66, 0x00, 0x01, 0x67,
    0x00, 0x01, 0x68, 0x00, 0x01, 0x69, 0x09,
];

/// The same in version 2, with the profile of sixteen buckets and nine or more runs.
fn runs_of_sixteen(runs: u8) -> [u8; 39] {
    let mut text = NINE_RUNS;
    text[5] = 0x02;
    text[8] = 0x02;
    text[38] = runs;
    text
}

#[test]
fn refuses_more_runs_than_the_profile_has_buckets(rt: HostRuntime) -> Result<(), Fail> {
    let alloc = rt.alloc();
    assert!(rt; is_wrong(alloc, &NINE_RUNS, 38, Cause::Runs)?);
    assert!(rt; is_wrong(alloc, &runs_of_sixteen(9), 39, Cause::Short)?);
    assert!(rt; is_wrong(alloc, &runs_of_sixteen(17), 38, Cause::Runs)?);
    Ok(())
}

/// The plan of the literals `a` to `i`.
fn nine_letters(alloc: Global, profile: Profile) -> Option<Compiled> {
    let mut raw = RawList::new(alloc);
    raw.add_text_list(b"a\nb\nc\nd\ne\nf\ng\nh\ni\n").ok()?;
    let (list, _) = LitList::normal(alloc, &raw, Fold::No).ok()?;
    compile(alloc, list, profile).ok()
}

/// The profile and the cost of that plan once it was read back, if it is written again as it was.
fn read_again(alloc: Global, profile: Profile) -> Option<(Profile, u64)> {
    let made = [nine_letters(alloc, profile)?];
    let text = encode(alloc, &made).ok()?;
    let plans = read_back(alloc, &made).ok()?;
    let again = encode(alloc, &plans).ok()?;
    if again.as_slice() != text.as_slice() {
        return None;
    }
    let certificate = plans.first()?.certificate();
    Some((certificate.profile, certificate.cost))
}

#[test]
fn reads_nine_letters_of_both_profiles_as_they_were_written(rt: HostRuntime) {
    let (eight, sixteen) = (Profile::Eight, Profile::Sixteen);
    assert_eq!(rt; read_again(rt.alloc(), eight), Some((eight, 46656)));
    assert_eq!(rt; read_again(rt.alloc(), sixteen), Some((sixteen, 38664)));
}

/// The file with the literal `A` under folding.
fn unfolded() -> [u8; 89] {
    let mut text = ONE;
    text[8] = 0x01;
    text[13] = 0x41;
    text
}

#[test]
fn refuses_an_unfolded_letter_at_its_own_place(rt: HostRuntime) -> Result<(), Fail> {
    assert!(rt; is_wrong(rt.alloc(), &unfolded(), 13, Cause::Literal)?);
    Ok(())
}

/// The first byte of the field in which this byte of the file lies.
fn field_at(place: usize) -> usize {
    match place {
        0..=3 => 0,
        4..=5 => 4,
        6..=7 => 6,
        8 => 8,
        9..=10 => 9,
        11..=12 => 11,
        13 => 13,
        14 => 14,
        15..=16 => 15,
        17.. => 17 + (place - 17) / 8 * 8,
    }
}

/// The first prefix of a file that is not refused as short at its first field that is not whole.
fn prefix_that_passes(alloc: Global, file: &[u8]) -> Result<Option<usize>, AllocError> {
    for len in 0..file.len() {
        if !is_wrong(alloc, &file[..len], field_at(len), Cause::Short)? {
            return Ok(Some(len));
        }
    }
    Ok(None)
}

#[test]
fn refuses_each_prefix_as_short(rt: HostRuntime) -> Result<(), Fail> {
    assert_eq!(rt; prefix_that_passes(rt.alloc(), &ONE)?, None);
    assert_eq!(rt; prefix_that_passes(rt.alloc(), &old())?, None);
    assert_eq!(rt; prefix_that_passes(rt.alloc(), &SIXTEEN)?, None);
    Ok(())
}

/// Whether the file with one byte more is refused at that byte.
fn refuses_a_byte_more(alloc: Global) -> Result<bool, Fail> {
    let mut text = ONE.to_vec(alloc)?;
    text.push(0)?;
    Ok(is_wrong(alloc, &text, 89, Cause::Trailing)?)
}

#[test]
fn refuses_a_byte_after_the_last_plan(rt: HostRuntime) -> Result<(), Fail> {
    assert!(rt; refuses_a_byte_more(rt.alloc())?);
    Ok(())
}

/// A prefix of a file, whose literals `b` and `a` are not in order.
const NOT_IN_ORDER: [u8; 17] = [
    0x4C, 0x50, 0x4C, 0x46, 0x00, 0x02, 0x00, 0x01, 0x00, 0x00, 0x02, 0x00, 0x01, 0x62, 0x00, 0x01,
    0x61,
];

/// The same with the literal `b` twice.
const TWICE: [u8; 17] = [
    0x4C, 0x50, 0x4C, 0x46, 0x00, 0x02, 0x00, 0x01, 0x00, 0x00, 0x02, 0x00, 0x01, 0x62, 0x00, 0x01,
    0x62,
];

#[test]
fn refuses_literals_that_do_not_rise(rt: HostRuntime) -> Result<(), Fail> {
    assert!(rt; is_wrong(rt.alloc(), &NOT_IN_ORDER, 14, Cause::Order)?);
    assert!(rt; is_wrong(rt.alloc(), &TWICE, 14, Cause::Order)?);
    Ok(())
}

/// A prefix of a file with 257 rising literals of 4,095 bytes; the last does not fit.
fn too_many_bytes(alloc: Global) -> Result<Vec<u8>, Fail> {
    let mut text = vec![in alloc;
        0x4C, 0x50, 0x4C, 0x46, 0x00, 0x02, 0x00, 0x01, 0x00, 0x01, 0x01,
    ]?;
    let zeros = vec![in alloc; 0u8; 4093]?;
    for number in 0u16..257 {
        text.extend_from_slice(&[0x0F, 0xFF])?;
        text.extend_from_slice(&zeros)?;
        text.extend_from_slice(&number.to_be_bytes())?;
    }
    Ok(text)
}

#[test]
fn refuses_the_literal_that_passes_the_bytes_of_a_list(rt: HostRuntime) -> Result<(), Fail> {
    let text = too_many_bytes(rt.alloc())?;
    assert!(rt; is_wrong(rt.alloc(), &text, 1_048_843, Cause::Literal)?);
    Ok(())
}

/// The file of no plans.
const NONE: [u8; 8] = [0x4C, 0x50, 0x4C, 0x46, 0x00, 0x02, 0x00, 0x00];

/// Whether the file of no plans is read and written as such.
fn none_is_read_and_written(alloc: Global) -> Result<bool, Fault> {
    let plans = decode(alloc, &NONE)?;
    let text = encode(alloc, &plans)?;
    Ok(plans.is_empty() && text.as_slice() == NONE.as_slice())
}

#[test]
fn reads_and_writes_the_file_of_no_plans(rt: HostRuntime) -> Result<(), Fail> {
    assert!(rt; none_is_read_and_written(rt.alloc())?);
    Ok(())
}

/// The file of the plan of `a` twice, and the place of its second entry.
fn two_of_it(alloc: Global) -> Result<Vec<u8>, Fail> {
    let mut text = ONE.to_vec(alloc)?;
    text.extend_from_slice(&ONE[8..])?;
    text[7] = 2;
    Ok(text)
}

/// Whether two plans are read, and a flag of the second one is refused at its place.
fn two_are_read(alloc: Global) -> Result<bool, Fail> {
    let mut text = two_of_it(alloc)?;
    let count = decode(alloc, &text)?.len();
    let is_long = text.len() == 170;
    if !is_long {
        return Ok(false);
    }
    text[89] = 0x80;
    Ok(count == 2 && is_wrong(alloc, &text, 89, Cause::Flags)?)
}

#[test]
fn reads_two_plans_and_reports_places_in_the_second(rt: HostRuntime) -> Result<(), Fail> {
    assert!(rt; two_are_read(rt.alloc())?);
    Ok(())
}

/// Whether two plans are written as the file that they were read from.
fn two_are_written(alloc: Global) -> Result<bool, Fail> {
    let text = two_of_it(alloc)?;
    let plans = decode(alloc, &text)?;
    Ok(encode(alloc, &plans)?.as_slice() == text.as_slice())
}

#[test]
fn writes_two_plans_as_they_were_read(rt: HostRuntime) -> Result<(), Fail> {
    assert!(rt; two_are_written(rt.alloc())?);
    Ok(())
}

/// The bytes written of the plans of a file to a device with room for `room` bytes, and whether that is a fault.
fn written_within(alloc: Global, file: &[u8], room: usize) -> Result<(Vec<u8>, bool), Fail> {
    let plans = decode(alloc, file)?;
    let mut space = vec![in alloc; 0u8; room]?;
    let mut out = CutOut::within(&mut space);
    let fails = match write_plans(alloc, &plans, &mut out) {
        Err(Fault::OutOfMemory) => return Err(Fault::OutOfMemory.into()),
        answer => answer == Err(Fault::WriteFault),
    };
    Ok((out.written().to_vec(alloc)?, fails))
}

#[test]
fn writes_the_file_to_a_device(rt: HostRuntime) -> Result<(), Fail> {
    let (text, fails) = written_within(rt.alloc(), &ONE, 100)?;
    assert!(rt; !fails);
    assert!(rt; text.as_slice() == ONE.as_slice());
    Ok(())
}

#[test]
fn writes_the_file_of_two_plans_to_a_device(rt: HostRuntime) -> Result<(), Fail> {
    let two = two_of_it(rt.alloc())?;
    let (text, fails) = written_within(rt.alloc(), &two, 200)?;
    assert!(rt; !fails);
    assert!(rt; text.as_slice() == two.as_slice());
    Ok(())
}

#[test]
fn reports_a_write_that_fails(rt: HostRuntime) -> Result<(), Fail> {
    let (text, fails) = written_within(rt.alloc(), &ONE, 20)?;
    assert!(rt; fails);
    assert!(rt; text.as_slice() == &ONE[..20]);
    Ok(())
}

/// How many plans a device gives, or its fault.
fn plans_in(alloc: Global, mut input: CutIn<'_>) -> Result<usize, Fault> {
    Ok(read_plans(alloc, &mut input)?.len())
}

#[test]
fn reads_the_file_from_a_device(rt: HostRuntime) {
    assert_eq!(rt;
        plans_in(rt.alloc(), CutIn::whole(&ONE).with_step(7)),
        Ok(1)
    );
}

#[test]
fn reports_the_fault_of_what_a_device_gave(rt: HostRuntime) {
    let short = Fault::BadPlanFile {
        place: 81,
        cause: Cause::Short,
    };
    assert_eq!(rt; plans_in(rt.alloc(), CutIn::whole(&ONE[..88])), Err(short));
}

#[test]
fn reports_a_read_that_fails(rt: HostRuntime) {
    assert_eq!(rt;
        plans_in(rt.alloc(), CutIn::failing_after(&ONE, 40)),
        Err(Fault::ReadFault)
    );
    assert_eq!(rt;
        plans_in(rt.alloc(), CutIn::failing_at(&ONE, 0)),
        Err(Fault::ReadFault)
    );
}
