//! What each limit, each refused call and each place of a fault makes of a transfer.
use byte_io::{
    ByteIn, ByteOut, CutIn, CutOut, Failed, MAX_TURNS, ReadError, read_to_end, write_all,
};
use std::alloc::Global;

const TEXT: &[u8] = b"abcdefg";

/// The answer to a transfer, and how many bytes from the start of `TEXT` it moved, if it moved no others.
type Moved<E> = (Result<(), E>, Option<usize>);

/// How many bytes these are, if `TEXT` begins with them.
fn len_in_text(bytes: &[u8]) -> Option<usize> {
    if TEXT.starts_with(bytes) {
        return Some(bytes.len());
    }
    None
}

/// How many bytes there are after the old bytes, if `TEXT` begins with them.
fn len_after(old: &[u8], bytes: &[u8]) -> Option<usize> {
    len_in_text(bytes.strip_prefix(old)?)
}

/// Reads to the end of the input, after old bytes.
fn read_after(
    alloc: Global,
    old: &[u8],
    mut input: CutIn<'_>,
    limit: usize,
) -> Result<Moved<ReadError>, ReadError> {
    let mut text = old.to_vec(alloc)?;
    match read_to_end(&mut input, limit, &mut text) {
        Err(ReadError::OutOfMemory) => Err(ReadError::OutOfMemory),
        answer => Ok((answer, len_after(old, &text))),
    }
}

/// The bytes and the answer wanted with this limit.
fn wanted_within(limit: usize) -> Moved<ReadError> {
    if limit < 7 {
        return (Err(ReadError::TooLong), Some(limit + 1));
    }
    (Ok(()), Some(7))
}

/// The first limit and number of bytes a call at which something else is read.
fn first_wrong_limit(alloc: Global) -> Result<Option<(usize, usize)>, ReadError> {
    for limit in 0..9 {
        for step in 1..9 {
            let input = CutIn::whole(TEXT).with_step(step);
            if read_after(alloc, b"old", input, limit)? != wanted_within(limit) {
                return Ok(Some((limit, step)));
            }
        }
    }
    Ok(None)
}

#[test]
fn reads_as_many_bytes_as_the_limit_and_one_more(rt: HostRuntime) {
    assert_eq!(rt; first_wrong_limit(rt.alloc()), Ok(None));
}

/// The bytes and the answer wanted with this limit, where each read after `count` bytes fails.
fn wanted_before(count: usize, limit: usize) -> Moved<ReadError> {
    if limit < count {
        return (Err(ReadError::TooLong), Some(limit + 1));
    }
    (Err(ReadError::Failed), Some(count))
}

/// The first number of bytes before a fault, and limit, at which something else is read.
fn first_wrong_fault(alloc: Global) -> Result<Option<(usize, usize)>, ReadError> {
    for count in 0..8 {
        for limit in 0..9 {
            let input = CutIn::failing_after(TEXT, count).with_step(2);
            if read_after(alloc, b"", input, limit)? != wanted_before(count, limit) {
                return Ok(Some((count, limit)));
            }
        }
    }
    Ok(None)
}

#[test]
fn keeps_the_bytes_before_a_fault(rt: HostRuntime) {
    assert_eq!(rt; first_wrong_fault(rt.alloc()), Ok(None));
}

/// The bytes and the answer wanted where the read of this number fails: there are four of at most two bytes, and a last
/// that finds the end.
fn wanted_of_reads(call: u8) -> Moved<ReadError> {
    if call < 5 {
        return (Err(ReadError::Failed), Some(7.min(2 * call as usize)));
    }
    (Ok(()), Some(7))
}

/// The first read at whose fault something else is read.
fn first_wrong_read(alloc: Global) -> Result<Option<u8>, ReadError> {
    for call in 0..7 {
        let input = CutIn::failing_at(TEXT, call as u64).with_step(2);
        if read_after(alloc, b"", input, 100)? != wanted_of_reads(call) {
            return Ok(Some(call));
        }
    }
    Ok(None)
}

#[test]
fn answers_each_refused_read(rt: HostRuntime) {
    assert_eq!(rt; first_wrong_read(rt.alloc()), Ok(None));
}

/// Whether a text of `len` bytes is read to its end, and as it is.
fn is_read_whole(alloc: Global, len: usize) -> Result<bool, ReadError> {
    let long = vec![in alloc; b'x'; len]?;
    let mut text = Vec::new(alloc);
    read_to_end(&mut CutIn::whole(&long), len, &mut text)?;
    Ok(text == long)
}

#[test]
fn reads_a_text_longer_than_one_read(rt: HostRuntime) {
    assert_eq!(rt; is_read_whole(rt.alloc(), 49_157), Ok(true));
}

/// Writes `TEXT`.
fn written(mut out: CutOut<'_>) -> Moved<Failed> {
    let answer = write_all(&mut out, TEXT);
    (answer, len_in_text(out.written()))
}

/// The bytes and the answer wanted where the write of this number fails, of three of at most three bytes.
fn wanted_of_writes(call: u8) -> Moved<Failed> {
    if call < 3 {
        return (Err(Failed), Some(3 * call as usize));
    }
    (Ok(()), Some(7))
}

/// The first write at whose fault something else is written.
fn first_wrong_write() -> Option<u8> {
    for call in 0..5 {
        let mut room = [0; 16];
        let out = CutOut::failing_at(&mut room, call as u64).with_step(3);
        if written(out) != wanted_of_writes(call) {
            return Some(call);
        }
    }
    None
}

#[test]
fn answers_each_refused_write(rt: HostRuntime) {
    assert_eq!(rt; first_wrong_write(), None);
}

/// The bytes and the answer wanted where there is room for `len` bytes.
fn wanted_in_room(len: usize) -> Moved<Failed> {
    if len < 7 {
        return (Err(Failed), Some(len));
    }
    (Ok(()), Some(7))
}

/// The first room in which something else is written.
fn first_wrong_room() -> Option<usize> {
    for len in 0..9 {
        let mut room = [0; 16];
        if written(CutOut::within(&mut room[..len])) != wanted_in_room(len) {
            return Some(len);
        }
    }
    None
}

#[test]
fn writes_as_much_as_there_is_room_for(rt: HostRuntime) {
    assert_eq!(rt; first_wrong_room(), None);
}

#[test]
fn knows_its_limit(rt: HostRuntime) {
    assert_eq!(rt; MAX_TURNS, 1_099_511_627_776);
}
