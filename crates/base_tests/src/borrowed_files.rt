//! Borrowed files: what stands under a name, once, and then nothing.
use byte_io::{
    BorrowedFiles, CutIn, CutOut, Failed, Files, Opener, ReadError, read_to_end, write_all,
};
use std::alloc::{AllocError, Global};

/// Files of `one` under `f`, of nothing under `g`, and of a standard input whose first read fails.
fn files(alloc: Global) -> Result<BorrowedFiles<'static>, AllocError> {
    let named = vec![in alloc; ("f", Some(CutIn::whole(b"one"))), ("g", None)]?;
    let standard = vec![in alloc; CutIn::failing_at(b"two", 0)]?;
    Ok(BorrowedFiles::new(named, standard, Vec::new(alloc)))
}

/// Whether `one` stands under the name, if anything does.
fn is_one(
    alloc: Global,
    files: &mut BorrowedFiles<'static>,
    name: &str,
) -> Result<Option<bool>, ReadError> {
    let Ok(mut input) = files.open_named(name) else {
        return Ok(None);
    };
    let mut text = Vec::new(alloc);
    read_to_end(&mut input, 100, &mut text)?;
    Ok(Some(text.as_slice() == b"one".as_slice()))
}

/// How many bytes standard input gives, if no read fails.
fn len_of_input(
    alloc: Global,
    files: &mut BorrowedFiles<'static>,
) -> Result<Option<usize>, ReadError> {
    let mut text = Vec::new(alloc);
    match read_to_end(&mut files.standard_input(), 100, &mut text) {
        Ok(()) => Ok(Some(text.len())),
        Err(ReadError::Failed) => Ok(None),
        Err(error) => Err(error),
    }
}

/// What stands under `g`, under `f`, and under `f` again.
fn are_one_in_turn(
    alloc: Global,
    files: &mut BorrowedFiles<'static>,
) -> Result<[Option<bool>; 3], ReadError> {
    let first = is_one(alloc, files, "g")?;
    let second = is_one(alloc, files, "f")?;
    Ok([first, second, is_one(alloc, files, "f")?])
}

/// That, and after it what standard input gives twice.
fn given_in_turn(alloc: Global) -> Result<([Option<bool>; 3], [Option<usize>; 2]), ReadError> {
    let mut files = files(alloc)?;
    let named = are_one_in_turn(alloc, &mut files)?;
    let first = len_of_input(alloc, &mut files)?;
    Ok((named, [first, len_of_input(alloc, &mut files)?]))
}

#[test]
fn gives_what_stands_under_a_name_in_order(rt: HostRuntime) {
    let wanted = ([None, Some(true), None], [None, Some(0)]);
    assert_eq!(rt; given_in_turn(rt.alloc()), Ok(wanted));
}

/// The answers of a file to `abc` and to `de`, and whether it then has the first four bytes.
type Written = (Result<(), Failed>, Result<(), Failed>, bool);

fn written(mut made: CutOut<'_>) -> Written {
    let first = write_all(&mut made, b"abc");
    let second = write_all(&mut made, b"de");
    (first, second, made.written() == b"abcd".as_slice())
}

/// Files of the bytes under `f`, to be written.
fn files_in(alloc: Global, bytes: &mut [u8]) -> Result<BorrowedFiles<'_>, AllocError> {
    let mut creatable = Vec::new(alloc);
    creatable.push(("f", Some(CutOut::within(bytes))))?;
    Ok(BorrowedFiles::new(Vec::new(alloc), Vec::new(alloc), creatable))
}

/// The answers of a file made in four bytes, if it is, and whether it can be made again.
fn made_in_turn(alloc: Global) -> Result<(Option<Written>, bool), ReadError> {
    let mut bytes = [0; 4];
    let mut files = files_in(alloc, &mut bytes)?;
    let first = files.create_named("f").ok().map(written);
    Ok((first, files.create_named("f").is_ok()))
}

#[test]
fn makes_files_in_borrowed_bytes(rt: HostRuntime) {
    let wanted = (Some((Ok(()), Err(Failed), true)), false);
    assert_eq!(rt; made_in_turn(rt.alloc()), Ok(wanted));
}
