//! Files of the system: a file that is there opens, another is missing, and a file that is made holds the bytes written
//! to it.
use byte_io::{Files, Missing, Opener, ReadError, SystemFiles, read_to_end, write_all};
use std::fs;
use std::path::PathBuf;
use std::test::Fail;

/// Whether a file of the name can be made and given these bytes.
fn is_made(rt: &HostRuntime, name: &str, bytes: &[u8]) -> bool {
    match SystemFiles::new(rt, rt.stdin()).create_named(name) {
        Ok(mut made) => write_all(&mut made, bytes).is_ok(),
        Err(Missing) => false,
    }
}

/// What the file of the name gives to its end, if it opens; the name is removed before it is read.
fn text_of(rt: &HostRuntime, name: &str) -> Result<Vec<u8>, Fail> {
    let opened = SystemFiles::new(rt, rt.stdin()).open_named(name);
    fs::remove_file(rt, name)?;
    let mut file = opened.map_err(|_| "it is there")?;
    let mut text = Vec::new(rt.alloc());
    read_to_end(&mut file, 100, &mut text)?;
    Ok(text)
}

#[test]
fn makes_a_file_and_opens_it(rt: HostRuntime) -> Result<(), Fail> {
    let path = path_of(&rt, "made")?;
    let name = path.as_path().as_str();
    assert!(rt; is_made(&rt, name, b"two\nlines"));
    let text = text_of(&rt, name)?;
    assert_eq!(rt; text.as_slice(), b"two\nlines".as_slice());
    Ok(())
}

/// Whether a file of the name opens.
fn is_there(rt: &HostRuntime, name: &str) -> bool {
    SystemFiles::new(rt, rt.stdin()).open_named(name).is_ok()
}

/// How the reading of a folder fails, if it opens.
fn fault_of_folder(rt: &HostRuntime) -> Option<ReadError> {
    let opened = SystemFiles::new(rt, rt.stdin()).open_named("/");
    let mut text = Vec::new(rt.alloc());
    read_to_end(&mut opened.ok()?, 100, &mut text).err()
}

#[test]
fn reports_what_is_missing(rt: HostRuntime) -> Result<(), Fail> {
    let path = path_of(&rt, "missing")?;
    assert!(rt; !is_there(&rt, path.as_path().as_str()));
    assert!(rt; !is_made(&rt, "/", b""));
    // A directory opens, and its reading fails.
    assert_eq!(rt; fault_of_folder(&rt), Some(ReadError::Failed));
    Ok(())
}

/// A path of this process alone.
fn path_of(rt: &HostRuntime, word: &str) -> Result<PathBuf, Fail> {
    let mut path = std::env::temp_dir(rt)?;
    path.push(format!(in rt.alloc();
        "byte_io_{word}_{}",
        std::process::id(rt.process())
    )?.as_str())?;
    Ok(path)
}
