//! The files and the standard input of the system.
use crate::device::{ByteIn, ByteOut};
use crate::files::Files;
use crate::opener::{Missing, Opener};
use crate::std_device::{FileOrInput, FromRead, ToWrite};
use std::fs::{File, Metadata, OpenFile};
use std::io::Read;
use std::os::unix::fs::MetadataExt;
use std::{fs, io};

/// Where the system shows the standard output of this process as a file.
const OUTPUT: &str = "/proc/self/fd/1";

/// Which file it is, whatever its name is: a device, and a number on it.
#[derive(Clone, Copy, Debug, PartialEq, Eq)]
struct FileId {
    device: u64,
    inode: u64,
}

/// The files of the system, and its standard input. Contracts say nothing of their contents.
///
/// Standard input is a handle of a few bytes. A reader with a buffer of its own takes as much room where a file stands
/// in its place, and 10,000 small files then take 1.35 times as long.
#[derive(Drop)]
pub struct SystemFiles<'a, R, S: Drop> {
    rt: &'a R,
    standard: S,
    output: Option<FileId>,
}

impl<'a, R: std::rt::Files, S: Read + Copy + Drop> SystemFiles<'a, R, S> {
    /// The files of the system, and this as its standard input.
    pub fn new(rt: &'a R, standard: S) -> SystemFiles<'a, R, S> {
        SystemFiles {
            rt,
            standard,
            output: None,
        }
    }

    /// The files of the system, except a regular file that is also standard output: a run that copies this file into
    /// itself never ends. Its names are missing, for reading. Standard input is read whatever it is.
    pub fn without_output(self) -> SystemFiles<'a, R, S> {
        SystemFiles {
            output: regular_id(fs::metadata(self.rt, OUTPUT)),
            ..self
        }
    }

    /// Whether the file is also standard output.
    fn is_output(&self, file: &R::File) -> bool {
        self.output.is_some() && regular_id(file.metadata()) == self.output
    }
}

impl<'a, R: std::rt::Files, S: Read + Copy + Drop> Opener for SystemFiles<'a, R, S> {
    type Input = FromRead<FileOrInput<R::File, S>>;

    ghost use Rattle.std.specs.Prelude.{None};

    ghost sources = { λ _. None };

    fn open_named(&mut self, name: &str) -> Result<Self::Input, Missing> {
        match File::open(self.rt, name) {
            Ok(file) if self.is_output(&file) => Err(Missing),
            Ok(file) => Ok(FromRead::new(FileOrInput::File(file))),
            Err(_) => Err(Missing),
        }
    }

    fn standard_input(&mut self) -> Self::Input {
        FromRead::new(FileOrInput::Input(self.standard))
    }
}

impl<'a, R: std::rt::Files, S: Read + Copy + Drop> Files for SystemFiles<'a, R, S> {
    type Output = ToWrite<R::File>;

    fn create_named(&mut self, name: &str) -> Result<Self::Output, Missing> {
        match fs::create(self.rt, name) {
            Ok(file) => Ok(ToWrite::new(file)),
            Err(_) => Err(Missing),
        }
    }
}

/// Which file these facts are of, if it is a regular one.
fn regular_id(metadata: io::Result<Metadata>) -> Option<FileId> {
    match metadata {
        Ok(facts) if facts.is_file() => Some(FileId {
            device: facts.dev(),
            inode: facts.ino(),
        }),
        _ => None,
    }
}
