//! Standard input, unless the lines of a run go to the same file.
use std::io::Read;
use std::os::unix::fs::MetadataExt;
use std::rt::Files;
use std::{fs, io};

/// Where the system shows the standard input of this process as a file.
const INPUT: &str = "/proc/self/fd/0";

/// Where it shows the standard output.
const OUTPUT: &str = "/proc/self/fd/1";

/// Standard input, unless it is a file that lines go to: that file would grow as it is read, without end.
#[derive(Clone, Copy)]
pub enum StandardInput<S> {
    /// It can be read.
    Readable(S),
    /// It is the file of standard output. Each read fails.
    Output,
}

impl<S: Read + Drop> StandardInput<S> {
    /// This standard input, with reads that fail if it is the regular file that is standard output too.
    /// Where the system does not show which files they are, it is read.
    pub fn apart_from_output<R: Files>(rt: &R, input: S) -> StandardInput<S> {
        if is_output(rt) {
            StandardInput::Output
        } else {
            StandardInput::Readable(input)
        }
    }
}

impl<S: Read> Read for StandardInput<S> {
    ghost use Rattle.std.specs.Prelude.{None};

    ghost remaining = { λ _. None };

    fn read(&mut self, buf: &mut [u8]) -> io::Result<usize> {
        match self {
            StandardInput::Readable(input) => input.read(buf),
            StandardInput::Output => Err(io::Error::from(io::ErrorKind::InvalidInput)),
        }
    }
}

/// Whether standard input and standard output are one regular file.
fn is_output<R: Files>(rt: &R) -> bool {
    match (fs::metadata(rt, INPUT), fs::metadata(rt, OUTPUT)) {
        (Ok(input), Ok(output)) => {
            input.is_file() && input.dev() == output.dev() && input.ino() == output.ino()
        }
        _ => false,
    }
}
