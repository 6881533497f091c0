//! Why a call has no result.
ghost use Rattle.std.specs.Prelude.{◌≡◌};
ghost use Rattle.plan_pack.specs.declared.stop.Stop.TheVariants.{OutOfMemory};

use lit_base::Fault;
use plan_file::Cause;
use std::alloc::AllocError;

/// Why a file is refused.
#[derive(Clone, Copy, Debug)]
pub enum Refusal<'a> {
    /// The file of this name cannot be opened, made, read or written.
    Unusable(&'a str),
    /// The patterns of the file are refused.
    Patterns(Fault),
    /// A line of this file, from 1, should be hexadecimal and is not.
    NotHex { file: &'a str, line: usize },
    /// There is no literal to plan or to search for.
    NoLiterals,
    /// What stands for the certificate is no certificate's text: this line is the first wrong one.
    NoCertificate { line: u32 },
    /// What stands for the plan file is none: the field at this byte, from 0, is wrong.
    NoPlanFile { place: usize, cause: Cause },
    /// The plan file of this name has no plan of this number, from 0.
    NoPlan { file: &'a str, place: usize },
}

/// Why a call has no result.
#[derive(Clone, Copy, Debug)]
pub enum Stop<'a> {
    /// A file is refused.
    Refused(Refusal<'a>),
    /// A growth was refused.
    OutOfMemory,
}

impl From<AllocError> for Stop<'_> {
    ghost from_gives = { λ _ e. e ≡ OutOfMemory };

    fn from(_error: AllocError) -> Self {
        Stop::OutOfMemory
    }
}
