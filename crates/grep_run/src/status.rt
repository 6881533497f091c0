//! How a run of grep ends.
ghost use Rattle.std.specs.Prelude.{◌≡◌};
ghost use Rattle.grep_run.specs.Statuses.{code_of};
ghost use Rattle.grep_run.specs.declared.status.Stop.TheVariants.{OutOfMemory, WriteFault};

use byte_io::Failed;
use std::alloc::{AllocError, AllocFailed};

/// How a run of grep ends. POSIX.1-2017 `grep`, EXIT STATUS.
#[derive(Clone, Copy, Debug, PartialEq, Eq)]
pub enum Status {
    /// A line was selected, and there was no error or -q was given: 0.
    Selected,
    /// No line was selected, and there was no error: 1.
    NoneSelected,
    /// There was an error, and under -q no line was selected: 2.
    Trouble,
}

impl Status {
    /// The status that the program exits with.
    pub fn code(self) -> u8
        ensures { result ≡ code_of self }
    {
        match self {
            Status::Selected => 0,
            Status::NoneSelected => 1,
            Status::Trouble => 2,
        }
    }
}

/// Why a run stops before its end.
#[derive(Clone, Copy, Debug, PartialEq, Eq)]
pub enum Stop {
    /// A write failed.
    WriteFault,
    /// A growth was refused.
    OutOfMemory,
}

impl From<Failed> for Stop {
    ghost from_gives = { λ _ e. e ≡ WriteFault };

    fn from(_error: Failed) -> Stop {
        Stop::WriteFault
    }
}

impl From<AllocError> for Stop {
    ghost from_gives = { λ _ e. e ≡ OutOfMemory };

    fn from(_error: AllocError) -> Stop {
        Stop::OutOfMemory
    }
}

impl<T: Drop> From<AllocFailed<T>> for Stop {
    ghost from_gives = { λ _ e. e ≡ OutOfMemory };

    fn from(_error: AllocFailed<T>) -> Stop {
        Stop::OutOfMemory
    }
}
