//! Faults of a plan file, and why plans could not be read or written.
ghost use Rattle.std.specs.Prelude.{◌≡◌};
ghost use Rattle.plan_file.specs.Faults.{number_of};
ghost use Rattle.plan_file.specs.Reading.{wrong_at};
ghost use Rattle.plan_file.specs.declared.fault.Stop.TheVariants.{Wrong as is_wrong};

use lit_cert::Reason;
use std::alloc::{AllocError, AllocFailed};
use thiserror::Error;

/// A fault of a field of a plan file, or of the whole entry that it ends.
#[derive(Clone, Copy, Debug, PartialEq, Eq, Error)]
pub enum Cause {
    /// The field is not whole, whatever its bytes are.
    #[error("the file ends within a field")]
    Short,
    /// The file does not begin with `LPLF`.
    #[error("it does not begin as plan files do")]
    Magic,
    /// The version is neither 1 nor 2.
    #[error("its version is unknown")]
    Version,
    /// More than 64 plans, no literal, or more literals than the version allows: 1,024 or 4,096.
    #[error("a number of plans or of literals is out of range")]
    Count,
    /// A flag is set that has no meaning in the version.
    #[error("an unknown flag is set")]
    Flags,
    /// The length of a literal is 0 or above 4,095, or takes the list past 1,048,576 bytes; or a
    /// letter is not folded.
    #[error("a literal is out of range or not folded")]
    Literal,
    /// A literal is not after the one before it.
    #[error("the literals are not in order")]
    Order,
    /// No run, or more than the profile has buckets.
    #[error("the number of runs is out of range")]
    Runs,
    /// The certificate of an entry does not hold.
    #[error("a plan is not certified: {reason}")]
    NotCertified { reason: Reason },
    /// Bytes follow the last entry.
    #[error("bytes follow the last plan")]
    Trailing,
}

/// Why plans could not be read or written.
#[derive(Clone, Copy, Debug, PartialEq, Eq, Error)]
pub enum Fault {
    /// A growth was refused.
    #[error("out of memory")]
    OutOfMemory,
    /// The file is wrong at this byte, from 0.
    #[error("byte {place} of the plan file is wrong: {cause}")]
    BadPlanFile { place: usize, cause: Cause },
    /// A read failed.
    #[error("a read failed")]
    ReadFault,
    /// A write failed, or took nothing.
    #[error("a write failed")]
    WriteFault,
}

impl Fault {
    /// The number by which messages name the fault, the same in every crate.
    pub fn number(&self) -> u8
        ensures { result ≡ number_of self.now }
    {
        match self {
            Fault::OutOfMemory => 1,
            Fault::BadPlanFile { .. } => 10,
            Fault::ReadFault => 17,
            Fault::WriteFault => 18,
        }
    }
}

impl From<AllocError> for Fault {
    ghost use Rattle.std.specs.Prelude.{◌≡◌};
    ghost use Rattle.plan_file.specs.declared.fault.Fault.TheVariants.{OutOfMemory};

    ghost from_gives = { λ _ e. e ≡ OutOfMemory };

    fn from(_error: AllocError) -> Fault {
        Fault::OutOfMemory
    }
}

impl<T: Drop> From<AllocFailed<T>> for Fault {
    ghost use Rattle.std.specs.Prelude.{◌≡◌};
    ghost use Rattle.plan_file.specs.declared.fault.Fault.TheVariants.{OutOfMemory};

    ghost from_gives = { λ _ e. e ≡ OutOfMemory };

    fn from(_error: AllocFailed<T>) -> Fault {
        Fault::OutOfMemory
    }
}

/// A fault, and where it is.
#[derive(Clone, Copy, Debug, PartialEq, Eq)]
pub struct Wrong {
    /// How many bytes of the text come from the start of the wrong field on.
    pub left: usize,
    /// What is wrong.
    pub cause: Cause,
}

/// Why reading stops.
#[derive(Clone, Copy, Debug, PartialEq, Eq)]
pub enum Stop {
    /// A growth was refused.
    OutOfMemory,
    /// A field is wrong.
    Wrong(Wrong),
}

impl From<AllocError> for Stop {
    ghost use Rattle.std.specs.Prelude.{◌≡◌};
    ghost use Rattle.plan_file.specs.declared.fault.Stop.TheVariants.{OutOfMemory};

    ghost from_gives = { λ _ e. e ≡ OutOfMemory };

    fn from(_error: AllocError) -> Stop {
        Stop::OutOfMemory
    }
}

impl<T: Drop> From<AllocFailed<T>> for Stop {
    ghost use Rattle.std.specs.Prelude.{◌≡◌};
    ghost use Rattle.plan_file.specs.declared.fault.Stop.TheVariants.{OutOfMemory};

    ghost from_gives = { λ _ e. e ≡ OutOfMemory };

    fn from(_error: AllocFailed<T>) -> Stop {
        Stop::OutOfMemory
    }
}

/// The cause, at the field that begins these bytes.
pub fn stop_at(bytes: &[u8], cause: Cause) -> Stop
    ensures { result ≡ is_wrong (wrong_at cause bytes.now) }
{
    Stop::Wrong(Wrong {
        left: bytes.len(),
        cause,
    })
}
