//! Why a list was not planned.

ghost use Rattle.std.specs.Prelude.{◌≡◌};
ghost use Rattle.run_planner.specs.Faults.{number_of};
ghost use Rattle.run_planner.specs.declared.fault.Fault.TheVariants.{OutOfMemory};

use std::alloc::{AllocError, AllocFailed};
use thiserror::Error;

/// Why a list was not planned.
#[derive(Clone, Copy, Debug, PartialEq, Eq, Error)]
pub enum Fault {
    /// A growth was refused.
    #[error("out of memory")]
    OutOfMemory,
    /// There is no literal, and so no cut.
    #[error("no literals")]
    NoLiterals,
}

impl Fault {
    /// The number by which messages name the refusal, the same in every crate.
    pub fn number(&self) -> u8
        ensures { result ≡ number_of self.now }
    {
        match self {
            Fault::OutOfMemory => 1,
            Fault::NoLiterals => 5,
        }
    }
}

impl From<AllocError> for Fault {
    ghost from_gives = { λ _ e. e ≡ OutOfMemory };

    fn from(_e: AllocError) -> Fault {
        Fault::OutOfMemory
    }
}

impl<T: Drop> From<AllocFailed<T>> for Fault {
    ghost from_gives = { λ _ e. e ≡ OutOfMemory };

    fn from(_e: AllocFailed<T>) -> Fault {
        Fault::OutOfMemory
    }
}
