//! Why a request is given up.
ghost use Rattle.std.specs.Prelude.{◌≡◌};
ghost use Rattle.scan_core.specs.Faults.{number_of};
ghost use Rattle.scan_core.specs.declared.fault.Fault.TheVariants.{OutOfMemory};

use std::alloc::{AllocError, AllocFailed};
use thiserror::Error;

/// Why a request is given up.
#[derive(Clone, Copy, Debug, PartialEq, Eq, Error)]
pub enum Fault {
    /// A growth was refused.
    #[error("out of memory")]
    OutOfMemory,
}

impl Fault {
    /// The number by which messages name the refusal, the same in every crate.
    pub fn number(&self) -> u8
        ensures { result ≡ number_of self.now }
    {
        match self {
            Fault::OutOfMemory => 1,
        }
    }
}

impl From<AllocError> for Fault {
    ghost from_gives = { λ _ e. e ≡ OutOfMemory };

    fn from(_error: AllocError) -> Fault {
        Fault::OutOfMemory
    }
}

impl<T: Drop> From<AllocFailed<T>> for Fault {
    ghost from_gives = { λ _ e. e ≡ OutOfMemory };

    fn from(_error: AllocFailed<T>) -> Fault {
        Fault::OutOfMemory
    }
}
