//! Why a scan by several workers stops.
ghost use Rattle.std.specs.Prelude.{◌≡◌};
ghost use Rattle.par_scan.specs.Faults.{number_of};
ghost use Rattle.par_scan.specs.declared.fault.Fault.TheVariants.{OutOfMemory};

use std::alloc::AllocError;
use thiserror::Error;

/// Why a scan by several workers stops.
#[derive(Clone, Copy, Debug, PartialEq, Eq, Error)]
pub enum Fault {
    /// A growth was refused.
    #[error("out of memory")]
    OutOfMemory,
}

impl Fault {
    /// The number by which messages name the fault, the same in every crate.
    pub fn number(&self) -> u8
        ensures { result ≡ number_of self.now }
    {
        match self {
            Fault::OutOfMemory => 1,
        }
    }
}

impl From<AllocError> for Fault {
    ghost from_gives = { λ _ e. e ≡ OutOfMemory };

    fn from(_error: AllocError) -> Fault {
        Fault::OutOfMemory
    }
}
