//! Why a certificate could not be read or written.
ghost use Rattle.std.specs.Prelude.{◌≡◌};
ghost use Rattle.lit_cert.specs.Faults.{number_of};

use std::alloc::{AllocError, AllocFailed};
use thiserror::Error;

/// Why a certificate could not be read or written.
#[derive(Clone, Copy, Debug, PartialEq, Eq, Error)]
pub enum Fault {
    /// A growth was refused.
    #[error("out of memory")]
    OutOfMemory,
    /// The text is wrong at this line, from 1.
    #[error("line {line} of the certificate is wrong")]
    BadCertText { line: u32 },
    /// A read failed.
    #[error("a read failed")]
    ReadFault,
    /// A write failed, or took nothing.
    #[error("a write failed")]
    WriteFault,
}

impl Fault {
    /// The number that a message shows for it.
    pub fn number(&self) -> u8
        ensures { result ≡ number_of self.now }
    {
        match self {
            Fault::OutOfMemory => 1,
            Fault::BadCertText { .. } => 9,
            Fault::ReadFault => 17,
            Fault::WriteFault => 18,
        }
    }
}

impl From<AllocError> for Fault {
    ghost use Rattle.std.specs.Prelude.{◌≡◌};
    ghost use Rattle.lit_cert.specs.declared.fault.Fault.TheVariants.{OutOfMemory};

    ghost from_gives = { λ _ e. e ≡ OutOfMemory };

    fn from(_e: AllocError) -> Fault {
        Fault::OutOfMemory
    }
}

impl<T: Drop> From<AllocFailed<T>> for Fault {
    ghost use Rattle.std.specs.Prelude.{◌≡◌};
    ghost use Rattle.lit_cert.specs.declared.fault.Fault.TheVariants.{OutOfMemory};

    ghost from_gives = { λ _ e. e ≡ OutOfMemory };

    fn from(_e: AllocFailed<T>) -> Fault {
        Fault::OutOfMemory
    }
}
