//! Why lines are not emitted.
ghost use Rattle.std.specs.Prelude.{◌≡◌};
ghost use Rattle.line_pick.specs.Faults.{number_of};
ghost use Rattle.line_pick.specs.declared.fault.Fault.TheVariants.{OutOfMemory};

use std::alloc::AllocError;
use thiserror::Error;

/// Why lines are not emitted.
#[derive(Clone, Copy, Debug, PartialEq, Eq, Error)]
pub enum Fault {
    /// A growth was refused.
    #[error("out of memory")]
    OutOfMemory,
    /// The sink could not write a line.
    #[error("a write failed")]
    WriteFault,
    /// The bytes fed would pass 2^64 - 1.
    #[error("the stream is too long")]
    StreamTooLong,
}

impl Fault {
    /// The number by which messages name the fault, the same in every crate.
    pub fn number(&self) -> u8
        ensures { result ≡ number_of self.now }
    {
        match self {
            Fault::OutOfMemory => 1,
            Fault::WriteFault => 18,
            Fault::StreamTooLong => 20,
        }
    }
}

impl From<AllocError> for Fault {
    ghost from_gives = { λ _ e. e ≡ OutOfMemory };

    fn from(_error: AllocError) -> Fault {
        Fault::OutOfMemory
    }
}
