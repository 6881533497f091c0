//! Why a plan is refused, or a scan stops.
ghost use Rattle.std.specs.Prelude.{◌≡◌};
ghost use Rattle.lit_plan.specs.Faults.{number_of};
ghost use Rattle.lit_plan.specs.declared.fault.Fault.TheVariants.{OutOfMemory};

use lit_cert::Reason;
use std::alloc::AllocError;
use thiserror::Error;

/// Why a plan is refused, or a scan stops.
#[derive(Clone, Copy, Debug, PartialEq, Eq, Error)]
pub enum Fault {
    /// A growth was refused.
    #[error("out of memory")]
    OutOfMemory,
    /// The certificate does not show that its grouping is the cheapest.
    #[error("the plan is not certified: {reason}")]
    NotCertified { reason: Reason },
    /// The position in the stream would pass 2^64 - 1.
    #[error("the stream is too long")]
    StreamTooLong,
}

impl Fault {
    /// The number by which messages name the fault, the same in every crate.
    pub fn number(&self) -> u8
        ensures { result ≡ number_of self.now }
    {
        match self {
            Fault::OutOfMemory => 1,
            Fault::NotCertified { .. } => 8,
            Fault::StreamTooLong => 20,
        }
    }
}

impl From<AllocError> for Fault {
    ghost from_gives = { λ _ e. e ≡ OutOfMemory };

    fn from(_e: AllocError) -> Fault {
        Fault::OutOfMemory
    }
}
