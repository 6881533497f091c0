//! Faults of a frame, and refused growths.
ghost use Rattle.std.specs.Prelude.{◌≡◌};
ghost use Rattle.scan_wire.specs.Faults.{cause_number, number_of};
ghost use Rattle.scan_wire.specs.declared.fault.Fault.TheVariants.{OutOfMemory};

use std::alloc::{AllocError, AllocFailed};
use thiserror::Error;

/// The fault of a frame: the first that holds, in this order.
#[derive(Clone, Copy, Debug, PartialEq, Eq, Error)]
pub enum Cause {
    /// The length is below 5 or above 65,541.
    #[error("its length is out of range")]
    Length,
    /// No request has the kind.
    #[error("no request has its kind")]
    Kind,
    /// A Publish has a stream that is not 0.
    #[error("it publishes on a stream")]
    Stream,
    /// The payload is not one of its kind, or is not filled exactly.
    #[error("its payload is not one of its kind")]
    Payload,
}

impl Cause {
    /// The number that a Refused reply gives for it.
    pub fn number(&self) -> u8
        ensures { result ≡ cause_number self.now }
    {
        match self {
            Cause::Length => 1,
            Cause::Kind => 2,
            Cause::Stream => 3,
            Cause::Payload => 4,
        }
    }
}

/// Why requests could not be read, or a reply could not be written.
#[derive(Clone, Copy, Debug, PartialEq, Eq, Error)]
pub enum Fault {
    /// A growth was refused.
    #[error("out of memory")]
    OutOfMemory,
    /// A frame is wrong.
    #[error("a frame is wrong: {cause}")]
    BadFrame { cause: Cause },
}

impl Fault {
    /// The number that a message or a Refused reply shows for it.
    pub fn number(&self) -> u8
        ensures { result ≡ number_of self.now }
    {
        match self {
            Fault::OutOfMemory => 1,
            Fault::BadFrame { .. } => 11,
        }
    }
}

impl From<AllocError> for Fault {
    ghost from_gives = { λ _ e. e ≡ OutOfMemory };

    fn from(_error: AllocError) -> Fault {
        Fault::OutOfMemory
    }
}

impl<T: Drop> From<AllocFailed<T>> for Fault {
    ghost from_gives = { λ _ e. e ≡ OutOfMemory };

    fn from(_error: AllocFailed<T>) -> Fault {
        Fault::OutOfMemory
    }
}
