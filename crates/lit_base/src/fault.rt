//! Why a list is refused.
ghost use Rattle.std.specs.Prelude.{◌≡◌};
ghost use Rattle.lit_base.specs.Faults.{number_of};
ghost use Rattle.lit_base.specs.declared.fault.Fault.TheVariants.{OutOfMemory};

use std::alloc::{AllocError, AllocFailed};
use thiserror::Error;

/// Why a list of literals is refused.
#[derive(Clone, Copy, Debug, PartialEq, Eq, Error)]
pub enum Fault {
    /// A growth was refused.
    #[error("out of memory")]
    OutOfMemory,
    /// More raw patterns than `MAX_PATTERNS`.
    #[error("too many patterns")]
    TooManyPatterns,
    /// A pattern longer than `MAX_LITERAL_LEN`, with the place that it would have had in the list.
    #[error("pattern {place} is too long")]
    LiteralTooLong { place: usize },
    /// More literals than there may be. No call returns it any more, since a list has no more literals than patterns;
    /// it keeps its number.
    #[error("too many literals")]
    TooManyLiterals,
    /// More pattern bytes than `MAX_LIST_LEN`, or one text longer than `MAX_TEXT_LEN`.
    #[error("the pattern list is too large")]
    ListTooLarge,
}

impl Fault {
    /// The number by which messages name the refusal, the same in every crate.
    pub fn number(&self) -> u8
        ensures { result ≡ number_of self.now }
    {
        match self {
            Fault::OutOfMemory => 1,
            Fault::TooManyPatterns => 2,
            Fault::LiteralTooLong { .. } => 3,
            Fault::TooManyLiterals => 6,
            Fault::ListTooLarge => 7,
        }
    }
}

impl From<AllocError> for Fault {
    ghost from_gives = { λ _ e. e ≡ OutOfMemory };

    fn from(_e: AllocError) -> Fault {
        Fault::OutOfMemory
    }
}

impl<T: Drop> From<AllocFailed<T>> for Fault {
    ghost from_gives = { λ _ e. e ≡ OutOfMemory };

    fn from(_e: AllocFailed<T>) -> Fault {
        Fault::OutOfMemory
    }
}
