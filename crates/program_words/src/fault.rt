//! Why the words of a command line ask for nothing.
ghost use Rattle.std.specs.Prelude.{◌≡◌, MatchResult};
ghost use Rattle.program_words.specs.Faults.{number_of};
ghost use Rattle.program_words.specs.declared.fault.Fault.TheVariants.{OutOfMemory, Usage};

use std::alloc::AllocError;
use thiserror::Error;

/// Why the words of a command line ask for nothing.
#[derive(Debug, Drop, Error)]
pub enum Fault {
    /// The words are no command. The text is what the program prints about them.
    #[error("{text}")]
    Usage { text: String },
    /// A growth was refused.
    #[error("out of memory")]
    OutOfMemory,
}

impl Fault {
    /// The fault with this text, if there was memory for it.
    pub fn usage(text: Result<String, AllocError>) -> Fault
        ensures { MatchResult text (λ t. result ≡ Usage t) (λ _. result ≡ OutOfMemory) }
    {
        match text {
            Ok(text) => Fault::Usage { text },
            Err(_) => Fault::OutOfMemory,
        }
    }

    /// The number of the refusal, the same in every crate.
    pub fn number(&self) -> u8
        ensures { result ≡ number_of self.now }
    {
        match self {
            Fault::OutOfMemory => 1,
            Fault::Usage { .. } => 19,
        }
    }
}

impl From<AllocError> for Fault {
    ghost from_gives = { λ _ e. e ≡ OutOfMemory };

    fn from(_error: AllocError) -> Fault {
        Fault::OutOfMemory
    }
}
