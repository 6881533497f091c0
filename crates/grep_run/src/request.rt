//! What a run is given, and what it finds.
ghost use Rattle.std.specs.Prelude.{◌≡◌, ◌||◌, false};
ghost use Rattle.grep_run.specs.Scanning.{is_fault};

use crate::compiled_patterns::CompiledPatterns;
use crate::options::GrepOptions;
use std::alloc::Global;

/// The allocator, the options and the patterns of a run.
#[derive(Clone, Copy)]
pub struct Request<'a> {
    pub alloc: Global,
    pub options: &'a GrepOptions,
    pub patterns: &'a CompiledPatterns,
}

/// The findings in inputs.
#[derive(Clone, Copy, Debug, PartialEq, Eq)]
pub struct Found {
    /// A line was selected.
    pub is_selected: bool,
    /// There was an error.
    pub is_error: bool,
}

impl Found {
    /// The findings in no input.
    pub fn nothing() -> Found
        ensures selected { result.is_selected ≡ false }
        ensures error { result.is_error ≡ false }
    {
        Found {
            is_selected: false,
            is_error: false,
        }
    }

    /// The findings in these inputs and in one more.
    pub fn with(self, one: Found) -> Found
        ensures selected { result.is_selected ≡ (self.is_selected || one.is_selected) }
        ensures error { result.is_error ≡ (self.is_error || one.is_error) }
    {
        Found {
            is_selected: self.is_selected || one.is_selected,
            is_error: self.is_error || one.is_error,
        }
    }
}

/// How the lines of an input end.
#[derive(Clone, Copy, Debug, PartialEq, Eq)]
pub enum End {
    /// They came up to the end, or as far as they are wanted.
    Clean,
    /// A read failed, the end did not come in `MAX_TURNS` reads, or there are too many bytes.
    Fault,
}

impl End {
    /// Whether reading ended in a fault.
    pub fn is_fault(self) -> bool
        ensures { result ≡ is_fault self }
    {
        match self {
            End::Clean => false,
            End::Fault => true,
        }
    }
}
