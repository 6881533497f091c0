//! The files of patterns whose plans a plan file holds.
ghost use Rattle.std.specs.Prelude.{◌≡◌, MatchOption, length};
ghost use Rattle.plan_pack.specs.PatternFiles.{AreFiles};

use plan_file::MAX_PLANS;

/// The names of 1 to 64 files of patterns.
#[derive(Debug, Drop)]
pub struct PatternFiles {
    names: Vec<String>,
    ghost bounds: { AreFiles (length names.items) },
}

impl PatternFiles {
    /// The files of these names, if there are 1 to 64.
    pub fn new(names: Vec<String>) -> Option<PatternFiles>
        ensures { MatchOption result (¬ AreFiles (length names.items)) (λ files. files.names ≡ names) }
    {
        if (1..=MAX_PLANS).contains(&names.len()) {
            Some(PatternFiles { names })
        } else {
            None
        }
    }

    /// Their names, in order.
    pub fn names(&self) -> &[String]
        ensures value { result.now ≡ self.now.names.items }
        ensures bounds { AreFiles (length result.now) }
    {
        self.names.as_slice()
    }
}
