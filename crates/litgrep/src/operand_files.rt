//! The files that a run opens.
use byte_io::{Missing, Opener};

/// The files of an opener, without the files whose names are not UTF-8: they have no name to open them by, and messages
/// show an escaped name. A file whose name is equal to an escaped name is missing too.
#[derive(Drop)]
pub struct OperandFiles<'a, O: Drop> {
    pub files: O,
    /// The escaped names.
    pub unnamed: &'a [String],
}

impl<'a, O: Opener + Drop> Opener for OperandFiles<'a, O> {
    type Input = O::Input;

    ghost use Rattle.std.specs.Prelude.{None};

    ghost sources = { λ _. None };

    fn open_named(&mut self, name: &str) -> Result<O::Input, Missing> {
        if is_among(self.unnamed, name) {
            return Err(Missing);
        }
        self.files.open_named(name)
    }

    fn standard_input(&mut self) -> O::Input {
        self.files.standard_input()
    }
}

/// Whether one of the texts is this one.
fn is_among(texts: &[String], wanted: &str) -> bool {
    for text in texts {
        if text.as_str() == wanted {
            return true;
        }
    }
    false
}
