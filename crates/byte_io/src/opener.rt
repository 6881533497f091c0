//! Openers: what a program's input comes from.
ghost use Rattle.std.specs.Prelude.{◌≡◌, IfOk, IfSome, Some, false};
ghost use Rattle.byte_io.specs.Devices.{IfKnown};
ghost use Rattle.byte_io.specs.Sources.{Named, OpensAs, Standard, after, ask_of, coming_of, content_of, source_of, taken_by};

use crate::device::ByteIn;

/// A name under which no file can be opened or made, for a reason that is not given: a message names only the file.
#[derive(Clone, Copy, Debug, PartialEq, Eq)]
pub struct Missing;

/// What input comes from: files by their names, and standard input.
pub trait Opener {
    ghost use Rattle.std.specs.Prelude.{Option};
    ghost use Rattle.byte_io.specs.Sources.{Sources};

    /// The reader of an input.
    type Input: ByteIn + Drop;

    /// The sources still to come under each name and on standard input, and the asks made so far, in order, if they are
    /// known.
    ghost sources: { Self → Option Sources };

    /// Opens the file of a name, for reading: the next source under it.
    ///
    /// # Errors
    /// `Missing` where it cannot be opened.
    fn open_named(&mut self, name: &str) -> Result<Self::Input, Missing>
        ensures takes { IfKnown (sources self.old) (sources self.new) (λ old new. new ≡ after (Named name.now) old) }
        ensures gives { IfSome (sources self.old) (λ s. OpensAs Self.Input.coming (source_of name.now s.named) result) }
        ensures fresh { IfOk result (λ input. Self.Input.has_failed input ≡ false) };

    /// Standard input, asked for anew: its next source.
    fn standard_input(&mut self) -> Self::Input
        ensures takes { IfKnown (sources self.old) (sources self.new) (λ old new. new ≡ after Standard old) }
        ensures gives { IfSome (sources self.old) (λ s. Self.Input.coming result ≡ Some (coming_of (content_of s.standard))) }
        ensures fresh { Self.Input.has_failed result ≡ false };
}

/// The input of an operand: `-` is standard input, and another word the name of a file.
///
/// # Errors
/// `Missing` where the file cannot be opened.
pub fn open_operand<O: Opener>(opener: &mut O, operand: &str) -> Result<O::Input, Missing>
    ensures takes { IfKnown (O.sources opener.old) (O.sources opener.new) (λ old new. new ≡ after (ask_of operand.now) old) }
    ensures gives { IfSome (O.sources opener.old) (λ s. OpensAs O.Input.coming (taken_by (ask_of operand.now) s) result) }
    ensures fresh { IfOk result (λ input. O.Input.has_failed input ≡ false) }
{
    if operand == "-" {
        Ok(opener.standard_input())
    } else {
        opener.open_named(operand)
    }
}
