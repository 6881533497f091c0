//! Files: what a program reads, and new files that it writes.
ghost use Rattle.std.specs.Prelude.{◌≡◌, IfOk, IfSome, false};
ghost use Rattle.byte_io.specs.Devices.{IfKnown};
ghost use Rattle.byte_io.specs.Sources.{Created, CreatesAs, after, can_create};

use crate::device::ByteOut;
use crate::opener::{Missing, Opener};

/// The files that a command reads and writes: an opener that makes files too.
///
/// Its `sources` also have the names under which a file can be made. A file that is made is one of the asks, in order
/// with the others. Its device knows the bytes that were written to it.
pub trait Files: Opener {
    /// The writer of a file that is made.
    type Output: ByteOut + Drop;

    /// Makes the file of a name, or empties it, for writing.
    ///
    /// # Errors
    /// `Missing` where none can be made.
    fn create_named(&mut self, name: &str) -> Result<Self::Output, Missing>
        ensures takes { IfKnown (Self.sources self.old) (Self.sources self.new) (λ old new. new ≡ after (Created name.now) old) }
        ensures gives { IfSome (Self.sources self.old) (λ s. CreatesAs Self.Output.written (can_create name.now s.creatable) result) }
        ensures fresh { IfOk result (λ output. Self.Output.has_failed output ≡ false) };
}
