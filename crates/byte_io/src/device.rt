//! Devices: what bytes are read from and written to, and the flag of a failed call.
ghost use Rattle.std.specs.Prelude.{◌≡◌, ℕ, ◌+◌, ◌<◌, ◌≤◌, ◌||◌, List, length, Bool, Option, IfOk, is_err};
ghost use Rattle.std.specs.Io.KnownBytes.{WriteAppends};
ghost use Rattle.byte_io.specs.Devices.{Coming, ReadGives, IfKnown, count_of};

/// A call of a device that failed, for a reason that is not given: the message that follows names only the file.
#[derive(Clone, Copy, Debug, PartialEq, Eq)]
pub struct Failed;

/// What bytes are read from.
pub trait ByteIn {
    /// The bytes to come and how they end, if they are known.
    ghost coming: { Self → Option Coming };

    /// How many bytes it has given.
    ghost given: { Self → ℕ };

    /// Whether a call has failed.
    ghost has_failed: { Self → Bool };

    /// Reads some of the next bytes into the start of the buffer, and returns how many. 0 into a nonempty buffer is the
    /// end.
    fn read_some(&mut self, buf: &mut [u8]) -> Result<usize, Failed>
        ensures within { IfOk result (λ n. n ≤ length buf.new) }
        ensures bytes { IfKnown (coming self.old) (coming self.new)
            (λ old new. ReadGives old new result buf.new) }
        ensures count { given self.new ≡ given self.old + count_of result }
        ensures flag { has_failed self.new ≡ (has_failed self.old || is_err result) };
}

/// What bytes are written to.
pub trait ByteOut {
    /// The bytes written, if they are known.
    ghost written: { Self → Option (List ℕ) };

    /// Whether a call has failed.
    ghost has_failed: { Self → Bool };

    /// Writes some bytes from the start of the piece, and returns how many. To take nothing of a nonempty piece is a
    /// failure.
    fn write_some(&mut self, piece: &[u8]) -> Result<usize, Failed>
        ensures within { IfOk result (λ n. n ≤ length piece.now) }
        ensures takes { 0 < length piece.now → IfOk result (λ n. 0 < n) }
        ensures bytes { WriteAppends (written self.old) (written self.new) result piece.now }
        ensures flag { has_failed self.new ≡ (has_failed self.old || is_err result) };
}
