//! What a scan finds.
use std::marker::Model;

/// A literal that ends at a position of a stream. Hits are ordered by their ends, and by literal where they end
/// together.
#[derive(Clone, Copy, Debug, PartialEq, Eq)]
pub struct Hit {
    /// The literal's place in the normal form.
    pub lit: u16,
    /// How many bytes the stream has up to the literal's end.
    pub end_at: u64,
}

/// A contract sees the pair of both.
impl Model for Hit {
    ghost use Rattle.std.specs.Prelude.{ℕ};

    ghost Value = { ℕ × ℕ };

    ghost view = { λ h. (h.lit, h.end_at) };

    ghost inverse = { λ h. record { lit = h.0; end_at = h.1 } };
}
