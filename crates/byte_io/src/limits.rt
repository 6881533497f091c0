//! The limit of loops over readers.
ghost use Rattle.std.specs.Prelude.{◌≡◌, ◌^◌};

/// Turns of a loop over a reader, at most. Then the reader counts as failed.
pub const MAX_TURNS: u64 = 1 << 40;

/// How many turns those are.
pub fn turns_law()
    ensures { MAX_TURNS ≡ 2 ^ 40 }
{}
