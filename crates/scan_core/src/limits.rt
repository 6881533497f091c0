//! How much one session may have.
ghost use Rattle.scan_core.specs.Limits.{LimitsLaw};

/// Plans that one session may publish.
pub const MAX_PLANS: usize = 64;

/// Streams that one session may have open.
pub const MAX_STREAMS: usize = 64;

/// The law of the limits of one session.
pub fn limits_law()
    ensures { LimitsLaw }
{}
