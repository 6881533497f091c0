//! Laws of frames. Each is a call whose contract is the law, and which does nothing.
ghost use Rattle.scan_wire.specs.Limits.{LimitsLaw};

/// The law of the limits of frames.
pub fn limits_law()
    ensures { LimitsLaw }
{}
