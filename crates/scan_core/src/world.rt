//! What holds of all sessions of a store together.
ghost use Rattle.scan_core.specs.Carried.{EventLaw};
ghost use Rattle.scan_core.specs.Worlds.{WorldLaw};

/// The law that a session needs no more bytes of its streams than its scanners keep. A step by the kept bytes is also a
/// step by all bytes that the streams were fed, with the same replies and the same entry.
pub fn event_law()
    ensures { EventLaw }
{}

/// The law of all runs of any number of sessions over one set of entries. A number has one plan throughout, and an
/// entry stays. The replies to an accepted Feed, apart from the stream's number in them, are a function of two things
/// alone. One is the plan under the number in the last accepted Open of that session and stream. The other is the
/// pieces of its accepted Feeds since.
pub fn world_law()
    ensures { WorldLaw }
{}
