//! The law of hits.
ghost use Rattle.lit_base.specs.Occurrences.{AreOneList};

/// The law that the hits of a list in a text are one list: in their order, by end and then by literal, the occurrences
/// can be listed in one way only.
pub fn hits_law()
    ensures { AreOneList }
{}
