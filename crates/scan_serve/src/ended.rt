//! How serving ends.

/// How serving a stream ended.
#[derive(Clone, Copy, Debug, PartialEq, Eq)]
pub enum Ended {
    /// The input ended between frames, and everything was answered.
    Clean,
    /// The input ended inside a frame. All frames before it were answered.
    Truncated,
    /// A frame was bad. All frames before it were answered, and then its refusal was written.
    Bad,
    /// A read failed. All whole frames were answered.
    ReadFault,
    /// A write failed. A prefix of the replies was written, and a reply is missing.
    WriteFault,
    /// A growth was refused. A prefix of the replies was written. A reply is missing, or a frame was not answered, or
    /// nothing was read.
    OutOfMemory,
}
