//! A sample of a stream that comes in small pieces.

use crate::tuning::LEAST_SAMPLE;
use std::alloc::{AllocError, Global};

/// Bytes of pieces that are too short to tune by, one after the other. It takes all its memory when it is made.
#[derive(Debug, Drop)]
pub(crate) struct Sample {
    bytes: Vec<u8>,
}

impl Sample {
    /// No bytes, and room for `LEAST_SAMPLE`.
    pub fn new(alloc: Global) -> Result<Sample, AllocError> {
        Ok(Sample {
            bytes: Vec::with_capacity(alloc, LEAST_SAMPLE)?,
        })
    }

    /// Adds the bytes of a piece, up to the room. Returns whether the sample is full, and so long enough to tune by.
    pub fn add(&mut self, piece: &[u8]) -> bool {
        let room = LEAST_SAMPLE.saturating_sub(self.bytes.len());
        let (prefix, _) = piece.split_at(room.min(piece.len()));
        self.bytes.extend_from_slice(prefix).is_ok() && self.bytes.len() >= LEAST_SAMPLE
    }

    /// The bytes that were gathered.
    pub fn text(&self) -> &[u8] {
        self.bytes.as_slice()
    }

    /// Forgets the bytes.
    pub fn clear(&mut self) {
        self.bytes.clear();
    }
}
