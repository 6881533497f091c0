//! The handle of a stream.
ghost use Rattle.std.specs.Prelude.{◌≡◌, MatchOption, None, Some, Option};
ghost use Rattle.c_handle.specs.declared.states.OpenStream.{OpenStream};
ghost use Rattle.c_handle.specs.Streams.{handle_owns, held_coded};

use crate::block::Block;
use crate::states::OpenStream;
use std::alloc::Global;
use std::marker::Model;
use std::mem::replace;
use std::ptr::null_mut;

/// A variable of a C program that owns a stream, or is null. In C it is a struct with one pointer, and all zero where
/// it is null.
#[repr(C)]
pub struct StreamHandle {
    at: *mut u8,
    alloc: Global,
    pub ghost held: { Option OpenStream } by { held_coded },
}

impl Model for StreamHandle {
    ghost also_owns = { λ h. handle_owns h.alloc h.at h.held };
}

impl StreamHandle {
    /// The null handle.
    pub fn empty(alloc: Global) -> StreamHandle
        ensures { result.held ≡ None }
    {
        StreamHandle {
            at: null_mut(),
            alloc,
        }
    }

    /// A handle of the value in a block.
    fn of_block(block: Block<OpenStream, Global>) -> StreamHandle
        ensures { result.held ≡ Some block.value }
    {
        let Block { at, alloc } = block;
        StreamHandle {
            at: at as *mut u8,
            alloc,
        }
    }

    /// The block, unless the handle is null.
    fn into_block(self) -> Option<Block<OpenStream, Global>>
        ensures { MatchOption result (self.held ≡ None) (λ block. self.held ≡ Some block.value) }
    {
        let StreamHandle { at, alloc } = self;
        if at.is_null() {
            None
        } else {
            Some(Block {
                at: at as *mut OpenStream,
                alloc,
            })
        }
    }

    /// A handle of the value in a box.
    pub fn full(held: Box<OpenStream>) -> StreamHandle
        ensures { result.held ≡ Some held.value }
    {
        StreamHandle::of_block(Block::from_box(held))
    }

    /// The box, unless the handle is null.
    pub fn into_box(self) -> Option<Box<OpenStream>>
        ensures { MatchOption result (self.held ≡ None) (λ b. self.held ≡ Some b.value) }
    {
        match self.into_block() {
            None => None,
            Some(block) => Some(block.into_box()),
        }
    }

    /// Takes the stream out of the handle, and leaves it null.
    pub fn take(&mut self, alloc: Global) -> Option<Box<OpenStream>>
        ensures taken { MatchOption result (self.old.held ≡ None) (λ b. self.old.held ≡ Some b.value) }
        ensures null { self.new.held ≡ None }
    {
        replace(self, StreamHandle::empty(alloc)).into_box()
    }

    /// Puts a stream into the handle. The stream that it had before is freed.
    pub fn put(&mut self, held: Box<OpenStream>)
        ensures { self.new.held ≡ Some held.value }
    {
        drop(replace(self, StreamHandle::full(held)));
    }
}

/// A derived drop would free nothing, since the pointer alone does not say that it owns.
impl Drop for StreamHandle {
    fn drop(self) {
        drop(self.into_box());
    }
}

unsafe impl Send for StreamHandle {}
