//! The block of a box, which the handles take over from it and give back.
ghost use Rattle.std.specs.Prelude.{◌≡◌};
ghost use Rattle.std.specs.Box.Ownership.{box_owns};

use std::alloc::Allocator;
use std::marker::Model;

/// A block with a value, and the allocator that frees it. It owns both, as the box did.
pub struct Block<T, A: Allocator> {
    pub(crate) at: *mut T,
    pub(crate) alloc: A,
    pub ghost value: { T },
}

impl<T, A: Allocator> Model for Block<T, A> {
    ghost also_owns = { λ block. box_owns (A.dealloc_token block.alloc) T.row block.at block.value };
}

impl<T, A: Allocator> Block<T, A> {
    /// The block that a box is in.
    pub fn from_box(held: Box<T, A>) -> Block<T, A>
    where
        T: Drop,
        ensures { result.value ≡ held.value }
    {
        let (at, alloc) = Box::into_raw_with_allocator(held);
        Block { at, alloc }
    }

    /// The box that is in this block.
    pub fn into_box(self) -> Box<T, A>
        ensures { result.value ≡ self.value }
    {
        let Block { at, alloc } = self;
        unsafe { Box::from_raw(alloc, at) }
    }
}
