//! The handle of a plan.
ghost use Rattle.std.specs.Prelude.{◌≡◌, MatchOption, None, Some, Option};
ghost use Rattle.c_handle.specs.declared.states.SharedPlan.{SharedPlan};
ghost use Rattle.c_handle.specs.Plans.{handle_owns, held_coded};

use crate::block::Block;
use crate::states::SharedPlan;
use std::alloc::Global;
use std::marker::Model;
use std::mem::replace;
use std::ptr::null_mut;

/// A variable of a C program that owns a plan, or is null. In C it is a struct with one pointer, and all zero where it
/// is null.
#[repr(C)]
pub struct PlanHandle {
    at: *mut u8,
    alloc: Global,
    pub ghost held: { Option SharedPlan } by { held_coded },
}

impl Model for PlanHandle {
    ghost also_owns = { λ h. handle_owns h.alloc h.at h.held };
}

impl PlanHandle {
    /// The null handle.
    pub fn empty(alloc: Global) -> PlanHandle
        ensures { result.held ≡ None }
    {
        PlanHandle {
            at: null_mut(),
            alloc,
        }
    }

    /// A handle of the value in a block.
    fn of_block(block: Block<SharedPlan, Global>) -> PlanHandle
        ensures { result.held ≡ Some block.value }
    {
        let Block { at, alloc } = block;
        PlanHandle {
            at: at as *mut u8,
            alloc,
        }
    }

    /// The block, unless the handle is null.
    fn into_block(self) -> Option<Block<SharedPlan, Global>>
        ensures { MatchOption result (self.held ≡ None) (λ block. self.held ≡ Some block.value) }
    {
        let PlanHandle { at, alloc } = self;
        if at.is_null() {
            None
        } else {
            Some(Block {
                at: at as *mut SharedPlan,
                alloc,
            })
        }
    }

    /// A handle of the value in a box.
    pub fn full(held: Box<SharedPlan>) -> PlanHandle
        ensures { result.held ≡ Some held.value }
    {
        PlanHandle::of_block(Block::from_box(held))
    }

    /// The box, unless the handle is null.
    pub fn into_box(self) -> Option<Box<SharedPlan>>
        ensures { MatchOption result (self.held ≡ None) (λ b. self.held ≡ Some b.value) }
    {
        match self.into_block() {
            None => None,
            Some(block) => Some(block.into_box()),
        }
    }

    /// Takes the plan out of the handle, and leaves it null.
    pub fn take(&mut self, alloc: Global) -> Option<Box<SharedPlan>>
        ensures taken { MatchOption result (self.old.held ≡ None) (λ b. self.old.held ≡ Some b.value) }
        ensures null { self.new.held ≡ None }
    {
        replace(self, PlanHandle::empty(alloc)).into_box()
    }

    /// Puts a plan into the handle. The plan that it had before is freed.
    pub fn put(&mut self, held: Box<SharedPlan>)
        ensures { self.new.held ≡ Some held.value }
    {
        drop(replace(self, PlanHandle::full(held)));
    }
}

/// A derived drop would free nothing, since the pointer alone does not say that it owns.
impl Drop for PlanHandle {
    fn drop(self) {
        drop(self.into_box());
    }
}

unsafe impl Send for PlanHandle {}
