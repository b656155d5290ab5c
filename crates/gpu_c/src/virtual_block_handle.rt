//! What a C program holds of a virtual block: one pointer, which is null where nothing lies behind it.

ghost use Rattle.std.specs.Prelude.{◌≡◌, Option, Some, None, MatchOption};
ghost use Rattle.gpu_block.specs.Block.{Block};

use crate::raw_box::RawBox;
use crate::virtual_block::VirtualBlock;
use std::alloc::Global;
use std::marker::{Model, Send};

/// A virtual block, or null: what `Box::into_raw` returned. C holds it by value, lends it to each call, and never copies it.
#[repr(C)]
#[derive(Drop)]
pub struct VirtualBlockHandle {
    opaque: *mut u8,
    pub ghost value: { Option Block },
}

impl Model for VirtualBlockHandle {
    ghost use Rattle.gpu_c.specs.Owned.{handle_owns};
    ghost use Rattle.gpu_c.specs.contracts.virtual_block.VirtualBlock.{the_row};

    ghost also_owns = { λ h. handle_owns the_row h.opaque h.value };
}

// What lies behind it may go to another thread, and so may the right to free it.
unsafe impl Send for VirtualBlockHandle {}

impl VirtualBlockHandle {
    /// A handle with nothing behind it.
    fn empty() -> VirtualBlockHandle
        ensures { result.value ≡ None }
    {
        VirtualBlockHandle {
            opaque: std::ptr::null_mut(),
        }
    }

    fn of(value: RawBox<VirtualBlock, Global>) -> VirtualBlockHandle
        ensures { result.value ≡ Some value.value }
    {
        let RawBox { at, alloc: _ } = value;
        VirtualBlockHandle {
            opaque: at as *mut u8,
        }
    }

    fn into_raw_box(self, alloc: Global) -> Option<RawBox<VirtualBlock, Global>>
        ensures { MatchOption result (self.value ≡ None) (λ b. self.value ≡ Some b.value) }
    {
        let VirtualBlockHandle { opaque } = self;
        if opaque.is_null() {
            None
        } else {
            Some(RawBox {
                at: opaque as *mut VirtualBlock,
                alloc,
            })
        }
    }

    /// Takes the value out, and leaves null.
    pub fn take(&mut self, alloc: Global) -> Option<Box<VirtualBlock>>
        ensures left { self.new.value ≡ None }
        ensures value { MatchOption result (self.old.value ≡ None)
            (λ b. self.old.value ≡ Some b.value) }
    {
        match std::mem::replace(self, VirtualBlockHandle::empty()).into_raw_box(alloc) {
            None => None,
            Some(raw) => Some(raw.into_box()),
        }
    }

    /// Puts a value in. Only an empty handle is given one, so that nothing is lost.
    pub fn put(&mut self, value: Box<VirtualBlock>)
        requires { self.old.value ≡ None }
        ensures { self.new.value ≡ Some value.value }
    {
        *self = VirtualBlockHandle::of(RawBox::of(value));
    }
}
