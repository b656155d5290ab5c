//! What a C program holds of a capture: one pointer, which is null where nothing lies behind it.

ghost use Rattle.std.specs.Prelude.{◌≡◌, Option, Some, None, MatchOption};
ghost use Rattle.gpu_capture.specs.CaptureState.{CaptureState};

use crate::raw_box::RawBox;
use gpu_capture::Capture;
use std::alloc::Global;
use std::marker::{Model, Send};

/// A capture, or null: what `Box::into_raw` returned. C holds it by value, lends it to each call, and never copies it.
#[repr(C)]
#[derive(Drop)]
pub struct CaptureHandle {
    opaque: *mut u8,
    pub ghost value: { Option CaptureState },
}

impl Model for CaptureHandle {
    ghost use Rattle.gpu_c.specs.Owned.{handle_owns};
    ghost use Rattle.gpu_capture.specs.contracts.capture.Capture.{the_row};

    ghost also_owns = { λ h. handle_owns the_row h.opaque h.value };
}

// What lies behind it may go to another thread, and so may the right to free it.
unsafe impl Send for CaptureHandle {}

impl CaptureHandle {
    /// A handle with nothing behind it.
    fn empty() -> CaptureHandle
        ensures { result.value ≡ None }
    {
        CaptureHandle {
            opaque: std::ptr::null_mut(),
        }
    }

    fn of(value: RawBox<Capture, Global>) -> CaptureHandle
        ensures { result.value ≡ Some value.value }
    {
        let RawBox { at, alloc: _ } = value;
        CaptureHandle {
            opaque: at as *mut u8,
        }
    }

    fn into_raw_box(self, alloc: Global) -> Option<RawBox<Capture, Global>>
        ensures { MatchOption result (self.value ≡ None) (λ b. self.value ≡ Some b.value) }
    {
        let CaptureHandle { opaque } = self;
        if opaque.is_null() {
            None
        } else {
            Some(RawBox {
                at: opaque as *mut Capture,
                alloc,
            })
        }
    }

    /// Takes the value out, and leaves null.
    pub fn take(&mut self, alloc: Global) -> Option<Box<Capture>>
        ensures left { self.new.value ≡ None }
        ensures value { MatchOption result (self.old.value ≡ None)
            (λ b. self.old.value ≡ Some b.value) }
    {
        match std::mem::replace(self, CaptureHandle::empty()).into_raw_box(alloc) {
            None => None,
            Some(raw) => Some(raw.into_box()),
        }
    }

    /// Puts a value in. Only an empty handle is given one, so that nothing is lost.
    pub fn put(&mut self, value: Box<Capture>)
        requires { self.old.value ≡ None }
        ensures { self.new.value ≡ Some value.value }
    {
        *self = CaptureHandle::of(RawBox::of(value));
    }
}
