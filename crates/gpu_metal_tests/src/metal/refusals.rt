//! What is told of a refusal, and another allocator's piece.

use super::*;
use gpu_device::metal::{StorageMode, TextureDescriptor};
use gpu_values::AllocationError;

/// Whether the error prints this text.
fn is_told(alloc: Global, error: AllocationError, want: &str) -> bool {
    match error.to_string(alloc) {
        Ok(text) => text.as_str() == want,
        Err(_) => false,
    }
}

const NO_SET: &str =
    "Internal error: Failed to create MTLResidencySet.  Unsupported MacOS/iOS version?";

/// Whether no allocator is made whose residency set is refused.
fn set_is_refused(alloc: Global) -> bool {
    let Some(device) = simulated(alloc, &[(1, Refusal::Code(-7))]) else {
        return false;
    };
    match Allocator::new(alloc, described(device, AllocationSizes::default(), true)) {
        Ok(a) => {
            let _ = a.destroy();
            false
        }
        Err((error, device)) => {
            (device.held(), device.questions()) == (0, 1) && is_told(alloc, error, NO_SET)
        }
    }
}

/// Whether a piece is refused whose heap is.
fn heap_is_refused(alloc: Global) -> bool {
    let Some(mut a) = made(alloc, false, &[(1, Refusal::Null)]) else {
        return false;
    };
    let answer = a.allocate(&Discard, &piece(512, MemoryLocation::GpuOnly));
    let _ = a.destroy();
    match answer {
        Ok(_) => false,
        Err(error) => is_told(alloc, error, "Internal error: No MTLHeap was returned"),
    }
}

/// Whether a texture is refused whose storage mode has no name.
fn mode_is_refused(alloc: Global) -> bool {
    let texture = TextureDescriptor {
        storage_mode: StorageMode::Other(7),
        width: 10,
        height: 10,
        bytes_per_texel: 4,
    };
    let Some(device) = simulated(alloc, &[]) else {
        return false;
    };
    match AllocationCreateDesc::texture(&device, "texture", &texture) {
        Ok(_) => false,
        Err(error) => is_told(
            alloc,
            error,
            "Internal error: Unknown storage mode (code 7)",
        ),
    }
}

#[test]
fn refused_sets_heaps_and_storage_modes(rt: HostRuntime) {
    let steps = [
        set_is_refused(rt.alloc()),
        heap_is_refused(rt.alloc()),
        mode_is_refused(rt.alloc()),
    ];
    check(&rt, &steps);
}

/// What is live in one allocator isn't in another.
fn foreign(a: &mut Allocator<SimMetal>, b: &mut Allocator<SimMetal>) -> bool {
    let Ok(theirs) = a.allocate(&Discard, &piece(512, MemoryLocation::GpuToCpu)) else {
        return false;
    };
    let live = a.is_live(&theirs) && !b.is_live(&theirs);
    match b.free(&Discard, theirs) {
        Ok(()) => false,
        Err((_, theirs)) => live && a.free(&Discard, theirs).is_ok(),
    }
}

/// What another allocator does with a piece of `a`.
fn with_another(alloc: Global, a: &mut Allocator<SimMetal>) -> bool {
    match made(alloc, false, &[]) {
        Some(mut b) => {
            let done = foreign(a, &mut b);
            let held = b.destroy().held();
            done && held == 0
        }
        None => false,
    }
}

#[test]
fn another_allocators_piece(rt: HostRuntime) {
    let done = match made(rt.alloc(), false, &[]) {
        Some(mut a) => {
            let done = with_another(rt.alloc(), &mut a);
            let held = a.destroy().held();
            done && held == 0
        }
        None => false,
    };
    check(&rt, &[done]);
}
