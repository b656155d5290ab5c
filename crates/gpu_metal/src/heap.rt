//! Asking the device for the heap of a block, and giving it back.

ghost use Rattle.std.specs.Prelude.{◌≡◌, MatchResult, Some, None};
ghost use Rattle.gpu_values.specs.Refusal.{refusal_of};
ghost use Rattle.gpu_device.specs.Metal.{IsHeap, without_heap};
ghost use Rattle.gpu_metal.specs.HeapAnswer.{AsksHeap, heap_refusal};
ghost use Rattle.gpu_metal.specs.MemoryKinds.{heap_descriptor};
ghost use Rattle.gpu_metal.specs.Residency.{HoldsSet, with_left, release_recorded, ChangesHeld};

use crate::memory_kind::{heap_descriptor, heap_label};
use crate::residency::{join_set, leave_set};
use gpu_device::metal::{MTLHeap, MTLResidencySet, MetalDevice};
use gpu_values::{AllocationError, MemoryLocation, Result, internal_fault};

/// Why a request is refused whose heap the device didn't make.
pub fn heap_refusal() -> AllocationError
    ensures { refusal_of result ≡ heap_refusal }
{
    internal_fault("No MTLHeap was returned")
}

/// Asks for a heap of `size` bytes for a block, and makes it a member of the residency set, where there is one. `Internal`
/// where the device refuses it.
pub fn create_block_heap<D: MetalDevice>(
    device: &mut D,
    set: Option<MTLResidencySet>,
    location: MemoryLocation,
    size: u64,
) -> Result<MTLHeap>
    requires { HoldsSet (D.held device.old) set }
    ensures { MatchResult result (λ heap. AsksHeap D.MetalDevice set device.old
        (heap_descriptor location) size (Some heap) device.new)
        (λ e. (refusal_of e ≡ heap_refusal)
        × AsksHeap D.MetalDevice set device.old (heap_descriptor location) size None device.new) }
{
    match device.new_heap(&heap_descriptor(location), size, heap_label(location)) {
        None => Err(heap_refusal()),
        Some(heap) => {
            join_set(device, set, heap);
            Ok(heap)
        }
    }
}

/// Takes the heap of a block out of the residency set, where there is one, and gives it back. Never refused.
pub fn release_block_heap<D: MetalDevice>(
    device: &mut D,
    set: Option<MTLResidencySet>,
    heap: MTLHeap,
)
    requires set { HoldsSet (D.held device.old) set }
    requires heap { IsHeap (D.held device.old) heap.0 }
    ensures { ChangesHeld D.MetalDevice device.old
        (without_heap (with_left (D.held device.old) set heap) heap.0)
        (release_recorded set heap (D.history device.old)) device.new }
{
    leave_set(device, set, heap);
    device.release_heap(heap);
}
