//! The laws in use, at any device.

ghost use Rattle.std.specs.Prelude.{◌≡◌, ◌≢◌, [], ◌∷◌, Some, None, IfSome};
ghost use Rattle.std.specs.FinMap.{get};
ghost use Rattle.gpu_device.specs.Metal.{Set};

use gpu_device::metal::{HeapDescriptor, MTLHeap, MTLResidencySet, MetalDevice};

/// Makes a heap, adds it to an empty set, commits the set and removes the heap from it again: then the set has no member,
/// and that heap as its committed member. A refused heap leaves the set as it was.
pub fn commit_one_heap<D: MetalDevice>(
    device: &mut D,
    set: MTLResidencySet,
    desc: &HeapDescriptor,
    size: u64,
) -> Option<MTLHeap>
    requires { get (D.held device.old) set.0 ≡ Some (Set [] []) }
    ensures granted { IfSome result (λ heap. get (D.held device.new) set.0
        ≡ Some (Set [] (heap ∷ []))) }
    ensures refused { result ≡ None → D.held device.new ≡ D.held device.old }
{
    let heap = device.new_heap(desc, size, "heap")?;
    device.add_allocation(set, heap);
    device.commit(set);
    device.remove_allocation(set, heap);
    Some(heap)
}
