//! The device, as a trait with laws.

ghost use Rattle.std.specs.Prelude.{◌≡◌, ℕ, List, [], ◌∷◌, Option, Some, None};
ghost use Rattle.std.specs.FinMap.{get};
ghost use Rattle.gpu_device.specs.Granted.{IsNew, with_granted, counted};
ghost use Rattle.gpu_device.specs.Metal.{Properties, Held, Heap, Set, IsHeap, IsSet, granted_heap, granted_set, without_heap, with_member, without_member, with_commit};
ghost use Rattle.gpu_device.specs.MetalHistory.{refused_in, latest_heap_in};
ghost use Rattle.gpu_device.specs.declared.metal.event.Event.{Event};
ghost use Rattle.gpu_device.specs.declared.metal.event.Event.TheVariants.{AskedHeap, AskedSet, ReleasedHeap, Added, Removed, Committed};
ghost use Rattle.gpu_device.specs.declared.metal.types.HeapDescriptor.{HeapDescriptor};

use crate::metal::types::{
    HeapDescriptor, MTLHeap, MTLResidencySet, SizeAndAlign, StorageMode, TextureDescriptor,
};

/// A Metal device with its own host memory, as the allocators ask it.
///
/// Its laws, which every caller may rest on:
/// - what it tells of sizes never changes;
/// - it holds heaps and residency sets by number in one map, never under 0; to a call of the other kind a number isn't
///   held;
/// - a granted question adds one entry under a number that wasn't held; a refused one changes nothing that is held;
/// - its history names each question with its answer, each heap that it was given back, and each call of a set, once;
/// - it counts refusals, and nothing else raises the count, which stays at `u64::MAX`;
/// - giving a heap back is never refused, and takes that heap alone; a set that has it keeps its number;
/// - adding a heap to a set and removing it change the members of that set by that heap, and `commit` makes the committed
///   members the members; none of them is refused or takes memory, since `new_heap` makes room for its heap in every set;
/// - it names its latest question for a heap, granted or refused.
pub trait MetalDevice {
    // What it tells of itself.
    ghost properties: { Self → Properties };

    // The heaps and sets that it holds, by number.
    ghost held: { Self → Held };

    // All that it was asked, labels aside, and how each question ended, and all that it was given back, newest first.
    ghost history: { Self → List Event };

    // How many questions it refused.
    ghost refused: { Self → ℕ };

    // The latest question for a heap, its description and its size in bytes, granted or refused.
    ghost latest_heap: { Self → Option (HeapDescriptor × ℕ) };

    /// What a buffer of so many bytes takes of a heap (`MTLDevice.heapBufferSizeAndAlign`).
    fn heap_buffer_size_and_align(&self, length: u64, storage_mode: StorageMode) -> SizeAndAlign
        ensures { result ≡ (properties self.now).buffer_size length storage_mode };

    /// What a texture takes of a heap (`MTLDevice.heapTextureSizeAndAlign`).
    fn heap_texture_size_and_align(&self, desc: &TextureDescriptor) -> SizeAndAlign
        ensures { result ≡ (properties self.now).texture_size desc.now };

    /// What an acceleration structure of so many bytes takes of a heap
    /// (`MTLDevice.heapAccelerationStructureSizeAndAlign`).
    fn heap_acceleration_structure_size_and_align(&self, size: u64) -> SizeAndAlign
        ensures { result ≡ (properties self.now).acceleration_structure_size size };

    /// How many questions were refused. The count stays at `u64::MAX`.
    fn refusals(&self) -> u64
        ensures { result ≡ refused self.now };

    /// Asks for a heap of so many bytes (`MTLDevice.makeHeap`), and makes room for it in every residency set. `None` is a
    /// refusal, by the device or for lack of host memory.
    fn new_heap(&mut self, desc: &HeapDescriptor, size: u64, label: &str) -> Option<MTLHeap>
        ensures number { IsNew (held self.old) (granted_heap result) }
        ensures holds { held self.new ≡ with_granted (held self.old) (granted_heap result)
            (Heap desc.now size) }
        ensures counts { refused self.new ≡ counted (refused self.old) (granted_heap result) }
        ensures names_heap { latest_heap self.new ≡ Some (desc.now, size) }
        ensures recorded { history self.new ≡ AskedHeap desc.now size result ∷ history self.old }
        ensures constant { properties self.new ≡ properties self.old };

    /// Gives a heap back (`release`), also where the number is no heap's. Never refused.
    fn release_heap(&mut self, heap: MTLHeap)
        ensures gives_back { held self.new ≡ without_heap (held self.old) heap.0 }
        ensures counts_nothing { refused self.new ≡ refused self.old }
        ensures names_no_heap { latest_heap self.new ≡ latest_heap self.old }
        ensures recorded { history self.new ≡ ReleasedHeap heap ∷ history self.old }
        ensures constant { properties self.new ≡ properties self.old };

    /// Asks for a residency set (`MTLDevice.makeResidencySet`), which is empty and has room for every heap. The error is
    /// Metal's code, or the device's own where there are no such sets or the host refused it memory.
    fn new_residency_set(&mut self, label: &str) -> Result<MTLResidencySet, i32>
        ensures number { IsNew (held self.old) (granted_set result) }
        ensures holds { held self.new ≡ with_granted (held self.old) (granted_set result)
            (Set [] []) }
        ensures counts { refused self.new ≡ counted (refused self.old) (granted_set result) }
        ensures names_no_heap { latest_heap self.new ≡ latest_heap self.old }
        ensures recorded { history self.new ≡ AskedSet result ∷ history self.old }
        ensures constant { properties self.new ≡ properties self.old };

    /// Adds a heap to a set's members (`MTLResidencySet.addAllocation`), where it isn't one yet. Never refused.
    fn add_allocation(&mut self, set: MTLResidencySet, heap: MTLHeap)
        requires set { IsSet (held self.old) set.0 }
        requires heap { IsHeap (held self.old) heap.0 }
        ensures adds { held self.new ≡ with_member (held self.old) set.0 heap }
        ensures counts_nothing { refused self.new ≡ refused self.old }
        ensures names_no_heap { latest_heap self.new ≡ latest_heap self.old }
        ensures recorded { history self.new ≡ Added set heap ∷ history self.old }
        ensures constant { properties self.new ≡ properties self.old };

    /// Removes a heap from a set's members (`MTLResidencySet.removeAllocation`), where it is one. Never refused.
    fn remove_allocation(&mut self, set: MTLResidencySet, heap: MTLHeap)
        requires set { IsSet (held self.old) set.0 }
        requires heap { IsHeap (held self.old) heap.0 }
        ensures removes { held self.new ≡ without_member (held self.old) set.0 heap }
        ensures counts_nothing { refused self.new ≡ refused self.old }
        ensures names_no_heap { latest_heap self.new ≡ latest_heap self.old }
        ensures recorded { history self.new ≡ Removed set heap ∷ history self.old }
        ensures constant { properties self.new ≡ properties self.old };

    /// Makes a set's members its committed members (`MTLResidencySet.commit`), also where the number is no set's. Never
    /// refused.
    fn commit(&mut self, set: MTLResidencySet)
        ensures commits { held self.new ≡ with_commit (held self.old) set.0 }
        ensures counts_nothing { refused self.new ≡ refused self.old }
        ensures names_no_heap { latest_heap self.new ≡ latest_heap self.old }
        ensures recorded { history self.new ≡ Committed set ∷ history self.old }
        ensures constant { properties self.new ≡ properties self.old };

    // Nothing is held under the number 0, which is null.
    ghost no_null: { (d : Self) → get (held d) 0 ≡ None };

    // The count of refusals and the latest question are those of the history.
    ghost refused_is: { (d : Self) → refused d ≡ refused_in (history d) };

    ghost latest_heap_is: { (d : Self) → latest_heap d ≡ latest_heap_in (history d) };
}
