//! Laws of the definitions, each the contract of a function that does nothing.

ghost use Rattle.std.specs.Prelude.{◌≡◌, ℕ, List, Option, Some, None, Result, Ok, Err};
ghost use Rattle.gpu_values.specs.Refusal.{refusal_of};
ghost use Rattle.gpu_values.specs.declared.error.AllocationError.{AllocationError};
ghost use Rattle.gpu_core.specs.declared.piece.Piece.{Piece};
ghost use Rattle.gpu_device.specs.declared.vulkan.types.DeviceMemory.{DeviceMemory};
ghost use Rattle.gpu_pool.specs.Idle.{RenamesIdle};
ghost use Rattle.gpu_pool.specs.RequestState.{RequestState};
ghost use Rattle.gpu_vulkan.specs.Allocate.{AllocatorAllocates};
ghost use Rattle.gpu_vulkan.specs.Free as allocator_free;
ghost use Rattle.gpu_vulkan.specs.Free.{GivesBack};
ghost use Rattle.gpu_vulkan.specs.Live.{is_same_memory, piece_of};
ghost use Rattle.gpu_vulkan.specs.Rename as allocator_rename;
ghost use Rattle.gpu_vulkan.specs.Rename.{IsNamed};
ghost use Rattle.gpu_vulkan.specs.declared.allocation.Allocation.{Allocation};
ghost use Rattle.gpu_vulkan.specs.declared.describe.AllocationCreateDesc.{AllocationCreateDesc};
ghost use Rattle.gpu_machine.specs.VulkanCalls.{MachineFrees, memory_in};
ghost use Rattle.gpu_machine.specs.VulkanRun.{Allocated, Runs, Returns, State, most_questions};
ghost use Rattle.gpu_machine.specs.VulkanState.{IsOver, AsksAsAllocator};
ghost use Rattle.gpu_machine.specs.declared.vulkan.answer.MemoryBack.{MemoryBack};

use gpu_device::vulkan::VulkanDevice;

/// Where neither heaps nor the number of blocks are bounded, and blocks are never smaller, whoever begins a request, asks a device the questions,
/// and tells the machine the answers, has what the Vulkan allocator's `allocate` returns over that device, and leaves its blocks and the device as
/// `allocate` does; nothing else of the machine changes, and no question is left open.
pub fn runs_are_allocations<D: VulkanDevice>()
    ensures { (questions : ℕ) (old new : State) (d : AllocationCreateDesc) (device after : D)
        (told : Result Allocated AllocationError) (result : Result Allocation AllocationError)
        → IsOver old.setup old.requests → AsksAsAllocator old → old.requests.awaited ≡ None
        → old.asking ≡ None
        → Runs D.VulkanDevice d questions old device told new after
        → Returns old.setup d told result
        → AllocatorAllocates D.VulkanDevice old.setup old.requests.budgets d old.requests.slots device result
        new.requests.slots after
        × (new ≡ record old {
          requests = record old.requests
              { slots = new.requests.slots };
        }) }
{}

/// A request by a location asks at most two questions, six with smaller blocks.
pub fn few_questions_suffice<D: VulkanDevice>()
    ensures { (questions : ℕ) (old new : State) (d : AllocationCreateDesc) (device after : D)
        (told : Result Allocated AllocationError)
        → Runs D.VulkanDevice d questions old device told new after
        → Runs D.VulkanDevice d (most_questions old.smaller_blocks) old device told new after }
{}

/// Whoever frees a piece, and gives a device back the memory that the machine told, has freed the allocator's allocation over that device;
/// where the machine refuses, the allocator does, for the same cause.
pub fn frees_are_frees<D: VulkanDevice>()
    ensures freed { (old new : State) (a : Allocation) (p : Piece DeviceMemory)
        (back : Option (MemoryBack DeviceMemory)) (device after : D) → old.requests.awaited ≡ None
        → piece_of a ≡ Some p
        → MachineFrees is_same_memory old a.memory_type_index p (Ok back) new
        → GivesBack D.VulkanDevice device (memory_in back) after
        → allocator_free.AllocatorFrees D.VulkanDevice a old.requests.slots device (Ok tt)
        new.requests.slots after }
    ensures refused { (old new : State) (a : Allocation) (p : Piece DeviceMemory)
        (e f : AllocationError) (device : D) → old.requests.awaited ≡ None → piece_of a ≡ Some p
        → MachineFrees is_same_memory old a.memory_type_index p (Err e) new
        → refusal_of f ≡ refusal_of e
        → allocator_free.AllocatorFrees D.VulkanDevice a old.requests.slots device (Err (f, a))
        new.requests.slots device }
{}

/// Whoever renames a piece has renamed the allocator's allocation.
pub fn renames_are_renames()
    ensures renamed { (old new : RequestState DeviceMemory) (a b : Allocation)
        (p : Piece DeviceMemory) (name : List ℕ) → old.awaited ≡ None → piece_of a ≡ Some p
        → RenamesIdle is_same_memory old a.memory_type_index p name (Ok tt) new
        → IsNamed a name b → allocator_rename.Renames a name old.slots (Ok tt) b new.slots }
    ensures refused { (old new : RequestState DeviceMemory) (a : Allocation)
        (p : Piece DeviceMemory) (name : List ℕ) (e f : AllocationError) → old.awaited ≡ None
        → piece_of a ≡ Some p
        → RenamesIdle is_same_memory old a.memory_type_index p name (Err e) new
        → refusal_of f ≡ refusal_of e
        → allocator_rename.Renames a name old.slots (Err f) a new.slots }
{}
