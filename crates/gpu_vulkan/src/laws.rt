//! Laws of the definitions, each the contract of a function that does nothing.

ghost use Rattle.std.specs.Prelude.{◌≡◌, Result};
ghost use Rattle.gpu_vulkan.specs.Allocate.{AllocatorAllocates};
ghost use Rattle.gpu_vulkan.specs.Blocks.{Slots};
ghost use Rattle.gpu_core.specs.Blocks.{BlocksWellFormed};
ghost use Rattle.gpu_core.specs.Budgets.{Budgets};
ghost use Rattle.gpu_vulkan.specs.Budgets.{MeetsNoBudget, without_budgets};
ghost use Rattle.gpu_vulkan.specs.Free.{AllocatorFrees};
ghost use Rattle.gpu_vulkan.specs.Untouched.{LeavesMemory};
ghost use Rattle.gpu_vulkan.specs.declared.allocation.Allocation.{Allocation};
ghost use Rattle.gpu_vulkan.specs.declared.describe.AllocationCreateDesc.{AllocationCreateDesc};
ghost use Rattle.gpu_values.specs.declared.error.AllocationError.{AllocationError};
ghost use Rattle.gpu_vulkan.specs.Setup.{Setup};
ghost use Rattle.gpu_vulkan.specs.Reply.{Reply};
ghost use Rattle.gpu_vulkan.specs.Step.{ModelState, Call, CallEnvironment, Step};
ghost use Rattle.gpu_vulkan.specs.EqualButBytes.{EqualButBytesCallEnvironment, EqualButBytesCall, EqualButBytesReply};

use gpu_device::vulkan::VulkanDevice;

/// The model isn't loose: a state, a call, and what the device and the host answered it decide the reply and the next state.
pub fn one_step()
    ensures { (setup : Setup) (call : Call) (met : CallEnvironment) (a b : Reply)
        (old new next : ModelState) → BlocksWellFormed setup.properties.granularity old.slots
        → Step setup call met a old new → Step setup call met b old next → (a ≡ b) × (new ≡ next) }
{}

/// Bytes decide nothing but bytes: from two states with the same blocks and budgets, calls that differ at most in the bytes of a
/// write, and that meet with answers that differ at most in the bytes of newly mapped blocks, get the same reply but for the bytes
/// of a read, and leave the same blocks and budgets; and where the device was asked and given back the same before, it was after.
pub fn bytes_decide_nothing()
    ensures { (setup : Setup) (call other : Call) (met meets : CallEnvironment) (a b : Reply)
        (old new twin next : ModelState) → BlocksWellFormed setup.properties.granularity old.slots
        → old.slots ≡ twin.slots → old.budgets ≡ twin.budgets
        → EqualButBytesCallEnvironment met meets → EqualButBytesCall call other
        → Step setup call met a old new → Step setup other meets b twin next
        → EqualButBytesReply a b × (new.slots ≡ next.slots) × (new.budgets ≡ next.budgets)
        × (old.history ≡ twin.history → new.history ≡ next.history) }
{}

/// Budgets of memory types that aren't asked decide nothing: a call that asks no memory type with a budget answers and steps
/// as if there were no budgets.
pub fn unasked_budgets_decide_nothing()
    ensures { (setup : Setup) (call : Call) (met : CallEnvironment) (reply : Reply)
        (old new : ModelState) → MeetsNoBudget setup call old.budgets
        → Step setup call met reply old new
        → Step setup call met reply (without_budgets old) (without_budgets new) }
{}

/// No allocation and no free changes a byte of memory that is held before and after. (A second place, a new name, a report, a list
/// of leaks and a read leave the device as it was; a write is told by `slice_mut`.)
pub fn memory_is_left<D: VulkanDevice>()
    ensures allocate { (setup : Setup) (budgets : Budgets) (d : AllocationCreateDesc)
        (old new : Slots) (device after : D) (result : Result Allocation AllocationError)
        → AllocatorAllocates D.VulkanDevice setup budgets d old device result new after
        → LeavesMemory (D.held device) (D.held after) }
    ensures free { (a : Allocation) (old new : Slots) (device after : D)
        (result : Result (Unit {0}) (AllocationError × Allocation))
        → AllocatorFrees D.VulkanDevice a old device result new after
        → LeavesMemory (D.held device) (D.held after) }
{}
