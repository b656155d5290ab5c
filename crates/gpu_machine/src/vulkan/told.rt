//! What a caller tells of its device, and why no machine is made of it.

ghost use Rattle.std.specs.Prelude.{◌≡◌, ℕ, not, None};
ghost use Rattle.std.specs.List.{list_any};
ghost use Rattle.std.specs.Option.{option_map};
ghost use Rattle.gpu_values.specs.Refusal.{refusal_of, invalid_allocator_create_desc};
ghost use Rattle.gpu_vulkan.specs.Setup.{lacks_heap, properties_told};
ghost use Rattle.gpu_machine.specs.VulkanState.{told_fault};

use gpu_device::vulkan::{MemoryHeap, MemoryTypeInfo};
use gpu_values::{AllocationError, Fault};

/// How many memory types a device may have (`VK_MAX_MEMORY_TYPES`).
const MAX_MEMORY_TYPES: usize = 32;

/// A fault in what is told.
fn invalid(text: &'static str) -> AllocationError
    ensures { refusal_of result ≡ invalid_allocator_create_desc text.now None }
{
    AllocationError::InvalidAllocatorCreateDesc(Fault { text, code: None })
}

/// Whether each memory type lies in a heap that is there.
fn has_heaps(types: &[MemoryTypeInfo], heaps: &[MemoryHeap]) -> bool
    ensures { (granularity : ℕ) → result
        ≡ not (list_any (lacks_heap (properties_told types.now heaps.now granularity)) types.now) }
{
    for info in types {
        if heaps.len() <= info.heap_index as usize {
            return false;
        }
    }
    true
}

/// Why no machine is made of this, if it is so.
pub fn fault_of(
    types: &[MemoryTypeInfo],
    heaps: &[MemoryHeap],
    granularity: u64,
) -> Option<AllocationError>
    ensures { option_map refusal_of result
        ≡ told_fault (properties_told types.now heaps.now granularity) }
{
    if !granularity.is_power_of_two() {
        return Some(invalid("buffer image granularity is not a power of two."));
    }
    if types.len() > MAX_MEMORY_TYPES {
        return Some(invalid("more than 32 memory types."));
    }
    if !has_heaps(types, heaps) {
        return Some(invalid("memory type with a heap index out of range."));
    }
    None
}
