//! Limits of heaps and of blocks, and sizes of blocks, of an allocator of Vulkan's memory: tests what C passes, and says in C's words what the
//! machine answers.

ghost use Rattle.std.specs.Prelude.{◌≡◌, ◌≢◌, ◌≤◌, ◌↔◌, [], ◌∷◌, length, None, IsSome, Ok};
ghost use Rattle.gpu_machine.specs.VulkanCalls.{SetsHeapLimit, SetsMostBlocks, SetsSmallerBlocks};
ghost use Rattle.gpu_c.specs.AllocatorLimits.{count_if};
ghost use Rattle.gpu_c.specs.MemoryType.{number_if};
ghost use Rattle.gpu_c.specs.Status as status;
ghost use Rattle.gpu_c.specs.Status.{IsOneOf};
ghost use Rattle.gpu_c.specs.declared.status.TheConstants.{OK, AWAITS_ANSWER, NO_SUCH_HEAP};

use crate::mapped_memory::MappedMemory;
use crate::memory_type::number_if;
use crate::status::{AWAITS_ANSWER, NO_SUCH_HEAP, OK};
use gpu_machine::vulkan::Machine;

/// Bounds the sum of the sizes of the blocks in a heap, or takes the bound away.
pub fn set_heap_limit(
    machine: &mut Machine<MappedMemory>,
    heap: usize,
    has_limit: bool,
    bytes: u64,
) -> u32
    ensures bounded { result ≡ status.ok → (machine.old.requests.awaited ≡ None)
        × SetsHeapLimit machine.old heap (number_if has_limit bytes) (Ok tt) machine.new }
    ensures awaits_answer { (result ≡ status.awaits_answer) ↔ IsSome machine.old.requests.awaited }
    ensures no_such_heap { (result ≡ status.no_such_heap)
        ↔ (machine.old.requests.awaited ≡ None) × (length machine.old.limits ≤ heap) }
    ensures statuses { IsOneOf result (status.ok ∷ status.awaits_answer ∷ status.no_such_heap
        ∷ []) }
    ensures refused { result ≢ status.ok → machine.new ≡ machine.old }
{
    if machine.awaits_answer() {
        return AWAITS_ANSWER;
    }
    match machine.set_heap_limit(heap, number_if(has_limit, bytes)) {
        Err(_) => NO_SUCH_HEAP,
        Ok(_) => OK,
    }
}

/// A count, where there is one.
fn count_if(exists: bool, count: usize) -> Option<usize>
    ensures { result ≡ count_if exists count }
{
    if exists { Some(count) } else { None }
}

/// Bounds how many blocks there may be, or takes the bound away.
pub fn set_most_blocks(machine: &mut Machine<MappedMemory>, has_most: bool, count: usize) -> u32
    ensures bounded { result ≡ status.ok → (machine.old.requests.awaited ≡ None)
        × SetsMostBlocks machine.old (count_if has_most count) (Ok tt) machine.new }
    ensures awaits_answer { (result ≡ status.awaits_answer) ↔ IsSome machine.old.requests.awaited }
    ensures statuses { IsOneOf result (status.ok ∷ status.awaits_answer ∷ []) }
    ensures refused { result ≢ status.ok → machine.new ≡ machine.old }
{
    match machine.set_most_blocks(count_if(has_most, count)) {
        Err(_) => AWAITS_ANSWER,
        Ok(_) => OK,
    }
}

/// Says whether shared blocks are smaller where memory is short.
pub fn set_smaller_blocks(machine: &mut Machine<MappedMemory>, smaller_blocks: bool) -> u32
    ensures set { result ≡ status.ok → (machine.old.requests.awaited ≡ None)
        × SetsSmallerBlocks machine.old smaller_blocks (Ok tt) machine.new }
    ensures awaits_answer { (result ≡ status.awaits_answer) ↔ IsSome machine.old.requests.awaited }
    ensures statuses { IsOneOf result (status.ok ∷ status.awaits_answer ∷ []) }
    ensures refused { result ≢ status.ok → machine.new ≡ machine.old }
{
    match machine.set_smaller_blocks(smaller_blocks) {
        Err(_) => AWAITS_ANSWER,
        Ok(_) => OK,
    }
}
