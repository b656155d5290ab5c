//! Limits of heaps: what the blocks of all memory types that lie in one may sum up to.

ghost use Rattle.std.specs.Prelude.{◌≡◌, ◌+◌, nat_lt, IfOk, length};
ghost use Rattle.gpu_core.specs.Blocks.{slots_at};
ghost use Rattle.gpu_core.specs.Budgets.{budget_at, budgets};
ghost use Rattle.gpu_core.specs.TypeState.{capacity_of};
ghost use Rattle.gpu_core.specs.Types.{slots_of};
ghost use Rattle.gpu_machine.specs.VulkanHeapLimit.{HasNoLimits, limit_at, held_in, left_of, within, within_limit, passes_limit};

use gpu_core::MemoryTypes;
use gpu_device::vulkan::MemoryTypeInfo;
use std::alloc::{AllocError, Global};

/// No limit for so many heaps.
pub fn no_limits(alloc: Global, heaps: usize) -> Result<Vec<Option<u64>>, AllocError>
    ensures none { IfOk result (λ v. HasNoLimits v.items) }
    ensures each { IfOk result (λ v. length v.items ≡ heaps) }
{
    let mut limits = Vec::with_capacity(alloc, heaps)?;
    for _ in 0..heaps {
        limits.push_reserved(None);
    }
    Ok(limits)
}

/// The limit of a heap; one that isn't there has none.
pub fn limit_at(limits: &[Option<u64>], heap: usize) -> Option<u64>
    ensures { result ≡ limit_at limits.now heap }
{
    match limits.get(heap) {
        None => None,
        Some(limit) => *limit,
    }
}

/// The sum of the sizes of the blocks of the memory type at `index`, in bytes; 0 where it isn't there.
pub fn capacity_at<H: Copy + Eq>(types: &MemoryTypes<H>, index: usize) -> u64
    ensures { result ≡ capacity_of (slots_at (slots_of types.now) index) }
{
    match types.memory_type(index) {
        None => 0,
        Some(found) => found.capacity(),
    }
}

/// What a heap's blocks leave of its limit, of all the heap's memory types; `None` where they are above it.
fn left_of<H: Copy + Eq>(
    types: &MemoryTypes<H>,
    infos: &[MemoryTypeInfo],
    heap: u32,
    limit: u64,
) -> Option<u64>
    ensures { result ≡ left_of limit (held_in infos.now heap (slots_of types.now)) }
{
    let mut left = limit;
    let mut index = 0;
    for info in infos {
        if info.heap_index == heap {
            let held = capacity_at(types, index);
            if held > left {
                return None;
            }
            left -= held;
        }
        index += 1;
    }
    Some(left)
}

/// Whether a block of that size would be above a heap's limit, beside those of the heap's memory types.
fn is_above<H: Copy + Eq>(
    types: &MemoryTypes<H>,
    infos: &[MemoryTypeInfo],
    heap: u32,
    limit: u64,
    size: u64,
) -> bool
    ensures { result ≡ nat_lt limit (held_in infos.now heap (slots_of types.now) + size) }
{
    match left_of(types, infos, heap, limit) {
        None => true,
        Some(left) => size > left,
    }
}

/// Of `most` bytes those that the limit of the heap of the memory type at `index` leaves.
pub fn within_limit<H: Copy + Eq>(
    types: &MemoryTypes<H>,
    infos: &[MemoryTypeInfo],
    limits: &[Option<u64>],
    index: usize,
    most: u64,
) -> u64
    ensures { result ≡ within_limit infos.now limits.now (slots_of types.now) index most }
{
    let Some(info) = infos.get(index) else {
        return most;
    };
    let Some(limit) = limit_at(limits, info.heap_index as usize) else {
        return most;
    };
    match left_of(types, infos, info.heap_index, limit) {
        None => 0,
        Some(left) => most.min(left),
    }
}

/// Of `most` bytes those that the budget of the memory type at `index` leaves.
pub fn within_budget<H: Copy + Eq>(types: &MemoryTypes<H>, index: usize, most: u64) -> u64
    ensures { result ≡ within (budget_at (budgets types.now) index)
        (capacity_of (slots_at (slots_of types.now) index)) most }
{
    match types.budget(index) {
        None => most,
        Some(budget) => most.min(budget.saturating_sub(capacity_at(types, index))),
    }
}

/// Whether a block of that size, of the memory type at `index`, would be above the limit of its heap.
pub fn passes_limit<H: Copy + Eq>(
    types: &MemoryTypes<H>,
    infos: &[MemoryTypeInfo],
    limits: &[Option<u64>],
    index: usize,
    size: u64,
) -> bool
    ensures { result ≡ passes_limit infos.now limits.now (slots_of types.now) index size }
{
    let Some(info) = infos.get(index) else {
        return false;
    };
    match limit_at(limits, info.heap_index as usize) {
        None => false,
        Some(limit) => is_above(types, infos, info.heap_index, limit, size),
    }
}
