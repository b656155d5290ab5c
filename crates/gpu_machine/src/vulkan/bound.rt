//! The greatest sum that the blocks of a memory type may have now, whatever bounds it.

ghost use Rattle.std.specs.Prelude.{◌≡◌, ◌-◌, ◌==◌, if◌then◌else◌, slice_get, IsSomeAnd};
ghost use Rattle.gpu_core.specs.Blocks.{slots_at};
ghost use Rattle.gpu_core.specs.TypeState.{capacity_of};
ghost use Rattle.gpu_core.specs.Types.{slots_of};
ghost use Rattle.gpu_machine.specs.VulkanHeapLimit.{held_in};
ghost use Rattle.gpu_machine.specs.VulkanBound.{lesser, heap_left, held_where_full};

use crate::vulkan::block_count::has_most;
use crate::vulkan::heap_limit::{capacity_at, limit_at};
use gpu_core::MemoryTypes;
use gpu_device::vulkan::MemoryTypeInfo;

/// The lesser of two bounds; `None` bounds nothing.
pub fn lesser(a: Option<u64>, b: Option<u64>) -> Option<u64>
    ensures { result ≡ lesser a b }
{
    match (a, b) {
        (Some(a), Some(b)) => Some(a.min(b)),
        (Some(a), None) => Some(a),
        (None, b) => b,
    }
}

/// What the blocks of the memory type at `other` hold of a heap: nothing where it lies in another one, or is the one at `index`.
fn held_beside<H: Copy + Eq>(
    types: &MemoryTypes<H>,
    info: &MemoryTypeInfo,
    heap: u32,
    index: usize,
    other: usize,
) -> u64
    ensures { result ≡ (if other == index then 0 else
        if (info.now).heap_index == heap then capacity_of (slots_at (slots_of types.now) other) else 0) }
{
    if other == index || info.heap_index != heap {
        return 0;
    }
    capacity_at(types, other)
}

/// What the blocks of a heap's memory types but the one at `index`, which lies there, leave of a limit.
fn left_by_others<H: Copy + Eq>(
    types: &MemoryTypes<H>,
    infos: &[MemoryTypeInfo],
    heap: u32,
    index: usize,
    limit: u64,
) -> u64
    requires { IsSomeAnd (slice_get infos.now index) (λ info. info.heap_index ≡ heap) }
    ensures { result ≡ limit - (held_in infos.now heap (slots_of types.now)
        - capacity_of (slots_at (slots_of types.now) index)) }
{
    let mut left = limit;
    let mut other = 0;
    for info in infos {
        left = left.saturating_sub(held_beside(types, info, heap, index, other));
        other += 1;
    }
    left
}

/// What the blocks of the other memory types leave of the limit of the heap of the one at `index`.
pub fn heap_left<H: Copy + Eq>(
    types: &MemoryTypes<H>,
    infos: &[MemoryTypeInfo],
    limits: &[Option<u64>],
    index: usize,
) -> Option<u64>
    ensures { result
        ≡ heap_left (slice_get infos.now index) infos.now limits.now (slots_of types.now) index }
{
    let info = infos.get(index)?;
    let limit = limit_at(limits, info.heap_index as usize)?;
    Some(left_by_others(types, infos, info.heap_index, index, limit))
}

/// The sum of the blocks of the memory type at `index` as it is, where no more block may come.
pub fn held_where_full<H: Copy + Eq>(
    types: &MemoryTypes<H>,
    most: Option<usize>,
    index: usize,
) -> Option<u64>
    ensures { result ≡ held_where_full most (slots_of types.now) index }
{
    if has_most(types, most) {
        Some(capacity_at(types, index))
    } else {
        None
    }
}
