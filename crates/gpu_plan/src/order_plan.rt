//! The plan of an order.

ghost use Rattle.std.specs.Prelude.{◌≡◌, ℕ, ◌^◌, ◌<◌, ◌≤◌, All, IfOk, IfSome, IfNone, List, length, map, slice_index, slice_index_or};
ghost use Rattle.std.specs.List.{range_with_len};
ghost use Rattle.std.specs.List.Sorted.{IsPermutation};
ghost use Rattle.gpu_plan.specs.Plan.{resource_at, IsValid};
ghost use Rattle.gpu_plan.specs.Passes.{AreStarts};
ghost use Rattle.gpu_plan.specs.OrderPlan.{IsPlanBy, IsHeap, IsBetter, end_at};
ghost use Rattle.gpu_plan.specs.declared.resource.Placed.{Placed};

use crate::in_order::plan_in_order;
use crate::order::{Order, indices_in};
use crate::passes::Start;
use crate::resource::{Placed, Resource};
use std::alloc::{AllocError, Global};

/// The plan of an order.
#[derive(Drop)]
pub struct OrderPlan {
    /// The order.
    pub order: Order,
    /// Each resource's first byte, by its index.
    pub offsets: Vec<u64>,
    /// The byte behind the last resource, 0 without resources.
    pub heap: u64,
}

/// The resources at these indices.
fn resources_at(
    alloc: Global,
    resources: &[Resource],
    indices: &[usize],
) -> Result<Vec<Resource>, AllocError>
    requires { All (λ i. i < length resources.now) indices.now }
    ensures { IfOk result (λ found. found.items ≡ map (resource_at resources.now) indices.now) }
{
    let mut found = Vec::with_capacity(alloc, indices.len())?;
    for index in indices {
        found.push(resources[*index])?;
    }
    Ok(found)
}

/// The offsets of what was placed in an order, by index.
fn offsets_of(alloc: Global, indices: &[usize], placed: &[Placed]) -> Result<Vec<u64>, AllocError>
    requires placed { length placed.now ≡ length indices.now }
    requires permuted { IsPermutation (range_with_len 0 (length indices.now)) indices.now }
    ensures each { IfOk result (λ offsets. length offsets.items ≡ length indices.now) }
    ensures offsets { IfOk result (λ offsets. (k : ℕ) (d : Placed) → k < length indices.now
        → slice_index offsets.items (slice_index indices.now k)
        ≡ (slice_index_or placed.now k d).offset) }
{
    let mut offsets = vec![in alloc; 0; indices.len()]?;
    for (k, p) in placed.iter().enumerate() {
        offsets[indices[k]] = p.offset;
    }
    Ok(offsets)
}

/// The byte behind the last resource.
fn heap_of(resources: &[Resource], offsets: &[u64]) -> u64
    requires each { length offsets.now ≡ length resources.now }
    requires ends { (i : ℕ) → i < length resources.now
        → end_at resources.now offsets.now i < 2 ^ 64 }
    ensures { IsHeap resources.now offsets.now result }
{
    let mut heap = 0;
    for (i, r) in resources.iter().enumerate() {
        let end = offsets[i] + r.size;
        if heap < end {
            heap = end;
        }
    }
    heap
}

/// The plan with the smaller heap, of equal ones the first; or the one that there is.
pub fn better(best: Option<OrderPlan>, next: Option<OrderPlan>) -> Option<OrderPlan>
    ensures { IsBetter best next result }
{
    let Some(old) = best else {
        return next;
    };
    match next {
        Some(new) if new.heap < old.heap => Some(new),
        _ => Some(old),
    }
}

/// The plan of an order; `None` where its heap would pass 64 bits.
pub fn plan_by(
    alloc: Global,
    order: Order,
    resources: &[Resource],
    starts: &[Start],
    page: u64,
) -> Result<Option<OrderPlan>, AllocError>
    requires valid { All IsValid resources.now }
    requires paged { 0 < page }
    requires starts { AreStarts resources.now starts.now }
    ensures order { IfOk result (λ found. IfSome found (λ plan. plan.order ≡ order)) }
    ensures planned { IfOk result (λ found. IfSome found (λ plan.
        IsPlanBy page order resources.now plan.offsets.items)) }
    ensures heap { IfOk result (λ found. IfSome found (λ plan.
        IsHeap resources.now plan.offsets.items plan.heap)) }
    ensures fits { IfOk result (λ found. IfSome found (λ plan. plan.heap < 2 ^ 64)) }
    ensures large { IfOk result (λ found. IfNone found ((offsets : List ℕ) (heap : ℕ)
        → IsPlanBy page order resources.now offsets → IsHeap resources.now offsets heap
        → 2 ^ 64 ≤ heap)) }
{
    let indices = indices_in(alloc, order, resources, starts)?;
    let chosen = resources_at(alloc, resources, &indices)?;
    let Some(placed) = plan_in_order(alloc, &chosen, page)? else {
        return Ok(None);
    };
    let offsets = offsets_of(alloc, &indices, &placed)?;
    let heap = heap_of(resources, &offsets);
    Ok(Some(OrderPlan {
        order,
        offsets,
        heap,
    }))
}
