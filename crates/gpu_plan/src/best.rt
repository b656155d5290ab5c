//! The best of the orders' plans.

ghost use Rattle.std.specs.Prelude.{◌≡◌, ℕ, ◌+◌, ◌^◌, ◌<◌, ◌≤◌, All, IfOk, IfErr, IsErr, MatchOption};
ghost use Rattle.gpu_plan.specs.Plan.{IsValid};
ghost use Rattle.gpu_plan.specs.Passes.{AreStarts, IsPeak};
ghost use Rattle.gpu_plan.specs.Best.{IsBestOf, NoneFits, NoneMeet, AreAligned, all_orders};

use crate::error::PlanError;
use crate::order::Order;
use crate::order_plan::{OrderPlan, better, plan_by};
use crate::passes::{Start, peak, starts};
use crate::resource::Resource;
use std::alloc::{AllocError, Global};

/// Where resources lie in one heap.
#[derive(Drop)]
pub struct HeapPlan {
    /// Each resource's first byte, by its index.
    pub offsets: Vec<u64>,
    /// The heap's size in bytes: the byte behind the last resource, 0 without resources.
    pub heap: u64,
    /// The order in which they were placed.
    pub order: Order,
    /// The most bytes that are alive in one pass: no heap is smaller.
    pub peak: u64,
}

/// The best plan of the orders; `None` where each one's heap would pass 64 bits.
fn best_plan(
    alloc: Global,
    resources: &[Resource],
    starts: &[Start],
    page: u64,
) -> Result<Option<OrderPlan>, AllocError>
    requires valid { All IsValid resources.now }
    requires paged { 0 < page }
    requires starts { AreStarts resources.now starts.now }
    ensures { IfOk result (λ best. MatchOption best (NoneFits page resources.now all_orders)
        (λ plan. IsBestOf page resources.now all_orders plan.order plan.offsets.items plan.heap
        × (plan.heap < 2 ^ 64))) }
{
    let mut best: Option<OrderPlan> = None;
    for order in Order::ALL {
        let plan = plan_by(alloc, order, resources, starts, page)?;
        best = better(best, plan);
    }
    Ok(best)
}

/// Places resources in one heap, at the offsets of the plan with the smallest heap, of equal ones the first by order. `HostOutOfMemory`
/// where the host refused memory; `TooLarge` where each order's heap would pass 64 bits. The page (bytes) is what resources of different
/// kinds don't share.
pub fn plan(alloc: Global, resources: &[Resource], page: u64) -> Result<HeapPlan, PlanError>
    requires valid { All IsValid resources.now }
    requires paged { 0 < page }
    ensures best { IfOk result (λ plan. IsBestOf page resources.now all_orders
        plan.order plan.offsets.items plan.heap) }
    ensures aligned { IfOk result (λ plan. AreAligned resources.now plan.offsets.items) }
    ensures apart { IfOk result (λ plan. NoneMeet page resources.now plan.offsets.items) }
    ensures peak { IfOk result (λ plan. IsPeak resources.now plan.peak) }
    ensures heap { IfOk result (λ plan. plan.peak ≤ plan.heap) }
    // too large exactly where no order's heap fits 64 bits
    ensures large { IfErr result (λ e. e ≡ PlanError.TooLarge
        → NoneFits page resources.now all_orders) }
    ensures fits { NoneFits page resources.now all_orders → IsErr result }
{
    let starts = starts(alloc, resources)?;
    match best_plan(alloc, resources, &starts, page)? {
        Some(best) => Ok(HeapPlan {
            peak: peak(&starts) as u64,
            offsets: best.offsets,
            heap: best.heap,
            order: best.order,
        }),
        None => Err(PlanError::TooLarge),
    }
}
