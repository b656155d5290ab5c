//! Transient resources that share one heap, as C tells them.

ghost use Rattle.std.specs.Prelude.{◌≡◌, ◌≢◌, ◌<◌, ◌↔◌, [], ◌∷◌, All, IfOk, IsTrue, length, map};
ghost use Rattle.gpu_plan.specs.Best.{NoneFits, all_orders};
ghost use Rattle.gpu_c.specs.Status as status;
ghost use Rattle.gpu_c.specs.Status.{IsOneOf};
ghost use Rattle.gpu_c.specs.Plan.{IsPlannable, IsPlanned, ShowsReused, plan_kind, resource_told, order_number};
ghost use Rattle.gpu_c.specs.Visit.{copied_into};
ghost use Rattle.gpu_c.specs.declared.status.TheConstants.{OK, OUT_OF_MEMORY, HOST_OUT_OF_MEMORY};

use crate::plan_values::{HeapPlanned, PlanResource};
use crate::request::{LINEAR, NON_LINEAR};
use crate::status::{HOST_OUT_OF_MEMORY, OK, OUT_OF_MEMORY};
use gpu_plan::{HeapPlan, Kind, Order, PlanError, Resource, plan, reused_by};
use std::alloc::{AllocError, Global};

/// Whether a resource can be planned.
fn is_plannable(r: &PlanResource) -> bool
    ensures { IsTrue result ↔ IsPlannable r.now }
{
    0 < r.size
        && r.alignment.is_power_of_two()
        && (r.kind == LINEAR || r.kind == NON_LINEAR)
        && r.first_pass <= r.last_pass
}

/// Whether each can.
pub fn are_plannable(resources: &[PlanResource]) -> bool
    ensures { IsTrue result ↔ All IsPlannable resources.now }
{
    resources.iter().all(|r| is_plannable(r))
}

fn kind_of(kind: u32) -> Kind
    ensures { result ≡ plan_kind kind }
{
    if kind == LINEAR {
        Kind::Linear
    } else {
        Kind::Optimal
    }
}

/// A resource as plans know it.
fn resource_of(r: &PlanResource) -> Resource
    ensures { result ≡ resource_told r.now }
{
    Resource {
        size: r.size,
        alignment: r.alignment,
        kind: kind_of(r.kind),
        first: r.first_pass,
        last: r.last_pass,
    }
}

/// The resources that are told, as plans know them.
pub fn resources_of(alloc: Global, told: &[PlanResource]) -> Result<Vec<Resource>, AllocError>
    ensures { IfOk result (λ v. v.items ≡ map resource_told told.now) }
{
    let mut resources = Vec::with_capacity(alloc, told.len())?;
    for r in told {
        resources.push(resource_of(r))?;
    }
    Ok(resources)
}

fn order_number(order: Order) -> u32
    ensures { result ≡ order_number order }
{
    match order {
        Order::Size => 1,
        Order::Area => 2,
        Order::Alignment => 3,
        Order::Magnitude => 4,
        Order::Breadth => 5,
    }
}

/// Tells a plan.
fn tell(plan: &HeapPlan, offsets: &mut [u64], told: &mut HeapPlanned)
    requires { length plan.now.offsets.items ≡ length offsets.old }
    ensures offsets { offsets.new ≡ plan.now.offsets.items }
    ensures told { told.new ≡ record {
      heap_size = plan.now.heap;
      peak = plan.now.peak;
      order = order_number plan.now.order;
    } }
{
    offsets.copy_from_slice(&plan.offsets);
    *told = HeapPlanned {
        heap_size: plan.heap,
        peak: plan.peak,
        order: order_number(plan.order),
    };
}

/// Plans resources.
pub fn planned(
    alloc: Global,
    resources: &[PlanResource],
    page_size: u64,
    offsets: &mut [u64],
    told: &mut HeapPlanned,
) -> u32
    requires each { All IsPlannable resources.now }
    requires paged { 0 < page_size }
    requires room { length offsets.old ≡ length resources.now }
    ensures planned { result ≡ status.ok
        → IsPlanned resources.now page_size offsets.new told.new }
    ensures large { result ≡ status.out_of_memory
        → NoneFits page_size (map resource_told resources.now) all_orders }
    ensures fits { NoneFits page_size (map resource_told resources.now) all_orders
        → result ≢ status.ok }
    ensures statuses { IsOneOf result
        (status.ok ∷ status.out_of_memory ∷ status.host_out_of_memory ∷ []) }
    ensures refused { result ≢ status.ok
        → (offsets.new ≡ offsets.old) × (told.new ≡ told.old) }
{
    let Ok(asked) = resources_of(alloc, resources) else {
        return HOST_OUT_OF_MEMORY;
    };
    match plan(alloc, &asked, page_size) {
        Err(PlanError::HostOutOfMemory) => HOST_OUT_OF_MEMORY,
        Err(PlanError::TooLarge) => OUT_OF_MEMORY,
        Ok(plan) => {
            tell(&plan, offsets, told);
            OK
        }
    }
}

/// Copies as many indices as there is room for, and returns how many there are.
fn copy_indices(found: &[usize], room: &mut [usize]) -> usize
    ensures whole { result ≡ length found.now }
    ensures copied { room.new ≡ copied_into found.now room.old }
{
    let count = found.len().min(room.len());
    room[..count].copy_from_slice(&found[..count]);
    found.len()
}

/// Which resources the one at an index reuses.
pub fn reused(
    alloc: Global,
    resources: &[PlanResource],
    offsets: &[u64],
    index: usize,
    room: &mut [usize],
    count: &mut usize,
) -> u32
    requires each { length offsets.now ≡ length resources.now }
    requires index { index < length resources.now }
    ensures reused { result ≡ status.ok
        → ShowsReused resources.now offsets.now index room.old room.new count.new }
    ensures statuses { IsOneOf result (status.ok ∷ status.host_out_of_memory ∷ []) }
    ensures refused { result ≢ status.ok → (room.new ≡ room.old) × (count.new ≡ count.old) }
{
    let Ok(asked) = resources_of(alloc, resources) else {
        return HOST_OUT_OF_MEMORY;
    };
    match reused_by(alloc, &asked, offsets, index) {
        Err(_) => HOST_OUT_OF_MEMORY,
        Ok(found) => {
            *count = copy_indices(&found, room);
            OK
        }
    }
}
