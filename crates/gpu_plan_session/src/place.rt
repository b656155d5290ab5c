//! The places of all resources of a plan.

ghost use Rattle.std.specs.Prelude.{◌≡◌, ◌<◌, ℕ, All, IfOk, IfErr, length, map, slice_index};
ghost use Rattle.gpu_plan.specs.Plan.{IsValid};
ghost use Rattle.gpu_plan.specs.Best.{NoneFits, all_orders};
ghost use Rattle.gpu_plan.specs.declared.error.PlanError.TheVariants.{TooLarge};
ghost use Rattle.gpu_plan_session.specs.PlanSession.{resources_of, key_at, offsets_of, IsPlace, ArePlaces, IsSolved};

use crate::reply::{Place, Solved};
use crate::session::Listed;
use gpu_plan::{HeapPlan, PlanError, Resource, plan, reuses};
use std::alloc::{AllocError, Global};

/// The resources alone.
fn resources_of(alloc: Global, listed: &[Listed]) -> Result<Vec<Resource>, AllocError>
    ensures { IfOk result (λ found. found.items ≡ resources_of listed.now) }
{
    let mut found = Vec::with_capacity(alloc, listed.len())?;
    for one in listed {
        found.push(one.resource)?;
    }
    Ok(found)
}

/// The caller's numbers of the resources at these indices.
fn keys_at(alloc: Global, listed: &[Listed], indices: &[usize]) -> Result<Vec<u64>, AllocError>
    requires { All (λ i. i < length listed.now) indices.now }
    ensures { IfOk result (λ keys. keys.items ≡ map (key_at listed.now) indices.now) }
{
    let mut keys = Vec::with_capacity(alloc, indices.len())?;
    for index in indices {
        keys.push(listed[*index].key)?;
    }
    Ok(keys)
}

/// Where the resource at an index lies.
fn place_at(
    alloc: Global,
    listed: &[Listed],
    resources: &[Resource],
    plan: &HeapPlan,
    index: usize,
) -> Result<Place, AllocError>
    requires resources { resources.now ≡ resources_of listed.now }
    requires each { length plan.now.offsets.items ≡ length resources.now }
    requires index { index < length listed.now }
    ensures offset { IfOk result (λ p. p.offset ≡ slice_index plan.now.offsets.items index) }
    ensures place { IfOk result (λ p. IsPlace listed.now plan.now.offsets.items index p) }
{
    let reused = reuses(alloc, resources, plan, index)?;
    let one = &listed[index];
    Ok(Place {
        name: one.name.as_str().to_string(alloc)?,
        offset: plan.offsets[index],
        size: one.resource.size,
        reuses: keys_at(alloc, listed, &reused)?,
    })
}

/// Where each resource lies.
fn places_of(
    alloc: Global,
    listed: &[Listed],
    resources: &[Resource],
    plan: &HeapPlan,
) -> Result<Vec<Place>, AllocError>
    requires resources { resources.now ≡ resources_of listed.now }
    requires each { length plan.now.offsets.items ≡ length resources.now }
    ensures offsets { IfOk result (λ places. offsets_of places.items ≡ plan.now.offsets.items) }
    ensures places { IfOk result (λ places.
        ArePlaces listed.now plan.now.offsets.items places.items) }
{
    let mut places = Vec::with_capacity(alloc, listed.len())?;
    for index in 0..listed.len() {
        places.push(place_at(alloc, listed, resources, plan, index)?)?;
    }
    Ok(places)
}

/// Places all resources by the best plan.
pub fn solved(alloc: Global, listed: &[Listed], page: u64) -> Result<Solved, PlanError>
    requires valid { All IsValid (resources_of listed.now) }
    requires paged { 0 < page }
    ensures solved { IfOk result (λ solved. IsSolved page listed.now solved) }
    ensures large { IfErr result (λ e. e ≡ TooLarge
        → NoneFits page (resources_of listed.now) all_orders) }
{
    let resources = resources_of(alloc, listed)?;
    let best = plan(alloc, &resources, page)?;
    let places = places_of(alloc, listed, &resources, &best)?;
    Ok(Solved {
        places,
        heap: best.heap,
        peak: best.peak,
        order: best.order,
    })
}
