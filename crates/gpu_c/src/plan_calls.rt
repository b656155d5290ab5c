//! Plans of transient resources for C: pure calls, with no handle. Any status but `OK` leaves what they write to as it was.

ghost use Rattle.std.specs.Prelude.{◌≡◌, ◌≢◌, ◌<◌, ◌↔◌, [], ◌∷◌, length, map};
ghost use Rattle.gpu_plan.specs.Best.{NoneFits, all_orders};
ghost use Rattle.gpu_plan.specs.Memory.{NoWholePages};
ghost use Rattle.gpu_plan.specs.Sets.{sets_of};
ghost use Rattle.gpu_c.specs.Status as status;
ghost use Rattle.gpu_c.specs.Status.{IsOneOf};
ghost use Rattle.gpu_c.specs.Plan.{CanPlan, HasMemory, IsPlanned, IsOfPlan, ShowsReused, resource_told};
ghost use Rattle.gpu_c.specs.PlanMemory.{needs_told, TellsMemory};
ghost use Rattle.gpu_c.specs.declared.status.TheConstants.{OK, OUT_OF_MEMORY, INVALID, HOST_OUT_OF_MEMORY};

use crate::plan::{are_plannable, planned, reused};
use crate::plan_memory::{gathered, memory};
use crate::plan_values::{HeapMemory, HeapPlanned, PlanNeeds, PlanResource};
use crate::status::INVALID;
use std::alloc::Global;

/// Places resources in one heap, at the offsets of the best of five orders. `INVALID` where the page size is no power of two, a resource
/// can't be planned, or there isn't an offset for each, else `OUT_OF_MEMORY` where in each order the heap's size would pass 64 bits, else
/// `HOST_OUT_OF_MEMORY`, which is also returned where the host refused memory before that was known.
#[unsafe(no_mangle)]
pub extern "C" fn pilhangko_raw_plan(
    alloc: Global,
    resources: &[PlanResource],
    page_size: u64,
    offsets: &mut [u64],
    told: &mut HeapPlanned,
) -> u32
    ensures planned { result ≡ status.ok → CanPlan resources.now page_size offsets.old
        × IsPlanned resources.now page_size offsets.new told.new }
    ensures invalid { (result ≡ status.invalid)
        ↔ (CanPlan resources.now page_size offsets.old → ⊥) }
    ensures out_of_memory { result ≡ status.out_of_memory
        → CanPlan resources.now page_size offsets.old
        × NoneFits page_size (map resource_told resources.now) all_orders }
    ensures fits { NoneFits page_size (map resource_told resources.now) all_orders
        → result ≢ status.ok }
    ensures host_out_of_memory { result ≡ status.host_out_of_memory
        → CanPlan resources.now page_size offsets.old }
    ensures statuses { IsOneOf result (status.ok ∷ status.invalid ∷ status.out_of_memory
        ∷ status.host_out_of_memory ∷ []) }
    ensures refused { result ≢ status.ok
        → (offsets.new ≡ offsets.old) × (told.new ≡ told.old) }
{
    if !page_size.is_power_of_two() {
        return INVALID;
    }
    if offsets.len() != resources.len() || !are_plannable(resources) {
        return INVALID;
    }
    planned(alloc, resources, page_size, offsets, told)
}

/// Which resources the one at an index takes bytes over from: copies as many of their indices, which ascend, as there is room for, and
/// reports how many there are. `INVALID` where there isn't an offset for each resource, or no resource has that index, else
/// `HOST_OUT_OF_MEMORY`.
#[unsafe(no_mangle)]
pub extern "C" fn pilhangko_raw_plan_reuses(
    alloc: Global,
    resources: &[PlanResource],
    offsets: &[u64],
    index: usize,
    reused_indices: &mut [usize],
    count: &mut usize,
) -> u32
    ensures reused { result ≡ status.ok → IsOfPlan resources.now offsets.now index
        × ShowsReused resources.now offsets.now index reused_indices.old reused_indices.new
        count.new }
    ensures invalid { (result ≡ status.invalid)
        ↔ (IsOfPlan resources.now offsets.now index → ⊥) }
    ensures host_out_of_memory { result ≡ status.host_out_of_memory
        → IsOfPlan resources.now offsets.now index }
    ensures statuses { IsOneOf result (status.ok ∷ status.invalid ∷ status.host_out_of_memory
        ∷ []) }
    ensures refused { result ≢ status.ok
        → (reused_indices.new ≡ reused_indices.old) × (count.new ≡ count.old) }
{
    if offsets.len() != resources.len() || resources.len() <= index {
        return INVALID;
    }
    reused(alloc, resources, offsets, index, reused_indices, count)
}

/// The set of each resource. In their order each one joins the first set, none of them and itself dedicated, with which it has a memory type in
/// common; where there is none, it begins one. Sets are numbered as they begin. `INVALID` where there isn't room for one each, else
/// `HOST_OUT_OF_MEMORY`.
#[unsafe(no_mangle)]
pub extern "C" fn pilhangko_raw_plan_sets(
    alloc: Global,
    needs: &[PlanNeeds],
    sets: &mut [usize],
) -> u32
    ensures gathered { result ≡ status.ok → (length sets.old ≡ length needs.now)
        × (sets.new ≡ sets_of [] (map needs_told needs.now)) }
    ensures invalid { (result ≡ status.invalid) ↔ (length sets.old ≢ length needs.now) }
    ensures host_out_of_memory { result ≡ status.host_out_of_memory
        → length sets.old ≡ length needs.now }
    ensures statuses { IsOneOf result (status.ok ∷ status.invalid ∷ status.host_out_of_memory
        ∷ []) }
    ensures refused { result ≢ status.ok → sets.new ≡ sets.old }
{
    if sets.len() != needs.len() {
        return INVALID;
    }
    gathered(alloc, needs, sets)
}

/// The memory for a heap in which these resources lie. Where all are of one kind, so is the memory; where they are of both, it begins with a page
/// and takes whole ones, so that nothing else lies on them. `INVALID` where the page size is no power of two or a resource can't be planned,
/// else `OUT_OF_MEMORY` where whole pages pass 64 bits, else `HOST_OUT_OF_MEMORY`, which is also returned where the host refused memory before
/// that was known.
#[unsafe(no_mangle)]
pub extern "C" fn pilhangko_raw_plan_memory(
    alloc: Global,
    resources: &[PlanResource],
    heap_size: u64,
    page_size: u64,
    told: &mut HeapMemory,
) -> u32
    ensures told { result ≡ status.ok → HasMemory resources.now page_size
        × TellsMemory page_size resources.now heap_size told.new }
    ensures invalid { (result ≡ status.invalid) ↔ (HasMemory resources.now page_size → ⊥) }
    ensures out_of_memory { result ≡ status.out_of_memory → HasMemory resources.now page_size
        × NoWholePages page_size (map resource_told resources.now) heap_size }
    ensures fits { NoWholePages page_size (map resource_told resources.now) heap_size
        → result ≢ status.ok }
    ensures host_out_of_memory { result ≡ status.host_out_of_memory
        → HasMemory resources.now page_size }
    ensures statuses { IsOneOf result (status.ok ∷ status.invalid ∷ status.out_of_memory
        ∷ status.host_out_of_memory ∷ []) }
    ensures refused { result ≢ status.ok → told.new ≡ told.old }
{
    if !page_size.is_power_of_two() || !are_plannable(resources) {
        return INVALID;
    }
    memory(alloc, resources, heap_size, page_size, told)
}
