//! Which transient resources share an allocation, and the memory of their heap, as C tells them.

ghost use Rattle.std.specs.Prelude.{◌≡◌, ◌≢◌, ◌<◌, [], ◌∷◌, IfOk, length, map};
ghost use Rattle.gpu_plan.specs.Memory.{NoWholePages};
ghost use Rattle.gpu_plan.specs.Sets.{sets_of};
ghost use Rattle.gpu_c.specs.Status as status;
ghost use Rattle.gpu_c.specs.Status.{IsOneOf};
ghost use Rattle.gpu_c.specs.Plan.{resource_told};
ghost use Rattle.gpu_c.specs.PlanMemory.{needs_told, kind_number, memory_told, TellsMemory};
ghost use Rattle.gpu_c.specs.declared.status.TheConstants.{OK, OUT_OF_MEMORY, HOST_OUT_OF_MEMORY};

use crate::plan::resources_of;
use crate::plan_values::{HeapMemory, PlanNeeds, PlanResource};
use crate::request::{LINEAR, NON_LINEAR};
use crate::status::{HOST_OUT_OF_MEMORY, OK, OUT_OF_MEMORY};
use gpu_plan::{Kind, Memory, MemoryNeeds, memory_for, sets_of};
use std::alloc::{AllocError, Global};

/// What memory is needed, as plans know it.
fn needs_of(needs: &PlanNeeds) -> MemoryNeeds
    ensures { result ≡ needs_told needs.now }
{
    MemoryNeeds {
        memory_type_bits: needs.memory_type_bits,
        dedicated: needs.dedicated,
    }
}

/// The same of each.
fn all_needs(alloc: Global, told: &[PlanNeeds]) -> Result<Vec<MemoryNeeds>, AllocError>
    ensures { IfOk result (λ v. v.items ≡ map needs_told told.now) }
{
    let mut needs = Vec::with_capacity(alloc, told.len())?;
    for one in told {
        needs.push(needs_of(one))?;
    }
    Ok(needs)
}

/// The set of each resource.
pub fn gathered(alloc: Global, needs: &[PlanNeeds], sets: &mut [usize]) -> u32
    requires { length sets.old ≡ length needs.now }
    ensures gathered { result ≡ status.ok → sets.new ≡ sets_of [] (map needs_told needs.now) }
    ensures statuses { IsOneOf result (status.ok ∷ status.host_out_of_memory ∷ []) }
    ensures refused { result ≢ status.ok → sets.new ≡ sets.old }
{
    let Ok(asked) = all_needs(alloc, needs) else {
        return HOST_OUT_OF_MEMORY;
    };
    match sets_of(alloc, &asked) {
        Err(_) => HOST_OUT_OF_MEMORY,
        Ok(found) => {
            sets.copy_from_slice(&found);
            OK
        }
    }
}

fn kind_number(kind: Kind) -> u32
    ensures { result ≡ kind_number kind }
{
    match kind {
        Kind::Linear => LINEAR,
        Kind::Optimal => NON_LINEAR,
    }
}

/// Memory, as C is told of it.
fn memory_told(memory: &Memory) -> HeapMemory
    ensures { result ≡ memory_told memory.now }
{
    HeapMemory {
        size: memory.size,
        alignment: memory.alignment,
        kind: kind_number(memory.kind),
    }
}

/// The memory for a heap with these resources.
pub fn memory(
    alloc: Global,
    resources: &[PlanResource],
    heap_size: u64,
    page_size: u64,
    told: &mut HeapMemory,
) -> u32
    requires { 0 < page_size }
    ensures told { result ≡ status.ok
        → TellsMemory page_size resources.now heap_size told.new }
    ensures large { result ≡ status.out_of_memory
        → NoWholePages page_size (map resource_told resources.now) heap_size }
    ensures fits { NoWholePages page_size (map resource_told resources.now) heap_size
        → result ≢ status.ok }
    ensures statuses { IsOneOf result
        (status.ok ∷ status.out_of_memory ∷ status.host_out_of_memory ∷ []) }
    ensures refused { result ≢ status.ok → told.new ≡ told.old }
{
    let Ok(asked) = resources_of(alloc, resources) else {
        return HOST_OUT_OF_MEMORY;
    };
    match memory_for(&asked, heap_size, page_size) {
        None => OUT_OF_MEMORY,
        Some(memory) => {
            *told = memory_told(&memory);
            OK
        }
    }
}
