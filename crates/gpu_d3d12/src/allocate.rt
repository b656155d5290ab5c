//! An allocation of a pool.

ghost use Rattle.std.specs.Prelude.{◌≡◌, ◌%◌, IfOk};
ghost use Rattle.gpu_d3d12.specs.Setup.{kinds_of_device};
ghost use Rattle.gpu_d3d12.specs.Allocate.{is_valid, AllocatesBy};
ghost use Rattle.gpu_pool.specs.Allocation.{IsNewlyLive, StayLive};
ghost use Rattle.gpu_d3d12.specs.Blocks.{is_same_heap};

use crate::source::D3D12Blocks;
use crate::{Allocation, AllocationCreateDesc, request_of, type_for};
use gpu_device::d3d12::D3D12Device;
use gpu_pool::Pool;
use gpu_values::{AllocationError, Result};
use std::alloc::Global;

/// An allocation in the first memory type that serves its location and category. `InvalidAllocationCreateDesc` where the size
/// is 0 or the alignment isn't a power of two.
#[inline(always)]
pub fn allocate_piece<D: D3D12Device>(
    alloc: Global,
    pool: &mut Pool<D3D12Blocks<D>>,
    desc: &AllocationCreateDesc,
) -> Result<Allocation>
    ensures allocates { AllocatesBy D.D3D12Device desc.now (is_valid desc.now) pool.old result
        pool.new }
    ensures kinds { kinds_of_device pool.new.source.tier ≡ kinds_of_device pool.old.source.tier }
    ensures journal { pool.new.source.journal ≡ pool.old.source.journal }
    ensures aligned { IfOk result (λ a. a.offset % desc.now.alignment ≡ 0) }
    ensures keeps { StayLive is_same_heap pool.old.slots pool.new.slots }
    ensures live { IfOk result (λ a. IsNewlyLive is_same_heap pool.old.slots pool.new.slots a) }
{
    if desc.size == 0 || !desc.alignment.is_power_of_two() {
        return Err(AllocationError::InvalidAllocationCreateDesc);
    }
    let index = type_for(pool.source().tier(), desc.location, desc.resource_category);
    pool.allocate_named(alloc, index, &request_of(desc), ())
}
