//! Resources that are given back.

ghost use Rattle.std.specs.Prelude.{◌≡◌, length};
ghost use Rattle.gpu_d3d12.specs.Setup.{kinds_of_device};
ghost use Rattle.gpu_pool.specs.Source.{result_of};
ghost use Rattle.gpu_d3d12.specs.Journal.{with_released};
ghost use Rattle.gpu_pool.specs.Allocation.{AreDistinct};
ghost use Rattle.gpu_d3d12.specs.Live.{Allocation, IsLive};
ghost use Rattle.gpu_d3d12.specs.Over.{FreesPlacedOver, FreesResourceOver};
ghost use Rattle.gpu_d3d12.specs.Resource.{IsBeside};

use crate::logging::log_free;
use crate::source::D3D12Blocks;
use crate::{Allocation, Committed, CommittedResources, Resource};
use gpu_device::d3d12::{D3D12Device, ID3D12Resource};
use gpu_pool::Pool;
use gpu_values::{AllocatorDebugSettings, Result};
use log::Log;

/// Releases a placed resource, and then frees its piece. Where the piece isn't live nothing is released.
fn free_placed<D: D3D12Device, L: Log>(
    log: &L,
    debug: AllocatorDebugSettings,
    pool: &mut Pool<D3D12Blocks<D>>,
    resource: ID3D12Resource,
    allocation: &Allocation,
) -> Result<()>
    ensures frees { FreesPlacedOver D.D3D12Device allocation.now resource.0 pool.old
        (result_of result) pool.new }
    ensures kinds { kinds_of_device pool.new.source.tier ≡ kinds_of_device pool.old.source.tier }
    ensures journal { pool.new.source.journal
        ≡ with_released resource result pool.old.source.journal }
    ensures keeps { (b : Allocation) → IsLive pool.old.slots b → AreDistinct b allocation.now
        → IsLive pool.new.slots b }
{
    if !pool.is_live_named(allocation) {
        // This is refused, and says why.
        return pool.free_named(allocation);
    }
    log_free(log, debug, allocation);
    pool.source.release(resource);
    pool.free_named(allocation)
}

/// Gives a resource back, and with it its piece or its record. Where that isn't live nothing changes. It takes no memory.
pub fn free_resource<D: D3D12Device, L: Log>(
    log: &L,
    debug: AllocatorDebugSettings,
    pool: &mut Pool<D3D12Blocks<D>>,
    committed: &mut CommittedResources,
    resource: &Resource,
) -> Result<()>
    ensures frees { FreesResourceOver D.D3D12Device resource.now
        (record { pool = pool.old; committed = committed.old }) (result_of result)
        (record { pool = pool.new; committed = committed.new }) }
    ensures kinds { kinds_of_device pool.new.source.tier ≡ kinds_of_device pool.old.source.tier }
    ensures journal { pool.new.source.journal
        ≡ with_released resource.now.resource result pool.old.source.journal }
    ensures many { length committed.new ≡ length committed.old }
    ensures keeps { (b : Allocation) → IsLive pool.old.slots b → IsBeside b resource.now.allocation
        → IsLive pool.new.slots b }
{
    match &resource.allocation {
        Some(allocation) => free_placed(log, debug, pool, resource.resource, allocation),
        None => {
            let made = Committed {
                memory_type: resource.memory_type_index,
                resource: resource.resource,
                size: resource.size,
            };
            committed.release(&mut pool.source, made)
        }
    }
}
