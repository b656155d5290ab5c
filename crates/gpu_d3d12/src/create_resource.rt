//! Making resources: what is given for the device's, in a piece of a heap or in memory of its own.

ghost use Rattle.std.specs.Prelude.{◌≡◌, None, IfOk, length};
ghost use Rattle.gpu_d3d12.specs.Setup.{kinds_of_device};
ghost use Rattle.gpu_d3d12.specs.Journal.{with_made};
ghost use Rattle.gpu_pool.specs.Allocation.{StayLive};
ghost use Rattle.gpu_d3d12.specs.Blocks.{is_same_heap};
ghost use Rattle.gpu_d3d12.specs.Over.{IsCommittedOver, IsPlacedOver};
ghost use Rattle.gpu_d3d12.specs.Resource.{number_given, piece_desc, IsMade, IsPlacedIn, IsNewIn, BeginsAligned};
ghost use Rattle.gpu_d3d12.specs.State.{source_basis};
ghost use Rattle.gpu_d3d12.specs.Step.{info_of};

use crate::allocate::allocate_piece;
use crate::logging::log_allocate;
use crate::source::D3D12Blocks;
use crate::{
    Allocation, AllocationCreateDesc, CommittedMemory, CommittedResources, CreateCall, Resource,
    ResourceCreateDesc, allocation_info_of, type_for,
};
use gpu_device::d3d12::{D3D12Device, ID3D12Resource, ResourceAllocationInfo};
use gpu_pool::Pool;
use gpu_values::{AllocatorDebugSettings, Result};
use log::Log;
use std::alloc::Global;

/// What the piece of a placed resource is asked for, where the device tells this of it.
fn piece_desc<'a>(
    desc: &ResourceCreateDesc<'a>,
    info: ResourceAllocationInfo,
) -> AllocationCreateDesc<'a>
    ensures { result ≡ piece_desc desc.now info }
{
    AllocationCreateDesc {
        name: desc.name,
        location: desc.memory_location,
        size: info.size_in_bytes,
        alignment: info.alignment,
        resource_category: desc.resource_category,
    }
}

/// The resource in memory of its own, of the memory type at `index`.
fn committed_at(
    desc: &ResourceCreateDesc,
    index: usize,
    resource: ID3D12Resource,
    size: u64,
) -> Resource
    ensures { IsMade desc.now index None resource.0 size result }
{
    Resource {
        resource,
        allocation: None,
        memory_location: desc.memory_location,
        memory_type_index: index,
        size,
    }
}

/// The resource in a piece.
fn placed_in(
    desc: &ResourceCreateDesc,
    allocation: Allocation,
    resource: ID3D12Resource,
    size: u64,
) -> Resource
    ensures { IsPlacedIn desc.now allocation resource.0 size result }
{
    Resource {
        resource,
        memory_type_index: allocation.memory_type_index(),
        allocation: Some(allocation),
        memory_location: desc.memory_location,
        size,
    }
}

/// Makes a committed resource by this question.
pub fn make_committed<D: D3D12Device>(
    pool: &mut Pool<D3D12Blocks<D>>,
    committed: &mut CommittedResources,
    question: CreateCall,
    own: CommittedMemory,
    desc: &ResourceCreateDesc,
) -> Result<Resource>
    requires { length committed.old ≡ length (kinds_of_device pool.old.source.tier) }
    ensures made { IsCommittedOver D.D3D12Device desc.now question
        (own.entry.heap_properties.now, own.entry.heap_flags)
        (record { pool = pool.old; committed = committed.old }) result
        (record { pool = pool.new; committed = committed.new }) }
    ensures kinds { kinds_of_device pool.new.source.tier ≡ kinds_of_device pool.old.source.tier }
    ensures journal { pool.new.source.journal
        ≡ with_made (number_given result) pool.old.source.journal }
    ensures many { length committed.new ≡ length committed.old }
    ensures alone { IfOk result (λ r. r.allocation ≡ None) }
{
    let source = &mut pool.source;
    let size = allocation_info_of(source.device(), desc).size_in_bytes;
    let index = type_for(source.tier(), desc.memory_location, desc.resource_category);
    match committed.create(source, index, question, own, desc, size) {
        Err(error) => Err(error),
        Ok(resource) => Ok(committed_at(desc, index, resource, size)),
    }
}

/// Makes a placed resource by this question, in a piece of its own. Where the device refuses the resource, the piece is freed.
pub fn make_placed<D: D3D12Device, L: Log>(
    log: &L,
    debug: AllocatorDebugSettings,
    alloc: Global,
    pool: &mut Pool<D3D12Blocks<D>>,
    question: CreateCall,
    desc: &ResourceCreateDesc,
) -> Result<Resource>
    ensures made { IsPlacedOver D.D3D12Device desc.now question pool.old result pool.new }
    ensures kinds { kinds_of_device pool.new.source.tier ≡ kinds_of_device pool.old.source.tier }
    ensures journal { pool.new.source.journal
        ≡ with_made (number_given result) pool.old.source.journal }
    ensures keeps { StayLive is_same_heap pool.old.slots pool.new.slots }
    ensures gives { IfOk result (λ r. IsNewIn pool.old.slots pool.new.slots r.allocation) }
    ensures aligned { IfOk result (λ r. BeginsAligned
        (info_of (source_basis D.D3D12Device pool.old.source) desc.now).alignment r.allocation) }
{
    let asked = piece_desc(desc, allocation_info_of(pool.source().device(), desc));
    log_allocate(log, debug, &asked);
    let allocation = match allocate_piece(alloc, pool, &asked) {
        Err(error) => return Err(error),
        Ok(allocation) => allocation,
    };
    pool.pieces_are_apart();
    match pool
        .source
        .create_placed(question, desc, allocation.heap(), allocation.offset())
    {
        Ok(resource) => Ok(placed_in(desc, allocation, resource, asked.size)),
        Err(error) => {
            let _ = pool.free_named(&allocation);
            Err(error)
        }
    }
}
