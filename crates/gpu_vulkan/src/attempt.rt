//! Attempts to allocate in one memory type, and in the one that is asked after a refusal.

ghost use Rattle.std.specs.Prelude.{◌≡◌, ◌<◌, ◌%◌, length, Some, IfOk, IfSome, IsTrue, string_bytes};
ghost use Rattle.std.specs.Int.{is_power_of_two};
ghost use Rattle.gpu_values.specs.Refusal.{refusal_of};
ghost use Rattle.gpu_core.specs.Blocks.{BlocksWellFormed};
ghost use Rattle.gpu_vulkan.specs.Allocate.{IsAttempt, next_type};
ghost use Rattle.gpu_vulkan.specs.Blocks.{HoldsJustLiveBlocks};
ghost use Rattle.gpu_vulkan.specs.Lends.{AreDistinct};
ghost use Rattle.gpu_vulkan.specs.Live.{IsAllocated, IsLive};
ghost use Rattle.gpu_vulkan.specs.Rename.{StayLive};
ghost use Rattle.gpu_vulkan.specs.State.{setup_of, IsConstant};
ghost use Rattle.gpu_vulkan.specs.declared.allocation.Allocation.{Allocation};

use crate::source::VulkanBlocks;
use crate::{
    Allocation, AllocationCreateDesc, Setup, first_type, is_mapped, request_of, requests_dedicated,
    required_flags,
};
use gpu_core::Piece;
use gpu_device::vulkan::{DeviceMemory, VulkanDevice};
use gpu_pool::Pool;
use gpu_values::{AllocationError, MemoryLocation, Result};
use std::alloc::{AllocError, Global};

/// The allocation of a piece of the memory type at `index`.
pub fn allocation_of(
    setup: &Setup,
    desc: &AllocationCreateDesc,
    index: usize,
    piece: Piece<DeviceMemory>,
    name: String,
) -> Allocation
    requires { index < length setup.now.properties.types }
    ensures { string_bytes name ≡ desc.now.name.now
        → IsAllocated setup.now index desc.now piece result }
{
    let info = setup.memory_types()[index];
    Allocation {
        chunk_id: Some(piece.chunk_id),
        offset: piece.offset,
        size: piece.size,
        memory_block_index: piece.slot,
        memory_type_index: index,
        device_memory: piece.handle,
        memory_properties: info.property_flags,
        mapped: is_mapped(&info),
        dedicated: requests_dedicated(desc.allocation_scheme),
        name: Some(name),
    }
}

/// What a pool over a device holds at any time, for callers' proofs: blocks are sound, and the device holds what it held
/// at first, and just the live blocks. It does nothing.
pub fn blocks_are_held<D: VulkanDevice>(pool: &Pool<VulkanBlocks<D>>)
    ensures types { length pool.now.slots ≡ length pool.now.source.setup.properties.types }
    ensures sound { BlocksWellFormed pool.now.source.setup.properties.granularity pool.now.slots }
    ensures holds { HoldsJustLiveBlocks pool.now.source.setup.properties
        (D.held pool.now.source.first) (D.held pool.now.source.device) pool.now.slots }
{
    let _ = pool.memory_types();
    pool.pieces_are_apart();
    let _ = pool.source().device();
}

/// An allocation in the memory type at `index`. All host memory for it is at hand before the device is asked.
pub fn allocate_in_type<D: VulkanDevice>(
    alloc: Global,
    pool: &mut Pool<VulkanBlocks<D>>,
    desc: &AllocationCreateDesc,
    index: usize,
) -> Result<Allocation>
    requires sized { 0 < desc.now.requirements.size }
    requires aligned { IsTrue (is_power_of_two desc.now.requirements.alignment) }
    requires there { index < length pool.old.source.setup.properties.types }
    ensures attempts { IsAttempt D.VulkanDevice (setup_of pool.old) pool.old.budgets index desc.now
        pool.old.slots pool.old.source.device result pool.new.slots pool.new.source.device }
    ensures constant { IsConstant pool.old pool.new }
    ensures aligned { IfOk result (λ a. a.offset % desc.now.requirements.alignment ≡ 0) }
    ensures keeps { StayLive pool.old.slots pool.new.slots }
    ensures live { IfOk result (λ a. IsLive pool.new.slots a
        × ((b : Allocation) → IsLive pool.old.slots b → AreDistinct b a)) }
{
    if desc.requirements.size > pool.source().setup().heap_size(index) {
        return Err(AllocationError::OutOfMemory);
    }
    let name = match String::from_str(alloc, desc.name) {
        Ok(name) => name,
        Err(AllocError) => return Err(AllocationError::HostOutOfMemory),
    };
    match pool.allocate(index, &request_of(desc), desc.allocation_scheme) {
        Ok(piece) => Ok(allocation_of(pool.source().setup(), desc, index, piece, name)),
        Err(error) => Err(error),
    }
}

/// The memory type that is asked after a refusal, the fallback: memory for uploads is then allocated where the host can write it, be it slow
/// for the device.
pub fn next_type(
    setup: &Setup,
    desc: &AllocationCreateDesc,
    error: &AllocationError,
) -> Option<usize>
    ensures next { result ≡ next_type setup.now desc.now (refusal_of error.now) }
    ensures there { IfSome result (λ index. index < length setup.now.properties.types) }
{
    let types = setup.memory_types();
    let bits = desc.requirements.memory_type_bits;
    match (desc.location, error) {
        (MemoryLocation::CpuToGpu, AllocationError::HostOutOfMemory) => None,
        (MemoryLocation::CpuToGpu, _) => first_type(types, bits, required_flags(desc.location)),
        (_, _) => None,
    }
}
