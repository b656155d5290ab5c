//! A second place for an allocation that is to move.

ghost use Rattle.std.specs.Prelude.{◌≡◌, true, IfOk, IfSome, IsNone, OnErr};
ghost use Rattle.gpu_vulkan.specs.Move.{IsSecondPlace, IsProposed};
ghost use Rattle.gpu_vulkan.specs.Rename.{StayLive};
ghost use Rattle.gpu_vulkan.specs.Step.{is_again};

use crate::attempt::{allocation_of, blocks_are_held};
use crate::source::VulkanBlocks;
use crate::{Allocation, AllocationCreateDesc, request_of, requests_dedicated};
use gpu_device::vulkan::VulkanDevice;
use gpu_pool::Pool;
use gpu_values::{AllocationError, Result};
use std::alloc::{AllocError, Global};

/// Whether the description is the request again that a piece of this size was made for: valid, of that size, and for a block that it
/// may share.
pub fn is_again(size: u64, desc: &AllocationCreateDesc) -> bool
    ensures { result ≡ is_again size desc.now }
{
    let wanted = desc.requirements.size;
    if wanted == 0 || !desc.requirements.alignment.is_power_of_two() {
        return false;
    }
    wanted == size && !requests_dedicated(desc.allocation_scheme)
}

/// A second place for an allocation, for its request again; `None` where it isn't live, or has no place ahead. The device is
/// asked for nothing. The only refusal is `HostOutOfMemory`.
pub fn second_place<D: VulkanDevice>(
    alloc: Global,
    pool: &mut Pool<VulkanBlocks<D>>,
    from: &Allocation,
    desc: &AllocationCreateDesc,
) -> Result<Option<Allocation>>
    requires again { is_again from.now.size desc.now ≡ true }
    ensures proposed { IsProposed from.now desc.now pool.old result pool.new }
    ensures gives { IfOk result (λ o. IfSome o (λ to. IsSecondPlace desc.now.requirements.alignment
        pool.old.slots from.now to pool.new.slots)) }
    ensures others { pool.new ≡ record pool.old { slots = pool.new.slots } }
    ensures none { IfOk result (λ o. IsNone o → pool.new ≡ pool.old) }
    ensures refused { OnErr result (pool.new ≡ pool.old) }
    ensures keeps { StayLive pool.old.slots pool.new.slots }
{
    let Some(piece) = from.piece() else {
        return Ok(None);
    };
    let name = match String::from_str(alloc, desc.name) {
        Ok(name) => name,
        Err(AllocError) => return Err(AllocationError::HostOutOfMemory),
    };
    let index = from.memory_type_index;
    blocks_are_held(pool);
    match pool.propose_move(index, &piece, &request_of(desc)) {
        Err(error) => Err(error),
        Ok(None) => Ok(None),
        Ok(Some(to)) => Ok(Some(allocation_of(pool.source().setup(), desc, index, to, name))),
    }
}
