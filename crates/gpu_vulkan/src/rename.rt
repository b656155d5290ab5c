//! Giving pieces other names.

ghost use Rattle.std.specs.Prelude.{◌≡◌, Some, IfOk, IfErr, OnOk, OnErr, IsSomeAnd, string_bytes};
ghost use Rattle.gpu_values.specs.declared.error.AllocationError.TheVariants.{HostOutOfMemory};
ghost use Rattle.gpu_values.specs.Refusal.{refusal_of};
ghost use Rattle.gpu_core.specs.Blocks.{slots_at};
ghost use Rattle.gpu_core.specs.Rename.{IsNotNamed, IsRenamed};
ghost use Rattle.gpu_vulkan.specs.Live.{is_same_memory, IsLiveIn};
ghost use Rattle.gpu_vulkan.specs.Rename.{Renames, StayLive};

use crate::Allocation;
use crate::source::VulkanBlocks;
use gpu_core::Piece;
use gpu_device::vulkan::{DeviceMemory, VulkanDevice};
use gpu_pool::Pool;
use gpu_values::Result;
use std::alloc::Global;

/// A name in memory of its own. The only refusal is `HostOutOfMemory`.
fn own_name(alloc: Global, name: &str) -> Result<String>
    ensures name { IfOk result (λ s. string_bytes s ≡ name.now) }
    ensures cause { IfErr result (λ e. e ≡ HostOutOfMemory) }
{
    Ok(String::from_str(alloc, name)?)
}

/// The name in memory of its own where the piece is live. For any other none is taken.
fn name_for<D: VulkanDevice>(
    alloc: Global,
    pool: &Pool<VulkanBlocks<D>>,
    index: usize,
    piece: &Piece<DeviceMemory>,
    name: &str,
) -> Result<Option<String>>
    ensures name { IsLiveIn pool.now.slots index (Some piece.now)
        → IfOk result (λ own. IsSomeAnd own (λ s. string_bytes s ≡ name.now)) }
    ensures cause { IfErr result (λ e. e ≡ HostOutOfMemory) }
    ensures live { OnErr result (IsLiveIn pool.now.slots index (Some piece.now)) }
{
    if !pool.is_live(index, piece) {
        return Ok(None);
    }
    Ok(Some(own_name(alloc, name)?))
}

/// Gives a live piece of the memory type at `index` another name, which is answered in memory of its own. A refusal
/// changes nothing.
fn rename_piece<D: VulkanDevice>(
    alloc: Global,
    pool: &mut Pool<VulkanBlocks<D>>,
    index: usize,
    piece: &Piece<DeviceMemory>,
    name: &str,
) -> Result<Option<String>>
    ensures name { IfOk result (λ own. IsSomeAnd own (λ s. string_bytes s ≡ name.now)) }
    ensures renamed { OnOk result (IsRenamed is_same_memory index piece.now name.now pool.old.slots
        pool.new.slots) }
    ensures cause { IfErr result (λ e. IsNotNamed is_same_memory (slots_at pool.old.slots index)
        piece.now (refusal_of e)) }
    ensures refused { OnErr result (pool.new.slots ≡ pool.old.slots) }
    ensures keeps { StayLive pool.old.slots pool.new.slots }
    ensures others { pool.new ≡ record pool.old { slots = pool.new.slots } }
{
    let own = name_for(alloc, pool, index, piece, name)?;
    match pool.rename(index, piece, name) {
        Ok(()) => Ok(own),
        Err(error) => Err(error),
    }
}

/// Gives an allocation another name, and the record of its piece with it; a null allocation has none. `Internal` where it
/// is neither null nor live, else `HostOutOfMemory` where the host refused memory; a refusal changes nothing.
pub fn rename<D: VulkanDevice>(
    alloc: Global,
    pool: &mut Pool<VulkanBlocks<D>>,
    allocation: &mut Allocation,
    name: &str,
) -> Result<()>
    ensures renames { Renames allocation.old name.now pool.old.slots result allocation.new
        pool.new.slots }
    ensures live { StayLive pool.old.slots pool.new.slots }
    ensures others { pool.new ≡ record pool.old { slots = pool.new.slots } }
{
    let own = match allocation.piece() {
        None => Some(own_name(alloc, name)?),
        Some(piece) => {
            match rename_piece(alloc, pool, allocation.memory_type_index, &piece, name) {
                Ok(own) => own,
                Err(error) => return Err(error),
            }
        }
    };
    allocation.name = own;
    Ok(())
}
