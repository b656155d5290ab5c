//! Moves of allocations in mapped memory, whose bytes the allocator copies.

ghost use Rattle.std.specs.Prelude.{◌≡◌, ◌≤◌, ◌⊎◌, [], length, Some, IfOk, IfErr, vec_capacity};
ghost use Rattle.gpu_vulkan.specs.Carry.{Carries, Moves, ReadsAsBefore};
ghost use Rattle.gpu_vulkan.specs.Lends.{AreDistinct, ChangesOnly};
ghost use Rattle.gpu_vulkan.specs.Live.{IsLive, IsMapped, bytes_at};
ghost use Rattle.gpu_vulkan.specs.Move.{IsSecondPlace};
ghost use Rattle.gpu_vulkan.specs.declared.allocation.Allocation.{Allocation};

use crate::{Allocation, AllocationCreateDesc, Allocator};
use gpu_device::vulkan::VulkanDevice;
use gpu_values::{AllocationError, Result};
use log::Log;
use std::alloc::AllocError;

/// Puts the bytes of an allocation in mapped memory into an empty list that has room for them.
fn read_into<D: VulkanDevice>(a: &Allocator<D>, from: &Allocation, bytes: &mut Vec<u8>)
    requires mapped { IsMapped a.now.setup.properties a.now.slots from.now }
    requires empty { bytes.old.items ≡ [] }
    requires room { from.now.size ≤ vec_capacity bytes.old }
    ensures read { bytes_at (D.held a.now.device) from.now ≡ Some bytes.new.items }
    ensures len { length bytes.new.items ≡ from.now.size }
{
    if let Some(held) = a.mapped_slice(from) {
        let _ = bytes.extend_from_slice(held);
    }
}

/// Writes bytes all over an allocation in mapped memory.
fn write_over<D: VulkanDevice>(a: &mut Allocator<D>, to: &Allocation, bytes: &[u8])
    requires mapped { IsMapped a.old.setup.properties a.old.slots to.now }
    requires len { length bytes.now ≡ to.now.size }
    ensures { ChangesOnly D.VulkanDevice a.old to.now bytes.now a.new }
{
    a.slice_mut(to).copy_from_slice(bytes);
}

/// Copies what an allocation in mapped memory holds to another one of its size, and frees the first.
fn carry<D: VulkanDevice, L: Log>(
    log: &L,
    a: &mut Allocator<D>,
    from: Allocation,
    to: &Allocation,
    bytes: &mut Vec<u8>,
)
    requires first { IsMapped a.old.setup.properties a.old.slots from }
    requires second { IsMapped a.old.setup.properties a.old.slots to.now }
    requires other { AreDistinct to.now from }
    requires size { to.now.size ≡ from.size }
    requires empty { bytes.old.items ≡ [] }
    requires room { from.size ≤ vec_capacity bytes.old }
    ensures carries { Carries D.VulkanDevice from to.now a.old a.new }
    ensures live { IsLive a.new.slots to.now }
    ensures reads { bytes_at (D.held a.new.device) to.now ≡ bytes_at (D.held a.old.device) from }
    ensures others { (b : Allocation) → IsLive a.old.slots b → AreDistinct b from
        → AreDistinct b to.now → IsLive a.new.slots b × ReadsAsBefore D.VulkanDevice a.old b a.new }
    ensures constant { (a.new.first ≡ a.old.first) × (a.new.setup ≡ a.old.setup)
        × (a.new.budgets ≡ a.old.budgets) }
{
    read_into(a, &from, bytes);
    write_over(a, to, bytes);
    let _ = a.device();
    let _ = a.free(log, from);
    let _ = a.device();
}

impl<D: VulkanDevice> Allocator<D> {
    /// Moves an allocation in mapped memory to a second place, as `propose_move` finds one: what it holds is copied there, its
    /// first place is freed, and it comes back at the second, under the description's name. Where it isn't live or isn't mapped,
    /// or has no place ahead, it comes back as it was. The errors are those of `propose_move`, and it then comes back beside
    /// the error; nothing changes. Meanwhile it takes as much memory of the host as the allocation has bytes.
    pub fn move_mapped<L: Log>(
        &mut self,
        log: &L,
        allocation: Allocation,
        desc: &AllocationCreateDesc,
    ) -> Result<Allocation, (AllocationError, Allocation)>
        // which place it finds, or that it stays; what is copied there, and that the first place goes
        ensures moves { Moves D.VulkanDevice allocation desc.now self.old result self.new }
        ensures gives { IfOk result (λ a. (a ≡ allocation)
            ⊎ IsSecondPlace desc.now.requirements.alignment self.old.slots allocation a
            self.new.slots) }
        ensures live { IfOk result (λ a. IsLive self.old.slots allocation
            → IsLive self.new.slots a) }
        ensures reads { IfOk result (λ a. bytes_at (D.held self.new.device) a
            ≡ bytes_at (D.held self.old.device) allocation) }
        ensures others { (b : Allocation) → IsLive self.old.slots b → AreDistinct b allocation
            → IsLive self.new.slots b × ReadsAsBefore D.VulkanDevice self.old b self.new }
        ensures refused { IfErr result (λ e. (e.1 ≡ allocation) × (self.new ≡ self.old)) }
        ensures constant { (self.new.first ≡ self.old.first) × (self.new.setup ≡ self.old.setup)
            × (self.new.budgets ≡ self.old.budgets) }
    {
        let mapped = self.mapped_slice(&allocation).is_some();
        if !mapped {
            return Ok(allocation);
        }
        let mut bytes: Vec<u8> = match Vec::with_capacity(self.alloc(), allocation.size as usize) {
            Ok(bytes) => bytes,
            Err(AllocError) => return Err((AllocationError::HostOutOfMemory, allocation)),
        };
        match self.propose_move(&allocation, desc) {
            Err(error) => Err((error, allocation)),
            Ok(None) => Ok(allocation),
            Ok(Some(to)) => {
                carry(log, self, allocation, &to, &mut bytes);
                Ok(to)
            }
        }
    }
}
