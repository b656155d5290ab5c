//! A ring over one mapped allocation of the Vulkan allocator.

ghost use Rattle.std.specs.Prelude.{◌≡◌, ℕ, ◌+◌, ◌%◌, ◌^◌, ◌<◌, ◌≤◌, length, IfOk, IfErr, IfSome, IsTrue, MatchOption};
ghost use Rattle.gpu_ring.specs.Calls.{empty_ring, RingAllocates, EndsFrame, Retires, bytes_up_to};
ghost use Rattle.gpu_ring.specs.Line.{IsTaken, Apart};
ghost use Rattle.gpu_vulkan.specs.Live.{IsMapped};
ghost use Rattle.gpu_upload.specs.Upload.{Writes, KeepsTaken, LiesTaken};

use crate::memory::write_at;
use gpu_device::vulkan::VulkanDevice;
use gpu_ring::{Frame, Ring};
use gpu_vulkan::{Allocation, Allocator};
use std::alloc::{AllocError, Global};
use std::marker::Model;

/// Uploads in one mapped allocation: they go to the next place, and are freed a frame at a time. Offsets begin at the allocation's.
#[derive(Drop)]
pub struct UploadRing {
    ring: Ring,
    allocation: Allocation,
}

impl Model for UploadRing {
    ghost use Rattle.std.specs.Prelude.{◌≡◌};
    ghost use Rattle.gpu_upload.specs.UploadState.{UploadState};

    ghost Value = { UploadState };

    ghost view = { λ u. record { ring = u.ring; allocation = u.allocation } };

    ghost invariant = { λ u. u.ring.size ≡ u.allocation.size };
}

impl UploadRing {
    /// A ring over all bytes of an allocation, with room for so many frames in flight. It takes the memory for them; no later call takes
    /// any. Where the host refuses it, the allocation comes back.
    pub fn new(
        alloc: Global,
        allocation: Allocation,
        frames: usize,
    ) -> Result<UploadRing, (AllocError, Allocation)>
        requires some { 0 < allocation.size }
        requires bounded { allocation.size < 2 ^ 63 }
        ensures made { IfOk result (λ u. u
            ≡ record { ring = empty_ring allocation.size frames; allocation = allocation }) }
        ensures back { IfErr result (λ e. e.1 ≡ allocation) }
    {
        match Ring::new(alloc, allocation.size(), frames) {
            Ok(ring) => Ok(UploadRing { ring, allocation }),
            Err(error) => Err((error, allocation)),
        }
    }

    /// Allocates a piece of the open frame: its offset, a multiple of the alignment. `None` where the taken bytes leave no place, and then
    /// nothing changes. It takes no memory.
    pub fn allocate(&mut self, size: u64, alignment: u64) -> Option<u64>
        requires some { 0 < size }
        requires aligned { 0 < alignment }
        ensures allocates { RingAllocates self.old.ring size alignment result self.new.ring }
        ensures same { self.new.allocation ≡ self.old.allocation }
        // the piece shares no byte with any that lies in the taken ones
        ensures apart { IfSome result (λ o. (p m : ℕ) → 0 < m → LiesTaken self.old p m
            → Apart p m o size) }
        ensures inside { IfSome result (λ o. o + size ≤ self.old.allocation.size) }
        // from then on it lies in the taken ones, and so do all that did
        ensures lies { IfSome result (λ o. LiesTaken self.new o size) }
        ensures stays { (p m : ℕ) → LiesTaken self.old p m → LiesTaken self.new p m }
    {
        self.ring.allocate(size, alignment)
    }

    /// Writes these bytes over those of the allocation from there on: of a piece, before its frame is ended. It takes no memory.
    pub fn write<D: VulkanDevice>(&self, allocator: &mut Allocator<D>, offset: u64, bytes: &[u8])
        // the allocation is live, and the host sees its memory: `mapped_slice` tells
        requires mapped { IsMapped allocator.old.setup.properties allocator.old.slots
            self.now.allocation }
        requires inside { offset + length bytes.now ≤ self.now.allocation.size }
        ensures { Writes D.VulkanDevice self.now.allocation allocator.old offset bytes.now
            allocator.new }
    {
        write_at(
            allocator.slice_mut(&self.allocation),
            offset as usize,
            bytes,
        );
    }

    /// Allocates a piece of the open frame and writes these bytes into it: its offset. `None` where the taken bytes leave no place, and then
    /// nothing changes. It takes no memory.
    pub fn upload<D: VulkanDevice>(
        &mut self,
        allocator: &mut Allocator<D>,
        bytes: &[u8],
        alignment: u64,
    ) -> Option<u64>
        requires mapped { IsMapped allocator.old.setup.properties allocator.old.slots
            self.old.allocation }
        requires some { 0 < length bytes.now }
        requires aligned { 0 < alignment }
        ensures allocates { RingAllocates self.old.ring (length bytes.now) alignment result
            self.new.ring }
        ensures same { self.new.allocation ≡ self.old.allocation }
        ensures writes { MatchOption result (allocator.new ≡ allocator.old)
            (λ o. Writes D.VulkanDevice self.old.allocation allocator.old o bytes.now
            allocator.new) }
        // what lies in the taken bytes, and so what frames in flight read, stays as it was written
        ensures kept { KeepsTaken (D.held allocator.old.device) (D.held allocator.new.device)
            self.old }
        ensures lies { IfSome result (λ o. LiesTaken self.new o (length bytes.now)) }
        ensures stays { (p m : ℕ) → LiesTaken self.old p m → LiesTaken self.new p m }
    {
        let offset = self.allocate(bytes.len() as u64, alignment)?;
        self.write(allocator, offset, bytes);
        Some(offset)
    }

    /// Closes the open frame, which is in flight from then on; `None` where there is room for no more, and then nothing changes.
    pub fn end_frame(&mut self) -> Option<Frame>
        ensures ends { EndsFrame self.old.ring result self.new.ring }
        ensures same { self.new.allocation ≡ self.old.allocation }
    {
        self.ring.end_frame()
    }

    /// Frees the uploads of that frame and of each older one. Where it isn't in flight, nothing changes.
    pub fn retire(&mut self, frame: Frame) -> bool
        ensures retires { Retires self.old.ring frame result self.new.ring }
        // bytes behind the freed ones lie in the taken ones still
        ensures kept { IsTrue result → (q m : ℕ) → 0 < m
            → IsTaken self.old.ring.size self.old.ring.tail self.old.ring.taken q m
            → self.old.ring.tail + bytes_up_to self.old.ring frame ≤ q
            → LiesTaken self.new (q % self.old.ring.size) m }
        ensures same { self.new.allocation ≡ self.old.allocation }
    {
        self.ring.retire(frame)
    }

    /// What it holds, and where the open frame's bytes lie: by the ring's own calls.
    pub fn ring(&self) -> &Ring
        ensures { result.now ≡ self.now.ring }
    {
        &self.ring
    }

    /// The allocation that it is over.
    pub fn allocation(&self) -> &Allocation
        ensures { result.now ≡ self.now.allocation }
    {
        &self.allocation
    }

    /// The allocation again, with all frames gone.
    pub fn into_allocation(self) -> Allocation
        ensures { result ≡ self.allocation }
    {
        let UploadRing {
            ring: _,
            allocation,
        } = self;
        allocation
    }
}
