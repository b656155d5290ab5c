//! One residency set of a simulated device.

ghost use Rattle.std.specs.Prelude.{◌≡◌, ◌≤◌, [], IfOk, OnOk, OnErr, length, vec_len, vec_capacity};
ghost use Rattle.gpu_device.specs.Metal.{add_member, remove_member};
ghost use Rattle.gpu_sim_metal.specs.ResidencySet.{among};

use gpu_device::metal::MTLHeap;
use std::alloc::{AllocError, Global};

/// A residency set: its heaps in the order in which they were added, and those that it had when it was last committed.
/// Both lists have room for each heap whose number is at most `room`, so that adding and committing take no memory.
#[derive(Drop)]
pub(crate) struct ResidencySet {
    members: Vec<MTLHeap>,
    committed: Vec<MTLHeap>,
    room: usize,
    // No heap is a member twice.
    ghost once: { vec_len members ≤ among members.items room },
    ghost members_fit: { room ≤ vec_capacity members },
    ghost committed_fit: { room ≤ vec_capacity committed },
}

impl ResidencySet {
    /// An empty set with room for this many numbers.
    pub(crate) fn new(alloc: Global, room: usize) -> Result<Self, AllocError>
        ensures members { IfOk result (λ set. set.members.items ≡ []) }
        ensures committed { IfOk result (λ set. set.committed.items ≡ []) }
        ensures room { IfOk result (λ set. set.room ≡ room) }
    {
        Ok(ResidencySet {
            members: Vec::with_capacity(alloc, room)?,
            committed: Vec::with_capacity(alloc, room)?,
            room,
        })
    }

    /// The heaps in the order in which they were added.
    pub(crate) fn members(&self) -> &[MTLHeap]
        ensures { result.now ≡ self.now.members.items }
    {
        &self.members
    }

    /// The heaps that were members at the last commit.
    pub(crate) fn committed(&self) -> &[MTLHeap]
        ensures { result.now ≡ self.now.committed.items }
    {
        &self.committed
    }

    /// Makes room for numbers up to this one at least. Where the host refuses it, the lists stay.
    pub(crate) fn make_room(&mut self, room: usize) -> Result<(), AllocError>
        ensures members { self.new.members.items ≡ self.old.members.items }
        ensures committed { self.new.committed.items ≡ self.old.committed.items }
        ensures room { OnOk result (room ≤ self.new.room) }
        ensures grows { self.old.room ≤ self.new.room }
    {
        if room <= self.room {
            return Ok(());
        }
        self.members
            .reserve(room.saturating_sub(self.members.len()))?;
        self.committed
            .reserve(room.saturating_sub(self.committed.len()))?;
        self.room = room;
        Ok(())
    }

    /// Adds a heap, where it isn't a member yet.
    pub(crate) fn add(&mut self, heap: MTLHeap)
        requires number { 1 ≤ heap.0 }
        requires room { heap.0 ≤ self.old.room }
        ensures members { self.new.members.items ≡ add_member self.old.members.items heap }
        ensures committed { self.new.committed.items ≡ self.old.committed.items }
        ensures room { self.new.room ≡ self.old.room }
    {
        if !self.members.contains(&heap) {
            let _pushed = self.members.push(heap);
        }
    }

    /// Removes a heap, where it is a member.
    pub(crate) fn remove(&mut self, heap: MTLHeap)
        ensures members { self.new.members.items ≡ remove_member self.old.members.items heap }
        ensures committed { self.new.committed.items ≡ self.old.committed.items }
        ensures room { self.new.room ≡ self.old.room }
    {
        self.members.retain(|member| *member != heap);
    }

    /// Makes the members the committed members.
    pub(crate) fn commit(&mut self)
        ensures members { self.new.members.items ≡ self.old.members.items }
        ensures committed { self.new.committed.items ≡ self.old.members.items }
        ensures room { self.new.room ≡ self.old.room }
    {
        copy_within_room(&mut self.committed, &self.members);
    }
}

/// Makes a list the copy of another, in the room that it has.
fn copy_within_room(target: &mut Vec<MTLHeap>, source: &[MTLHeap])
    requires { length source.now ≤ vec_capacity target.old }
    ensures items { target.new.items ≡ source.now }
    ensures capacity { vec_capacity target.old ≤ vec_capacity target.new }
{
    target.clear();
    for heap in source {
        let _pushed = target.push(*heap);
    }
}
