//! Moves of the Metal allocator's allocations.

ghost use Rattle.std.specs.Prelude.{◌≡◌, ◌-◌, ◌<◌, IfOk, OnOk};
ghost use Rattle.gpu_core.specs.Blocks.{total_capacity};
ghost use Rattle.gpu_metal.specs.Blocks.{is_same_heap};
ghost use Rattle.gpu_metal.specs.Live.{Allocation, IsLive};
ghost use Rattle.gpu_metal.specs.Step.{Free, IsMoveStep, IsStep, freed_as};
ghost use Rattle.gpu_pool.specs.Allocation.{AreDistinct, StayLive};
ghost use Rattle.gpu_defragment.specs.Defragmentation.{Proposes};
ghost use Rattle.gpu_defragment.specs.Ends.{Abandons, Finishes, LeavesFewer};

use gpu_device::metal::MetalDevice;
use gpu_metal::{Allocation, AllocationCreateDesc, Allocator};
use gpu_values::AllocationError;
use log::Log;

/// Moves of Metal allocations.
pub type Defragmentation = crate::Defragmentation<Allocation>;

/// A Metal allocation that moves.
pub type Move = crate::Move<Allocation>;

/// A finished move of one.
pub type Finished = crate::Finished<Allocation>;

impl crate::Defragmentation<Allocation> {
    /// Proposes a move of an allocation, by its request again: those in the lowest slots first, so that low blocks empty. Where it has
    /// a second place the move is open, the last of `open`, and `None` comes back; where the frame has no room for it, or no
    /// block ahead a place, the allocation comes back. The errors are those of `Allocator::propose_move`, and it comes back beside them;
    /// nothing changes.
    pub fn propose<D: MetalDevice>(
        &mut self,
        allocator: &mut Allocator<D>,
        from: Allocation,
        desc: &AllocationCreateDesc,
    ) -> Result<Option<Allocation>, (AllocationError, Allocation)>
        ensures proposes { Proposes from.size (IsMoveStep D.MetalDevice from desc.now) from self.old
            allocator.old result self.new allocator.new }
        ensures keeps { StayLive is_same_heap allocator.old.slots allocator.new.slots }
    {
        let size = from.size();
        if !self.has_room(size) {
            return Ok(Some(from));
        }
        match allocator.propose_move(&from, desc) {
            Err(error) => Err((error, from)),
            Ok(None) => Ok(Some(from)),
            Ok(Some(to)) => {
                self.open_move(size, from, to);
                Ok(None)
            }
        }
    }
}

impl crate::Move<Allocation> {
    /// Finishes the move, once the device has copied and uses the first place no more: frees that. Where the first place isn't the
    /// allocator's, the move comes back beside the cause, and nothing changes. It takes no memory.
    pub fn finish<D: MetalDevice, L: Log>(
        self,
        log: &L,
        allocator: &mut Allocator<D>,
    ) -> Result<Finished, (AllocationError, Move)>
        ensures finishes { Finishes (λ a r. IsStep D.MetalDevice (Free a) (freed_as r)) self
            allocator.old result allocator.new }
        // the second place, and whatever else was live, stays so
        ensures stays { self.from.memory_block_index < self.to.memory_block_index
            → IsLive allocator.old.slots self.to → IsLive allocator.new.slots self.to }
        ensures keeps { (b : Allocation) → IsLive allocator.old.slots b → AreDistinct b self.from
            → IsLive allocator.new.slots b }
        ensures fewer { OnOk result
            (LeavesFewer self.from.memory_type_index self.from.memory_block_index
            allocator.old.slots allocator.new.slots) }
        ensures freed { IfOk result (λ f. f.freed
            ≡ total_capacity allocator.old.slots - total_capacity allocator.new.slots) }
    {
        let Move { from, to } = self;
        let before = allocator.capacity();
        match allocator.finish_move(log, from, &to) {
            Ok(()) => Ok(Finished {
                allocation: to,
                freed: before.saturating_sub(allocator.capacity()),
            }),
            Err((error, from)) => Err((error, Move { from, to })),
        }
    }

    /// Abandons the move: frees the second place, and hands the allocation back at its first. Where the second place isn't the
    /// allocator's, the move comes back beside the cause, and nothing changes. It takes no memory.
    pub fn abandon<D: MetalDevice, L: Log>(
        self,
        log: &L,
        allocator: &mut Allocator<D>,
    ) -> Result<Allocation, (AllocationError, Move)>
        ensures abandons { Abandons (λ a r. IsStep D.MetalDevice (Free a) (freed_as r)) self
            allocator.old result allocator.new }
        // the first place, and whatever else was live, stays so
        ensures stays { self.from.memory_block_index < self.to.memory_block_index
            → IsLive allocator.old.slots self.from → IsLive allocator.new.slots self.from }
        ensures keeps { (b : Allocation) → IsLive allocator.old.slots b → AreDistinct b self.to
            → IsLive allocator.new.slots b }
    {
        let Move { from, to } = self;
        match allocator.abandon_move(log, &from, to) {
            Ok(()) => Ok(from),
            Err((error, to)) => Err((error, Move { from, to })),
        }
    }
}
