//! The allocator: blocks of heaps by memory type, and the calls that share them out.

ghost use Rattle.std.specs.Prelude.{◌≡◌, ◌↔◌, ◌%◌, ◌+◌, ◌<◌, ◌≤◌, [], All, None, IfOk, IfErr, OnOk, OnErr, IfSome, IsNone, IsTrue, length, option_copied};
ghost use Rattle.gpu_values.specs.Refusal.{refusal_of};
ghost use Rattle.gpu_values.specs.declared.error.AllocationError.TheVariants.{HostOutOfMemory};
ghost use Rattle.gpu_core.specs.Blocks.{slots_at, total_capacity, BlocksWellFormed, EachKeepsOneEmptyAtMost};
ghost use Rattle.gpu_core.specs.Moves.{moves_left, slots_above};
ghost use Rattle.gpu_core.specs.Budgets.{budget_at, budgets};
ghost use Rattle.gpu_core.specs.Types.{slots_of, kinds};
ghost use Rattle.gpu_metal.specs.MemoryKinds.{locations};
ghost use Rattle.gpu_metal.specs.Residency.{MakesSet, ChangesHeld, with_committed, commit_recorded, releases_recorded};
ghost use Rattle.gpu_metal.specs.Setup.{kinds_of_device, IsNotMade};
ghost use Rattle.gpu_pool.specs.Told.{Reports, SetsBudgetAt};
ghost use Rattle.gpu_pool.specs.Handles.{all_handles};
ghost use Rattle.gpu_pool.specs.Reply as replies;
ghost use Rattle.gpu_pool.specs.Reply.{Done};
ghost use Rattle.gpu_metal.specs.Allocate.{AllocatorAllocates};
ghost use Rattle.gpu_metal.specs.Apart.{IsInside, SharesNoByte};
ghost use Rattle.gpu_metal.specs.Blocks.{is_same_heap, residency_of, left_behind, HoldsJustLiveBlocks};
ghost use Rattle.gpu_metal.specs.Free.{AllocatorFrees};
ghost use Rattle.gpu_pool.specs.Allocation.{AreDistinct, IsNewlyLive, IsSecondPlace, StayLive};
ghost use Rattle.gpu_metal.specs.Live.{Allocation, IsLive};
ghost use Rattle.gpu_metal.specs.Step.{IsStep, IsAllocateStep, IsMoveStep, Free, Commit, SetBudget, Budget, Capacity, LiveHeaps, Report, freed_as, reply_of_done, reply_of_report};

use crate::logging::{log_allocate, log_free};
use crate::source::MetalBlocks;
use crate::{
    Allocation, AllocationCreateDesc, AllocatorCreateDesc, empty_types, is_again, request_of,
    type_for,
};
use gpu_core::MemoryTypes;
use gpu_device::metal::{MTLHeap, MTLResidencySet, MetalDevice};
use gpu_pool::{Handles, Pool};
use gpu_values::{AllocationError, AllocatorDebugSettings, AllocatorReport, Result};
use log::Log;
use std::alloc::{AllocError, Global};
use std::marker::Model;

/// The heaps of the live blocks by memory type, then by slot. It takes no memory.
pub type Heaps<'a> = Handles<'a, MTLHeap>;

/// Allocates pieces of heaps from a few large blocks. It must be spent by `destroy`.
pub struct Allocator<D: MetalDevice> {
    pool: Pool<MetalBlocks<D>>,
    debug: AllocatorDebugSettings,
    alloc: Global,
}

impl<D: MetalDevice> Model for Allocator<D> {
    ghost use Rattle.gpu_metal.specs.State.{State, state_of};

    ghost Value = { State D };

    ghost view = { λ a. state_of a.pool a.debug };
}

impl<D: MetalDevice> Allocator<D> {
    /// An allocator without blocks and without budgets, which owns the device, and the residency set, where one is wanted.
    /// Memory types 0, 1 and 2 are those for `GpuOnly`, `CpuToGpu` and `GpuToCpu`. Where it can't be made, the device comes
    /// back beside `HostOutOfMemory`, before it was asked anything, else beside `Internal` where it refuses the residency
    /// set; it holds what it held.
    pub fn new(alloc: Global, desc: AllocatorCreateDesc<D>) -> Result<Self, (AllocationError, D)>
        ensures first { IfOk result (λ a. a.first ≡ desc.device) }
        ensures made { IfOk result (λ a. MakesSet D.MetalDevice desc.create_residency_set
            desc.device a.setup.residency_set a.device) }
        ensures chosen { IfOk result (λ a. (a.setup.sizes ≡ desc.allocation_sizes)
            × (a.setup.debug ≡ desc.debug_settings)) }
        ensures empty { IfOk result (λ a. All (λ slots. slots ≡ []) a.slots) }
        ensures budgets { IfOk result (λ a. All (λ b. b ≡ None) a.budgets) }
        ensures types { IfOk result (λ a. length a.slots ≡ length locations) }
        ensures bounds { IfOk result (λ a. length a.budgets ≡ length locations) }
        ensures refused { IfErr result (λ e. IsNotMade D.MetalDevice desc.create_residency_set
            (refusal_of e.0) desc.device e.1) }
        ensures held { IfErr result (λ e. D.held e.1 ≡ D.held desc.device) }
    {
        let AllocatorCreateDesc {
            device,
            debug_settings: debug,
            allocation_sizes,
            create_residency_set,
        } = desc;
        let types = match empty_types(alloc) {
            Ok(types) => MemoryTypes::new(types),
            Err(AllocError) => return Err((AllocationError::HostOutOfMemory, device)),
        };
        match MetalBlocks::new(device, create_residency_set) {
            Err(refused) => Err(refused),
            Ok(source) => Ok(Allocator {
                pool: Pool::new(source, allocation_sizes, types),
                debug,
                alloc,
            }),
        }
    }

    /// Allocates a piece of a heap that is there or of a new one. A new heap is a member of the residency set, which has to be
    /// committed for it (`commit_residency_set`). The errors, in the order in which they are looked at:
    /// - `InvalidAllocationCreateDesc`: the size is 0, or the alignment isn't a power of two;
    /// - `HostOutOfMemory`: the host refused memory for the name, the record or the block's own lists;
    /// - `OutOfMemory`: a new block would carry the sum of all blocks' sizes past `u64::MAX`;
    /// - `BudgetExceeded`: a new block would carry its memory type past its budget (`set_budget`);
    /// - `Internal`: the device refused the heap, for lack of memory too. Metal tells no cause.
    ///
    /// A refusal leaves every block as it was, and the device holds what it held.
    pub fn allocate<L: Log>(&mut self, log: &L, desc: &AllocationCreateDesc) -> Result<Allocation>
        // which memory type is asked, what it met with, what is returned, and what that leaves of blocks, device and set
        ensures allocates { AllocatorAllocates D.MetalDevice desc.now self.old result self.new }
        ensures constant { (self.new.first ≡ self.old.first) × (self.new.setup ≡ self.old.setup)
            × (self.new.budgets ≡ self.old.budgets) }
        ensures step { IsAllocateStep D.MetalDevice desc.now result self.old self.new }
        ensures aligned { IfOk result (λ a. a.offset % desc.now.alignment ≡ 0) }
        ensures keeps { StayLive is_same_heap self.old.slots self.new.slots }
        ensures gives { IfOk result (λ a. IsNewlyLive is_same_heap self.old.slots self.new.slots
            a) }
    {
        log_allocate(log, self.debug, desc);
        if desc.size == 0 || !desc.alignment.is_power_of_two() {
            return Err(AllocationError::InvalidAllocationCreateDesc);
        }
        let index = type_for(desc.location);
        self.pool
            .allocate_named(self.alloc, index, &request_of(desc), ())
    }

    /// Frees an allocation, and gives its block back where the block is left empty and isn't the only shared one of its
    /// memory type; its heap then leaves the residency set. A live one is never refused; any other comes back as it was, beside
    /// `Internal`, and then nothing changes. Release the resources in it before. It takes no memory.
    pub fn free<L: Log>(
        &mut self,
        log: &L,
        allocation: Allocation,
    ) -> Result<(), (AllocationError, Allocation)>
        ensures frees { AllocatorFrees D.MetalDevice allocation self.old result self.new }
        ensures constant { (self.new.first ≡ self.old.first) × (self.new.setup ≡ self.old.setup)
            × (self.new.budgets ≡ self.old.budgets) }
        ensures step { IsStep D.MetalDevice (Free allocation) (freed_as result) self.old self.new }
        ensures keeps { (b : Allocation) → IsLive self.old.slots b → AreDistinct b allocation
            → IsLive self.new.slots b }
    {
        log_free(log, self.debug, &allocation);
        match self.pool.free_named(&allocation) {
            Ok(()) => Ok(()),
            Err(error) => Err((error, allocation)),
        }
    }

    /// A second place for a live allocation, in a block that is there and in a higher slot, for the request that it was made for:
    /// where a new allocation of it would lie now, if that is higher. `None` where it isn't live, or no such block has a place.
    /// The device is asked for nothing. Both are live until one of them is freed: the first once what lies there is copied, or
    /// the second, which gives the move up. Its location isn't looked at. `InvalidAllocationCreateDesc` where the request isn't
    /// valid or of another size, else `HostOutOfMemory`; then nothing changes.
    pub fn propose_move(
        &mut self,
        allocation: &Allocation,
        desc: &AllocationCreateDesc,
    ) -> Result<Option<Allocation>>
        // what it is refused for, which place it finds or that there is none, and that nothing else changes
        ensures step { IsMoveStep D.MetalDevice allocation.now desc.now result self.old self.new }
        ensures gives { IfOk result (λ o. IfSome o (λ to. IsSecondPlace is_same_heap
            desc.now.alignment self.old.slots allocation.now to self.new.slots)) }
        ensures none { IfOk result (λ o. IsNone o → self.new ≡ self.old) }
        ensures refused { OnErr result (self.new ≡ self.old) }
        ensures others { self.new ≡ record self.old { slots = self.new.slots } }
        ensures keeps { StayLive is_same_heap self.old.slots self.new.slots }
    {
        if !is_again(allocation.size(), desc) {
            return Err(AllocationError::InvalidAllocationCreateDesc);
        }
        self.pool
            .propose_move_named(self.alloc, allocation, &request_of(desc))
    }

    /// Finishes a move: frees the first place of an allocation, whose owner uses the second from then on. A live one is never
    /// refused; any other comes back as it was, beside `Internal`, and then nothing changes. Its block goes back as by `free`. It
    /// takes no memory.
    pub fn finish_move<L: Log>(
        &mut self,
        log: &L,
        from: Allocation,
        to: &Allocation,
    ) -> Result<(), (AllocationError, Allocation)>
        ensures frees { AllocatorFrees D.MetalDevice from self.old result self.new }
        ensures constant { (self.new.first ≡ self.old.first) × (self.new.setup ≡ self.old.setup)
            × (self.new.budgets ≡ self.old.budgets) }
        ensures step { IsStep D.MetalDevice (Free from) (freed_as result) self.old self.new }
        ensures stays { from.memory_block_index < to.now.memory_block_index
            → IsLive self.old.slots to.now → IsLive self.new.slots to.now }
        ensures keeps { (b : Allocation) → IsLive self.old.slots b → AreDistinct b from
            → IsLive self.new.slots b }
        ensures fewer { OnOk result (moves_left (slots_at self.new.slots from.memory_type_index)
            + slots_above (slots_at self.old.slots from.memory_type_index) from.memory_block_index
            ≤ moves_left (slots_at self.old.slots from.memory_type_index)) }
    {
        self.free(log, from)
    }

    /// Abandons a move: frees the second place of an allocation, which stays where it was. It refuses as `finish_move` does.
    pub fn abandon_move<L: Log>(
        &mut self,
        log: &L,
        from: &Allocation,
        to: Allocation,
    ) -> Result<(), (AllocationError, Allocation)>
        ensures frees { AllocatorFrees D.MetalDevice to self.old result self.new }
        ensures constant { (self.new.first ≡ self.old.first) × (self.new.setup ≡ self.old.setup)
            × (self.new.budgets ≡ self.old.budgets) }
        ensures step { IsStep D.MetalDevice (Free to) (freed_as result) self.old self.new }
        ensures stays { from.now.memory_block_index < to.memory_block_index
            → IsLive self.old.slots from.now → IsLive self.new.slots from.now }
        ensures keeps { (b : Allocation) → IsLive self.old.slots b → AreDistinct b to
            → IsLive self.new.slots b }
    {
        self.free(log, to)
    }

    /// The heaps of the live blocks by memory type, then by slot. It takes no memory.
    pub fn heaps(&self) -> Heaps<'_>
        ensures heaps { result ≡ all_handles self.now.slots }
        ensures step { IsStep D.MetalDevice LiveHeaps (replies.Handles result) self.now self.now }
    {
        self.pool.handles()
    }

    /// The residency set; `None` where none was wanted. Its members are the heaps of the live blocks. Don't change it, and commit
    /// it by `commit_residency_set` alone.
    pub fn residency_set(&self) -> Option<&MTLResidencySet>
        ensures { option_copied result ≡ self.now.setup.residency_set }
    {
        self.pool.source().residency_set()
    }

    /// Makes the members of the residency set its committed members; without a set it does nothing. It takes no memory and is
    /// never refused.
    pub fn commit_residency_set(&mut self)
        ensures commits { ChangesHeld D.MetalDevice self.old.device
            (with_committed (D.held self.old.device) self.old.setup.residency_set)
            (commit_recorded self.old.setup.residency_set (D.history self.old.device))
            self.new.device }
        ensures constant { (self.new.first ≡ self.old.first) × (self.new.setup ≡ self.old.setup)
            × (self.new.slots ≡ self.old.slots) × (self.new.budgets ≡ self.old.budgets) }
        ensures step { IsStep D.MetalDevice Commit Done self.old self.new }
    {
        let pool = &mut self.pool;
        pool.source.commit();
    }

    /// Bounds the sum of the sizes of the blocks of a memory type, in bytes: a request that needs a new block beyond it is
    /// refused with `BudgetExceeded`. `None` takes the bound away; a budget below the present sum gives no block back.
    /// `Internal` where there is no such memory type, and then nothing changes. It takes no memory.
    pub fn set_budget(&mut self, memory_type: usize, budget: Option<u64>) -> Result<()>
        ensures budgets { SetsBudgetAt self.old.slots memory_type budget self.old.budgets result
            self.new.budgets }
        ensures others { self.new ≡ record self.old { budgets = self.new.budgets } }
        ensures step { IsStep D.MetalDevice (SetBudget memory_type budget) (reply_of_done result)
            self.old self.new }
    {
        self.pool.set_budget(memory_type, budget)
    }

    /// The budget of a memory type, in bytes; `None` where it has none, or there is no such type.
    pub fn budget(&self, memory_type: usize) -> Option<u64>
        ensures budget { result ≡ budget_at self.now.budgets memory_type }
        ensures step { IsStep D.MetalDevice (Budget memory_type) (replies.Budget result) self.now
            self.now }
    {
        self.pool.budget(memory_type)
    }

    /// The sum of the sizes of the live blocks, in bytes.
    pub fn capacity(&self) -> u64
        ensures sum { result ≡ total_capacity self.now.slots }
        ensures step { IsStep D.MetalDevice Capacity (replies.Capacity result) self.now self.now }
    {
        self.pool.capacity()
    }

    /// What is allocated: the live blocks and pieces by memory type, then by slot, pieces by offset, and the sums of both.
    /// The only refusal is `HostOutOfMemory`.
    pub fn generate_report(&self) -> Result<AllocatorReport>
        ensures step { IsStep D.MetalDevice Report (reply_of_report result) self.now self.now }
        ensures reports { Reports self.now.slots result }
    {
        self.pool.report(self.alloc)
    }

    /// The memory types, lent to be looked at: their blocks with pieces and gaps, and what is counted of them.
    pub fn memory_types(&self) -> &MemoryTypes<MTLHeap>
        ensures slots { slots_of result.now ≡ self.now.slots }
        ensures budgets { budgets result.now ≡ self.now.budgets }
        ensures kinds { kinds result.now ≡ kinds_of_device }
    {
        self.pool.memory_types()
    }

    /// The device, lent. It holds what it held when it was handed in, the residency set, where there is one, and just the live
    /// blocks.
    pub fn device(&self) -> &D
        ensures lent { result.now ≡ self.now.device }
        ensures holds { HoldsJustLiveBlocks self.now.setup.residency_set (D.held self.now.first)
            (D.held self.now.device) self.now.slots }
        ensures constant { D.properties self.now.device ≡ D.properties self.now.first }
    {
        self.pool.source().device()
    }

    /// What holds of live allocations at any time, for callers' proofs: each lies inside its block, and no two share a
    /// byte. All blocks are sound, and at most one of a memory type has no allocation. It does nothing.
    pub fn allocations_are_apart(&self)
        ensures sound { BlocksWellFormed 1 self.now.slots }
        ensures inside { (a : Allocation) → IsLive self.now.slots a → IsInside self.now.slots a }
        ensures apart { (a b : Allocation) → IsLive self.now.slots a → IsLive self.now.slots b
            → AreDistinct a b → SharesNoByte a b }
        ensures empty { EachKeepsOneEmptyAtMost self.now.slots }
    {
        self.pool.pieces_are_apart();
    }

    /// Whether an allocation is live: the allocator has a record with its type, slot, number, offset, size and heap.
    pub fn is_live(&self, allocation: &Allocation) -> bool
        ensures { IsTrue result ↔ IsLive self.now.slots allocation.now }
    {
        self.pool.is_live_named(allocation)
    }

    /// Gives every block back, and returns the device, which then holds what it held when it was handed in, and the residency
    /// set, where there is one, without members; its committed members stay as they were last committed. Nothing is logged. It
    /// is never refused.
    pub fn destroy(self) -> D
        // what was held at first, and the set without members
        ensures held { D.held result ≡ left_behind (D.held self.first) self.setup.residency_set
            (residency_of (D.held self.device) self.setup.residency_set) }
        // each heap left the set and went back, once, by memory type, then by slot
        ensures asks_nothing { ChangesHeld D.MetalDevice self.device (D.held result)
            (releases_recorded self.setup.residency_set (all_handles self.slots)
            (D.history self.device)) result }
    {
        let Allocator {
            pool,
            debug: _,
            alloc: _,
        } = self;
        pool.destroy().into_device()
    }
}
