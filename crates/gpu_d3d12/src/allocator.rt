//! The allocator: blocks of heaps by memory type, and the calls that share them out.

ghost use Rattle.std.specs.Prelude.{◌≡◌, ◌↔◌, ◌%◌, [], All, None, Ok, IfOk, IfErr, OnErr, IfSome, IsNone, IsTrue, OnOk, length, ◌+◌, ◌<◌, ◌≤◌};
ghost use Rattle.std.specs.Option.{unwrap_or};
ghost use Rattle.std.specs.FinMap.{get};
ghost use Rattle.gpu_values.specs.Refusal.{refusal_of, host_out_of_memory};
ghost use Rattle.gpu_values.specs.declared.error.AllocationError.TheVariants.{HostOutOfMemory};
ghost use Rattle.gpu_core.specs.Blocks.{slots_at, total_capacity, BlocksWellFormed, EachKeepsOneEmptyAtMost};
ghost use Rattle.gpu_core.specs.Moves.{moves_left, slots_above};
ghost use Rattle.gpu_core.specs.Budgets.{budget_at, budgets};
ghost use Rattle.gpu_core.specs.Types.{slots_of, kinds};
ghost use Rattle.gpu_d3d12.specs.DeviceVersion.{device_of, with_device};
ghost use Rattle.gpu_d3d12.specs.MemoryKinds.{memory_kinds};
ghost use Rattle.gpu_d3d12.specs.Setup.{kinds_of_device, setup_fault};
ghost use Rattle.gpu_pool.specs.Told.{Reports, SetsBudgetAt, TextsLeaks};
ghost use Rattle.gpu_pool.specs.Reply as replies;
ghost use Rattle.gpu_pool.specs.Handles.{all_handles};
ghost use Rattle.gpu_d3d12.specs.Allocate.{AllocatorAllocates};
ghost use Rattle.gpu_d3d12.specs.Apart.{IsInside, SharesNoByte};
ghost use Rattle.gpu_d3d12.specs.Blocks.{HoldsJustLiveBlocks, AsksNothing, releases_recorded, is_same_heap};
ghost use Rattle.gpu_d3d12.specs.Committed.{statistics_at};
ghost use Rattle.gpu_d3d12.specs.Free.{AllocatorFrees};
ghost use Rattle.gpu_d3d12.specs.Journal.{IsFirstAndOut, with_made, with_released};
ghost use Rattle.gpu_pool.specs.Allocation.{AreDistinct, IsNewlyLive, IsSecondPlace, RenamesNamed, StayLive};
ghost use Rattle.gpu_d3d12.specs.Live.{Allocation, IsLive};
ghost use Rattle.gpu_d3d12.specs.Reply as module_replies;
ghost use Rattle.gpu_d3d12.specs.Resource.{number_given, BeginsAligned, IsBeside, IsLivePlaced, IsNewIn, LiesInHeap};
ghost use Rattle.gpu_d3d12.specs.State.{basis_of, beside_of, pool_of};
ghost use Rattle.gpu_d3d12.specs.Step.{Free, Rename, Capacity, Report, Leaks, FreeResource, Statistics, SetBudget, Budget, info_of, IsStep, IsAllocateStep, IsMoveStep, IsCreateStep, freed_as, reply_of_done, reply_of_report, leaked_as};
ghost use Rattle.gpu_d3d12.specs.declared.resource.Resource.{Resource};

use crate::allocate::allocate_piece;
use crate::create_resource::{make_committed, make_placed};
use crate::free_resource::free_resource;
use crate::logging::{log_allocate, log_free, log_last_leaks, log_leaks};
use crate::source::D3D12Blocks;
use crate::{
    Allocation, AllocationCreateDesc, AllocatorCreateDesc, CommittedAllocationStatistics,
    CommittedMemory, CommittedResources, ID3D12DeviceVersion, Resource, ResourceCreateDesc,
    ResourceType, is_again, parts_of, question_for, request_of,
};
use gpu_core::MemoryTypes;
use gpu_device::d3d12::{D3D12Device, ID3D12Heap};
use gpu_pool::Pool;
use gpu_values::{AllocationError, AllocatorDebugSettings, AllocatorReport, Result};
use log::{Level, Log};
use std::alloc::{AllocError, Global};
use std::marker::Model;

/// Allocates pieces of heaps from a few large blocks. It must be spent by `destroy`.
pub struct Allocator<D: D3D12Device> {
    pool: Pool<D3D12Blocks<D>>,
    committed: CommittedResources,
    debug: AllocatorDebugSettings,
    alloc: Global,
}

impl<D: D3D12Device> Model for Allocator<D> {
    ghost use Rattle.std.specs.Prelude.{◌≡◌, length};
    ghost use Rattle.gpu_d3d12.specs.Setup.{kinds_of_device};
    ghost use Rattle.gpu_d3d12.specs.State.{State, state_of};

    ghost Value = { State D };

    ghost view = { λ a. state_of a.pool a.committed a.debug };

    ghost invariant = { λ a. length a.committed ≡ length (kinds_of_device a.pool.source.tier) };
}

impl<D: D3D12Device> Allocator<D> {
    /// An allocator without blocks and without budgets, which owns the device. Memory types 0, 1 and 2 are those for `GpuOnly`,
    /// `CpuToGpu` and `GpuToCpu`; at heap tier 1 each location has three, for buffers, render targets with depth stencils, and
    /// other textures. Where it can't be made, the device comes back as it was, beside `Internal` with the device's code, if
    /// that can't tell its heap tier, else `HostOutOfMemory`.
    pub fn new(
        alloc: Global,
        desc: AllocatorCreateDesc<D>,
    ) -> Result<Self, (AllocationError, ID3D12DeviceVersion<D>)>
        ensures device { IfOk result (λ a. (a.device ≡ desc.device) × (a.first ≡ desc.device)) }
        ensures tier { IfOk result (λ a. (D.properties (device_of desc.device)).tier
            ≡ Ok a.setup.tier) }
        ensures chosen { IfOk result (λ a. (a.setup.sizes ≡ desc.allocation_sizes)
            × (a.setup.debug ≡ desc.debug_settings)) }
        ensures empty { IfOk result (λ a. All (λ slots. slots ≡ []) a.slots) }
        ensures types { IfOk result (λ a. length a.slots ≡ length (memory_kinds a.setup.tier)) }
        ensures budgets { IfOk result (λ a. All (λ b. b ≡ None) a.budgets) }
        ensures bounds { IfOk result (λ a. length a.budgets ≡ length (memory_kinds a.setup.tier)) }
        ensures committed { IfOk result
            (λ a. (length a.committed ≡ length (memory_kinds a.setup.tier))
            × All (λ records. records ≡ []) a.committed) }
        ensures beside { IfOk result (λ a. beside_of D.D3D12Device a
            ≡ D.held (device_of desc.device)) }
        ensures journal { IfOk result (λ a. a.journal ≡ []) }
        ensures refused { IfErr result (λ e. e.1 ≡ desc.device) }
        // the device's tier can't be told, else lack of host memory: nothing else refuses
        ensures cause { IfErr result (λ e. refusal_of e.0
            ≡ unwrap_or (setup_fault (D.properties (device_of desc.device))) host_out_of_memory) }
    {
        let AllocatorCreateDesc {
            device,
            debug_settings: debug,
            allocation_sizes,
        } = desc;
        let (tier, types) = match parts_of(alloc, device.device()) {
            Err(error) => return Err((error, device)),
            Ok(parts) => parts,
        };
        match CommittedResources::new(alloc, types.count()) {
            Err(AllocError) => Err((AllocationError::HostOutOfMemory, device)),
            Ok(committed) => Ok(Allocator {
                pool: Pool::new(D3D12Blocks::new(device, tier), allocation_sizes, types),
                committed,
                debug,
                alloc,
            }),
        }
    }

    /// Allocates a piece of a heap that is there or of a new one. The errors, in the order in which they are looked at:
    /// - `InvalidAllocationCreateDesc`: the size is 0, or the alignment isn't a power of two;
    /// - `HostOutOfMemory`: the host refused memory for the name, the record or the block's own lists;
    /// - `OutOfMemory`: a new block would carry the sum of all blocks' sizes past `u64::MAX`;
    /// - `BudgetExceeded`: a new block would carry its memory type past its budget (`set_budget`);
    /// - `OutOfMemory` or `Internal`: the device refused the heap for lack of memory (`E_OUTOFMEMORY`), or for another cause,
    ///   or gave null.
    ///
    /// A refusal leaves every block as it was, and the device holds what it held.
    pub fn allocate<L: Log>(&mut self, log: &L, desc: &AllocationCreateDesc) -> Result<Allocation>
        // which memory type is asked, what it met with, what is returned, and what that leaves of blocks and device
        ensures allocates { AllocatorAllocates D.D3D12Device desc.now self.old result self.new }
        ensures constant { (self.new.first ≡ self.old.first) × (self.new.setup ≡ self.old.setup)
            × (self.new.committed ≡ self.old.committed) }
        ensures journal { self.new.journal ≡ self.old.journal }
        ensures step { IsAllocateStep D.D3D12Device desc.now result self.old self.new }
        ensures aligned { IfOk result (λ a. a.offset % desc.now.alignment ≡ 0) }
        ensures keeps { StayLive is_same_heap self.old.slots self.new.slots }
        ensures gives { IfOk result (λ a. IsNewlyLive is_same_heap self.old.slots self.new.slots
            a) }
    {
        log_allocate(log, self.debug, desc);
        allocate_piece(self.alloc, &mut self.pool, desc)
    }

    /// The sum of the sizes of the live blocks, in bytes.
    pub fn capacity(&self) -> u64
        ensures sum { result ≡ total_capacity self.now.slots }
        ensures step { IsStep D.D3D12Device Capacity (module_replies.Pool (replies.Capacity result))
            self.now self.now }
    {
        self.pool.capacity()
    }

    /// The memory types, lent to be looked at: their blocks with pieces and gaps, and what is counted of them.
    pub fn memory_types(&self) -> &MemoryTypes<ID3D12Heap>
        ensures slots { slots_of result.now ≡ self.now.slots }
        ensures budgets { budgets result.now ≡ self.now.budgets }
        ensures kinds { kinds result.now ≡ kinds_of_device self.now.setup.tier }
    {
        self.pool.memory_types()
    }

    /// The device, lent. It holds one heap for each live block, and beside these what it held when it was handed in, the resources
    /// that are out (made, and not given back), and nothing else. A resource that another allocator made and that was given to
    /// `free_resource` beside a live piece is released too: of such numbers (`strays`) it may hold less than at first.
    pub fn device(&self) -> &ID3D12DeviceVersion<D>
        ensures lent { result.now ≡ self.now.device }
        ensures holds { HoldsJustLiveBlocks self.now.setup.tier (beside_of D.D3D12Device self.now)
            (D.held (device_of self.now.device)) self.now.slots }
        // beside the live blocks: what was held at first, the resources that are out, and nothing else
        ensures beside { IsFirstAndOut (D.held (device_of self.now.first))
            (beside_of D.D3D12Device self.now) self.now.journal }
        ensures constant { D.properties (device_of self.now.device)
            ≡ D.properties (device_of self.now.first) }
    {
        self.pool.source().device()
    }

    /// What holds of live allocations at any time, for callers' proofs: each lies inside its block, and no two share a
    /// byte. All blocks are sound, at most one of a memory type has no allocation, and each memory type has a list of committed resources.
    /// It does nothing.
    pub fn allocations_are_apart(&self)
        ensures sound { BlocksWellFormed 1 self.now.slots }
        ensures lists { length self.now.committed ≡ length (kinds_of_device self.now.setup.tier) }
        ensures inside { (a : Allocation) → IsLive self.now.slots a → IsInside self.now.slots a }
        ensures apart { (a b : Allocation) → IsLive self.now.slots a → IsLive self.now.slots b
            → AreDistinct a b → SharesNoByte a b }
        ensures empty { EachKeepsOneEmptyAtMost self.now.slots }
    {
        self.pool.pieces_are_apart();
    }

    /// What holds of live placed resources at any time, for callers' proofs: the device holds the heap that each is placed in,
    /// and its allocation ends inside that heap. It does nothing.
    pub fn resources_lie_in_heaps(&self)
        ensures { (r : Resource) (a : Allocation)
            → IsLivePlaced (D.held (device_of self.now.device)) self.now.slots r a
            → LiesInHeap (D.held (device_of self.now.device)) a }
    {
        let _ = self.device();
        self.allocations_are_apart();
    }

    /// Whether an allocation is live: the allocator has a record with its type, slot, number, offset, size and heap.
    pub fn is_live(&self, allocation: &Allocation) -> bool
        ensures { IsTrue result ↔ IsLive self.now.slots allocation.now }
    {
        self.pool.is_live_named(allocation)
    }

    /// Frees an allocation, and gives its block back where the block is left empty and isn't the only shared one of its
    /// memory type. A live one is never refused; any other comes back as it was, beside `Internal`, and then nothing changes.
    /// Release what you placed there before. It takes no memory.
    pub fn free<L: Log>(
        &mut self,
        log: &L,
        allocation: Allocation,
    ) -> Result<(), (AllocationError, Allocation)>
        ensures frees { AllocatorFrees D.D3D12Device allocation self.old result self.new }
        ensures constant { (self.new.first ≡ self.old.first) × (self.new.setup ≡ self.old.setup) }
        ensures journal { self.new.journal ≡ self.old.journal }
        ensures step { IsStep D.D3D12Device (Free allocation) (freed_as result) self.old self.new }
        ensures keeps { (b : Allocation) → IsLive self.old.slots b → AreDistinct b allocation
            → IsLive self.new.slots b }
    {
        log_free(log, self.debug, &allocation);
        match self.pool.free_named(&allocation) {
            Ok(()) => Ok(()),
            Err(error) => Err((error, allocation)),
        }
    }

    /// A second place for a live allocation, in a block that is there and in a higher slot, for the request that it was made for:
    /// where a new allocation of it would lie now, if that is higher. `None` where it isn't live, or no such block has a place.
    /// The device is asked for nothing. Both are live until one of them is freed: the first once what lies there is copied, or
    /// the second, which gives the move up. Its location and category aren't looked at. `InvalidAllocationCreateDesc` where the
    /// request isn't valid or of another size, else `HostOutOfMemory`; then nothing changes.
    pub fn propose_move(
        &mut self,
        allocation: &Allocation,
        desc: &AllocationCreateDesc,
    ) -> Result<Option<Allocation>>
        // what it is refused for, which place it finds or that there is none, and that nothing else changes
        ensures step { IsMoveStep D.D3D12Device allocation.now desc.now result self.old self.new }
        ensures gives { IfOk result (λ o. IfSome o (λ to. IsSecondPlace is_same_heap
            desc.now.alignment self.old.slots allocation.now to self.new.slots)) }
        ensures none { IfOk result (λ o. IsNone o → self.new ≡ self.old) }
        ensures refused { OnErr result (self.new ≡ self.old) }
        ensures others { self.new ≡ record self.old { slots = self.new.slots } }
        ensures keeps { StayLive is_same_heap self.old.slots self.new.slots }
    {
        if !is_again(allocation.size(), desc) {
            return Err(AllocationError::InvalidAllocationCreateDesc);
        }
        self.pool
            .propose_move_named(self.alloc, allocation, &request_of(desc))
    }

    /// Finishes a move: frees the first place of an allocation, whose owner uses the second from then on. A live one is never
    /// refused; any other comes back as it was, beside `Internal`, and then nothing changes. Its block goes back as by `free`. It
    /// takes no memory.
    pub fn finish_move<L: Log>(
        &mut self,
        log: &L,
        from: Allocation,
        to: &Allocation,
    ) -> Result<(), (AllocationError, Allocation)>
        ensures frees { AllocatorFrees D.D3D12Device from self.old result self.new }
        ensures constant { (self.new.first ≡ self.old.first) × (self.new.setup ≡ self.old.setup) }
        ensures journal { self.new.journal ≡ self.old.journal }
        ensures step { IsStep D.D3D12Device (Free from) (freed_as result) self.old self.new }
        ensures stays { from.memory_block_index < to.now.memory_block_index
            → IsLive self.old.slots to.now → IsLive self.new.slots to.now }
        ensures keeps { (b : Allocation) → IsLive self.old.slots b → AreDistinct b from
            → IsLive self.new.slots b }
        ensures fewer { OnOk result (moves_left (slots_at self.new.slots from.memory_type_index)
            + slots_above (slots_at self.old.slots from.memory_type_index) from.memory_block_index
            ≤ moves_left (slots_at self.old.slots from.memory_type_index)) }
    {
        self.free(log, from)
    }

    /// Abandons a move: frees the second place of an allocation, which stays where it was. It refuses as `finish_move` does.
    pub fn abandon_move<L: Log>(
        &mut self,
        log: &L,
        from: &Allocation,
        to: Allocation,
    ) -> Result<(), (AllocationError, Allocation)>
        ensures frees { AllocatorFrees D.D3D12Device to self.old result self.new }
        ensures constant { (self.new.first ≡ self.old.first) × (self.new.setup ≡ self.old.setup) }
        ensures journal { self.new.journal ≡ self.old.journal }
        ensures step { IsStep D.D3D12Device (Free to) (freed_as result) self.old self.new }
        ensures stays { from.now.memory_block_index < to.memory_block_index
            → IsLive self.old.slots from.now → IsLive self.new.slots from.now }
        ensures keeps { (b : Allocation) → IsLive self.old.slots b → AreDistinct b to
            → IsLive self.new.slots b }
    {
        self.free(log, to)
    }

    /// Bounds the sum of the sizes of the blocks of a memory type, in bytes: a request that needs a new block beyond it is
    /// refused with `BudgetExceeded`. Committed resources don't count. `None` takes the bound away; a budget below the present
    /// sum gives no block back. `Internal` where there is no such memory type, and then nothing changes. It takes no memory.
    pub fn set_budget(&mut self, memory_type: usize, budget: Option<u64>) -> Result<()>
        ensures budgets { SetsBudgetAt self.old.slots memory_type budget self.old.budgets result
            self.new.budgets }
        ensures others { self.new ≡ record self.old { budgets = self.new.budgets } }
        ensures step { IsStep D.D3D12Device (SetBudget memory_type budget) (reply_of_done result)
            self.old self.new }
    {
        self.pool.set_budget(memory_type, budget)
    }

    /// The budget of a memory type, in bytes; `None` where it has none, or there is no such type.
    pub fn budget(&self, memory_type: usize) -> Option<u64>
        ensures budget { result ≡ budget_at self.now.budgets memory_type }
        ensures step { IsStep D.D3D12Device (Budget memory_type)
            (module_replies.Pool (replies.Budget result)) self.now self.now }
    {
        self.pool.budget(memory_type)
    }

    /// Makes a resource: in a piece of a heap, or in memory of its own. Its size in bytes and its alignment are what the device
    /// tells. The errors, in the order in which they are looked at:
    /// - `CastableFormatsRequiresEnhancedBarriers`: it has castable formats and begins in a state;
    /// - `CastableFormatsRequiresAtLeastDevice12`: it has castable formats, and the device is no `Device12`;
    /// - `BarrierLayoutNeedsDevice10`: it begins in a layout, and the device is no `Device10` or `Device12`;
    /// - a placed one: each error of `allocate`;
    /// - a committed one: `OutOfMemory` where the sizes of its memory type's committed resources would sum up past `u64::MAX`,
    ///   else `HostOutOfMemory` where the host refused memory for its record;
    /// - `Internal`: the device refused the resource, for lack of memory too, or gave null. The code is the device's, or the
    ///   reason for which it was removed.
    ///
    /// A refusal leaves what is live as it was, and the device holds no new resource. One thing may stay: where the device
    /// refuses a placed resource, its piece goes again, but a heap that was made for the piece is kept, empty, where it is the
    /// only shared one of its memory type.
    pub fn create_resource<L: Log>(
        &mut self,
        log: &L,
        desc: &ResourceCreateDesc,
    ) -> Result<Resource>
        ensures journal { self.new.journal ≡ with_made (number_given result) self.old.journal }
        // by which question it is made, or why by none; where the device refuses a placed one, its piece goes as by `free`
        ensures step { IsCreateStep D.D3D12Device desc.now result self.old self.new }
        ensures constant { (self.new.first ≡ self.old.first) × (self.new.setup ≡ self.old.setup) }
        ensures keeps { StayLive is_same_heap self.old.slots self.new.slots }
        ensures gives { IfOk result (λ r. IsNewIn self.old.slots self.new.slots r.allocation) }
        // under this number the device held neither a resource nor a heap of others
        ensures fresh { IfOk result (λ r. get (beside_of D.D3D12Device self.old) r.resource.0
            ≡ None) }
        ensures aligned { IfOk result (λ r. BeginsAligned
            (info_of (basis_of D.D3D12Device self.old) desc.now).alignment r.allocation) }
    {
        let question = match question_for(self.pool.source().device(), desc) {
            Err(error) => return Err(error),
            Ok(question) => question,
        };
        let pool = &mut self.pool;
        match desc.resource_type {
            ResourceType::Committed {
                heap_properties,
                heap_flags,
            } => {
                let own = CommittedMemory {
                    heap_properties,
                    heap_flags: *heap_flags,
                };
                make_committed(pool, &mut self.committed, question, own, desc)
            }
            ResourceType::Placed => {
                make_placed(log, self.debug, self.alloc, pool, question, desc)
            }
        }
    }

    /// Gives a resource back, and then its piece, with the block as by `free`, or the memory of its own. One whose piece or
    /// record is live is never refused; any other comes back as it was, beside `Internal`, and then nothing changes. It takes
    /// no memory.
    pub fn free_resource<L: Log>(
        &mut self,
        log: &L,
        resource: Resource,
    ) -> Result<(), (AllocationError, Resource)>
        ensures journal { self.new.journal
            ≡ with_released resource.resource result self.old.journal }
        ensures step { IsStep D.D3D12Device (FreeResource resource) (freed_as result) self.old
            self.new }
        ensures keeps { (b : Allocation) → IsLive self.old.slots b → IsBeside b resource.allocation
            → IsLive self.new.slots b }
        ensures back { IfErr result (λ e. e.1 ≡ resource) }
        ensures constant { (self.new.first ≡ self.old.first) × (self.new.setup ≡ self.old.setup) }
    {
        let pool = &mut self.pool;
        match free_resource(log, self.debug, pool, &mut self.committed, &resource) {
            Ok(()) => Ok(()),
            Err(error) => Err((error, resource)),
        }
    }

    /// How many committed resources of the memory type at `memory_type` there are that were not given back, and their sizes'
    /// sum in bytes; `None` where there is no such memory type.
    pub fn committed(&self, memory_type: usize) -> Option<CommittedAllocationStatistics>
        ensures statistics { result ≡ statistics_at self.now.committed memory_type }
        ensures step { IsStep D.D3D12Device (Statistics memory_type)
            (module_replies.Statistics result) self.now self.now }
    {
        self.committed.statistics(memory_type)
    }

    /// Gives an allocation another name, and with it the record that reports and leaks show. `Internal` where the
    /// allocation isn't live, else `HostOutOfMemory` where the host refused memory; then both names are as they were.
    pub fn rename_allocation(&mut self, allocation: &mut Allocation, name: &str) -> Result<()>
        ensures renames { RenamesNamed is_same_heap allocation.old name.now (pool_of self.old)
            result allocation.new (pool_of self.new) }
        ensures step { IsStep D.D3D12Device (Rename allocation.old name.now) (reply_of_done result)
            self.old self.new }
        ensures live { StayLive is_same_heap self.old.slots self.new.slots }
        ensures constant { (self.new.device ≡ self.old.device) × (self.new.first ≡ self.old.first)
            × (self.new.setup ≡ self.old.setup) }
        ensures journal { self.new.journal ≡ self.old.journal }
    {
        self.pool.rename_named(self.alloc, allocation, name)
    }

    /// What is allocated: the live blocks and pieces by memory type, then by slot, pieces by offset, and the sums of both.
    /// The only refusal is `HostOutOfMemory`.
    pub fn generate_report(&self) -> Result<AllocatorReport>
        ensures step { IsStep D.D3D12Device Report (reply_of_report result) self.now self.now }
        ensures reports { Reports self.now.slots result }
    {
        self.pool.report(self.alloc)
    }

    /// The texts of all live pieces by memory type, then by slot, then in order of offset. The only refusal is
    /// `HostOutOfMemory`.
    pub fn leak_texts(&self) -> Result<Vec<String>>
        ensures step { IsStep D.D3D12Device Leaks (leaked_as result) self.now self.now }
        ensures texts { TextsLeaks self.now.slots result }
    {
        self.pool.leak_texts(self.alloc)
    }

    /// Logs the same texts one by one, each as a message of its own. It takes no memory.
    pub fn report_memory_leaks<L: Log>(&self, log: &L, level: Level) {
        log_leaks(log, level, self.pool.memory_types());
    }

    /// Gives every block back, and returns the device, which then holds what it held when it was handed in, and the resources
    /// that were made and not given back: give placed ones back before, for their heaps go. What is still live is logged first,
    /// as warnings, where the settings ask for it. It is never refused.
    pub fn destroy<L: Log>(self, log: &L) -> ID3D12DeviceVersion<D>
        ensures held { D.held (device_of result) ≡ beside_of D.D3D12Device self }
        // what was held at first, the resources that are out, and nothing else
        ensures left { IsFirstAndOut (D.held (device_of self.first)) (D.held (device_of result))
            self.journal }
        ensures asks_nothing { AsksNothing D.D3D12Device (device_of self.device)
            (device_of result) }
        // each heap goes back once: by memory type, then by slot
        ensures recorded { D.history (device_of result)
            ≡ releases_recorded (all_handles self.slots) (D.history (device_of self.device)) }
        ensures version { result ≡ with_device self.first (device_of result) }
    {
        log_last_leaks(log, self.debug, self.pool.memory_types());
        let Allocator {
            pool,
            committed: _,
            debug: _,
            alloc: _,
        } = self;
        pool.destroy().into_device()
    }
}
