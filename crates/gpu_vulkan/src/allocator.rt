//! The allocator: blocks of device memory by memory type, and the calls that share them out.

ghost use Rattle.std.specs.Prelude.{◌≡◌, ◌↔◌, [], All, map, Some, None, IfOk, IfErr, OnOk, OnErr, IsSome, IsNone, IfSome, OnSome, IsTrue, List, ℕ, length, option_copied, ◌%◌, ◌+◌, ◌<◌, ◌≤◌};
ghost use Rattle.std.specs.Option.{unwrap_or};
ghost use Rattle.gpu_values.specs.Refusal.{refusal_of, host_out_of_memory};
ghost use Rattle.gpu_vulkan.specs.Setup.{setup_fault};
ghost use Rattle.gpu_core.specs.Blocks.{slots_at, total_capacity, BlocksWellFormed, EachKeepsOneEmptyAtMost};
ghost use Rattle.gpu_core.specs.Moves.{moves_left, slots_above};
ghost use Rattle.gpu_pool.specs.Told.{Reports, SetsBudgetAt, TextsLeaks};
ghost use Rattle.gpu_pool.specs.Handles.{all_handles};
ghost use Rattle.gpu_vulkan.specs.BlockAnswer.{frees_recorded};
ghost use Rattle.gpu_vulkan.specs.Blocks.{HoldsJustLiveBlocks};
ghost use Rattle.gpu_vulkan.specs.Allocate.{AllocatorAllocates};
ghost use Rattle.gpu_vulkan.specs.Free.{AllocatorFrees};
ghost use Rattle.gpu_vulkan.specs.Apart.{IsInside, SharesNoByte, KeepsPages};
ghost use Rattle.gpu_vulkan.specs.Lends.{AreDistinct};
ghost use Rattle.gpu_vulkan.specs.declared.allocation.Allocation.{Allocation};
ghost use Rattle.gpu_vulkan.specs.Reply as replies;
ghost use Rattle.gpu_vulkan.specs.Reply.{Done, Bytes};
ghost use Rattle.gpu_vulkan.specs.Step.{IsStep, IsAllocateStep, IsMoveStep, Free, Rename, Write, Read, Capacity, Report, Leaks, SetBudget, Budget, freed_as, reply_of_done, reply_of_report, reply_of_leaks};
ghost use Rattle.gpu_vulkan.specs.Move.{IsSecondPlace};
ghost use Rattle.gpu_vulkan.specs.Rename.{Renames, StayLive};
ghost use Rattle.gpu_core.specs.Budgets.{budget_at, budgets};
ghost use Rattle.gpu_core.specs.Types.{slots_of, kinds};
ghost use Rattle.gpu_vulkan.specs.Types.{kinds_of_device};
ghost use Rattle.gpu_values.specs.declared.error.AllocationError.TheVariants.{HostOutOfMemory};
ghost use Rattle.std.specs.Borrow.{sem};
ghost use Rattle.gpu_vulkan.specs.Live.{IsLive, IsMapped, bytes_at};

use super::logging::{log_allocate, log_device, log_free, log_last_leaks, log_leaks};
use super::rename::rename;
use super::{Allocation, MappedAllocationSlab};
use crate::attempt::{allocate_in_type, blocks_are_held, next_type};
use crate::moves::{is_again, second_place};
use crate::source::VulkanBlocks;
use crate::{
    AllocationCreateDesc, AllocatorCreateDesc, Settings, Setup, best_type, fault_of, parts_of,
};
use gpu_core::MemoryTypes;
use gpu_device::vulkan::{DeviceMemory, VulkanDevice};
use gpu_pool::Pool;
use gpu_values::{AllocationError, AllocatorReport, Result};
use log::{Level, Log};
use std::alloc::{AllocError, Global};
use std::marker::Model;

/// Allocates pieces of device memory from a few large blocks. It must be spent by `destroy`.
pub struct Allocator<D: VulkanDevice> {
    pool: Pool<VulkanBlocks<D>>,
    alloc: Global,
}

impl<D: VulkanDevice> Model for Allocator<D> {
    ghost use Rattle.gpu_vulkan.specs.State.{State, state_of};

    ghost Value = { State D };

    ghost view = { λ a. state_of a.pool };
}

impl<D: VulkanDevice> Allocator<D> {
    ghost use Rattle.gpu_vulkan.specs.Lends.{lends_piece, lends_piece_if, written_at, ChangesOnly};
    ghost use Rattle.gpu_vulkan.specs.SlabLends.{lends_slab_if};

    /// An allocator without blocks and without budgets, which owns the device. Where it can't be made, the device comes back
    /// as it was, beside the error: `InvalidAllocatorCreateDesc` for the first that holds of a null physical device, a
    /// granularity that isn't a power of two, more than 32 memory types, and a memory type in a heap that isn't there; else
    /// `HostOutOfMemory`.
    pub fn new<L: Log>(
        log: &L,
        alloc: Global,
        desc: AllocatorCreateDesc<D>,
    ) -> Result<Self, (AllocationError, D)>
        ensures device { IfOk result (λ a. (a.device ≡ desc.device) × (a.first ≡ desc.device)) }
        ensures setup { IfOk result (λ a. a.setup ≡ record {
          properties = D.properties desc.device;
          sizes = desc.allocation_sizes;
          debug = desc.debug_settings;
          device_address = desc.buffer_device_address;
        }) }
        ensures empty { IfOk result (λ a. All (λ slots. slots ≡ []) a.slots) }
        ensures types { IfOk result (λ a. length a.slots
            ≡ length (D.properties desc.device).types) }
        ensures budgets { IfOk result (λ a. All (λ b. b ≡ None) a.budgets) }
        ensures bounds { IfOk result (λ a. length a.budgets
            ≡ length (D.properties desc.device).types) }
        ensures valid { OnOk result (setup_fault desc.physical_device.0 (D.properties desc.device)
            ≡ None) }
        ensures refused { IfErr result (λ e. e.1 ≡ desc.device) }
        // the first fault that holds, else lack of host memory: nothing else refuses
        ensures cause { IfErr result (λ e. refusal_of e.0
            ≡ unwrap_or (setup_fault desc.physical_device.0 (D.properties desc.device))
            host_out_of_memory) }
    {
        let AllocatorCreateDesc {
            device,
            physical_device,
            debug_settings,
            buffer_device_address,
            allocation_sizes,
        } = desc;
        if let Some(error) = fault_of(&device, physical_device) {
            return Err((error, device));
        }
        log_device(log, debug_settings, &device);
        let settings = Settings {
            sizes: allocation_sizes,
            debug: debug_settings,
            buffer_device_address,
        };
        match parts_of(alloc, &device, settings) {
            Err(AllocError) => Err((AllocationError::HostOutOfMemory, device)),
            Ok((setup, types)) => {
                let source = VulkanBlocks::new(device, setup);
                Ok(Allocator {
                    pool: Pool::new(source, allocation_sizes, types),
                    alloc,
                })
            }
        }
    }

    /// Where its memory of the host comes from.
    pub(crate) fn alloc(&self) -> Global {
        self.alloc
    }

    /// What it is made with, lent; the sizes of blocks are the pool's.
    fn setup(&self) -> &Setup
        ensures { result.now.properties ≡ self.now.setup.properties }
    {
        self.pool.source().setup()
    }

    /// Allocates a piece of device memory, of a block that is there or of a new one. Its bytes are what the block has at its
    /// place: they aren't cleared. The errors, in the order in which they are looked at:
    /// - `InvalidAllocationCreateDesc`: the size is 0, or the alignment isn't a power of two;
    /// - `NoCompatibleMemoryTypeFound`: no memory type of `memory_type_bits` has the flags that the location must have;
    /// - `OutOfMemory`: the request is above its heap;
    /// - `HostOutOfMemory`: the host refused memory for the name, the record or the block's own lists;
    /// - `OutOfMemory`: a new block would carry the sum of all blocks' sizes past `u64::MAX`;
    /// - `BudgetExceeded`: a new block would carry its memory type past its budget (`set_budget`);
    /// - `OutOfMemory`, `Internal` or `FailedToMap`: the device refused the block's memory because it is out of memory (code
    ///   -2), for another cause, or refused to map it.
    ///
    /// A request for uploads (`CpuToGpu`) that one memory type refuses for any cause but a host out of memory is tried once more
    /// at the first of `memory_type_bits` with HOST_VISIBLE and HOST_COHERENT, and that answer counts. A refusal leaves every
    /// block as it was, and the device holds what it held.
    pub fn allocate<L: Log>(&mut self, log: &L, desc: &AllocationCreateDesc) -> Result<Allocation>
        // which memory types are asked, one after another, what each attempt results in, and what the device then holds
        ensures allocates { AllocatorAllocates D.VulkanDevice self.old.setup self.old.budgets desc.now
            self.old.slots self.old.device result self.new.slots self.new.device }
        ensures constant { (self.new.first ≡ self.old.first) × (self.new.setup ≡ self.old.setup)
            × (self.new.budgets ≡ self.old.budgets) }
        ensures step { IsAllocateStep D.VulkanDevice desc.now result self.old self.new }
        ensures aligned { IfOk result (λ a. a.offset % desc.now.requirements.alignment ≡ 0) }
        ensures keeps { StayLive self.old.slots self.new.slots }
        ensures gives { IfOk result (λ a. IsLive self.new.slots a
            × ((b : Allocation) → IsLive self.old.slots b → AreDistinct b a)) }
    {
        log_allocate(log, self.setup().debug(), desc);
        if desc.requirements.size == 0 || !desc.requirements.alignment.is_power_of_two() {
            return Err(AllocationError::InvalidAllocationCreateDesc);
        }
        let bits = desc.requirements.memory_type_bits;
        match best_type(self.setup().memory_types(), bits, desc.location) {
            None => Err(AllocationError::NoCompatibleMemoryTypeFound),
            Some(index) => {
                blocks_are_held(&self.pool);
                let result = match allocate_in_type(self.alloc, &mut self.pool, desc, index) {
                    Ok(allocation) => Ok(allocation),
                    Err(error) => match next_type(self.pool.source().setup(), desc, &error) {
                        None => Err(error),
                        Some(next) => allocate_in_type(self.alloc, &mut self.pool, desc, next),
                    },
                };
                blocks_are_held(&self.pool);
                result
            }
        }
    }

    /// A second place for a live allocation, in a block that is there and in a higher slot, for the request that it was made for:
    /// where a new allocation of it would lie now, if that is higher. `None` where it isn't live, or no such block has a place.
    /// The device is asked for nothing, and no byte changes. Both are live until one of them is freed: the first once what lies
    /// there is copied, or the second, which gives the move up. Its memory type bits and location aren't looked at.
    /// `InvalidAllocationCreateDesc` where the request isn't valid, of another size, or for a buffer or an image alone, else
    /// `HostOutOfMemory`; then nothing changes.
    pub fn propose_move(
        &mut self,
        allocation: &Allocation,
        desc: &AllocationCreateDesc,
    ) -> Result<Option<Allocation>>
        // what it is refused for, which place it finds or that there is none, and that nothing else changes
        ensures step { IsMoveStep D.VulkanDevice allocation.now desc.now result self.old self.new }
        ensures gives { IfOk result (λ o. IfSome o
            (λ to. IsSecondPlace desc.now.requirements.alignment self.old.slots allocation.now to
            self.new.slots)) }
        ensures none { IfOk result (λ o. IsNone o → self.new ≡ self.old) }
        ensures refused { OnErr result (self.new ≡ self.old) }
        ensures others { self.new ≡ record self.old { slots = self.new.slots } }
        ensures keeps { StayLive self.old.slots self.new.slots }
        ensures reads { (b : Allocation) → IsLive self.old.slots b
            → bytes_at (D.held self.new.device) b ≡ bytes_at (D.held self.old.device) b }
    {
        if is_again(allocation.size, desc) {
            blocks_are_held(&self.pool);
            let result = second_place(self.alloc, &mut self.pool, allocation, desc);
            blocks_are_held(&self.pool);
            result
        } else {
            Err(AllocationError::InvalidAllocationCreateDesc)
        }
    }

    /// Finishes a move: frees the first place of an allocation, whose owner uses the second from then on. A null one is nothing to free. A
    /// live one is never refused; any other comes back as it was, beside `Internal`, and then nothing changes. Its block goes back as by
    /// `free`. It takes no memory.
    pub fn finish_move<L: Log>(
        &mut self,
        log: &L,
        from: Allocation,
        to: &Allocation,
    ) -> Result<(), (AllocationError, Allocation)>
        ensures frees { AllocatorFrees D.VulkanDevice from self.old.slots self.old.device result
            self.new.slots self.new.device }
        ensures constant { (self.new.first ≡ self.old.first) × (self.new.setup ≡ self.old.setup)
            × (self.new.budgets ≡ self.old.budgets) }
        ensures step { IsStep D.VulkanDevice (Free from) (freed_as result) self.old self.new }
        ensures stays { from.memory_block_index < to.now.memory_block_index
            → IsLive self.old.slots to.now → IsLive self.new.slots to.now }
        ensures keeps { (b : Allocation) → IsLive self.old.slots b → AreDistinct b from
            → IsLive self.new.slots b }
        ensures fewer { IsLive self.old.slots from → moves_left (slots_at self.new.slots from.memory_type_index)
            + slots_above (slots_at self.old.slots from.memory_type_index) from.memory_block_index
            ≤ moves_left (slots_at self.old.slots from.memory_type_index) }
    {
        self.free(log, from)
    }

    /// Abandons a move: frees the second place of an allocation, which stays where it was. It refuses as `finish_move` does.
    pub fn abandon_move<L: Log>(
        &mut self,
        log: &L,
        from: &Allocation,
        to: Allocation,
    ) -> Result<(), (AllocationError, Allocation)>
        ensures frees { AllocatorFrees D.VulkanDevice to self.old.slots self.old.device result
            self.new.slots self.new.device }
        ensures constant { (self.new.first ≡ self.old.first) × (self.new.setup ≡ self.old.setup)
            × (self.new.budgets ≡ self.old.budgets) }
        ensures step { IsStep D.VulkanDevice (Free to) (freed_as result) self.old self.new }
        ensures stays { from.now.memory_block_index < to.memory_block_index
            → IsLive self.old.slots from.now → IsLive self.new.slots from.now }
        ensures keeps { (b : Allocation) → IsLive self.old.slots b → AreDistinct b to
            → IsLive self.new.slots b }
    {
        self.free(log, to)
    }

    /// The sum of the sizes of the live blocks, in bytes.
    pub fn capacity(&self) -> u64
        ensures sum { result ≡ total_capacity self.now.slots }
        ensures step { IsStep D.VulkanDevice Capacity (replies.Capacity result) self.now self.now }
    {
        self.pool.capacity()
    }

    /// Bounds the sum of the sizes of the blocks of a memory type, in bytes: a request that needs a new block beyond it is
    /// refused with `BudgetExceeded`, or served by the second memory type of an upload. `None` takes the bound away; a budget
    /// below the present sum gives no block back. `Internal` where there is no such memory type, and then nothing changes.
    /// It takes no memory.
    pub fn set_budget(&mut self, memory_type: usize, budget: Option<u64>) -> Result<()>
        ensures budgets { SetsBudgetAt self.old.slots memory_type budget self.old.budgets result
            self.new.budgets }
        ensures others { self.new ≡ record self.old { budgets = self.new.budgets } }
        ensures step { IsStep D.VulkanDevice (SetBudget memory_type budget) (reply_of_done result)
            self.old self.new }
    {
        self.pool.set_budget(memory_type, budget)
    }

    /// The budget of a memory type, in bytes; `None` where it has none, or there is no such type.
    pub fn budget(&self, memory_type: usize) -> Option<u64>
        ensures budget { result ≡ budget_at self.now.budgets memory_type }
        ensures step { IsStep D.VulkanDevice (Budget memory_type) (replies.Budget result) self.now
            self.now }
    {
        self.pool.budget(memory_type)
    }

    /// The memory types, lent to be looked at: their blocks with pieces and gaps, and what is counted of them.
    pub fn memory_types(&self) -> &MemoryTypes<DeviceMemory>
        ensures slots { slots_of result.now ≡ self.now.slots }
        ensures budgets { budgets result.now ≡ self.now.budgets }
        ensures kinds { kinds result.now ≡ kinds_of_device self.now.setup.properties }
    {
        self.pool.memory_types()
    }

    /// The device, lent. It holds what it held when it was handed in, and just the live blocks.
    pub fn device(&self) -> &D
        ensures lent { result.now ≡ self.now.device }
        ensures holds { HoldsJustLiveBlocks self.now.setup.properties (D.held self.now.first)
            (D.held self.now.device) self.now.slots }
        ensures constant { D.properties self.now.device ≡ self.now.setup.properties }
    {
        blocks_are_held(&self.pool);
        self.pool.source().device()
    }

    /// What holds of live allocations at any time, for callers' proofs: each lies inside its block, no two share a byte, and
    /// those of different kinds share no page (`bufferImageGranularity`). All blocks are sound, and at most one of a memory type has no
    /// allocation. It does nothing.
    pub fn allocations_are_apart(&self)
        ensures sound { BlocksWellFormed self.now.setup.properties.granularity self.now.slots }
        ensures inside { (a : Allocation) → IsLive self.now.slots a → IsInside self.now.slots a }
        ensures apart { (a b : Allocation) → IsLive self.now.slots a → IsLive self.now.slots b
            → AreDistinct a b → SharesNoByte a b }
        ensures pages { (a b : Allocation) → IsLive self.now.slots a → IsLive self.now.slots b
            → KeepsPages self.now.setup.properties.granularity self.now.slots a b }
        ensures empty { EachKeepsOneEmptyAtMost self.now.slots }
    {
        blocks_are_held(&self.pool);
        self.pool.pieces_are_apart();
    }

    /// Whether an allocation is live: the allocator has a record with its type, slot, number, offset, size and memory. A null
    /// one isn't.
    pub fn is_live(&self, allocation: &Allocation) -> bool
        ensures { IsTrue result ↔ IsLive self.now.slots allocation.now }
    {
        match allocation.piece() {
            None => false,
            Some(piece) => self.pool.is_live(allocation.memory_type_index, &piece),
        }
    }

    /// The bytes of a live allocation in mapped memory; `None` where it is null, isn't live or isn't mapped. It takes no memory.
    pub fn mapped_slice(&self, allocation: &Allocation) -> Option<&[u8]>
        ensures mapped { IsSome result ↔ IsMapped self.now.setup.properties self.now.slots
            allocation.now }
        ensures value { IfSome result (λ s. bytes_at (D.held self.now.device) allocation.now
            ≡ Some s.now) }
        ensures len { IfSome result (λ s. length s.now ≡ allocation.now.size) }
        ensures step { IsStep D.VulkanDevice (Read allocation.now) (Bytes (option_copied result))
            self.now self.now }
    {
        if !self.is_live(allocation) {
            return None;
        }
        blocks_are_held(&self.pool);
        let device = self.device();
        device.bytes(allocation.device_memory, allocation.offset, allocation.size)
    }

    /// Lends the bytes of a live allocation in mapped memory to be written; its caller knows that it is such a one, as
    /// `mapped_slice` tells. A write through them changes this allocation's bytes alone. It takes no memory.
    pub fn slice_mut(&mut self, allocation: &Allocation) -> &mut [u8]
        requires { IsMapped self.old.setup.properties self.old.slots allocation.now }
        // once the slice has ended, what it then holds stands at the allocation's place: the next clauses say what that leaves
        ensures* lends { sem 𝓛 (lends_piece D.row D.VulkanDevice self.entry allocation.now result) }
        ensures value { bytes_at (D.held self.old.device) allocation.now ≡ Some result.now }
        ensures len { length result.now ≡ allocation.now.size }
        ensures isolated { (ws : List ℕ) → length ws ≡ allocation.now.size
            → ChangesOnly D.VulkanDevice self.old allocation.now ws
            (written_at D.VulkanDevice self.old allocation.now ws) }
        ensures step { (ws : List ℕ) → length ws ≡ allocation.now.size
            → IsStep D.VulkanDevice (Write allocation.now ws) Done self.old
            (written_at D.VulkanDevice self.old allocation.now ws) }
    {
        self.allocations_are_apart();
        blocks_are_held(&self.pool);
        let pool = &mut self.pool;
        pool.source.range_mut(allocation.device_memory, allocation.offset, allocation.size)
    }

    // The allocator's own reference, handed back, and whether the allocation is live and mapped. The proofs of the next two calls
    // are written by hand: with this they name one call before they lend, and share nothing.
    fn with_mapped_found(&mut self, allocation: &Allocation) -> (&mut Self, bool)
        ensures same_reference { result.0.ghost_name ≡ self.entry.ghost_name }
        ensures unchanged { result.0.now ≡ self.old }
        ensures found { IsTrue result.1
            ↔ IsMapped self.old.setup.properties self.old.slots allocation.now }
    {
        let found = self.mapped_slice(allocation).is_some();
        (self, found)
    }

    /// Lends the same bytes to be written where the allocation is live and in mapped memory; else `None`, and the allocator
    /// stays as it is. It takes no memory.
    pub fn mapped_slice_mut(&mut self, allocation: &Allocation) -> Option<&mut [u8]>
        // once the slice has ended, what it then holds stands at the allocation's place; at None nothing has changed
        ensures* lends { sem 𝓛 (lends_piece_if D.row D.VulkanDevice self.entry allocation.now
            result) }
        ensures mapped { IsSome result ↔ IsMapped self.old.setup.properties self.old.slots
            allocation.now }
        ensures value { IfSome result (λ s. bytes_at (D.held self.old.device) allocation.now
            ≡ Some s.now) }
        ensures len { IfSome result (λ s. length s.now ≡ allocation.now.size) }
        ensures isolated { OnSome result
            ((ws : List ℕ) → length ws ≡ allocation.now.size
            → ChangesOnly D.VulkanDevice self.old allocation.now ws
            (written_at D.VulkanDevice self.old allocation.now ws)) }
        ensures step { OnSome result ((ws : List ℕ) → length ws ≡ allocation.now.size
            → IsStep D.VulkanDevice (Write allocation.now ws) Done self.old
            (written_at D.VulkanDevice self.old allocation.now ws)) }
    {
        let (allocator, found) = self.with_mapped_found(allocation);
        if found {
            Some(allocator.slice_mut(allocation))
        } else {
            None
        }
    }

    /// The same as a slab: `None` where the allocation is null, isn't live or isn't mapped, and then the allocator stays as it
    /// is. It takes no memory.
    pub fn try_as_mapped_slab(
        &mut self,
        allocation: &Allocation,
    ) -> Option<MappedAllocationSlab<'_>>
        // once the slab's bytes are dropped, what they then hold stands at the allocation's place; at None nothing has changed
        ensures* lends { sem 𝓛 (lends_slab_if D.row D.VulkanDevice self.entry allocation.now
            result) }
        ensures mapped { IsSome result ↔ IsMapped self.old.setup.properties self.old.slots
            allocation.now }
        ensures value { IfSome result (λ s. bytes_at (D.held self.old.device) allocation.now
            ≡ Some s.bytes.now) }
        ensures len { IfSome result (λ s. length s.bytes.now ≡ allocation.now.size) }
        ensures isolated { OnSome result
            ((ws : List ℕ) → length ws ≡ allocation.now.size
            → ChangesOnly D.VulkanDevice self.old allocation.now ws
            (written_at D.VulkanDevice self.old allocation.now ws)) }
        ensures step { OnSome result ((ws : List ℕ) → length ws ≡ allocation.now.size
            → IsStep D.VulkanDevice (Write allocation.now ws) Done self.old
            (written_at D.VulkanDevice self.old allocation.now ws)) }
    {
        let (allocator, found) = self.with_mapped_found(allocation);
        if found {
            Some(MappedAllocationSlab {
                bytes: allocator.slice_mut(allocation),
            })
        } else {
            None
        }
    }

    /// Frees an allocation, and gives its block back where the block is left empty and isn't the only shared one of its
    /// memory type. A live one is never refused. A null one is nothing to free; any other comes back as it was, beside
    /// `Internal`, and then nothing changes. It takes no memory.
    pub fn free<L: Log>(
        &mut self,
        log: &L,
        allocation: Allocation,
    ) -> Result<(), (AllocationError, Allocation)>
        // a null allocation is done at once; a live one goes; any other comes back, and nothing changes
        ensures frees { AllocatorFrees D.VulkanDevice allocation self.old.slots self.old.device result
            self.new.slots self.new.device }
        ensures constant { (self.new.first ≡ self.old.first) × (self.new.setup ≡ self.old.setup)
            × (self.new.budgets ≡ self.old.budgets) }
        ensures step { IsStep D.VulkanDevice (Free allocation) (freed_as result) self.old self.new }
        ensures keeps { (b : Allocation) → IsLive self.old.slots b → AreDistinct b allocation
            → IsLive self.new.slots b }
    {
        log_free(log, self.setup().debug(), &allocation);
        let Some(piece) = allocation.piece() else {
            return Ok(());
        };
        let index = allocation.memory_type_index;
        blocks_are_held(&self.pool);
        match self.pool.free(index, &piece) {
            Ok(()) => Ok(()),
            Err(error) => Err((error, allocation)),
        }
    }

    /// Gives an allocation another name, and with it the record that reports and leaks show. A null allocation has no record.
    /// `Internal` where the allocation is neither null nor live, else `HostOutOfMemory` where the host refused memory; then
    /// both names are as they were.
    pub fn rename_allocation(&mut self, allocation: &mut Allocation, name: &str) -> Result<()>
        // the allocation and its record get the name, or neither does; a null one has no record
        ensures renames { Renames allocation.old name.now self.old.slots result allocation.new
            self.new.slots }
        ensures step { IsStep D.VulkanDevice (Rename allocation.old name.now) (reply_of_done result)
            self.old self.new }
        ensures live { StayLive self.old.slots self.new.slots }
        ensures constant { (self.new.device ≡ self.old.device) × (self.new.first ≡ self.old.first)
            × (self.new.setup ≡ self.old.setup) × (self.new.budgets ≡ self.old.budgets) }
    {
        rename(self.alloc, &mut self.pool, allocation, name)
    }

    /// What is allocated: the live blocks and pieces by memory type, then by slot, pieces by offset, and the sums of both.
    /// The only refusal is `HostOutOfMemory`.
    pub fn generate_report(&self) -> Result<AllocatorReport>
        ensures step { IsStep D.VulkanDevice Report (reply_of_report result) self.now self.now }
        ensures reports { Reports self.now.slots result }
    {
        self.pool.report(self.alloc)
    }

    /// The texts of all live pieces by memory type, then by slot, then in order of offset. The only refusal is
    /// `HostOutOfMemory`.
    pub fn leak_texts(&self) -> Result<Vec<String>>
        ensures step { IsStep D.VulkanDevice Leaks (reply_of_leaks result) self.now self.now }
        ensures texts { TextsLeaks self.now.slots result }
    {
        self.pool.leak_texts(self.alloc)
    }

    /// Logs the same texts one by one, each as a message of its own. It takes no memory.
    pub fn report_memory_leaks<L: Log>(&self, log: &L, level: Level) {
        log_leaks(log, level, self.pool.memory_types());
    }

    /// Gives every block back, and returns the device, which then holds what it held when it was handed in. What is still
    /// live is logged first, as warnings, where the settings ask for it; its memory goes all the same. It is never refused.
    pub fn destroy<L: Log>(self, log: &L) -> D
        ensures held { D.held result ≡ D.held self.first }
        ensures counts_nothing { D.refused result ≡ D.refused self.device }
        ensures names_no_question { D.latest result ≡ D.latest self.device }
        // each memory goes back once, unmapped before where it is mapped: by memory type, then by slot
        ensures recorded { D.history result
            ≡ frees_recorded (D.held self.device) (all_handles self.slots) (D.history self.device) }
        ensures constant { D.properties result ≡ D.properties self.first }
    {
        let Allocator { pool, alloc: _ } = self;
        log_last_leaks(log, pool.source().setup().debug(), pool.memory_types());
        pool.destroy().into_device()
    }
}
