//! Vulkan's machine: blocks of device memory by memory type, and the calls that share them out.

ghost use Rattle.std.specs.Prelude.{◌≡◌, ◌≢◌, ℕ, ◌↔◌, ◌<◌, [], All, Some, None, IfOk, IfErr, OnOk, OnErr, IsSome, IsTrue, length};
ghost use Rattle.std.specs.Int.{is_power_of_two};
ghost use Rattle.std.specs.Option.{unwrap_or, option_map};
ghost use Rattle.gpu_values.specs.Refusal.{refusal_of, refusal_in, host_out_of_memory};
ghost use Rattle.gpu_core.specs.declared.piece.Piece.{Piece};
ghost use Rattle.gpu_core.specs.Apart.{IsInside, AreDistinct, SharesNoByte, KeepsPages};
ghost use Rattle.gpu_core.specs.Blocks.{slots_at, total_capacity, BlocksWellFormed, EachKeepsOneEmptyAtMost};
ghost use Rattle.gpu_core.specs.Budgets.{budget_at, budgets};
ghost use Rattle.gpu_core.specs.Leaks.{all_leaks};
ghost use Rattle.gpu_core.specs.TypeState.{slot_at};
ghost use Rattle.gpu_core.specs.Types.{slots_of, kinds};
ghost use Rattle.gpu_pool.specs.Idle.{RenamesIdle, SetsBudgetIdle, SetsWordIdle};
ghost use Rattle.gpu_pool.specs.Live.{IsLive, StayLive};
ghost use Rattle.gpu_pool.specs.Move.{GivesPlace};
ghost use Rattle.gpu_pool.specs.Told.{Reports};
ghost use Rattle.gpu_vulkan.specs.Allocate.{next_type};
ghost use Rattle.gpu_vulkan.specs.BlockAnswer.{memory_refusal, map_refusal};
ghost use Rattle.gpu_vulkan.specs.Choice.{best_type};
ghost use Rattle.gpu_vulkan.specs.Setup.{properties_told};
ghost use Rattle.gpu_vulkan.specs.Types.{is_mapped, kinds_of_device};
ghost use Rattle.gpu_machine.specs.VulkanState.{IsOver, AsksAsAllocator, told_fault};
ghost use Rattle.gpu_machine.specs.VulkanAsking.{asking_for};
ghost use Rattle.gpu_machine.specs.VulkanAttempt.{Attempts, AttemptsSized, Places};
ghost use Rattle.gpu_machine.specs.VulkanBegin.{Tries, Follows, MakesAttempts, Begins, Grants, Declines, GoesOnFor, Shrinks};
ghost use Rattle.gpu_machine.specs.VulkanByFlags.{AttemptsBy, BeginsDown, GoesDown};
ghost use Rattle.gpu_machine.specs.VulkanDescription.{description_of, without, IsWellFormed};
ghost use Rattle.gpu_machine.specs.VulkanCalls.{memory_back, live_block, block_at, MachineFrees, SetsHeapLimit, SetsMostBlocks, SetsSmallerBlocks};
ghost use Rattle.gpu_machine.specs.VulkanBound.{bound_at, BoundsBlocks};
ghost use Rattle.gpu_machine.specs.VulkanHeapLimit.{limit_at};
ghost use Rattle.gpu_machine.specs.VulkanLive.{Gives, GivesAgain, GivesAwaited};
ghost use Rattle.gpu_machine.specs.VulkanMove.{Proposes};
ghost use Rattle.gpu_machine.specs.VulkanSmallerBlocks.{sizes_in, bytes_left, smaller_portion};

use crate::vulkan::answer::{Allocated, LiveBlock, MemoryBack, Progress, Question};
use crate::vulkan::asking::{Asking, Rest};
use crate::vulkan::block_count::has_most;
use crate::vulkan::bound::{heap_left, held_where_full, lesser};
use crate::vulkan::description::without;
use crate::vulkan::heap_limit::{limit_at, no_limits, passes_limit, within_budget, within_limit};
use crate::vulkan::refusal::{is_bounded, lacks_room, no_such_heap, refusal_of_mapping};
use crate::vulkan::smaller_blocks::{
    LARGEST_BLOCK, Portion, may_be_smaller, next_portion, sizes_in_heap,
};
use crate::vulkan::told::fault_of;
use gpu_core::{AllLeaks, MemoryType, MemoryTypes, Piece};
use gpu_device::vulkan::{MemoryHeap, MemoryPropertyFlags, MemoryTypeInfo};
use gpu_pool::{Begun, Requests, answer_awaited, no_answer_awaited};
use gpu_values::{AllocationError, AllocationSizes, AllocatorReport, MemoryLocation, Result};
use gpu_vulkan::{
    AllocationCreateDesc, Preference, Settings, Setup, best_type, cheapest_type, is_again,
    next_type, refusal_of_memory, request_of, told_parts,
};
use std::alloc::{AllocError, Global};
use std::marker::Model;

/// Whether memory of the type at `index` is mapped: it is where the host can see it.
fn is_mapped(setup: &Setup, index: usize) -> bool
    ensures { result ≡ is_mapped setup.now.properties index }
{
    match setup.memory_types().get(index) {
        None => false,
        Some(info) => info
            .property_flags
            .contains(MemoryPropertyFlags::HOST_VISIBLE),
    }
}

/// The memory of a block of the memory type at `index` that goes, if one does.
fn memory_back<H: Copy + Eq>(setup: &Setup, index: usize, went: Option<H>) -> Option<MemoryBack<H>>
    ensures { result ≡ memory_back setup.now index went }
{
    match went {
        None => None,
        Some(handle) => Some(MemoryBack {
            handle,
            mapped: is_mapped(setup, index),
        }),
    }
}

/// The block that a request needs isn't asked for, for this cause: nothing is left of the request.
fn withdrawn<H: Copy + Eq>(
    requests: &mut Requests<H>,
    error: AllocationError,
) -> Result<Progress<H>>
    requires { IsSome requests.old.awaited }
    ensures refused { refusal_in result ≡ Some (refusal_of error) }
    ensures closed { requests.new ≡ record requests.old { awaited = None } }
{
    match requests.declined() {
        Err(late) => Err(late),
        Ok(()) => Err(error),
    }
}

/// The block in a slot of the memory type at `index`, if one is there.
fn live_block<H: Copy + Eq>(
    setup: &Setup,
    index: usize,
    memory_type: &MemoryType<H>,
    slot: usize,
) -> Option<LiveBlock<H>>
    ensures { result ≡ live_block setup.now index (slot_at memory_type.now.slots slot) }
{
    let Some(handle) = memory_type.block(slot) else {
        return None;
    };
    match memory_type.sub_allocator(slot) {
        None => None,
        Some(block) => Some(LiveBlock {
            handle,
            mapped: is_mapped(setup, index),
            size: block.size(),
            shared: block.supports_general_allocations(),
        }),
    }
}

/// The Vulkan allocator turned inside out: it calls no driver, but asks its caller for memory, and is told the answer. A block is known
/// by a handle of the caller's sort. While a question is open, each call but the answers to it and those that only look is
/// refused, and changes nothing.
#[derive(Drop)]
pub struct Machine<H: Copy + Eq> {
    alloc: Global,
    setup: Setup,
    limits: Vec<Option<u64>>,
    most_blocks: Option<usize>,
    smaller_blocks: bool,
    requests: Requests<H>,
    asking: Option<Asking>,
}

impl<H: Copy + Eq> Model for Machine<H> {
    ghost use Rattle.gpu_machine.specs.VulkanState.{State, IsOver, KeepsRequest};

    ghost Value = { State H };

    ghost view = { λ m. record {
      setup = m.setup;
      limits = m.limits.items;
      most_blocks = m.most_blocks;
      smaller_blocks = m.smaller_blocks;
      requests = m.requests;
      asking = m.asking;
    } };

    ghost invariant = { λ m. IsOver m.setup m.requests
        × KeepsRequest m.requests.awaited m.asking };
}

impl<H: Copy + Eq> Machine<H> {
    /// A machine without blocks, budgets and limits, whose blocks are no smaller where memory is short, over a device that has these memory
    /// types and heaps, and this `bufferImageGranularity`. The errors: `InvalidAllocatorCreateDesc` for the first that holds of a granularity
    /// that isn't a power of two, more than 32 memory types, and a memory type in a heap that isn't there; else `HostOutOfMemory`.
    pub fn new(
        alloc: Global,
        memory_types: Vec<MemoryTypeInfo>,
        heaps: Vec<MemoryHeap>,
        granularity: u64,
        settings: Settings,
    ) -> Result<Self>
        ensures setup { IfOk result (λ m. m.setup ≡ record {
          properties = properties_told memory_types.items heaps.items granularity;
          sizes = settings.sizes;
          debug = settings.debug;
          device_address = settings.buffer_device_address;
        }) }
        ensures empty { IfOk result (λ m. All (λ slots. slots ≡ []) m.requests.slots) }
        ensures types { IfOk result (λ m. length m.requests.slots ≡ length memory_types.items) }
        ensures budgets { IfOk result (λ m. All (λ b. b ≡ None) m.requests.budgets) }
        ensures bounds { IfOk result (λ m. length m.requests.budgets
            ≡ length memory_types.items) }
        ensures plain { IfOk result AsksAsAllocator }
        ensures heaps { IfOk result (λ m. length m.limits ≡ length heaps.items) }
        ensures closed { IfOk result (λ m. (m.requests.awaited ≡ None) × (m.asking ≡ None)) }
        ensures valid { OnOk result (told_fault
            (properties_told memory_types.items heaps.items granularity) ≡ None) }
        // the first fault that holds, else lack of host memory: nothing else refuses
        ensures cause { IfErr result (λ e. refusal_of e
            ≡ unwrap_or (told_fault (properties_told memory_types.items heaps.items granularity))
            host_out_of_memory) }
    {
        if let Some(error) = fault_of(&memory_types, &heaps, granularity) {
            return Err(error);
        }
        let sizes = settings.sizes;
        let Ok(limits) = no_limits(alloc, heaps.len()) else {
            return Err(AllocationError::HostOutOfMemory);
        };
        match told_parts(alloc, memory_types, heaps, granularity, settings) {
            Err(AllocError) => Err(AllocationError::HostOutOfMemory),
            Ok((setup, types)) => Ok(Machine {
                alloc,
                setup,
                limits,
                most_blocks: None,
                smaller_blocks: false,
                requests: Requests::new(sizes, types),
                asking: None,
            }),
        }
    }

    /// Whether a question is open.
    pub fn awaits_answer(&self) -> bool
        ensures { IsTrue result ↔ IsSome self.now.requests.awaited }
    {
        self.requests.awaits_answer()
    }

    /// The memory type at which a request with these bits begins: the first with all that the location prefers, else the first with all
    /// that it must have; `None` where there is neither.
    pub fn best_type(&self, memory_type_bits: u32, location: MemoryLocation) -> Option<usize>
        ensures { result ≡ best_type self.now.setup.properties.types memory_type_bits location }
    {
        best_type(self.setup.memory_types(), memory_type_bits, location)
    }

    /// Begins a request. The errors are those of an allocator's `allocate`, in the same order, but for the driver's own refusals:
    /// where a new block is needed, the answer is the question for it, and all host memory for it is at hand. `Internal` while
    /// another question is open. A refusal changes nothing.
    pub fn begin(&mut self, desc: &AllocationCreateDesc) -> Result<Progress<H>>
        ensures begins { Begins self.old desc.now result self.new }
        ensures gives { Gives H.eq desc.now.requirements.alignment self.old.requests.slots
            self.new.requests.slots result }
        ensures keeps { StayLive H.eq self.old.requests.slots self.new.requests.slots }
    {
        if self.awaits_answer() {
            return Err(answer_awaited()); // one question at a time
        }
        if desc.requirements.size == 0 || !desc.requirements.alignment.is_power_of_two() { // before a memory type is looked for
            return Err(AllocationError::InvalidAllocationCreateDesc);
        }
        let bits = desc.requirements.memory_type_bits;
        match best_type(self.setup.memory_types(), bits, desc.location) {
            None => Err(AllocationError::NoCompatibleMemoryTypeFound),
            Some(index) => self.make_attempts(desc, index),
        }
    }

    /// Begins a request whose memory is chosen by flags; the description's location isn't looked at. Memory types that have all that
    /// is required are tried from the cheapest on, while one has no room: above its heap, its budget, or refused by the driver for
    /// lack of memory. The errors are `InvalidAllocationCreateDesc`, `NoCompatibleMemoryTypeFound` where none serves, else why the last
    /// one that was tried was refused: `HostOutOfMemory` is final. `Internal` while another question is open. A refusal changes nothing.
    pub fn begin_by_flags(
        &mut self,
        desc: &AllocationCreateDesc,
        preference: &Preference,
    ) -> Result<Progress<H>>
        ensures begins { BeginsDown preference.now self.old desc.now result self.new }
        ensures gives { Gives H.eq desc.now.requirements.alignment self.old.requests.slots
            self.new.requests.slots result }
        ensures keeps { StayLive H.eq self.old.requests.slots self.new.requests.slots }
    {
        if self.awaits_answer() {
            return Err(answer_awaited());
        }
        if desc.requirements.size == 0 || !desc.requirements.alignment.is_power_of_two() {
            return Err(AllocationError::InvalidAllocationCreateDesc);
        }
        self.go_down(
            desc,
            preference,
            AllocationError::NoCompatibleMemoryTypeFound,
        )
    }

    /// The driver granted the memory that was asked for, and mapped it where it was to be mapped: it is the block that was awaited,
    /// under this handle. It takes no host memory, and isn't refused but where no question is open (`Internal`).
    pub fn granted(&mut self, handle: H) -> Result<Allocated<H>>
        ensures grants { Grants self.old handle result self.new }
        ensures gives { GivesAwaited H.eq self.old.requests.slots self.new.requests.slots result }
        ensures keeps { StayLive H.eq self.old.requests.slots self.new.requests.slots }
    {
        let Some(question) = self.requests.question() else {
            return Err(no_answer_awaited());
        };
        self.asking = None;
        match self.requests.granted(handle) {
            Err(error) => Err(error),
            Ok(piece) => Ok(Allocated {
                memory_type: question.memory_type,
                piece,
                mapped: is_mapped(&self.setup, question.memory_type),
            }),
        }
    }

    /// The driver refused the memory that was asked for, with this code. Where the request has a second attempt, that is what
    /// counts; else the error says why. `Internal` also where no question is open, with a text of its own.
    pub fn refused(&mut self, code: i32) -> Result<Progress<H>>
        ensures declines { Declines self.old (memory_refusal code) result self.new }
        ensures gives { GivesAgain H.eq self.old.asking self.old.requests.slots
            self.new.requests.slots result }
        ensures keeps { StayLive H.eq self.old.requests.slots self.new.requests.slots }
    {
        self.declined(refusal_of_memory(code))
    }

    /// The driver granted the memory, but refused to map it, with this code, or gave a null pointer; the memory has gone back. Then
    /// as with `refused`.
    pub fn mapping_refused(&mut self, code: Option<i32>) -> Result<Progress<H>>
        ensures declines { Declines self.old (map_refusal code) result self.new }
        ensures gives { GivesAgain H.eq self.old.asking self.old.requests.slots
            self.new.requests.slots result }
        ensures keeps { StayLive H.eq self.old.requests.slots self.new.requests.slots }
    {
        self.declined(refusal_of_mapping(code))
    }

    /// Frees a piece of the memory type at `index`, and tells which memory goes back to the driver, where its block is left empty and
    /// isn't the only shared one of its memory type. It takes no host memory. `Internal` where the piece isn't live, or a question
    /// is open.
    pub fn free(&mut self, index: usize, piece: &Piece<H>) -> Result<Option<MemoryBack<H>>>
        ensures frees { MachineFrees H.eq self.old index piece.now result self.new }
        ensures keeps { (t : ℕ) (p : Piece H) → IsLive H.eq self.old.requests.slots t p
            → AreDistinct t p index piece.now → IsLive H.eq self.new.requests.slots t p }
    {
        match self.requests.free(index, piece) {
            Err(error) => Err(error),
            Ok(went) => Ok(memory_back(&self.setup, index, went)),
        }
    }

    /// A second place for a live piece of the memory type at `index`, in a block that is there and in a higher slot, for the request that it
    /// was made for: where a new piece would lie now, if that is higher. `None` where the piece isn't live, or no such block has a
    /// place. No block is asked for. Both places are live until one of them is freed: the first once what lies there is copied,
    /// or the second, which gives the move up. Its memory type bits and location aren't looked at. `Internal` while a question is
    /// open, else `InvalidAllocationCreateDesc` where the request isn't valid, of another size, or for a buffer or an image alone, else
    /// `HostOutOfMemory`; then nothing changes.
    pub fn propose_move(
        &mut self,
        index: usize,
        piece: &Piece<H>,
        desc: &AllocationCreateDesc,
    ) -> Result<Option<Piece<H>>>
        ensures proposes { Proposes H.eq index piece.now desc.now self.old result self.new }
        ensures gives { GivesPlace H.eq index desc.now.requirements.alignment desc.now.requirements.size
            self.old.requests.slots self.new.requests.slots result }
        ensures keeps { StayLive H.eq self.old.requests.slots self.new.requests.slots }
    {
        if self.awaits_answer() {
            return Err(answer_awaited());
        }
        if !is_again(piece.size, desc) {
            return Err(AllocationError::InvalidAllocationCreateDesc);
        }
        self.requests.propose_move(index, piece, &request_of(desc))
    }

    /// Renames a piece of the memory type at `index`. `Internal` where the piece isn't live, or a question is open; else
    /// `HostOutOfMemory`. Then nothing changes.
    pub fn rename(&mut self, index: usize, piece: &Piece<H>, name: &str) -> Result<()>
        ensures renames { RenamesIdle H.eq self.old.requests index piece.now name.now result
            self.new.requests }
        ensures others { self.new ≡ record self.old { requests = self.new.requests } }
        ensures keeps { StayLive H.eq self.old.requests.slots self.new.requests.slots }
    {
        self.requests.rename(index, piece, name)
    }

    /// Keeps another word of the caller's with a piece of the memory type at `index`, for visits to show: the address of the caller's
    /// object, say. A new piece has the word 0. `Internal` where the piece isn't live, or a question is open; then nothing changes. It takes no
    /// memory.
    pub fn set_word(&mut self, index: usize, piece: &Piece<H>, word: u64) -> Result<()>
        ensures sets { SetsWordIdle H.eq self.old.requests index piece.now word result
            self.new.requests }
        ensures others { self.new ≡ record self.old { requests = self.new.requests } }
        ensures keeps { StayLive H.eq self.old.requests.slots self.new.requests.slots }
    {
        self.requests.set_word(index, piece, word)
    }

    /// Whether a piece of the memory type at `index` is live.
    pub fn is_live(&self, index: usize, piece: &Piece<H>) -> bool
        ensures { IsTrue result ↔ IsLive H.eq self.now.requests.slots index piece.now }
    {
        self.memory_types().is_live(index, piece)
    }

    /// Bounds the sum of the sizes of the blocks of the memory type at `index`, in bytes; `None` takes the bound away. A budget below
    /// the present sum gives no block back. It takes no host memory. `Internal` where there is no such memory type, or a question is
    /// open; then nothing changes.
    pub fn set_budget(&mut self, index: usize, budget: Option<u64>) -> Result<()>
        ensures budgets { SetsBudgetIdle self.old.requests index budget result self.new.requests }
        ensures others { self.new ≡ record self.old { requests = self.new.requests } }
    {
        self.requests.set_budget(index, budget)
    }

    /// The budget of the memory type at `index`, in bytes; `None` where it has none, or isn't there.
    pub fn budget(&self, index: usize) -> Option<u64>
        ensures { result ≡ budget_at self.now.requests.budgets index }
    {
        self.memory_types().budget(index)
    }

    /// The greatest sum, in bytes, that the blocks of the memory type at `index` may have now: by its budget, by what its heap's other blocks
    /// leave of the heap's limit, and by how many blocks there may be; `None` where nothing bounds it.
    pub fn bound(&self, index: usize) -> Option<u64>
        ensures value { result ≡ bound_at self.now index }
        ensures law { BoundsBlocks self.now index result }
    {
        let types = self.memory_types();
        let full = held_where_full(types, self.most_blocks, index);
        let heap = heap_left(types, self.setup.memory_types(), &self.limits, index);
        lesser(self.budget(index), lesser(full, heap))
    }

    /// Bounds the sum of the sizes of the blocks that lie in a heap, of whichever memory type, in bytes; `None` takes the bound away. A
    /// limit below the present sum gives no block back; a request that needs a block above it is refused with `BudgetExceeded`, as by a
    /// budget. It takes no host memory. `Internal` where there is no such heap, or a question is open; then nothing changes.
    pub fn set_heap_limit(&mut self, heap: usize, limit: Option<u64>) -> Result<()>
        ensures { SetsHeapLimit self.old heap limit result self.new }
    {
        if self.awaits_answer() {
            return Err(answer_awaited());
        }
        if heap >= self.limits.len() {
            return Err(no_such_heap());
        }
        self.limits[heap] = limit;
        Ok(())
    }

    /// The limit of a heap, in bytes; `None` where it has none, or isn't there.
    pub fn heap_limit(&self, heap: usize) -> Option<u64>
        ensures { result ≡ limit_at self.now.limits heap }
    {
        limit_at(&self.limits, heap)
    }

    /// Bounds how many blocks there may be, of all memory types together (`maxMemoryAllocationCount`); `None` takes the bound away. A bound
    /// below their present number gives no block back; a request that needs one more is refused with `BudgetExceeded`. It takes no host
    /// memory. `Internal` while a question is open; then nothing changes.
    pub fn set_most_blocks(&mut self, most: Option<usize>) -> Result<()>
        ensures { SetsMostBlocks self.old most result self.new }
    {
        if self.awaits_answer() {
            return Err(answer_awaited());
        }
        self.most_blocks = most;
        Ok(())
    }

    /// How many blocks there may be, of all memory types together; `None` where that isn't bounded.
    pub fn most_blocks(&self) -> Option<usize>
        ensures { result ≡ self.now.most_blocks }
    {
        self.most_blocks
    }

    /// Whether shared blocks are smaller where memory is short: in a heap of at most 1 GB none has more than an eighth of it, or 4 MB; where its
    /// memory type's budget or its heap's limit leaves no room for one, it is as large as they leave; and where the driver has none, half of it
    /// is asked for, then a quarter, before another memory type. A request that is above the smaller block asks for a block of its own. It
    /// takes no host memory. `Internal` while a question is open; then nothing changes.
    pub fn set_smaller_blocks(&mut self, smaller_blocks: bool) -> Result<()>
        ensures { SetsSmallerBlocks self.old smaller_blocks result self.new }
    {
        if self.awaits_answer() {
            return Err(answer_awaited());
        }
        self.smaller_blocks = smaller_blocks;
        Ok(())
    }

    /// Whether shared blocks are smaller where memory is short.
    pub fn smaller_blocks(&self) -> bool
        ensures { result ≡ self.now.smaller_blocks }
    {
        self.smaller_blocks
    }

    /// The sum of the sizes of the live blocks, in bytes. A block that is awaited isn't one.
    pub fn capacity(&self) -> u64
        ensures { result ≡ total_capacity self.now.requests.slots }
    {
        self.memory_types().capacity()
    }

    /// What is allocated: the live blocks and pieces by memory type, then by slot, pieces by offset, and the sums of both.
    /// The only refusal is `HostOutOfMemory`.
    pub fn report(&self) -> Result<AllocatorReport>
        ensures { Reports self.now.requests.slots result }
    {
        self.memory_types().report(self.alloc)
    }

    /// The live pieces by memory type, then by slot, then in order of offset, with their texts. It takes no memory.
    pub fn leaks(&self) -> AllLeaks<'_, H>
        ensures { result ≡ all_leaks self.now.requests.slots }
    {
        self.memory_types().leaks()
    }

    /// The block in a slot of the memory type at `index`, or `None` where there is none. A machine is dropped with its pieces; a
    /// visit of all slots before shows which memory goes back to the driver then.
    pub fn block(&self, index: usize, slot: usize) -> Option<LiveBlock<H>>
        ensures { result ≡ block_at self.now index slot }
    {
        match self.memory_type(index) {
            None => None,
            Some(found) => live_block(&self.setup, index, found, slot),
        }
    }

    /// The memory types, lent to be looked at: their blocks with pieces and gaps, and what is counted of them.
    pub fn memory_types(&self) -> &MemoryTypes<H>
        ensures slots { slots_of result.now ≡ self.now.requests.slots }
        ensures budgets { budgets result.now ≡ self.now.requests.budgets }
        ensures kinds { kinds result.now ≡ kinds_of_device self.now.setup.properties }
    {
        self.requests.memory_types()
    }

    /// What holds of live pieces at any time, for callers' proofs: all blocks are sound, each piece lies inside its block, no two share
    /// a byte, those of different kinds share no page (`bufferImageGranularity`), and at most one block of a memory type has none. It
    /// does nothing.
    pub fn pieces_are_apart(&self)
        ensures over { IsOver self.now.setup self.now.requests }
        ensures types { length self.now.requests.slots
            ≡ length self.now.setup.properties.types }
        ensures sound { BlocksWellFormed self.now.setup.properties.granularity
            self.now.requests.slots }
        ensures inside { (t : ℕ) (p : Piece H) → IsLive H.eq self.now.requests.slots t p
            → IsInside self.now.requests.slots t p }
        ensures apart { (t : ℕ) (p : Piece H) (u : ℕ) (q : Piece H)
            → IsLive H.eq self.now.requests.slots t p → IsLive H.eq self.now.requests.slots u q
            → AreDistinct t p u q → SharesNoByte t p u q }
        ensures pages { (t : ℕ) (p q : Piece H) → IsLive H.eq self.now.requests.slots t p
            → IsLive H.eq self.now.requests.slots t q
            → KeepsPages self.now.setup.properties.granularity self.now.requests.slots t p q }
        ensures empty { EachKeepsOneEmptyAtMost self.now.requests.slots }
    {
        self.requests.blocks_are_sound();
    }

    // The memory type at `index`, lent to be looked at, if it is there.
    fn memory_type(&self, index: usize) -> Option<&MemoryType<H>>
        ensures { slots_at self.now.requests.slots index
            ≡ unwrap_or (option_map (λ m. m.now.slots) result) [] }
    {
        self.memory_types().memory_type(index)
    }

    // The block that was awaited isn't there, for this cause.
    fn declined(&mut self, error: AllocationError) -> Result<Progress<H>>
        ensures declines { Declines self.old (refusal_of error) result self.new }
        ensures gives { GivesAgain H.eq self.old.asking self.old.requests.slots
            self.new.requests.slots result }
        ensures keeps { StayLive H.eq self.old.requests.slots self.new.requests.slots }
    {
        let Some(block) = self.requests.question() else {
            return Err(no_answer_awaited());
        };
        let Some(asking) = self.asking.take() else {
            return Err(no_answer_awaited());
        };
        match self.requests.declined() {
            Err(late) => Err(late),
            Ok(()) => {
                let desc = asking.description.lend();
                self.shrink(&desc, &asking, &block, error)
            }
        }
    }

    // A smaller block of the same memory type, where one is to be tried, then what is left of the request.
    fn shrink(
        &mut self,
        desc: &AllocationCreateDesc,
        asking: &Asking,
        block: &gpu_pool::Question,
        error: AllocationError,
    ) -> Result<Progress<H>>
        requires idle { self.old.requests.awaited ≡ None }
        requires sized { 0 < desc.now.requirements.size }
        requires aligned { IsTrue (is_power_of_two desc.now.requirements.alignment) }
        requires there { block.now.memory_type < length self.old.setup.properties.types }
        requires kept { IsWellFormed (description_of desc.now) }
        requires says { description_of desc.now ≡ asking.now.description }
        ensures smaller { Shrinks asking.now block.now self.old desc.now (refusal_of error) result
            self.new }
        ensures gives { Gives H.eq desc.now.requirements.alignment self.old.requests.slots
            self.new.requests.slots result }
        ensures keeps { StayLive H.eq self.old.requests.slots self.new.requests.slots }
    {
        let size = desc.requirements.size;
        let Some(portion) = self.smaller_portion(asking.portion, block, size, &error) else {
            return self.go_on(desc, asking, error);
        };
        let rest = Rest {
            desc,
            is_second: asking.is_second,
            preference: asking.preference,
            portion,
        };
        let sizes = self.setup.sizes().at_most(block.size / 2);
        match self.attempt_sized(desc, block.memory_type, &sizes, &rest) {
            Ok(progress) => Ok(progress),
            Err(denied) => self.go_on(desc, asking, denied),
        }
    }

    // What is asked for once this block of a request of `size` bytes was refused.
    fn smaller_portion(
        &self,
        portion: Portion,
        block: &gpu_pool::Question,
        size: u64,
        error: &AllocationError,
    ) -> Option<Portion>
        ensures { result
            ≡ smaller_portion self.now.smaller_blocks portion block.now size (refusal_of error.now) }
    {
        if self.smaller_blocks && lacks_room(error) && may_be_smaller(block, size) {
            next_portion(portion)
        } else {
            None
        }
    }

    // What is left of a request whose block was refused.
    fn go_on(
        &mut self,
        desc: &AllocationCreateDesc,
        asking: &Asking,
        error: AllocationError,
    ) -> Result<Progress<H>>
        requires idle { self.old.requests.awaited ≡ None }
        requires sized { 0 < desc.now.requirements.size }
        requires aligned { IsTrue (is_power_of_two desc.now.requirements.alignment) }
        ensures goes_on { GoesOnFor asking.now self.old desc.now (refusal_of error) result
            self.new }
        ensures gives { Gives H.eq desc.now.requirements.alignment self.old.requests.slots
            self.new.requests.slots result }
        ensures keeps { StayLive H.eq self.old.requests.slots self.new.requests.slots }
    {
        match &asking.preference {
            Some(preference) => {
                if lacks_room(&error) {
                    self.go_down(desc, preference, error)
                } else {
                    Err(error)
                }
            }
            None => {
                if asking.is_second {
                    Err(error)
                } else {
                    self.follow(desc, error)
                }
            }
        }
    }

    // The cheapest of the memory types that are left, and while one has no room the others. Before them the last was refused so.
    fn go_down(
        &mut self,
        desc: &AllocationCreateDesc,
        preference: &Preference,
        last: AllocationError,
    ) -> Result<Progress<H>>
        requires idle { self.old.requests.awaited ≡ None }
        requires sized { 0 < desc.now.requirements.size }
        requires aligned { IsTrue (is_power_of_two desc.now.requirements.alignment) }
        ensures goes_down { GoesDown preference.now self.old result self.new
            (description_of desc.now) (refusal_of last) }
        ensures gives { Gives H.eq desc.now.requirements.alignment self.old.requests.slots
            self.new.requests.slots result }
        ensures keeps { StayLive H.eq self.old.requests.slots self.new.requests.slots }
    {
        let allowed = desc.requirements.memory_type_bits;
        let Some(index) = cheapest_type(self.setup.memory_types(), allowed, preference) else {
            return Err(last);
        };
        let left = without(desc, index);
        match self.attempt_by_flags(desc, index, preference, &left) {
            Ok(progress) => Ok(progress),
            Err(error) => {
                if lacks_room(&error) {
                    self.go_down(&left, preference, error)
                } else {
                    Err(error)
                }
            }
        }
    }

    // The attempts that begin at the memory type at `index`, up to the first question.
    #[inline(always)]
    fn make_attempts(&mut self, desc: &AllocationCreateDesc, index: usize) -> Result<Progress<H>>
        requires idle { self.old.requests.awaited ≡ None }
        requires sized { 0 < desc.now.requirements.size }
        requires aligned { IsTrue (is_power_of_two desc.now.requirements.alignment) }
        requires there { index < length self.old.setup.properties.types }
        ensures attempts { MakesAttempts self.old index desc.now result self.new }
        ensures gives { Gives H.eq desc.now.requirements.alignment self.old.requests.slots
            self.new.requests.slots result }
        ensures keeps { StayLive H.eq self.old.requests.slots self.new.requests.slots }
    {
        match self.attempt_for_location(desc, index, false) {
            Ok(progress) => Ok(progress),
            Err(error) => self.follow(desc, error),
        }
    }

    // After a refusal the second attempt, where there is one.
    fn follow(&mut self, desc: &AllocationCreateDesc, error: AllocationError) -> Result<Progress<H>>
        requires idle { self.old.requests.awaited ≡ None }
        requires sized { 0 < desc.now.requirements.size }
        requires aligned { IsTrue (is_power_of_two desc.now.requirements.alignment) }
        ensures follows { Follows self.old desc.now
            (next_type self.old.setup desc.now (refusal_of error)) (refusal_of error) result
            self.new }
        ensures gives { Gives H.eq desc.now.requirements.alignment self.old.requests.slots
            self.new.requests.slots result }
        ensures keeps { StayLive H.eq self.old.requests.slots self.new.requests.slots }
    {
        match next_type(&self.setup, desc, &error) {
            None => Err(error),
            Some(next) => self.attempt_for_location(desc, next, true),
        }
    }

    // A location's attempt at the memory type at `index`, up to its question.
    #[inline(always)]
    fn attempt_for_location(
        &mut self,
        desc: &AllocationCreateDesc,
        index: usize,
        is_second: bool,
    ) -> Result<Progress<H>>
        requires idle { self.old.requests.awaited ≡ None }
        requires sized { 0 < desc.now.requirements.size }
        requires aligned { IsTrue (is_power_of_two desc.now.requirements.alignment) }
        requires there { index < length self.old.setup.properties.types }
        ensures tries { Tries self.old index desc.now is_second result self.new }
        ensures gives { Gives H.eq desc.now.requirements.alignment self.old.requests.slots
            self.new.requests.slots result }
        ensures refused { OnErr result (self.new ≡ self.old) }
        ensures keeps { StayLive H.eq self.old.requests.slots self.new.requests.slots }
    {
        let rest = Rest {
            desc,
            is_second,
            preference: None,
            portion: Portion::Whole,
        };
        self.attempt(desc, index, &rest)
    }

    // An attempt by flags at the memory type at `index`, up to its question; `left` is the request for the others.
    fn attempt_by_flags(
        &mut self,
        desc: &AllocationCreateDesc,
        index: usize,
        preference: &Preference,
        left: &AllocationCreateDesc,
    ) -> Result<Progress<H>>
        requires idle { self.old.requests.awaited ≡ None }
        requires sized { 0 < desc.now.requirements.size }
        requires aligned { IsTrue (is_power_of_two desc.now.requirements.alignment) }
        requires there { index < length self.old.setup.properties.types }
        requires left { description_of left.now ≡ without index (description_of desc.now) }
        ensures attempts { AttemptsBy preference.now self.old index (description_of desc.now) result
            self.new }
        ensures gives { Gives H.eq desc.now.requirements.alignment self.old.requests.slots
            self.new.requests.slots result }
        ensures refused { OnErr result (self.new ≡ self.old) }
        ensures keeps { StayLive H.eq self.old.requests.slots self.new.requests.slots }
    {
        if preference.never_allocate {
            return self.place(desc, index);
        }
        let rest = Rest {
            desc: left,
            is_second: false,
            preference: Some(*preference),
            portion: Portion::Whole,
        };
        self.attempt(desc, index, &rest)
    }

    // A piece in a block of the memory type at `index` that is there; no other is asked for.
    fn place(&mut self, desc: &AllocationCreateDesc, index: usize) -> Result<Progress<H>>
        requires idle { self.old.requests.awaited ≡ None }
        requires sized { 0 < desc.now.requirements.size }
        requires aligned { IsTrue (is_power_of_two desc.now.requirements.alignment) }
        requires there { index < length self.old.setup.properties.types }
        ensures places { Places self.old index (description_of desc.now) result self.new }
        ensures gives { Gives H.eq desc.now.requirements.alignment self.old.requests.slots
            self.new.requests.slots result }
        ensures refused { OnErr result (self.new ≡ self.old) }
        ensures keeps { StayLive H.eq self.old.requests.slots self.new.requests.slots }
    {
        let heap = self.setup.heap_size(index);
        if desc.requirements.size > heap {
            return Err(AllocationError::OutOfMemory);
        }
        match self.requests.begin(index, &request_of(desc)) {
            Err(error) => Err(error),
            Ok(Begun::Piece(piece)) => Ok(Progress::Piece(Allocated {
                memory_type: index,
                piece,
                mapped: is_mapped(&self.setup, index),
            })),
            Ok(Begun::Question(_)) => withdrawn(&mut self.requests, AllocationError::OutOfMemory),
        }
    }

    // The sizes of the shared blocks of the memory type at `index`.
    fn sizes_in(&self, index: usize) -> AllocationSizes
        requires { index < length self.now.setup.properties.types }
        ensures { result ≡ sizes_in self.now index }
    {
        let sizes = self.setup.sizes();
        if self.smaller_blocks {
            sizes_in_heap(sizes, self.setup.heap_size(index))
        } else {
            sizes
        }
    }

    // What the budget of the memory type at `index` and its heap's limit leave for a block.
    fn bytes_left(&self, index: usize) -> u64
        ensures { result ≡ bytes_left self.now index }
    {
        let types = self.requests.memory_types();
        let infos = self.setup.memory_types();
        within_budget(
            types,
            index,
            within_limit(types, infos, &self.limits, index, LARGEST_BLOCK),
        )
    }

    // The first attempts at the memory type at `index`, up to a question: by its heap's blocks, and where a bound leaves no room for one, by a block
    // as large as bounds leave.
    fn attempt(
        &mut self,
        desc: &AllocationCreateDesc,
        index: usize,
        rest: &Rest,
    ) -> Result<Progress<H>>
        requires idle { self.old.requests.awaited ≡ None }
        requires sized { 0 < desc.now.requirements.size }
        requires aligned { IsTrue (is_power_of_two desc.now.requirements.alignment) }
        requires there { index < length self.old.setup.properties.types }
        requires kept { IsWellFormed (description_of rest.now.desc.now) }
        ensures attempts { Attempts self.old index (description_of desc.now) (asking_for rest.now)
            result self.new }
        ensures gives { Gives H.eq desc.now.requirements.alignment self.old.requests.slots
            self.new.requests.slots result }
        ensures refused { OnErr result (self.new ≡ self.old) }
        ensures keeps { StayLive H.eq self.old.requests.slots self.new.requests.slots }
    {
        let sizes = self.sizes_in(index);
        match self.attempt_sized(desc, index, &sizes, rest) {
            Ok(progress) => Ok(progress),
            Err(error) => {
                if self.smaller_blocks && is_bounded(&error) {
                    let left = sizes.at_most(self.bytes_left(index));
                    self.attempt_sized(desc, index, &left, rest)
                } else {
                    Err(error)
                }
            }
        }
    }

    // One attempt at the memory type at `index` by shared blocks of these sizes, up to its question, for which the rest of the request is kept.
    #[inline(always)]
    fn attempt_sized(
        &mut self,
        desc: &AllocationCreateDesc,
        index: usize,
        sizes: &AllocationSizes,
        rest: &Rest,
    ) -> Result<Progress<H>>
        requires idle { self.old.requests.awaited ≡ None }
        requires sized { 0 < desc.now.requirements.size }
        requires aligned { IsTrue (is_power_of_two desc.now.requirements.alignment) }
        requires there { index < length self.old.setup.properties.types }
        requires kept { IsWellFormed (description_of rest.now.desc.now) }
        ensures attempts { AttemptsSized sizes.now self.old index (description_of desc.now)
            (asking_for rest.now) result self.new }
        ensures gives { Gives H.eq desc.now.requirements.alignment self.old.requests.slots
            self.new.requests.slots result }
        ensures refused { OnErr result (self.new ≡ self.old) }
        ensures keeps { StayLive H.eq self.old.requests.slots self.new.requests.slots }
    {
        if desc.requirements.size > self.setup.heap_size(index) {
            return Err(AllocationError::OutOfMemory);
        }
        let block = match self.requests.begin_sized(index, &request_of(desc), sizes) {
            Err(error) => return Err(error),
            Ok(Begun::Piece(piece)) => {
                return Ok(Progress::Piece(Allocated {
                    memory_type: index,
                    piece,
                    mapped: is_mapped(&self.setup, index),
                }));
            }
            Ok(Begun::Question(block)) => block,
        };
        let types = self.requests.memory_types();
        let infos = self.setup.memory_types();
        if has_most(types, self.most_blocks)
            || passes_limit(types, infos, &self.limits, index, block.size)
        {
            return withdrawn(&mut self.requests, AllocationError::BudgetExceeded);
        }
        let Ok(asking) = Asking::of(self.alloc, rest) else {
            return withdrawn(&mut self.requests, AllocationError::HostOutOfMemory);
        };
        self.asking = Some(asking);
        Ok(Progress::Question(Question {
            block,
            mapped: is_mapped(&self.setup, index),
        }))
    }
}
