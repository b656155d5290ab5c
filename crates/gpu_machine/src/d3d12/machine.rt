//! DirectX 12's machine: blocks of heaps by memory type, the calls that share them out, and the committed resources.

ghost use Rattle.std.specs.Prelude.{◌≡◌, ℕ, ◌↔◌, ◌<◌, [], All, None, IfOk, IfErr, IsSome, IsTrue, length};
ghost use Rattle.gpu_values.specs.declared.error.AllocationError.TheVariants.{HostOutOfMemory};
ghost use Rattle.gpu_core.specs.declared.piece.Piece.{Piece};
ghost use Rattle.gpu_core.specs.Apart.{IsInside, AreDistinct, SharesNoByte};
ghost use Rattle.gpu_core.specs.TypeState.{slot_at, block_number};
ghost use Rattle.gpu_core.specs.Blocks.{slots_at, total_capacity, BlocksWellFormed, EachKeepsOneEmptyAtMost};
ghost use Rattle.gpu_core.specs.Budgets.{budget_at, budgets};
ghost use Rattle.gpu_core.specs.Leaks.{all_leaks};
ghost use Rattle.gpu_core.specs.Types.{slots_of, kinds};
ghost use Rattle.gpu_device.specs.declared.d3d12.types.ID3D12Heap.{ID3D12Heap};
ghost use Rattle.gpu_d3d12.specs.Blocks.{is_same_heap};
ghost use Rattle.gpu_d3d12.specs.Committed.{statistics_at};
ghost use Rattle.gpu_d3d12.specs.CommittedRequests.{Makes, Declines, Forgets};
ghost use Rattle.gpu_d3d12.specs.MemoryKinds.{memory_kinds};
ghost use Rattle.gpu_d3d12.specs.Setup.{kinds_of_device};
ghost use Rattle.gpu_pool.specs.Idle.{FreesIdle, RenamesIdle, SetsBudgetIdle, SetsWordIdle};
ghost use Rattle.gpu_pool.specs.Live.{IsLive, StayLive};
ghost use Rattle.gpu_pool.specs.Move.{GivesPlace};
ghost use Rattle.gpu_pool.specs.Told.{Reports};
ghost use Rattle.gpu_machine.specs.D3D12Begin.{IsQuestion, Begins, Grants, Refuses, BeginsCommitted};
ghost use Rattle.gpu_machine.specs.D3D12Live.{Gives, GivesAwaited};
ghost use Rattle.gpu_machine.specs.D3D12Move.{Proposes};

use crate::d3d12::answer::{Allocated, Progress, Question};
use gpu_core::{AllLeaks, MemoryTypes, Piece};
use gpu_d3d12::{
    AllocationCreateDesc, Committed, CommittedAllocationStatistics, CommittedRequests,
    ResourceCategory, empty_types, heap_desc, is_again, kind_at, refusal_of_answer, request_of,
    type_count, type_for,
};
use gpu_device::d3d12::{ID3D12Heap, ID3D12Resource, ResourceHeapTier};
use gpu_pool::{Begun, Requests, answer_awaited, no_answer_awaited};
use gpu_values::{AllocationError, AllocationSizes, AllocatorReport, MemoryLocation, Result};
use std::alloc::{AllocError, Global};
use std::marker::Model;

/// What the device is asked for this block.
fn question_for(tier: ResourceHeapTier, block: gpu_pool::Question) -> Question
    requires { block.memory_type < length (memory_kinds tier) }
    ensures block { result.block ≡ block }
    ensures heap { IsQuestion tier result }
{
    Question {
        block,
        desc: heap_desc(kind_at(tier, block.memory_type), block.size),
    }
}

/// The DirectX 12 allocator turned inside out: it calls no device, but asks its caller for heaps and committed resources, and is told
/// the answers. One question of each sort may be open. While one is, each other call of its sort but those that only look is
/// refused, and changes nothing.
#[derive(Drop)]
pub struct Machine {
    alloc: Global,
    requests: Requests<ID3D12Heap>,
    tier: ResourceHeapTier,
    committed: CommittedRequests,
}

impl Model for Machine {
    ghost use Rattle.std.specs.Prelude.{◌≡◌, length};
    ghost use Rattle.gpu_d3d12.specs.MemoryKinds.{memory_kinds};
    ghost use Rattle.gpu_d3d12.specs.Setup.{kinds_of_device};
    ghost use Rattle.gpu_machine.specs.D3D12State.{State};

    ghost Value = { State };

    ghost view = { λ m. record {
      tier = m.tier;
      requests = m.requests;
      committed = m.committed;
    } };

    ghost invariant = { λ m. (m.requests.kinds ≡ kinds_of_device m.tier)
        × (length m.committed.records ≡ length (memory_kinds m.tier)) };
}

impl Machine {
    /// A machine without blocks, budgets and committed resources. Memory types 0, 1 and 2 are those for `GpuOnly`, `CpuToGpu` and
    /// `GpuToCpu`; at heap tier 1 each location has three, for buffers, render targets with depth stencils, and other textures. The
    /// only refusal is `HostOutOfMemory`.
    pub fn new(alloc: Global, sizes: AllocationSizes, tier: ResourceHeapTier) -> Result<Self>
        ensures tier { IfOk result (λ m. m.tier ≡ tier) }
        ensures empty { IfOk result (λ m. All (λ slots. slots ≡ []) m.requests.slots) }
        ensures types { IfOk result (λ m. length m.requests.slots ≡ length (memory_kinds tier)) }
        ensures budgets { IfOk result (λ m. All (λ b. b ≡ None) m.requests.budgets) }
        ensures bounds { IfOk result (λ m. length m.requests.budgets
            ≡ length (memory_kinds tier)) }
        ensures sizes { IfOk result (λ m. m.requests.sizes ≡ sizes) }
        ensures closed { IfOk result (λ m. (m.requests.awaited ≡ None)
            × (m.committed.awaited ≡ None)) }
        ensures lists { IfOk result (λ m. length m.committed.records
            ≡ length (memory_kinds tier)) }
        ensures uncommitted { IfOk result (λ m. All (λ records. records ≡ [])
            m.committed.records) }
        ensures cause { IfErr result (λ e. e ≡ HostOutOfMemory) }
    {
        let Ok(types) = empty_types(alloc, tier) else {
            return Err(AllocationError::HostOutOfMemory);
        };
        match CommittedRequests::new(alloc, type_count(tier)) {
            Err(AllocError) => Err(AllocationError::HostOutOfMemory),
            Ok(committed) => Ok(Machine {
                alloc,
                requests: Requests::new(sizes, MemoryTypes::new(types)),
                tier,
                committed,
            }),
        }
    }

    /// The resource heap tier whose memory types these are.
    pub fn tier(&self) -> ResourceHeapTier
        ensures { result ≡ self.now.tier }
    {
        self.tier
    }

    /// Whether a question for a heap is open.
    pub fn awaits_answer(&self) -> bool
        ensures { IsTrue result ↔ IsSome self.now.requests.awaited }
    {
        self.requests.awaits_answer()
    }

    /// Begins a request. The errors are those of an allocator's `allocate`, in the same order, but for the device's own refusal:
    /// where a new heap is needed, the answer is the question for it, and all host memory for it is at hand. `Internal` while
    /// another question is open. A refusal changes nothing.
    pub fn begin(&mut self, desc: &AllocationCreateDesc) -> Result<Progress>
        ensures begins { Begins self.old desc.now result self.new }
        ensures gives { Gives desc.now.alignment self.old.requests.slots self.new.requests.slots
            result }
        ensures keeps { StayLive is_same_heap self.old.requests.slots self.new.requests.slots }
    {
        if self.awaits_answer() {
            return Err(answer_awaited());
        }
        if desc.size == 0 || !desc.alignment.is_power_of_two() {
            return Err(AllocationError::InvalidAllocationCreateDesc);
        }
        let index = type_for(self.tier, desc.location, desc.resource_category);
        match self.requests.begin(index, &request_of(desc)) {
            Err(error) => Err(error),
            Ok(Begun::Piece(piece)) => Ok(Progress::Piece(Allocated {
                memory_type: index,
                piece,
            })),
            Ok(Begun::Question(block)) => Ok(Progress::Question(question_for(self.tier, block))),
        }
    }

    /// The device made the heap that was asked for: it is the block that was awaited. It takes no host memory, and isn't refused but
    /// where no question for a heap is open (`Internal`).
    pub fn granted(&mut self, heap: ID3D12Heap) -> Result<Allocated>
        ensures grants { Grants self.old heap result self.new }
        ensures gives { GivesAwaited self.old.requests.slots self.new.requests.slots result }
        ensures keeps { StayLive is_same_heap self.old.requests.slots self.new.requests.slots }
    {
        let Some(question) = self.requests.question() else {
            return Err(no_answer_awaited());
        };
        match self.requests.granted(heap) {
            Err(error) => Err(error),
            Ok(piece) => Ok(Allocated {
                memory_type: question.memory_type,
                piece,
            }),
        }
    }

    /// The device made no heap, with this code, or with none where there was no error and no heap: the answer is why the request is
    /// refused, `OutOfMemory` for `E_OUTOFMEMORY` and else `Internal`, and nothing is left of it. `Internal` also where no
    /// question for a heap is open, with a text of its own.
    pub fn refused(&mut self, code: Option<i32>) -> AllocationError
        ensures { Refuses self.old code result self.new }
    {
        match self.requests.declined() {
            Err(error) => error,
            Ok(()) => refusal_of_answer(code),
        }
    }

    /// Frees a piece of the memory type at `index`, and tells which heap goes back to the device, where its block is left empty and
    /// isn't the only shared one of its memory type. It takes no host memory. `Internal` where the piece isn't live, or a
    /// question for a heap is open.
    pub fn free(&mut self, index: usize, piece: &Piece<ID3D12Heap>) -> Result<Option<ID3D12Heap>>
        ensures frees { FreesIdle is_same_heap self.old.requests index piece.now result
            self.new.requests }
        ensures others { self.new ≡ record self.old { requests = self.new.requests } }
        ensures keeps { (t : ℕ) (p : Piece ID3D12Heap)
            → IsLive is_same_heap self.old.requests.slots t p → AreDistinct t p index piece.now
            → IsLive is_same_heap self.new.requests.slots t p }
    {
        self.requests.free(index, piece)
    }

    /// A second place for a live piece of the memory type at `index`, in a block that is there and in a higher slot, for the request that it
    /// was made for: where a new piece would lie now, if that is higher. `None` where the piece isn't live, or no such block has a
    /// place. No block is asked for. Both places are live until one of them is freed: the first once what lies there is copied,
    /// or the second, which gives the move up. Its location and category aren't looked at. `Internal` while a question is open, else
    /// `InvalidAllocationCreateDesc` where the request isn't valid or of another size, else `HostOutOfMemory`; then nothing changes.
    pub fn propose_move(
        &mut self,
        index: usize,
        piece: &Piece<ID3D12Heap>,
        desc: &AllocationCreateDesc,
    ) -> Result<Option<Piece<ID3D12Heap>>>
        ensures proposes { Proposes index piece.now desc.now self.old result self.new }
        ensures gives { GivesPlace is_same_heap index desc.now.alignment desc.now.size
            self.old.requests.slots self.new.requests.slots result }
        ensures keeps { StayLive is_same_heap self.old.requests.slots self.new.requests.slots }
    {
        if self.awaits_answer() {
            return Err(answer_awaited());
        }
        if !is_again(piece.size, desc) {
            return Err(AllocationError::InvalidAllocationCreateDesc);
        }
        self.requests.propose_move(index, piece, &request_of(desc))
    }

    /// Renames a piece of the memory type at `index`. `Internal` where the piece isn't live, or a question is open; else
    /// `HostOutOfMemory`. Then nothing changes.
    pub fn rename(&mut self, index: usize, piece: &Piece<ID3D12Heap>, name: &str) -> Result<()>
        ensures renames { RenamesIdle is_same_heap self.old.requests index piece.now name.now result
            self.new.requests }
        ensures others { self.new ≡ record self.old { requests = self.new.requests } }
        ensures keeps { StayLive is_same_heap self.old.requests.slots self.new.requests.slots }
    {
        self.requests.rename(index, piece, name)
    }

    /// Keeps another word of the caller's with a piece of the memory type at `index`, for visits to show: the address of the caller's
    /// object, say. A new piece has the word 0. `Internal` where the piece isn't live, or a question is open; then nothing changes. It takes no
    /// memory.
    pub fn set_word(&mut self, index: usize, piece: &Piece<ID3D12Heap>, word: u64) -> Result<()>
        ensures sets { SetsWordIdle is_same_heap self.old.requests index piece.now word result
            self.new.requests }
        ensures others { self.new ≡ record self.old { requests = self.new.requests } }
        ensures keeps { StayLive is_same_heap self.old.requests.slots self.new.requests.slots }
    {
        self.requests.set_word(index, piece, word)
    }

    /// Whether a piece of the memory type at `index` is live.
    pub fn is_live(&self, index: usize, piece: &Piece<ID3D12Heap>) -> bool
        ensures { IsTrue result ↔ IsLive is_same_heap self.now.requests.slots index piece.now }
    {
        self.memory_types().is_live(index, piece)
    }

    /// Bounds the sum of the sizes of the blocks of the memory type at `index`, in bytes; `None` takes the bound away. A budget below
    /// the present sum gives no block back. It takes no host memory. `Internal` where there is no such memory type, or a question is
    /// open; then nothing changes.
    pub fn set_budget(&mut self, index: usize, budget: Option<u64>) -> Result<()>
        ensures budgets { SetsBudgetIdle self.old.requests index budget result self.new.requests }
        ensures others { self.new ≡ record self.old { requests = self.new.requests } }
    {
        self.requests.set_budget(index, budget)
    }

    /// The budget of the memory type at `index`, in bytes; `None` where it has none, or isn't there.
    pub fn budget(&self, index: usize) -> Option<u64>
        ensures { result ≡ budget_at self.now.requests.budgets index }
    {
        self.memory_types().budget(index)
    }

    /// The sum of the sizes of the live blocks, in bytes. A block that is awaited isn't one.
    pub fn capacity(&self) -> u64
        ensures { result ≡ total_capacity self.now.requests.slots }
    {
        self.memory_types().capacity()
    }

    /// What is allocated: the live blocks and pieces by memory type, then by slot, pieces by offset, and the sums of both.
    /// The only refusal is `HostOutOfMemory`.
    pub fn report(&self) -> Result<AllocatorReport>
        ensures { Reports self.now.requests.slots result }
    {
        self.memory_types().report(self.alloc)
    }

    /// The live pieces by memory type, then by slot, then in order of offset, with their texts. It takes no memory.
    pub fn leaks(&self) -> AllLeaks<'_, ID3D12Heap>
        ensures { result ≡ all_leaks self.now.requests.slots }
    {
        self.memory_types().leaks()
    }

    /// The heap of the block in a slot of the memory type at `index`, or `None` where there is none. A machine is dropped with its
    /// pieces; a visit of all slots before shows which heaps go back to the device then.
    pub fn block(&self, index: usize, slot: usize) -> Option<ID3D12Heap>
        ensures { result ≡ block_number (slot_at (slots_at self.now.requests.slots index) slot) }
    {
        self.memory_types().block(index, slot)
    }

    /// Makes room for a committed resource of this size in bytes, as the device tells it: then ask the device, and call `made` or
    /// `not_made`. `Internal` while one is asked for, `OutOfMemory` where the sizes of its memory type's committed resources would
    /// sum up past `u64::MAX`, else `HostOutOfMemory`. A refusal changes nothing.
    pub fn begin_committed(
        &mut self,
        size: u64,
        location: MemoryLocation,
        category: ResourceCategory,
    ) -> Result<()>
        ensures { BeginsCommitted self.old location category size result self.new }
    {
        let index = type_for(self.tier, location, category);
        self.committed.begin(index, size)
    }

    /// Whether a committed resource is asked for.
    pub fn awaits_resource(&self) -> bool
        ensures { IsTrue result ↔ IsSome self.now.committed.awaited }
    {
        self.committed.awaits_answer()
    }

    /// The device made the committed resource that was asked for. It takes no host memory, and isn't refused but where none is asked
    /// for (`Internal`).
    pub fn made(&mut self, resource: ID3D12Resource) -> Result<Committed>
        ensures makes { Makes self.old.committed resource result self.new.committed }
        ensures others { self.new ≡ record self.old { committed = self.new.committed } }
    {
        self.committed.made(resource)
    }

    /// The device made no committed resource: nothing is left of the request. `Internal` where none is asked for.
    pub fn not_made(&mut self) -> Result<()>
        ensures declines { Declines self.old.committed result self.new.committed }
        ensures others { self.new ≡ record self.old { committed = self.new.committed } }
    {
        self.committed.not_made()
    }

    /// Forgets a committed resource, which its owner releases. It takes no memory. `Internal` where there is no record of this memory
    /// type, number and size, or one is asked for; then nothing changes.
    pub fn forget_committed(&mut self, committed: Committed) -> Result<()>
        ensures forgets { Forgets self.old.committed committed result self.new.committed }
        ensures others { self.new ≡ record self.old { committed = self.new.committed } }
    {
        self.committed.forget(committed)
    }

    /// How many committed resources of the memory type at `index` there are, and their sizes' sum; `None` where there is no such
    /// memory type.
    pub fn committed(&self, index: usize) -> Option<CommittedAllocationStatistics>
        ensures { result ≡ statistics_at self.now.committed.records index }
    {
        self.committed.statistics(index)
    }

    /// The memory types, lent to be looked at: their blocks with pieces and gaps, and what is counted of them.
    pub fn memory_types(&self) -> &MemoryTypes<ID3D12Heap>
        ensures slots { slots_of result.now ≡ self.now.requests.slots }
        ensures budgets { budgets result.now ≡ self.now.requests.budgets }
        ensures kinds { kinds result.now ≡ kinds_of_device self.now.tier }
    {
        self.requests.memory_types()
    }

    /// What holds of live pieces at any time, for callers' proofs: all blocks are sound, each piece lies inside its block, no two share
    /// a byte, and at most one block of a memory type has none. It does nothing.
    pub fn pieces_are_apart(&self)
        ensures types { length self.now.requests.slots ≡ length (memory_kinds self.now.tier) }
        ensures lists { length self.now.committed.records ≡ length (memory_kinds self.now.tier) }
        ensures sound { BlocksWellFormed 1 self.now.requests.slots }
        ensures inside { (t : ℕ) (p : Piece ID3D12Heap)
            → IsLive is_same_heap self.now.requests.slots t p
            → IsInside self.now.requests.slots t p }
        ensures apart { (t : ℕ) (p : Piece ID3D12Heap) (u : ℕ) (q : Piece ID3D12Heap)
            → IsLive is_same_heap self.now.requests.slots t p
            → IsLive is_same_heap self.now.requests.slots u q → AreDistinct t p u q
            → SharesNoByte t p u q }
        ensures empty { EachKeepsOneEmptyAtMost self.now.requests.slots }
    {
        self.requests.blocks_are_sound();
    }
}
