//! Metal's machine: blocks of heaps by memory type, the calls that share them out, and which heaps join and leave a residency set.

ghost use Rattle.std.specs.Prelude.{◌≡◌, ℕ, ◌↔◌, ◌<◌, [], All, None, IfOk, IfErr, IsSome, IsTrue, length};
ghost use Rattle.gpu_values.specs.declared.error.AllocationError.TheVariants.{HostOutOfMemory};
ghost use Rattle.gpu_core.specs.declared.piece.Piece.{Piece};
ghost use Rattle.gpu_core.specs.Apart.{IsInside, AreDistinct, SharesNoByte};
ghost use Rattle.gpu_core.specs.Blocks.{total_capacity, BlocksWellFormed, EachKeepsOneEmptyAtMost};
ghost use Rattle.gpu_core.specs.Budgets.{budget_at, budgets};
ghost use Rattle.gpu_core.specs.Leaks.{all_leaks};
ghost use Rattle.gpu_core.specs.Types.{slots_of, kinds};
ghost use Rattle.gpu_device.specs.declared.metal.types.MTLHeap.{MTLHeap};
ghost use Rattle.gpu_metal.specs.Blocks.{is_same_heap};
ghost use Rattle.gpu_metal.specs.MemoryKinds.{locations};
ghost use Rattle.gpu_metal.specs.Setup.{kinds_of_device};
ghost use Rattle.gpu_pool.specs.Idle.{RenamesIdle, SetsBudgetIdle, SetsWordIdle};
ghost use Rattle.gpu_pool.specs.Live.{IsLive, StayLive};
ghost use Rattle.gpu_pool.specs.Move.{GivesPlace};
ghost use Rattle.gpu_pool.specs.Told.{Reports};
ghost use Rattle.gpu_machine.specs.MetalBegin.{IsQuestion, Begins, Grants, Refuses};
ghost use Rattle.gpu_machine.specs.MetalCalls.{heap_back, block_heap, MachineFrees};
ghost use Rattle.gpu_machine.specs.MetalLive.{Gives, GivesAwaited};
ghost use Rattle.gpu_machine.specs.MetalMove.{Proposes};

use crate::metal::answer::{Allocated, Granted, HeapBack, Progress, Question};
use gpu_core::{AllLeaks, MemoryTypes, Piece};
use gpu_device::metal::MTLHeap;
use gpu_metal::{
    AllocationCreateDesc, empty_types, heap_descriptor, heap_refusal, is_again, location_at,
    request_of, type_for,
};
use gpu_pool::{Begun, Requests, answer_awaited, no_answer_awaited};
use gpu_values::{AllocationError, AllocationSizes, AllocatorReport, Result};
use std::alloc::{AllocError, Global};
use std::marker::Model;

/// What the device is asked for this block.
fn question_for(block: gpu_pool::Question) -> Question
    requires { block.memory_type < length locations }
    ensures block { result.block ≡ block }
    ensures heap { IsQuestion result }
{
    let location = location_at(block.memory_type);
    Question {
        block,
        location,
        descriptor: heap_descriptor(location),
    }
}

/// A heap that goes back, where one does.
fn heap_back(has_set: bool, went: Option<MTLHeap>) -> Option<HeapBack>
    ensures { result ≡ heap_back has_set went }
{
    match went {
        None => None,
        Some(heap) => Some(HeapBack {
            heap,
            leaves: has_set,
        }),
    }
}

/// The Metal allocator turned inside out: it calls no device, but asks its caller for heaps, and is told the answer. While a
/// question is open, each call but the answers to it and those that only look is refused, and changes nothing.
#[derive(Drop)]
pub struct Machine {
    alloc: Global,
    requests: Requests<MTLHeap>,
    has_set: bool,
}

impl Model for Machine {
    ghost use Rattle.std.specs.Prelude.{◌≡◌};
    ghost use Rattle.gpu_metal.specs.Setup.{kinds_of_device};
    ghost use Rattle.gpu_machine.specs.MetalState.{State};

    ghost Value = { State };

    ghost view = { λ m. record { requests = m.requests; has_set = m.has_set } };

    ghost invariant = { λ m. m.requests.kinds ≡ kinds_of_device };
}

impl Machine {
    /// A machine without blocks and without budgets, whose heaps are members of a residency set or of none. Memory types 0, 1 and
    /// 2 are those for `GpuOnly`, `CpuToGpu` and `GpuToCpu`. The only refusal is `HostOutOfMemory`.
    pub fn new(alloc: Global, sizes: AllocationSizes, has_set: bool) -> Result<Self>
        ensures empty { IfOk result (λ m. All (λ slots. slots ≡ []) m.requests.slots) }
        ensures types { IfOk result (λ m. length m.requests.slots ≡ length locations) }
        ensures budgets { IfOk result (λ m. All (λ b. b ≡ None) m.requests.budgets) }
        ensures bounds { IfOk result (λ m. length m.requests.budgets ≡ length locations) }
        ensures sizes { IfOk result (λ m. m.requests.sizes ≡ sizes) }
        ensures closed { IfOk result (λ m. m.requests.awaited ≡ None) }
        ensures set { IfOk result (λ m. m.has_set ≡ has_set) }
        ensures cause { IfErr result (λ e. e ≡ HostOutOfMemory) }
    {
        match empty_types(alloc) {
            Err(AllocError) => Err(AllocationError::HostOutOfMemory),
            Ok(types) => Ok(Machine {
                alloc,
                requests: Requests::new(sizes, MemoryTypes::new(types)),
                has_set,
            }),
        }
    }

    /// Whether a question is open.
    pub fn awaits_answer(&self) -> bool
        ensures { IsTrue result ↔ IsSome self.now.requests.awaited }
    {
        self.requests.awaits_answer()
    }

    /// Begins a request. The errors are those of an allocator's `allocate`, in the same order, but for the device's own refusal:
    /// where a new heap is needed, the answer is the question for it, and all host memory for it is at hand. `Internal` while
    /// another question is open. A refusal changes nothing.
    pub fn begin(&mut self, desc: &AllocationCreateDesc) -> Result<Progress>
        ensures begins { Begins self.old desc.now result self.new }
        ensures gives { Gives desc.now.alignment self.old.requests.slots self.new.requests.slots
            result }
        ensures keeps { StayLive is_same_heap self.old.requests.slots self.new.requests.slots }
    {
        if self.awaits_answer() {
            return Err(answer_awaited()); // one question at a time
        }
        if desc.size == 0 || !desc.alignment.is_power_of_two() {
            return Err(AllocationError::InvalidAllocationCreateDesc);
        }
        let index = type_for(desc.location);
        match self.requests.begin(index, &request_of(desc)) {
            Err(error) => Err(error),
            Ok(Begun::Piece(piece)) => Ok(Progress::Piece(Allocated {
                memory_type: index,
                piece,
            })),
            Ok(Begun::Question(block)) => Ok(Progress::Question(question_for(block))),
        }
    }

    /// The device made the heap that was asked for: it is the block that was awaited. It takes no host memory, and isn't refused but
    /// where no question is open (`Internal`).
    pub fn granted(&mut self, heap: MTLHeap) -> Result<Granted>
        ensures grants { Grants self.old heap result self.new }
        ensures gives { GivesAwaited self.old.requests.slots self.new.requests.slots result }
        ensures keeps { StayLive is_same_heap self.old.requests.slots self.new.requests.slots }
    {
        let Some(question) = self.requests.question() else {
            return Err(no_answer_awaited());
        };
        match self.requests.granted(heap) {
            Err(error) => Err(error),
            Ok(piece) => Ok(Granted {
                allocated: Allocated {
                    memory_type: question.memory_type,
                    piece,
                },
                joins: self.has_set,
            }),
        }
    }

    /// The device made no heap: the answer is why the request is refused, and nothing is left of it. `Internal` also where no
    /// question is open, with a text of its own.
    pub fn refused(&mut self) -> AllocationError
        ensures { Refuses self.old result self.new }
    {
        match self.requests.declined() {
            Err(error) => error,
            Ok(()) => heap_refusal(),
        }
    }

    /// Frees a piece of the memory type at `index`, and tells which heap goes back to the device, where its block is left empty and
    /// isn't the only shared one of its memory type. It takes no host memory. `Internal` where the piece isn't live, or a
    /// question is open.
    pub fn free(&mut self, index: usize, piece: &Piece<MTLHeap>) -> Result<Option<HeapBack>>
        ensures frees { MachineFrees self.old index piece.now result self.new }
        ensures keeps { (t : ℕ) (p : Piece MTLHeap) → IsLive is_same_heap self.old.requests.slots t p
            → AreDistinct t p index piece.now → IsLive is_same_heap self.new.requests.slots t p }
    {
        match self.requests.free(index, piece) {
            Err(error) => Err(error),
            Ok(went) => Ok(heap_back(self.has_set, went)),
        }
    }

    /// A second place for a live piece of the memory type at `index`, in a block that is there and in a higher slot, for the request that it
    /// was made for: where a new piece would lie now, if that is higher. `None` where the piece isn't live, or no such block has a
    /// place. No block is asked for. Both places are live until one of them is freed: the first once what lies there is copied,
    /// or the second, which gives the move up. Its location isn't looked at. `Internal` while a question is open, else
    /// `InvalidAllocationCreateDesc` where the request isn't valid or of another size, else `HostOutOfMemory`; then nothing changes.
    pub fn propose_move(
        &mut self,
        index: usize,
        piece: &Piece<MTLHeap>,
        desc: &AllocationCreateDesc,
    ) -> Result<Option<Piece<MTLHeap>>>
        ensures proposes { Proposes index piece.now desc.now self.old result self.new }
        ensures gives { GivesPlace is_same_heap index desc.now.alignment desc.now.size
            self.old.requests.slots self.new.requests.slots result }
        ensures keeps { StayLive is_same_heap self.old.requests.slots self.new.requests.slots }
    {
        if self.awaits_answer() {
            return Err(answer_awaited());
        }
        if !is_again(piece.size, desc) {
            return Err(AllocationError::InvalidAllocationCreateDesc);
        }
        self.requests.propose_move(index, piece, &request_of(desc))
    }

    /// Renames a piece of the memory type at `index`. `Internal` where the piece isn't live, or a question is open; else
    /// `HostOutOfMemory`. Then nothing changes.
    pub fn rename(&mut self, index: usize, piece: &Piece<MTLHeap>, name: &str) -> Result<()>
        ensures renames { RenamesIdle is_same_heap self.old.requests index piece.now name.now result
            self.new.requests }
        ensures set { self.new.has_set ≡ self.old.has_set }
        ensures keeps { StayLive is_same_heap self.old.requests.slots self.new.requests.slots }
    {
        self.requests.rename(index, piece, name)
    }

    /// Keeps another word of the caller's with a piece of the memory type at `index`, for visits to show: the address of the caller's
    /// object, say. A new piece has the word 0. `Internal` where the piece isn't live, or a question is open; then nothing changes. It takes no
    /// memory.
    pub fn set_word(&mut self, index: usize, piece: &Piece<MTLHeap>, word: u64) -> Result<()>
        ensures sets { SetsWordIdle is_same_heap self.old.requests index piece.now word result
            self.new.requests }
        ensures set { self.new.has_set ≡ self.old.has_set }
        ensures keeps { StayLive is_same_heap self.old.requests.slots self.new.requests.slots }
    {
        self.requests.set_word(index, piece, word)
    }

    /// Whether a piece of the memory type at `index` is live.
    pub fn is_live(&self, index: usize, piece: &Piece<MTLHeap>) -> bool
        ensures { IsTrue result ↔ IsLive is_same_heap self.now.requests.slots index piece.now }
    {
        self.memory_types().is_live(index, piece)
    }

    /// Bounds the sum of the sizes of the blocks of the memory type at `index`, in bytes; `None` takes the bound away. A budget below
    /// the present sum gives no block back. It takes no host memory. `Internal` where there is no such memory type, or a question is
    /// open; then nothing changes.
    pub fn set_budget(&mut self, index: usize, budget: Option<u64>) -> Result<()>
        ensures budgets { SetsBudgetIdle self.old.requests index budget result self.new.requests }
        ensures set { self.new.has_set ≡ self.old.has_set }
    {
        self.requests.set_budget(index, budget)
    }

    /// The budget of the memory type at `index`, in bytes; `None` where it has none, or isn't there.
    pub fn budget(&self, index: usize) -> Option<u64>
        ensures { result ≡ budget_at self.now.requests.budgets index }
    {
        self.memory_types().budget(index)
    }

    /// The sum of the sizes of the live blocks, in bytes. A block that is awaited isn't one.
    pub fn capacity(&self) -> u64
        ensures { result ≡ total_capacity self.now.requests.slots }
    {
        self.memory_types().capacity()
    }

    /// What is allocated: the live blocks and pieces by memory type, then by slot, pieces by offset, and the sums of both.
    /// The only refusal is `HostOutOfMemory`.
    pub fn report(&self) -> Result<AllocatorReport>
        ensures { Reports self.now.requests.slots result }
    {
        self.memory_types().report(self.alloc)
    }

    /// The live pieces by memory type, then by slot, then in order of offset, with their texts. It takes no memory.
    pub fn leaks(&self) -> AllLeaks<'_, MTLHeap>
        ensures { result ≡ all_leaks self.now.requests.slots }
    {
        self.memory_types().leaks()
    }

    /// The heap of the block in a slot of the memory type at `index`, or `None` where there is none. A machine is dropped with its
    /// pieces; a visit of all slots before shows which heaps go back to the device then.
    pub fn block(&self, index: usize, slot: usize) -> Option<HeapBack>
        ensures { result ≡ block_heap self.now index slot }
    {
        heap_back(self.has_set, self.memory_types().block(index, slot))
    }

    /// The memory types, lent to be looked at: their blocks with pieces and gaps, and what is counted of them.
    pub fn memory_types(&self) -> &MemoryTypes<MTLHeap>
        ensures slots { slots_of result.now ≡ self.now.requests.slots }
        ensures budgets { budgets result.now ≡ self.now.requests.budgets }
        ensures kinds { kinds result.now ≡ kinds_of_device }
    {
        self.requests.memory_types()
    }

    /// What holds of live pieces at any time, for callers' proofs: all blocks are sound, each piece lies inside its block, no two share
    /// a byte, and at most one block of a memory type has none. It does nothing.
    pub fn pieces_are_apart(&self)
        ensures types { length self.now.requests.slots ≡ length locations }
        ensures sound { BlocksWellFormed 1 self.now.requests.slots }
        ensures inside { (t : ℕ) (p : Piece MTLHeap)
            → IsLive is_same_heap self.now.requests.slots t p
            → IsInside self.now.requests.slots t p }
        ensures apart { (t : ℕ) (p : Piece MTLHeap) (u : ℕ) (q : Piece MTLHeap)
            → IsLive is_same_heap self.now.requests.slots t p
            → IsLive is_same_heap self.now.requests.slots u q → AreDistinct t p u q
            → SharesNoByte t p u q }
        ensures empty { EachKeepsOneEmptyAtMost self.now.requests.slots }
    {
        self.requests.blocks_are_sound();
    }
}
