//! Requests: a piece of a shared block at once, or one question for a new block, which is granted or declined.

ghost use Rattle.std.specs.Prelude.{◌≡◌, ◌≢◌, ◌↔◌, ◌<◌, ℕ, None, false, length, IfOk, IfSome, IsTrue, IsSome};
ghost use Rattle.std.specs.Int.{is_power_of_two};
ghost use Rattle.std.specs.Option.{option_map};
ghost use Rattle.gpu_core.specs.declared.piece.Piece.{Piece};
ghost use Rattle.gpu_core.specs.Apart.{AreDistinct};
ghost use Rattle.gpu_core.specs.Blocks.{EachKeepsOneEmptyAtMost};
ghost use Rattle.gpu_core.specs.Budgets.{budgets};
ghost use Rattle.gpu_core.specs.TypeTake.{asked};
ghost use Rattle.gpu_core.specs.Types.{slots_of, kinds};
ghost use Rattle.gpu_pool.specs.Allocate.{request_at};
ghost use Rattle.gpu_pool.specs.Live.{IsLive, StayLive};
ghost use Rattle.gpu_pool.specs.State.{IsSoundAt};
ghost use Rattle.gpu_pool.specs.RequestState.{requests_of, with_sizes};
ghost use Rattle.gpu_pool.specs.Begin.{question_of, Begins, Grants, Declines, Gives, GivesAwaited};
ghost use Rattle.gpu_pool.specs.Idle.{FreesIdle, RenamesIdle, SetsBudgetIdle, SetsWordIdle};
ghost use Rattle.gpu_pool.specs.Move.{ProposesIdle, GivesPlace};

use crate::turn::{answer_awaited, no_answer_awaited};
use gpu_core::{MemoryTypes, NeedBlock, Piece, Prepared, Request};
use gpu_values::{AllocationSizes, AllocationType, Result};
use std::marker::Model;

/// A new block that is awaited, with all host memory for it at hand.
#[derive(Drop)]
pub struct Awaited {
    /// Its memory type.
    pub memory_type: usize,
    /// The block with the piece in it.
    pub need: NeedBlock,
}

/// What a source of blocks is to be asked for.
#[derive(Clone, Copy, Debug)]
pub struct Question {
    /// The memory type.
    pub memory_type: usize,
    /// The block's size in bytes.
    pub size: u64,
    /// Whether the block is one piece's own, and not shared.
    pub dedicated: bool,
}

/// What a request that isn't refused leads to.
#[derive(Clone, Copy, Debug)]
pub enum Begun<H> {
    /// A piece of a shared block.
    Piece(Piece<H>),
    /// A new block is needed: ask for it, and then call `granted` or `declined`.
    Question(Question),
}

/// The blocks of all memory types, the pieces in them, and the request whose question is open. While one is, each call but the
/// answers to it and those that only look is refused, and changes nothing.
#[derive(Drop)]
pub struct Requests<H: Copy + Eq> {
    sizes: AllocationSizes,
    types: MemoryTypes<H>,
    awaited: Option<Awaited>,
}

impl<H: Copy + Eq> Model for Requests<H> {
    ghost use Rattle.gpu_core.specs.Types.{MemoryTypesInvariant};
    ghost use Rattle.gpu_pool.specs.RequestState.{RequestState, requests_of, CanAnswer};

    ghost Value = { RequestState H };

    ghost view = { λ m. requests_of m.sizes m.types m.awaited };

    ghost invariant = { λ m. MemoryTypesInvariant m.types × CanAnswer m.types m.awaited };
}

impl<H: Copy + Eq> Requests<H> {
    /// No question is open.
    pub fn new(sizes: AllocationSizes, types: MemoryTypes<H>) -> Self
        ensures { result ≡ requests_of sizes types None }
    {
        let _ = types.capacity(); // shows that they are sound
        Requests {
            sizes,
            types,
            awaited: None,
        }
    }

    /// Whether a question is open.
    pub fn awaits_answer(&self) -> bool
        ensures { IsTrue result ↔ IsSome self.now.awaited }
    {
        self.awaited.is_some()
    }

    /// The question that is open.
    pub fn question(&self) -> Option<Question>
        ensures open { result ≡ option_map question_of self.now.awaited }
        ensures there { IfSome result (λ q. q.memory_type < length self.now.kinds) }
    {
        let awaited = self.awaited.as_ref()?;
        Some(Question {
            memory_type: awaited.memory_type,
            size: awaited.need.size,
            dedicated: awaited.need.dedicated,
        })
    }

    /// Begins a request at the memory type at `index`. The errors: `Internal` while a question is open, `HostOutOfMemory`, and
    /// `OutOfMemory` or `BudgetExceeded` where a new block isn't asked for. A refusal changes nothing. Where a new block is
    /// needed, the answer is the question for it, and all host memory for it is at hand.
    pub fn begin(&mut self, index: usize, request: &Request) -> Result<Begun<H>>
        requires there { index < length self.old.kinds }
        requires sized { 0 < request.now.size }
        requires aligned { IsTrue (is_power_of_two request.now.alignment) }
        requires piece { request.now.kind ≢ AllocationType.Free }
        ensures begins { Begins (request_at index request.now tt) self.old result self.new }
        ensures gives { Gives H.eq index request.now.alignment self.old.slots self.new.slots
            result }
        ensures keeps { StayLive H.eq self.old.slots self.new.slots }
    {
        if let Some(_) = &self.awaited {
            return Err(answer_awaited());
        }
        let need = match self.types.prepare(index, request, &self.sizes) {
            Err(error) => return Err(error),
            Ok(Prepared::Taken(piece)) => return Ok(Begun::Piece(piece)),
            Ok(Prepared::NeedBlock(need)) => need,
        };
        let question = Question {
            memory_type: index,
            size: need.size,
            dedicated: need.dedicated,
        };
        self.awaited = Some(Awaited {
            memory_type: index,
            need,
        });
        Ok(Begun::Question(question))
    }

    /// The same as `begin`, but that the next shared block has one of these sizes.
    #[inline(always)]
    pub fn begin_sized(
        &mut self,
        index: usize,
        request: &Request,
        sizes: &AllocationSizes,
    ) -> Result<Begun<H>>
        requires there { index < length self.old.kinds }
        requires sized { 0 < request.now.size }
        requires aligned { IsTrue (is_power_of_two request.now.alignment) }
        requires piece { request.now.kind ≢ AllocationType.Free }
        ensures begins { Begins (request_at index request.now tt) (with_sizes sizes.now self.old)
            result (with_sizes sizes.now self.new) }
        ensures sizes { self.new.sizes ≡ self.old.sizes }
        ensures gives { Gives H.eq index request.now.alignment self.old.slots self.new.slots
            result }
        ensures keeps { StayLive H.eq self.old.slots self.new.slots }
    {
        let usual = self.sizes;
        self.sizes = *sizes;
        let begun = self.begin(index, request);
        self.sizes = usual;
        begun
    }

    /// The block that was asked for is there, under this handle. It takes no host memory, and isn't refused but where no
    /// question is open (`Internal`).
    pub fn granted(&mut self, handle: H) -> Result<Piece<H>>
        ensures grants { Grants self.old handle result self.new }
        ensures gives { GivesAwaited H.eq self.old.awaited self.old.slots self.new.slots result }
        ensures keeps { StayLive H.eq self.old.slots self.new.slots }
    {
        match self.awaited.take() {
            None => Err(no_answer_awaited()),
            Some(awaited) => Ok(
                self.types
                    .install(awaited.memory_type, awaited.need, handle),
            ),
        }
    }

    /// The block that was asked for isn't there: nothing is left of the request. `Internal` where no question is open.
    pub fn declined(&mut self) -> Result<()>
        ensures declines { Declines self.old result self.new }
    {
        match self.awaited.take() {
            None => Err(no_answer_awaited()),
            Some(_) => Ok(()),
        }
    }

    /// Frees a piece of the memory type at `index`, and tells the handle of the block that goes with it, if one does. It takes no
    /// host memory. `Internal` where the piece isn't live, or a question is open; then nothing changes.
    pub fn free(&mut self, index: usize, piece: &Piece<H>) -> Result<Option<H>>
        ensures frees { FreesIdle H.eq self.old index piece.now result self.new }
        ensures keeps { (t : ℕ) (p : Piece H) → IsLive H.eq self.old.slots t p
            → AreDistinct t p index piece.now → IsLive H.eq self.new.slots t p }
    {
        if self.awaits_answer() {
            return Err(answer_awaited());
        }
        self.types.free(index, piece)
    }

    /// A second place for a live piece of the memory type at `index`, in a block of a higher slot, for the request that it was made
    /// for; `None` where the piece isn't live, or no block ahead has a place. No block is needed for it. Both places are live
    /// until one of them is freed. `Internal` while a question is open, else `HostOutOfMemory`; then nothing changes.
    pub fn propose_move(
        &mut self,
        index: usize,
        piece: &Piece<H>,
        request: &Request,
    ) -> Result<Option<Piece<H>>>
        requires sized { 0 < request.now.size }
        requires aligned { IsTrue (is_power_of_two request.now.alignment) }
        requires piece { request.now.kind ≢ AllocationType.Free }
        // a piece that was to have a block of its own stays in it
        requires shared { request.now.dedicated ≡ false }
        ensures proposes { ProposesIdle H.eq index piece.now (asked request.now) self.old result
            self.new }
        ensures gives { GivesPlace H.eq index request.now.alignment request.now.size self.old.slots
            self.new.slots result }
        ensures keeps { StayLive H.eq self.old.slots self.new.slots }
    {
        if self.awaits_answer() {
            return Err(answer_awaited());
        }
        if !self.types.is_live(index, piece) {
            return Ok(None);
        }
        self.types.propose_move(index, piece, request)
    }

    /// Renames a piece of the memory type at `index`. `Internal` where the piece isn't live, or a question is open, else
    /// `HostOutOfMemory`; then nothing changes.
    pub fn rename(&mut self, index: usize, piece: &Piece<H>, name: &str) -> Result<()>
        ensures renames { RenamesIdle H.eq self.old index piece.now name.now result self.new }
        ensures keeps { StayLive H.eq self.old.slots self.new.slots }
    {
        if self.awaits_answer() {
            return Err(answer_awaited());
        }
        self.types.rename(index, piece, name)
    }

    /// Keeps another word of the caller's with a piece of the memory type at `index`. `Internal` where the piece isn't live, or a question is
    /// open; then nothing changes. It takes no memory.
    pub fn set_word(&mut self, index: usize, piece: &Piece<H>, word: u64) -> Result<()>
        ensures sets { SetsWordIdle H.eq self.old index piece.now word result self.new }
        ensures keeps { StayLive H.eq self.old.slots self.new.slots }
    {
        if self.awaits_answer() {
            return Err(answer_awaited());
        }
        self.types.set_word(index, piece, word)
    }

    /// Bounds the sum of the sizes of the blocks of the memory type at `index`, in bytes. `Internal` where there is no such
    /// memory type, or a question is open; then nothing changes.
    pub fn set_budget(&mut self, index: usize, budget: Option<u64>) -> Result<()>
        ensures { SetsBudgetIdle self.old index budget result self.new }
    {
        if self.awaits_answer() {
            return Err(answer_awaited());
        }
        self.types.set_budget(index, budget)
    }

    /// What holds of the blocks at any time, for callers' proofs: they are sound, and at most one of a memory type is without
    /// pieces. It does nothing.
    pub fn blocks_are_sound(&self)
        ensures types { length self.now.slots ≡ length self.now.kinds }
        ensures sound { (t : ℕ) → IsSoundAt self.now.kinds self.now.slots t }
        ensures empty { EachKeepsOneEmptyAtMost self.now.slots }
    {
        let _ = &self.types;
    }

    /// The memory types, lent to be looked at.
    pub fn memory_types(&self) -> &MemoryTypes<H>
        ensures slots { slots_of result.now ≡ self.now.slots }
        ensures budgets { budgets result.now ≡ self.now.budgets }
        ensures kinds { kinds result.now ≡ self.now.kinds }
    {
        &self.types
    }
}
