//! A pool: a source of blocks, and the pieces of its blocks.

ghost use Rattle.std.specs.Prelude.{◌≡◌, ◌≢◌, ◌↔◌, ◌⊎◌, ◌+◌, ◌<◌, ◌≤◌, ◌%◌, ℕ, [], All, None, false, length, map, string_bytes, IsTrue, IsOk, IsErr, IfOk, IfErr, OnOk};
ghost use Rattle.std.specs.Int.{is_power_of_two};
ghost use Rattle.gpu_values.specs.Refusal.{refusal_in};
ghost use Rattle.gpu_values.specs.Report.{report_of};
ghost use Rattle.gpu_values.specs.declared.error.AllocationError.TheVariants.{HostOutOfMemory};
ghost use Rattle.gpu_block_pieces.specs.Leak.{leak_text};
ghost use Rattle.gpu_core.specs.declared.piece.Piece.{Piece};
ghost use Rattle.gpu_core.specs.Apart.{IsInside, AreDistinct, KeepsPages};
ghost use Rattle.gpu_core.specs.Blocks.{slots_at, total_capacity, EachKeepsOneEmptyAtMost};
ghost use Rattle.gpu_core.specs.Budgets.{budget_at, budgets, SetsBudget};
ghost use Rattle.gpu_core.specs.Leaks.{all_leaks};
ghost use Rattle.gpu_core.specs.Moves.{slots_above, moves_left};
ghost use Rattle.gpu_core.specs.Reports.{whole_report};
ghost use Rattle.gpu_core.specs.TypeTake.{asked};
ghost use Rattle.gpu_core.specs.Types.{slots_of, kinds};
ghost use Rattle.gpu_pool.specs.Allocate.{request_at, PoolAllocates};
ghost use Rattle.gpu_pool.specs.Free.{PoolFrees, GivesBackAll};
ghost use Rattle.gpu_pool.specs.Handles.{all_handles};
ghost use Rattle.gpu_pool.specs.Held.{HoldsJustBlocks};
ghost use Rattle.gpu_pool.specs.Live.{IsLive, StayLive, IsNewlyLive, AreBytesApart};
ghost use Rattle.gpu_pool.specs.Move.{Proposes, GivesPlace};
ghost use Rattle.gpu_pool.specs.Rename.{Renames};
ghost use Rattle.gpu_pool.specs.Source.{result_of};
ghost use Rattle.gpu_pool.specs.State.{State, kind_at, IsSoundAt};

use crate::BlockSource;
use crate::free::{free_piece, give_back_all};
use crate::handles::{Handles, all_handles};
use crate::requests::{Begun, Requests};
use gpu_core::{AllLeaks, MemoryTypes, Piece, Request};
use gpu_values::{AllocationSizes, AllocationType, AllocatorReport, Result};
use std::alloc::Global;
use std::marker::Model;

/// A source of blocks, and the requests that share its blocks out: what a request asks, the source answers at once. The source holds
/// just the live blocks. It must be spent by `destroy`.
pub struct Pool<S: BlockSource> {
    /// The source. Whoever changes it proves that it holds the same blocks, before the pool is used again.
    pub source: S,
    requests: Requests<S::Handle>,
}

impl<S: BlockSource> Model for Pool<S> {
    ghost use Rattle.std.specs.Prelude.{◌≡◌, None};
    ghost use Rattle.gpu_pool.specs.Held.{HoldsJustBlocks};
    ghost use Rattle.gpu_pool.specs.State.{State};
    ghost use Rattle.gpu_pool.specs.RequestState.{pool_of};

    ghost Value = { State S S.Handle };

    ghost view = { λ p. pool_of p.source p.requests };

    ghost invariant = { λ p. (p.requests.awaited ≡ None)
        × (p.requests.kinds ≡ S.kinds p.source)
        × HoldsJustBlocks S.number (S.held p.source) p.requests.slots };
}

impl<S: BlockSource> Pool<S> {
    /// A pool without blocks, over a source that holds none and whose memory types these are.
    pub fn new(source: S, sizes: AllocationSizes, types: MemoryTypes<S::Handle>) -> Self
        requires kinds { kinds types ≡ S.kinds source }
        requires empty { All (λ slots. slots ≡ []) (slots_of types) }
        requires none { (n : ℕ) → S.held source n ≡ None }
        ensures { result ≡ record {
          source = source;
          sizes = sizes;
          slots = slots_of types;
          budgets = budgets types;
        } }
    {
        Pool {
            source,
            requests: Requests::new(sizes, types),
        }
    }

    /// Allocates a piece of the memory type at `index`: of a shared block, or of a new one of the source, which is asked when all
    /// host memory for the piece is at hand.
    pub fn allocate(
        &mut self,
        index: usize,
        request: &Request,
        extra: S::Extra,
    ) -> Result<Piece<S::Handle>>
        requires there { index < length (S.kinds self.old.source) }
        requires sized { 0 < request.now.size }
        requires aligned { IsTrue (is_power_of_two request.now.alignment) }
        requires piece { request.now.kind ≢ AllocationType.Free }
        // what the request met with, what it is answered, and what that leaves
        ensures allocates { PoolAllocates (S.kinds self.old.source) S.asks
            (request_at index request.now extra) self.old (result_of result) self.new }
        ensures constant { S.kinds self.new.source ≡ S.kinds self.old.source }
        ensures aligned { IfOk result (λ p. p.offset % request.now.alignment ≡ 0) }
        ensures keeps { StayLive S.Handle.eq self.old.slots self.new.slots }
        ensures live { IfOk result (λ p. IsNewlyLive S.Handle.eq self.old.slots self.new.slots index
            p) }
    {
        self.requests.blocks_are_sound();
        let result = self.serve(index, request, extra);
        self.requests.blocks_are_sound();
        result
    }

    // The same, without what it makes of live pieces.
    #[inline(always)]
    fn serve(
        &mut self,
        index: usize,
        request: &Request,
        extra: S::Extra,
    ) -> Result<Piece<S::Handle>>
        requires there { index < length (S.kinds self.old.source) }
        requires sized { 0 < request.now.size }
        requires aligned { IsTrue (is_power_of_two request.now.alignment) }
        requires piece { request.now.kind ≢ AllocationType.Free }
        ensures allocates { PoolAllocates (S.kinds self.old.source) S.asks
            (request_at index request.now extra) self.old (result_of result) self.new }
        ensures constant { S.kinds self.new.source ≡ S.kinds self.old.source }
    {
        self.requests.blocks_are_sound();
        match self.requests.begin(index, request) {
            Err(error) => Err(error),
            Ok(Begun::Piece(piece)) => Ok(piece),
            Ok(Begun::Question(question)) => {
                match self.source.ask(question.memory_type, question.size, extra) {
                    Ok(handle) => self.requests.granted(handle),
                    Err(error) => {
                        let _ = self.requests.declined();
                        Err(error)
                    }
                }
            }
        }
    }

    /// Frees a piece of the memory type at `index`, and gives its block back where the block is left empty and isn't the only
    /// shared one of its memory type. A live piece is never refused; of any other nothing changes. It takes no memory.
    pub fn free(&mut self, index: usize, piece: &Piece<S::Handle>) -> Result<()>
        ensures frees { PoolFrees S.gives_back S.Handle.eq index piece.now self.old (result_of result)
            self.new }
        ensures constant { S.kinds self.new.source ≡ S.kinds self.old.source }
        ensures keeps { (t : ℕ) (p : Piece S.Handle) → IsLive S.Handle.eq self.old.slots t p
            → AreDistinct t p index piece.now → IsLive S.Handle.eq self.new.slots t p }
    {
        self.requests.blocks_are_sound();
        free_piece(&mut self.source, &mut self.requests, index, piece)
    }

    /// A second place for a live piece of the memory type at `index`, in a block of a higher slot, for the request that it was
    /// made for; `None` where the piece isn't live, or no block ahead has a place. The source is asked for nothing, and
    /// nothing else changes. Both places are live until one of them is freed, by `finish_move` or by `abandon_move`. The only
    /// refusal is `HostOutOfMemory`.
    pub fn propose_move(
        &mut self,
        index: usize,
        piece: &Piece<S::Handle>,
        request: &Request,
    ) -> Result<Option<Piece<S::Handle>>>
        requires sized { 0 < request.now.size }
        requires aligned { IsTrue (is_power_of_two request.now.alignment) }
        requires piece { request.now.kind ≢ AllocationType.Free }
        requires shared { request.now.dedicated ≡ false }
        ensures proposes { Proposes S.Handle.eq index piece.now (asked request.now) self.old
            (result_of result) self.new }
        ensures gives { GivesPlace S.Handle.eq index request.now.alignment request.now.size
            self.old.slots self.new.slots result }
        ensures keeps { StayLive S.Handle.eq self.old.slots self.new.slots }
    {
        self.requests.propose_move(index, piece, request)
    }

    /// Finishes a move: frees the first place of a piece whose bytes stand at the second one, which stays live. The first
    /// place's block goes back where it is left empty and isn't the only shared one. It takes no memory.
    pub fn finish_move(
        &mut self,
        index: usize,
        from: &Piece<S::Handle>,
        to: &Piece<S::Handle>,
    ) -> Result<()>
        requires live { IsLive S.Handle.eq self.old.slots index to.now }
        requires ahead { from.now.slot < to.now.slot }
        ensures frees { PoolFrees S.gives_back S.Handle.eq index from.now self.old (result_of result)
            self.new }
        ensures constant { S.kinds self.new.source ≡ S.kinds self.old.source }
        ensures stays { IsLive S.Handle.eq self.new.slots index to.now }
        ensures keeps { (t : ℕ) (p : Piece S.Handle) → IsLive S.Handle.eq self.old.slots t p
            → AreDistinct t p index from.now → IsLive S.Handle.eq self.new.slots t p }
        ensures fewer { OnOk result (moves_left (slots_at self.new.slots index)
            + slots_above (slots_at self.old.slots index) from.now.slot
            ≤ moves_left (slots_at self.old.slots index)) }
    {
        self.free(index, from)
    }

    /// Abandons a move: frees the second place of a piece, which stays where it was. It takes no memory.
    pub fn abandon_move(
        &mut self,
        index: usize,
        from: &Piece<S::Handle>,
        to: &Piece<S::Handle>,
    ) -> Result<()>
        requires live { IsLive S.Handle.eq self.old.slots index from.now }
        requires ahead { from.now.slot < to.now.slot }
        ensures frees { PoolFrees S.gives_back S.Handle.eq index to.now self.old (result_of result)
            self.new }
        ensures constant { S.kinds self.new.source ≡ S.kinds self.old.source }
        ensures stays { IsLive S.Handle.eq self.new.slots index from.now }
        ensures keeps { (t : ℕ) (p : Piece S.Handle) → IsLive S.Handle.eq self.old.slots t p
            → AreDistinct t p index to.now → IsLive S.Handle.eq self.new.slots t p }
    {
        self.free(index, to)
    }

    /// Renames a piece of the memory type at `index`. `Internal` where the piece isn't live, else
    /// `HostOutOfMemory`; then nothing changes.
    pub fn rename(&mut self, index: usize, piece: &Piece<S::Handle>, name: &str) -> Result<()>
        ensures renames { Renames S.Handle.eq index piece.now name.now self.old (result_of result)
            self.new }
        ensures keeps { StayLive S.Handle.eq self.old.slots self.new.slots }
    {
        self.requests.rename(index, piece, name)
    }

    /// Bounds the sum of the sizes of the live blocks of a memory type, in bytes; `None` takes the bound away. A budget below
    /// the present sum gives no block back. `Internal` where there is no such memory type, and then nothing changes. It takes
    /// no memory.
    pub fn set_budget(&mut self, index: usize, budget: Option<u64>) -> Result<()>
        ensures budgets { SetsBudget index budget self.old.budgets (refusal_in result)
            self.new.budgets }
        ensures found { index < length self.old.slots → IsOk result }
        ensures missing { length self.old.slots ≤ index → IsErr result }
        ensures others { self.new ≡ record self.old { budgets = self.new.budgets } }
    {
        self.requests.set_budget(index, budget)
    }

    /// The budget of a memory type, in bytes; `None` where it has none, or isn't there.
    pub fn budget(&self, index: usize) -> Option<u64>
        ensures { result ≡ budget_at self.now.budgets index }
    {
        self.memory_types().budget(index)
    }

    /// The sum of the sizes of the live blocks, in bytes.
    pub fn capacity(&self) -> u64
        ensures { result ≡ total_capacity self.now.slots }
    {
        self.memory_types().capacity()
    }

    /// What is allocated: the live blocks and pieces by memory type, then by slot, pieces by offset, and the sums of both.
    /// The only refusal is `HostOutOfMemory`.
    pub fn report(&self, alloc: Global) -> Result<AllocatorReport>
        ensures report { IfOk result (λ r. report_of r ≡ whole_report self.now.slots) }
        ensures cause { IfErr result (λ e. e ≡ HostOutOfMemory) }
    {
        self.memory_types().report(alloc)
    }

    /// The live pieces by memory type, then by slot, then in order of offset. It takes no memory.
    pub fn leaks(&self) -> AllLeaks<'_, S::Handle>
        ensures { result ≡ all_leaks self.now.slots }
    {
        self.memory_types().leaks()
    }

    /// The texts of all live pieces in the same order. The only refusal is `HostOutOfMemory`.
    pub fn leak_texts(&self, alloc: Global) -> Result<Vec<String>>
        ensures texts { IfOk result (λ v. map string_bytes v.items
            ≡ map leak_text (all_leaks self.now.slots)) }
        ensures cause { IfErr result (λ e. e ≡ HostOutOfMemory) }
    {
        self.memory_types().leak_texts(alloc)
    }

    /// The handles of the live blocks by memory type, then by slot. It takes no memory.
    pub fn handles(&self) -> Handles<'_, S::Handle>
        ensures { result ≡ all_handles self.now.slots }
    {
        all_handles(self.memory_types())
    }

    /// Whether a piece of the memory type at `index` is live.
    pub fn is_live(&self, index: usize, piece: &Piece<S::Handle>) -> bool
        ensures { IsTrue result ↔ IsLive S.Handle.eq self.now.slots index piece.now }
    {
        self.memory_types().is_live(index, piece)
    }

    /// The memory types, lent to be looked at: their blocks with pieces and gaps, and what is counted of them.
    pub fn memory_types(&self) -> &MemoryTypes<S::Handle>
        ensures slots { slots_of result.now ≡ self.now.slots }
        ensures budgets { budgets result.now ≡ self.now.budgets }
        ensures kinds { kinds result.now ≡ S.kinds self.now.source }
    {
        self.requests.memory_types()
    }

    /// The source, lent. It holds just the live blocks.
    pub fn source(&self) -> &S
        ensures lent { result.now ≡ self.now.source }
        ensures holds { HoldsJustBlocks S.number (S.held self.now.source) self.now.slots }
    {
        &self.source
    }

    /// What holds of live pieces at any time, for callers' proofs: blocks are sound, each piece lies inside its block, no two
    /// share a byte, those of different kinds share no page of their memory type, and at most one block of a memory type has none. It
    /// does nothing.
    pub fn pieces_are_apart(&self)
        ensures sound { (t : ℕ) → IsSoundAt (S.kinds self.now.source) self.now.slots t }
        ensures inside { (t : ℕ) (p : Piece S.Handle) → IsLive S.Handle.eq self.now.slots t p
            → IsInside self.now.slots t p }
        ensures apart { (t : ℕ) (p : Piece S.Handle) (u : ℕ) (q : Piece S.Handle)
            → IsLive S.Handle.eq self.now.slots t p → IsLive S.Handle.eq self.now.slots u q
            → AreDistinct t p u q → (S.number p.handle ≢ S.number q.handle) ⊎ AreBytesApart p q }
        ensures pages { (t : ℕ) (p q : Piece S.Handle) → IsLive S.Handle.eq self.now.slots t p
            → IsLive S.Handle.eq self.now.slots t q
            → KeepsPages (kind_at (S.kinds self.now.source) t).1 self.now.slots t p q }
        ensures empty { EachKeepsOneEmptyAtMost self.now.slots }
    {
        self.requests.blocks_are_sound();
    }

    /// Gives every block back, each once, by memory type, then by slot, and returns the source, which then holds none. It is
    /// never refused, and takes no memory.
    pub fn destroy(self) -> S
        ensures none { (n : ℕ) → S.held result n ≡ None }
        ensures gives_back { GivesBackAll S.gives_back self.source (all_handles self.slots) result }
        ensures constant { S.kinds result ≡ S.kinds self.source }
    {
        let Pool {
            mut source,
            requests,
        } = self;
        give_back_all(&mut source, requests.memory_types());
        source
    }
}
