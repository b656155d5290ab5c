//! The memory types of one allocator: one of them prepares a request, takes a new block in, or gives a piece back.

ghost use Rattle.std.specs.Prelude.{◌≡◌, ◌≢◌, ℕ, ◌+◌, ◌^◌, ◌<◌, ◌≤◌, ◌↔◌, [], All, length, Some, None, IfOk, IfErr, IsOk, IsErr, OnOk, OnErr, IfSome, IsNone, IsTrue, map, string_bytes, codes};
ghost use Rattle.std.specs.Int.{is_power_of_two};
ghost use Rattle.std.specs.List.{slice_set, slice_get};
ghost use Rattle.std.specs.Option.{option_map};
ghost use Rattle.gpu_values.specs.declared.error.AllocationError.TheVariants.{HostOutOfMemory};
ghost use Rattle.gpu_values.specs.Refusal.{refusal_of, refusal_in, internal};
ghost use Rattle.gpu_core.specs.Requests.{refusal_in_type, refusal_of_need};
ghost use Rattle.gpu_values.specs.Report.{report_of};

mod leaks;
mod report;

use crate::{MemoryType, NeedBlock, Piece, Prepared, Request};
use gpu_block::Said;
use gpu_values::{
    AllocationError, AllocationSizes, AllocationType, AllocatorReport, Fault, Result,
};
pub use leaks::AllLeaks;
use leaks::{all_leaks, texts_of};
use report::report_of;
use std::alloc::Global;
use std::marker::Model;

/// The blocks of all memory types of an allocator and the pieces in them. It holds no memory of a device: `H` is the
/// device's number of a block. Sizes are bytes; their sum over all blocks has 64 bits.
#[derive(Drop)]
pub struct MemoryTypes<H: Copy + Eq> {
    types: Vec<MemoryType<H>>,
    // The sum over all types, which each request for a block is held against.
    capacity: u64,
}

impl<H: Copy + Eq> Model for MemoryTypes<H> {
    ghost use Rattle.gpu_core.specs.Types.{Types};
    ghost use Rattle.gpu_core.specs.TypeInvariant.{AllAreKept};

    ghost Value = { Types H };

    ghost view = { λ m. m.types.items };

    ghost invariant = { λ m. AllAreKept m.types.items m.capacity };
}

/// Whether the device may be asked for a new block of `size` bytes: `OutOfMemory` where it would carry the sum of all
/// blocks' sizes, which is `used` so far, past `u64::MAX`; else `BudgetExceeded` where it would carry that of its memory
/// type past its budget.
fn check_block<H: Copy + Eq>(used: u64, memory_type: &MemoryType<H>, size: u64) -> Result<()>
    ensures { refusal_in result ≡ refusal_in_type used memory_type.now size }
{
    if size > u64::MAX - used {
        return Err(AllocationError::OutOfMemory);
    }
    if !memory_type.fits_budget(size) {
        return Err(AllocationError::BudgetExceeded);
    }
    Ok(())
}

/// What a memory type prepared, where the device may be asked for its new block, if it needs one; else why not.
fn within_limits<H: Copy + Eq>(
    used: u64,
    memory_type: &MemoryType<H>,
    prepared: Prepared<H>,
) -> Result<Prepared<H>>
    ensures same { IfOk result (λ p. p ≡ prepared) }
    ensures fits { OnOk result (refusal_of_need used memory_type.now prepared ≡ None) }
    ensures cause { IfErr result (λ e. refusal_of_need used memory_type.now prepared
        ≡ Some (refusal_of e)) }
{
    if let Prepared::NeedBlock(need) = &prepared {
        check_block(used, memory_type, need.size)?;
    }
    Ok(prepared)
}

/// Why a budget of a memory type that isn't there is refused.
fn no_such_type() -> AllocationError
    ensures { refusal_of result ≡ internal (codes "No such memory type.") None }
{
    AllocationError::Internal(Fault {
        text: "No such memory type.",
        code: None,
    })
}

/// Why a piece of a memory type that isn't there is refused.
fn missing_type() -> AllocationError
    ensures { refusal_of result ≡ internal (codes "Memory block must be Some.") None }
{
    AllocationError::Internal(Fault {
        text: "Memory block must be Some.",
        code: None,
    })
}

impl<H: Copy + Eq> MemoryTypes<H> {
    ghost use Rattle.gpu_core.specs.TypePrepare.{CanInstall};
    ghost use Rattle.gpu_core.specs.TypeTake.{asked};
    ghost use Rattle.gpu_core.specs.Moves.{ProposesMoveAt, NoneAhead};
    ghost use Rattle.gpu_core.specs.TypeState.{slot_at, block_number};
    ghost use Rattle.gpu_core.specs.Slots.{AreSound};
    ghost use Rattle.gpu_block_pieces.specs.Leak.{leak_text};
    ghost use Rattle.gpu_core.specs.declared.piece.Piece.{Piece};
    ghost use Rattle.gpu_core.specs.Apart.{IsInside, AreDistinct, SharesNoByte, KeepsPages};
    ghost use Rattle.gpu_core.specs.Blocks.{slots_at, total_capacity, EachKeepsOneEmptyAtMost};
    ghost use Rattle.gpu_core.specs.Leaks.{all_leaks};
    ghost use Rattle.gpu_core.specs.Live.{IsLiveIn};
    ghost use Rattle.gpu_core.specs.Release.{ReleasesAt, IsReleaseRefusal};
    ghost use Rattle.gpu_block.specs.Said.{said_of, MayStarve};
    ghost use Rattle.gpu_core.specs.Rename.{IsNotNamed, IsNotWorded, IsRelabelled, IsRenamed, IsWorded};
    ghost use Rattle.gpu_core.specs.Reports.{whole_report};
    ghost use Rattle.gpu_core.specs.Requests.{PreparesAt, IsPrepareRefusal, InstallsAt};
    ghost use Rattle.gpu_core.specs.Types.{kinds, slots_of, type_of, MemoryTypesInvariant};
    ghost use Rattle.gpu_core.specs.Budgets.{budgets, budget_at, SetsBudget};

    /// The memory types of a new allocator: none has a block.
    pub fn new(types: Vec<MemoryType<H>>) -> Self
        requires { All (λ slots. slots ≡ []) (slots_of types.items) }
        ensures types { result ≡ types.items }
        ensures kept { MemoryTypesInvariant result }
    {
        MemoryTypes { types, capacity: 0 }
    }

    /// How many memory types there are.
    pub fn count(&self) -> usize
        ensures { result ≡ length self.now }
    {
        self.types.len()
    }

    /// The sum of the sizes of all live blocks, in bytes.
    pub fn capacity(&self) -> u64
        ensures sum { result ≡ total_capacity (slots_of self.now) }
        ensures kept { MemoryTypesInvariant self.now }
    {
        self.capacity
    }

    /// Bounds the sum of the sizes of the live blocks of the memory type at `index`, in bytes; `None` takes the bound away. A
    /// budget below the present sum gives no block back. It takes no memory. `Internal` where there is no such memory type,
    /// and then nothing changes.
    pub fn set_budget(&mut self, index: usize, budget: Option<u64>) -> Result<()>
        ensures budgets { SetsBudget index budget (budgets self.old) (refusal_in result)
            (budgets self.new) }
        ensures found { index < length (slots_of self.old) → IsOk result }
        ensures missing { length (slots_of self.old) ≤ index → IsErr result }
        ensures slots { slots_of self.new ≡ slots_of self.old }
        ensures kinds { kinds self.new ≡ kinds self.old }
        ensures refused { OnErr result (self.new ≡ self.old) }
        ensures kept { MemoryTypesInvariant self.new }
    {
        if index >= self.types.len() {
            return Err(no_such_type());
        }
        self.types[index].set_budget(budget);
        Ok(())
    }

    /// The budget of the memory type at `index`, in bytes; `None` where it has none, or isn't there.
    pub fn budget(&self, index: usize) -> Option<u64>
        ensures { result ≡ budget_at (budgets self.now) index }
    {
        self.types.get(index)?.budget()
    }

    /// Whether a piece of the memory type at `index` is live.
    pub fn is_live(&self, index: usize, piece: &Piece<H>) -> bool
        ensures { IsTrue result ↔ IsLiveIn H.eq (slots_of self.now) index (Some piece.now) }
    {
        match self.types.get(index) {
            None => false,
            Some(memory_type) => memory_type.is_live(piece),
        }
    }

    /// Allocates a piece of the memory type at `index`, which is there, or says which new block is needed for it, as
    /// `MemoryType::prepare` does; no device is asked. `HostOutOfMemory` where the host refused memory; `OutOfMemory` where a new block would carry the sum of all
    /// blocks' sizes past `u64::MAX`, else `BudgetExceeded` where it would carry that of its memory type past its budget;
    /// a refusal leaves the slots as they were.
    pub fn prepare(
        &mut self,
        index: usize,
        request: &Request,
        sizes: &AllocationSizes,
    ) -> Result<Prepared<H>>
        requires there { index < length self.old }
        requires sized { 0 < request.now.size }
        requires aligned { IsTrue (is_power_of_two request.now.alignment) }
        requires piece { request.now.kind ≢ AllocationType.Free }
        ensures prepared { IfOk result (λ p. PreparesAt index self.old sizes.now request.now p
            self.new) }
        ensures cause { IfErr result (λ e. IsPrepareRefusal index self.old sizes.now request.now
            (refusal_of e)) }
        ensures refused { OnErr result (slots_of self.new ≡ slots_of self.old) }
        ensures others { (t : ℕ) → t ≢ index → type_of self.new t ≡ type_of self.old t }
        ensures kinds { kinds self.new ≡ kinds self.old }
        ensures budgets { budgets self.new ≡ budgets self.old }
        ensures kept { MemoryTypesInvariant self.new }
    {
        let used = self.capacity();
        let memory_type = &mut self.types[index];
        let prepared = memory_type.prepare(request, sizes)?;
        within_limits(used, memory_type, prepared)
    }

    /// Puts in the block that `prepare` asked for, under the driver's handle of it, and answers the piece in it. It
    /// takes no memory and can't be refused.
    pub fn install(&mut self, index: usize, need: NeedBlock, handle: H) -> Piece<H>
        requires there { index < length self.old }
        requires ready { CanInstall (type_of self.old index) need.size need.dedicated need.room }
        requires sum { total_capacity (slots_of self.old) + need.size < 2 ^ 64 }
        ensures installed { InstallsAt index (slots_of self.old) need.dedicated need.room handle
            result (slots_of self.new) }
        ensures others { (t : ℕ) → t ≢ index → type_of self.new t ≡ type_of self.old t }
        ensures kinds { kinds self.new ≡ kinds self.old }
        ensures budgets { budgets self.new ≡ budgets self.old }
        ensures kept { MemoryTypesInvariant self.new }
    {
        self.capacity += need.size;
        self.types[index].install(need, handle)
    }

    /// A second place for a piece of the memory type at `index`, which is there, as `MemoryType::propose_move` has it.
    pub fn propose_move(
        &mut self,
        index: usize,
        piece: &Piece<H>,
        request: &Request,
    ) -> Result<Option<Piece<H>>>
        requires there { index < length self.old }
        requires sized { 0 < request.now.size }
        requires aligned { IsTrue (is_power_of_two request.now.alignment) }
        requires piece { request.now.kind ≢ AllocationType.Free }
        ensures proposed { IfOk result (λ o. IfSome o (λ to. ProposesMoveAt index (slots_of self.old)
            (asked request.now) piece.now to (slots_of self.new))) }
        ensures none { IfOk result (λ o. IsNone o
            → NoneAhead (slots_at (slots_of self.old) index) (asked request.now) piece.now.slot
            × (slots_of self.new ≡ slots_of self.old)) }
        ensures cause { IfErr result (λ e. e ≡ HostOutOfMemory) }
        ensures refused { OnErr result (slots_of self.new ≡ slots_of self.old) }
        ensures others { (t : ℕ) → t ≢ index → type_of self.new t ≡ type_of self.old t }
        ensures kinds { kinds self.new ≡ kinds self.old }
        ensures budgets { budgets self.new ≡ budgets self.old }
        ensures kept { MemoryTypesInvariant self.new }
    {
        self.types[index].propose_move(piece, request)
    }

    /// Frees a piece of the memory type at `index`, and names the block that went with it, if one did. It takes no
    /// memory. `Internal` where the piece isn't live, and then nothing changes.
    pub fn free(&mut self, index: usize, piece: &Piece<H>) -> Result<Option<H>>
        ensures released { IfOk result (λ went. ReleasesAt index piece.now (slots_of self.old) went
            (slots_of self.new)) }
        ensures live { OnOk result (IsLiveIn H.eq (slots_of self.old) index (Some piece.now)) }
        ensures dead { OnErr result (IsLiveIn H.eq (slots_of self.old) index (Some piece.now) → ⊥) }
        ensures cause { IfErr result (λ e. IsReleaseRefusal H.eq index (slots_of self.old) piece.now
            (refusal_of e)) }
        ensures refused { OnErr result (self.new ≡ self.old) }
        ensures others { (t : ℕ) → t ≢ index → type_of self.new t ≡ type_of self.old t }
        ensures kinds { kinds self.new ≡ kinds self.old }
        ensures budgets { budgets self.new ≡ budgets self.old }
        ensures kept { MemoryTypesInvariant self.new }
    {
        if index >= self.types.len() {
            return Err(missing_type());
        }
        let its_type = &mut self.types[index];
        let before = its_type.capacity();
        let freed = its_type.free(piece);
        let after = its_type.capacity();
        self.capacity -= before - after;
        freed
    }

    /// Renames a piece of the memory type at `index`. `Internal` where the piece isn't live, else
    /// `HostOutOfMemory` where the host refused memory; then nothing changes.
    pub fn rename(&mut self, index: usize, piece: &Piece<H>, name: &str) -> Result<()>
        ensures renamed { OnOk result (IsRenamed H.eq index piece.now name.now (slots_of self.old)
            (slots_of self.new)) }
        ensures cause { IfErr result (λ e. IsNotNamed H.eq (slots_at (slots_of self.old) index)
            piece.now (refusal_of e)) }
        ensures refused { OnErr result (self.new ≡ self.old) }
        ensures others { (t : ℕ) → t ≢ index → type_of self.new t ≡ type_of self.old t }
        ensures kinds { kinds self.new ≡ kinds self.old }
        ensures budgets { budgets self.new ≡ budgets self.old }
        ensures kept { MemoryTypesInvariant self.new }
    {
        self.relabel(index, piece, Said::Name(name))
    }

    /// Keeps another word of the caller's with a piece of the memory type at `index`. `Internal` where the piece isn't live; then nothing
    /// changes. It takes no memory.
    pub fn set_word(&mut self, index: usize, piece: &Piece<H>, word: u64) -> Result<()>
        ensures set { OnOk result (IsWorded H.eq index piece.now word (slots_of self.old)
            (slots_of self.new)) }
        ensures cause { IfErr result (λ e. IsNotWorded H.eq (slots_at (slots_of self.old) index)
            piece.now (refusal_of e)) }
        ensures refused { OnErr result (self.new ≡ self.old) }
        ensures others { (t : ℕ) → t ≢ index → type_of self.new t ≡ type_of self.old t }
        ensures kinds { kinds self.new ≡ kinds self.old }
        ensures budgets { budgets self.new ≡ budgets self.old }
        ensures kept { MemoryTypesInvariant self.new }
    {
        self.relabel(index, piece, Said::Word(word))
    }

    /// Gives a piece another name or word: what `rename` and `set_word` share.
    fn relabel(&mut self, index: usize, piece: &Piece<H>, said: Said<'_>) -> Result<()>
        ensures renamed { OnOk result (IsRelabelled H.eq index piece.now (said_of said.entry) (slots_of self.old)
            (slots_of self.new)) }
        ensures cause { IfErr result (λ e. IsNotNamed H.eq (slots_at (slots_of self.old) index)
            piece.now (refusal_of e)) }
        ensures no_memory { IfErr result (λ e. e ≡ HostOutOfMemory → MayStarve (said_of said.entry)) }
        ensures refused { OnErr result (self.new ≡ self.old) }
        ensures others { (t : ℕ) → t ≢ index → type_of self.new t ≡ type_of self.old t }
        ensures kinds { kinds self.new ≡ kinds self.old }
        ensures budgets { budgets self.new ≡ budgets self.old }
        ensures kept { MemoryTypesInvariant self.new }
    {
        if index >= self.types.len() {
            return Err(missing_type());
        }
        self.types[index].relabel(piece, said)
    }

    /// What holds of live pieces at any time, for callers' proofs: each lies inside its block, no two share a byte, those of
    /// different kinds share no page of their memory type, and at most one block of a memory type has none. It does nothing.
    pub fn pieces_are_apart(&self)
        ensures inside { (t : ℕ) (p : Piece H) → IsLiveIn H.eq (slots_of self.now) t (Some p)
            → IsInside (slots_of self.now) t p }
        ensures apart { (t : ℕ) (p : Piece H) (u : ℕ) (q : Piece H)
            → IsLiveIn H.eq (slots_of self.now) t (Some p)
            → IsLiveIn H.eq (slots_of self.now) u (Some q) → AreDistinct t p u q
            → SharesNoByte t p u q }
        ensures pages { (t : ℕ) (p q : Piece H) → IsLiveIn H.eq (slots_of self.now) t (Some p)
            → IsLiveIn H.eq (slots_of self.now) t (Some q)
            → KeepsPages (type_of self.now t).granularity (slots_of self.now) t p q }
        ensures empty { EachKeepsOneEmptyAtMost (slots_of self.now) }
    {
        let _ = &self.types;
    }

    /// The memory type at `index`, lent to be looked at; `None` where it isn't there.
    pub fn memory_type(&self, index: usize) -> Option<&MemoryType<H>>
        ensures { option_map (λ t. t.now) result ≡ slice_get self.now index }
    {
        let types = &self.types;
        types.get(index)
    }

    /// How many slots the memory type at `index` has, the empty ones included; none where it isn't there.
    pub fn slots(&self, index: usize) -> usize
        ensures { result ≡ length (slots_at (slots_of self.now) index) }
    {
        match self.types.get(index) {
            None => 0,
            Some(memory_type) => memory_type.slots(),
        }
    }

    /// The device's number of the block in a slot of the memory type at `index`, or `None` where there is none.
    pub fn block(&self, index: usize, slot: usize) -> Option<H>
        ensures { result ≡ block_number (slot_at (slots_at (slots_of self.now) index) slot) }
    {
        match self.types.get(index) {
            None => None,
            Some(memory_type) => memory_type.block(slot),
        }
    }

    /// What is allocated: the live blocks and pieces by memory type, then by slot, pieces by offset, and the sums of
    /// both. The only refusal is `HostOutOfMemory`.
    pub fn report(&self, alloc: Global) -> Result<AllocatorReport>
        ensures report { IfOk result (λ r. report_of r ≡ whole_report (slots_of self.now)) }
        ensures cause { IfErr result (λ e. e ≡ HostOutOfMemory) }
    {
        report_of(alloc, &self.types)
    }

    /// The live pieces by memory type, then by slot, then in order of offset. It takes no memory.
    pub fn leaks(&self) -> AllLeaks<'_, H>
        ensures { result ≡ all_leaks (slots_of self.now) }
    {
        all_leaks(&self.types)
    }

    /// The texts of all live pieces in the same order. The only refusal is `HostOutOfMemory`.
    pub fn leak_texts(&self, alloc: Global) -> Result<Vec<String>>
        ensures texts { IfOk result (λ v. map string_bytes v.items
            ≡ map leak_text (all_leaks (slots_of self.now))) }
        ensures cause { IfErr result (λ e. e ≡ HostOutOfMemory) }
    {
        texts_of(alloc, self.leaks())
    }
}
