//! One slot of a memory type.

ghost use Rattle.std.specs.Prelude.{◌≡◌, ℕ, ◌<◌, ◌+◌, Some, IfOk, OnOk, IfErr, OnErr, IsTrue};
ghost use Rattle.std.specs.Option.{option_map};
ghost use Rattle.std.specs.Int.NonZero.{non_zero_u64_get};
ghost use Rattle.gpu_values.specs.declared.error.AllocationError.TheVariants.{HostOutOfMemory};
ghost use Rattle.gpu_values.specs.Refusal.{refusal_of};
ghost use Rattle.gpu_block.specs.Said.{said_of, MayStarve};
ghost use Rattle.gpu_block.specs.SubAllocator.{block_of};
ghost use Rattle.gpu_block.specs.Block.{IsSoundBlock, HasPages, HasPagesApart, ReleasesIn};
ghost use Rattle.gpu_core.specs.TypeState.{slot_size, shared_in};
ghost use Rattle.gpu_core.specs.TypeRelease.{SlotHolds, IsFreeRefusal, IsNameRefusal, SlotReleases, SlotRelabels};
ghost use Rattle.gpu_core.specs.Slots.{slot_of, Bounds, vacancies, SlotIsSound, Finds, Settles, released_handle, released_size, released_shared};

use crate::Piece;
use gpu_block::{Said, SubAllocator};
use gpu_values::{Result, internal_fault};

/// A live block: the driver's handle of it, and its pieces.
#[derive(Drop)]
pub struct LiveBlock<H> {
    pub handle: H,
    pub sub: SubAllocator,
}

/// The bytes up to which a slot may serve requests: those of its shared block's longest gap, and 0 where it has none.
pub fn longest_in<H>(slot: &Option<LiveBlock<H>>) -> u64
    ensures { Bounds result (option_map slot_of slot.now) }
{
    match slot {
        Some(block) if block.sub.supports_general_allocations() => block.sub.longest_gap(),
        _ => 0,
    }
}

/// How many blocks a slot has a place for: 1 where it is empty.
pub fn vacancies<H>(slot: &Option<LiveBlock<H>>) -> u64
    ensures { result ≡ vacancies (option_map slot_of slot.now) }
{
    match slot {
        Some(_) => 0,
        None => 1,
    }
}

/// What a look for a piece finds in a block.
#[derive(Clone, Copy)]
pub enum Finding {
    /// The piece's own record.
    Piece,
    /// Another record under its number.
    Other,
    /// Nothing under its number.
    Nothing,
}

/// Looks for a piece.
pub fn find<H: Copy + Eq>(block: &LiveBlock<H>, piece: &Piece<H>) -> Finding
    requires { IsSoundBlock (block_of block.now.sub) }
    ensures { Finds H.eq piece.now (slot_of block.now) result }
{
    let Some((offset, size)) = block.sub.place_of(piece.chunk_id) else {
        return Finding::Nothing;
    };
    if offset != piece.offset || size != piece.size {
        return Finding::Other;
    }
    if block.handle == piece.handle {
        Finding::Piece
    } else {
        Finding::Other
    }
}

/// A block that went: the driver's handle of it, its size in bytes, and whether it was shared.
#[derive(Drop)]
pub struct ReleasedBlock<H> {
    pub handle: H,
    pub size: u64,
    pub is_shared: bool,
}

/// Gives the block of a slot up where it is empty and dedicated, or empty and one of several shared ones.
fn settle<H: Copy>(slot: &mut Option<LiveBlock<H>>, several: bool) -> Option<ReleasedBlock<H>>
    ensures settled { Settles (IsTrue several) (option_map slot_of slot.old)
        (released_handle result) (option_map slot_of slot.new) }
    ensures size { slot_size (option_map slot_of slot.new) + released_size result
        ≡ slot_size (option_map slot_of slot.old) }
    ensures shared { shared_in (option_map slot_of slot.new) + released_shared result
        ≡ shared_in (option_map slot_of slot.old) }
{
    if let Some(block) = slot {
        let is_shared = block.sub.supports_general_allocations();
        if block.sub.is_empty() && (several || !is_shared) {
            let gone = ReleasedBlock {
                handle: block.handle,
                size: block.sub.size(),
                is_shared,
            };
            *slot = None;
            return Some(gone);
        }
    }
    None
}

/// Frees a piece of its block. It takes no memory; a refusal leaves the block as it was.
fn free_piece<H: Copy + Eq>(block: &mut LiveBlock<H>, piece: &Piece<H>) -> Result<()>
    requires { IsSoundBlock (block_of block.old.sub) }
    ensures released { OnOk result (ReleasesIn (block_of block.old.sub)
        (non_zero_u64_get piece.now.chunk_id) (block_of block.new.sub)) }
    ensures live { OnOk result (SlotHolds H.eq piece.now (Some (slot_of block.old))) }
    ensures cause { IfErr result (λ e. IsFreeRefusal H.eq piece.now (Some (slot_of block.old))
        (refusal_of e)) }
    ensures refused { OnErr result (slot_of block.new ≡ slot_of block.old) }
    ensures handle { block.new.handle ≡ block.old.handle }
    ensures pages { (g : ℕ) → HasPages (block_of block.old.sub) g
        → HasPages (block_of block.new.sub) g }
    ensures sound { IsSoundBlock (block_of block.new.sub) }
    ensures separated { OnOk result (HasPagesApart (block_of block.new.sub)) }
{
    match find(block, piece) {
        Finding::Other => Err(internal_fault("Allocation does not belong to this allocator.")),
        _ => block.sub.free(Some(piece.chunk_id)),
    }
}

/// Frees a piece. It takes no memory; a refusal leaves the slot as it was.
pub fn release<H: Copy + Eq>(
    slot: &mut Option<LiveBlock<H>>,
    piece: &Piece<H>,
    several: bool,
) -> Result<Option<ReleasedBlock<H>>>
    requires { (g : ℕ) × SlotIsSound g (option_map slot_of slot.old) }
    ensures released { IfOk result (λ went. SlotReleases (IsTrue several)
        (non_zero_u64_get piece.now.chunk_id) (option_map slot_of slot.old) (released_handle went)
        (option_map slot_of slot.new)) }
    ensures live { OnOk result (SlotHolds H.eq piece.now (option_map slot_of slot.old)) }
    ensures size { IfOk result (λ went. slot_size (option_map slot_of slot.new) + released_size went
        ≡ slot_size (option_map slot_of slot.old)) }
    ensures shared { IfOk result (λ went. shared_in (option_map slot_of slot.new) + released_shared
        went ≡ shared_in (option_map slot_of slot.old)) }
    ensures cause { IfErr result (λ e. IsFreeRefusal H.eq piece.now (option_map slot_of slot.old)
        (refusal_of e)) }
    ensures refused { OnErr result (option_map slot_of slot.new ≡ option_map slot_of slot.old) }
    ensures kept { (g : ℕ) → SlotIsSound g (option_map slot_of slot.old)
        → SlotIsSound g (option_map slot_of slot.new) }
{
    match slot {
        None => Err(internal_fault("Memory block must be Some.")),
        Some(block) => match free_piece(block, piece) {
            Err(error) => Err(error),
            Ok(()) => Ok(settle(slot, several)),
        },
    }
}

/// Gives a piece another name or word. A refusal leaves the slot as it was.
pub fn relabel<H: Copy + Eq>(
    slot: &mut Option<LiveBlock<H>>,
    piece: &Piece<H>,
    said: Said<'_>,
) -> Result<()>
    requires { (g : ℕ) × SlotIsSound g (option_map slot_of slot.old) }
    ensures renamed { OnOk result (SlotRelabels (non_zero_u64_get piece.now.chunk_id)
        (said_of said.entry) (option_map slot_of slot.old) (option_map slot_of slot.new)) }
    ensures live { OnOk result (SlotHolds H.eq piece.now (option_map slot_of slot.old)) }
    ensures starved { IfErr result (λ e. e ≡ HostOutOfMemory
        → SlotHolds H.eq piece.now (option_map slot_of slot.old)) }
    ensures no_memory { IfErr result (λ e. e ≡ HostOutOfMemory → MayStarve (said_of said.entry)) }
    ensures cause { IfErr result (λ e. IsNameRefusal H.eq piece.now (option_map slot_of slot.old)
        (refusal_of e)) }
    ensures refused { OnErr result (option_map slot_of slot.new ≡ option_map slot_of slot.old) }
    ensures kept { (g : ℕ) → SlotIsSound g (option_map slot_of slot.old)
        → SlotIsSound g (option_map slot_of slot.new) }
{
    match slot {
        None => Err(internal_fault("Memory block must be Some.")),
        Some(block) => match find(block, piece) {
            Finding::Other => Err(internal_fault("Allocation does not belong to this allocator.")),
            _ => block.sub.relabel(Some(piece.chunk_id), said),
        },
    }
}
