//! What lies behind a handle of a virtual block: numbers alone, with no memory of a device.

ghost use Rattle.std.specs.Prelude.{◌≡◌, ◌≢◌, ◌<◌, ◌↔◌, MatchOption, [], ◌∷◌, IfOk, IfErr, IsTrue, IsUtf8};
ghost use Rattle.std.specs.Int.NonZero.{non_zero_u64_get};
ghost use Rattle.gpu_values.specs.declared.error.AllocationError.TheVariants.{OutOfMemory, HostOutOfMemory};
ghost use Rattle.gpu_block.specs.Block.{extents_of};
ghost use Rattle.gpu_c.specs.Status as status;
ghost use Rattle.gpu_c.specs.Request.{IsRequestServed};
ghost use Rattle.gpu_c.specs.Status.{IsOneOf};
ghost use Rattle.gpu_c.specs.VirtualBlock.{CanCreate, fresh_virtual_block, IsLivePiece, IsRefusedFor, BlockAllocates, BlockFrees, NamesPiece, SetsWord, cleared, counts_of};
ghost use Rattle.gpu_c.specs.Visit.{piece_view, piece_from, pieces_from, ShowsPieces, ShowsNames, ShowsName};
ghost use Rattle.gpu_c.specs.declared.status.TheConstants.{OK, OUT_OF_MEMORY, INVALID, NOT_LIVE, HOST_OUT_OF_MEMORY};

use crate::request::served;
use crate::status::{HOST_OUT_OF_MEMORY, INVALID, NOT_LIVE, OK, status_of};
use crate::virtual_block_values::{PieceView, VirtualPiece, VirtualRequest, VirtualStatistics};
use crate::visit::{fill_from, first_from, name_from, names_from};
use gpu_block::{FreeListAllocator, SubAllocator};
use gpu_values::Result;
use std::alloc::Global;
use std::marker::Model;
use std::num::NonZeroU64;

/// A block that is cut into pieces, and its page size in bytes.
#[derive(Drop)]
pub struct VirtualBlock {
    sub: SubAllocator,
    granularity: u64,
}

impl Model for VirtualBlock {
    ghost use Rattle.gpu_block.specs.SubAllocator.{block_of};
    ghost use Rattle.gpu_block.specs.Block.{Block};
    ghost use Rattle.gpu_c.specs.VirtualBlock.{IsCut};

    ghost Value = { Block };

    ghost view = { λ b. block_of b.sub };

    ghost invariant = { λ b. IsCut (block_of b.sub) b.granularity };
}

impl VirtualBlock {
    /// One gap of `size` bytes. The only refusal is `HostOutOfMemory`.
    pub fn new(alloc: Global, size: u64, granularity: u64) -> Result<VirtualBlock>
        requires { CanCreate size granularity }
        ensures fresh { IfOk result (λ b. b ≡ fresh_virtual_block size granularity) }
        ensures cause { IfErr result (λ e. e ≡ HostOutOfMemory) }
    {
        match FreeListAllocator::new(alloc, size, granularity) {
            Ok(list) => Ok(VirtualBlock {
                sub: SubAllocator::FreeList(list),
                granularity,
            }),
            Err(error) => Err(error),
        }
    }

    /// Allocates a piece.
    pub fn allocate(
        &mut self,
        wanted: &VirtualRequest,
        name: &[u8],
        piece: &mut VirtualPiece,
    ) -> u32
        ensures allocated { result ≡ status.ok
            → BlockAllocates self.old wanted.now name.now piece.new self.new }
        ensures invalid { (result ≡ status.invalid)
            ↔ (IsRequestServed wanted.now.size wanted.now.alignment wanted.now.kind name.now → ⊥) }
        ensures out_of_memory { result ≡ status.out_of_memory
            → IsRefusedFor self.old wanted.now name.now OutOfMemory }
        ensures host_out_of_memory { result ≡ status.host_out_of_memory
            → IsRefusedFor self.old wanted.now name.now HostOutOfMemory }
        ensures statuses { IsOneOf result
            (status.ok ∷ status.invalid ∷ status.out_of_memory ∷ status.host_out_of_memory ∷ []) }
        ensures refused { result ≢ status.ok → (self.new ≡ self.old) × (piece.new ≡ piece.old) }
    {
        let Some((kind, name)) = served(wanted.size, wanted.alignment, wanted.kind, name) else {
            return INVALID;
        };
        match self.sub.allocate(wanted.size, wanted.alignment, kind, self.granularity, name) {
            Err(error) => status_of(&error),
            Ok((offset, number)) => {
                *piece = VirtualPiece {
                    offset,
                    number: number.get(),
                };
                OK
            }
        }
    }

    /// The number of a live piece, as the block knows it.
    fn number_of(&self, piece: &VirtualPiece) -> Option<NonZeroU64>
        ensures { MatchOption result (IsLivePiece self.now piece.now → ⊥)
            (λ n. IsLivePiece self.now piece.now × (non_zero_u64_get n ≡ piece.now.number)) }
    {
        match NonZeroU64::new(piece.number) {
            None => None,
            Some(number) => match self.sub.place_of(number) {
                None => None,
                Some((offset, _size)) => {
                    if offset == piece.offset {
                        Some(number)
                    } else {
                        None
                    }
                }
            },
        }
    }

    /// Frees a piece.
    pub fn free(&mut self, piece: &VirtualPiece) -> u32
        ensures freed { result ≡ status.ok → BlockFrees self.old piece.now self.new }
        ensures not_live { (result ≡ status.not_live) ↔ (IsLivePiece self.old piece.now → ⊥) }
        ensures statuses { IsOneOf result (status.ok ∷ status.not_live ∷ []) }
        ensures refused { result ≢ status.ok → self.new ≡ self.old }
    {
        match self.number_of(piece) {
            None => NOT_LIVE,
            Some(number) => match self.sub.free(Some(number)) {
                Err(_) => NOT_LIVE,
                Ok(_) => OK,
            },
        }
    }

    /// Renames a piece.
    pub fn rename(&mut self, piece: &VirtualPiece, name: &[u8]) -> u32
        ensures renamed { result ≡ status.ok
            → IsUtf8 name.now × NamesPiece self.old piece.now name.now self.new }
        ensures invalid { (result ≡ status.invalid) ↔ (IsUtf8 name.now → ⊥) }
        ensures not_live { (result ≡ status.not_live)
            ↔ IsUtf8 name.now × (IsLivePiece self.old piece.now → ⊥) }
        ensures host_out_of_memory { result ≡ status.host_out_of_memory
            → IsUtf8 name.now × IsLivePiece self.old piece.now }
        ensures statuses { IsOneOf result
            (status.ok ∷ status.invalid ∷ status.not_live ∷ status.host_out_of_memory ∷ []) }
        ensures refused { result ≢ status.ok → self.new ≡ self.old }
    {
        let Ok(name) = str::from_utf8(name) else {
            return INVALID;
        };
        match self.number_of(piece) {
            None => NOT_LIVE,
            Some(number) => match self.sub.rename_allocation(Some(number), name) {
                Err(_) => HOST_OUT_OF_MEMORY,
                Ok(_) => OK,
            },
        }
    }

    /// Keeps another word of the caller's with a piece.
    pub fn set_word(&mut self, piece: &VirtualPiece, word: u64) -> u32
        ensures set { result ≡ status.ok → SetsWord self.old piece.now word self.new }
        ensures not_live { (result ≡ status.not_live) ↔ (IsLivePiece self.old piece.now → ⊥) }
        ensures statuses { IsOneOf result (status.ok ∷ status.not_live ∷ []) }
        ensures refused { result ≢ status.ok → self.new ≡ self.old }
    {
        let Some(number) = self.number_of(piece) else {
            return NOT_LIVE;
        };
        if self.sub.set_word(Some(number), word).is_err() {
            return NOT_LIVE;
        }
        OK
    }

    /// Frees all pieces.
    pub fn clear(&mut self, alloc: Global) -> u32
        ensures emptied { result ≡ status.ok → self.new ≡ cleared self.old }
        ensures statuses { IsOneOf result (status.ok ∷ status.host_out_of_memory ∷ []) }
        ensures refused { result ≢ status.ok → self.new ≡ self.old }
    {
        match VirtualBlock::new(alloc, self.sub.size(), self.granularity) {
            Err(_) => HOST_OUT_OF_MEMORY,
            Ok(fresh) => {
                *self = fresh;
                OK
            }
        }
    }

    /// What is counted of the block.
    pub fn statistics(&self) -> VirtualStatistics
        ensures { result ≡ counts_of self.now }
    {
        let counted = self.sub.statistics();
        VirtualStatistics {
            size: self.sub.size(),
            pieces: counted.pieces,
            piece_bytes: counted.piece_bytes,
            gaps: counted.gaps,
            longest_gap: counted.longest_gap,
        }
    }

    /// The first piece whose own bytes begin at `from` or behind it.
    pub fn next_piece(&self, from: u64) -> PieceView
        ensures { result ≡ piece_view (piece_from from (extents_of self.now)) }
    {
        first_from(self.sub.pieces(), from)
    }

    /// Fills an array with the pieces whose own bytes begin at `from` or behind it, as far as it has room, and returns how many it shows.
    pub fn pieces(&self, from: u64, views: &mut [PieceView]) -> usize
        ensures { ShowsPieces (pieces_from from (extents_of self.now)) views.old views.new result }
    {
        fill_from(self.sub.pieces(), from, views)
    }

    /// Copies the name of the piece that `next_piece` shows, as much as there is room for, and returns its whole length.
    pub fn piece_name(&self, from: u64, name: &mut [u8]) -> usize
        ensures { ShowsName (piece_from from (extents_of self.now)) name.old name.new result }
    {
        name_from(self.sub.pieces(), from, name)
    }

    /// Fills an array with the lengths of the names of the pieces that `pieces` shows, and a buffer with these names one after another, as
    /// far as each has room; returns how many lengths there are.
    pub fn piece_names(&self, from: u64, lengths: &mut [usize], names: &mut [u8]) -> usize
        ensures { ShowsNames (pieces_from from (extents_of self.now)) lengths.old lengths.new
            names.old names.new result }
    {
        names_from(self.sub.pieces(), from, lengths, names)
    }
}
