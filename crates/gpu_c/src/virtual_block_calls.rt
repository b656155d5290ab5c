//! Virtual blocks for C. A handle begins zeroed; create fills it and destroy leaves it zeroed. Each call on an empty handle returns
//! `NO_HANDLE`, and any status but `OK` leaves everything as it was.

ghost use Rattle.std.specs.Prelude.{◌≡◌, ◌≢◌, ◌↔◌, [], ◌∷◌, Some, None, IsSome, IsSomeAnd, IsUtf8};
ghost use Rattle.gpu_values.specs.declared.error.AllocationError.TheVariants.{OutOfMemory, HostOutOfMemory};
ghost use Rattle.gpu_block.specs.Block.{extents_of};
ghost use Rattle.gpu_c.specs.Handle.{Changes};
ghost use Rattle.gpu_c.specs.Status as status;
ghost use Rattle.gpu_c.specs.Request.{IsRequestServed};
ghost use Rattle.gpu_c.specs.Status.{IsOneOf};
ghost use Rattle.gpu_c.specs.VirtualBlock.{CanCreate, fresh_virtual_block, IsLivePiece, IsRefusedFor, BlockAllocates, BlockFrees, NamesPiece, SetsWord, cleared, counts_of};
ghost use Rattle.gpu_c.specs.Visit.{piece_view, piece_from, pieces_from, ShowsPieces, ShowsNames, ShowsName};
ghost use Rattle.gpu_c.specs.declared.status.TheConstants.{OK, OUT_OF_MEMORY, INVALID, NOT_LIVE, HOST_OUT_OF_MEMORY, NO_HANDLE, IN_USE};

use crate::status::{HOST_OUT_OF_MEMORY, IN_USE, INVALID, NO_HANDLE, OK};
use crate::virtual_block::VirtualBlock;
use crate::virtual_block_handle::VirtualBlockHandle;
use crate::virtual_block_values::{PieceView, VirtualPiece, VirtualRequest, VirtualStatistics};
use std::alloc::Global;

/// A new block in an empty handle.
fn create(block: &mut VirtualBlockHandle, alloc: Global, size: u64, granularity: u64) -> u32
    requires empty { block.old.value ≡ None }
    requires valid { CanCreate size granularity }
    ensures created { result ≡ status.ok
        → block.new.value ≡ Some (fresh_virtual_block size granularity) }
    ensures statuses { IsOneOf result (status.ok ∷ status.host_out_of_memory ∷ []) }
    ensures refused { result ≢ status.ok → block.new.value ≡ None }
{
    match VirtualBlock::new(alloc, size, granularity) {
        Err(_) => HOST_OUT_OF_MEMORY,
        Ok(fresh) => match Box::new(alloc, fresh) {
            Err(_) => HOST_OUT_OF_MEMORY,
            Ok(fresh) => {
                block.put(fresh);
                OK
            }
        },
    }
}

/// Makes a block of `size` bytes, not 0, in an empty handle. `granularity` is its page size in bytes, a power of two: pieces of
/// different kinds share no page. `IN_USE` where the handle isn't empty, else `INVALID`, else `HOST_OUT_OF_MEMORY`.
#[unsafe(no_mangle)]
pub extern "C" fn pilhangko_raw_virtual_block_create(
    block: &mut VirtualBlockHandle,
    alloc: Global,
    size: u64,
    granularity: u64,
) -> u32
    ensures created { result ≡ status.ok → (block.old.value ≡ None) × CanCreate size granularity
        × (block.new.value ≡ Some (fresh_virtual_block size granularity)) }
    ensures in_use { (result ≡ status.in_use) ↔ (block.old.value ≢ None) }
    ensures invalid { (result ≡ status.invalid)
        ↔ (block.old.value ≡ None) × (CanCreate size granularity → ⊥) }
    ensures host_out_of_memory { result ≡ status.host_out_of_memory
        → (block.old.value ≡ None) × CanCreate size granularity }
    ensures statuses { IsOneOf result (status.ok ∷ status.in_use ∷ status.invalid
        ∷ status.host_out_of_memory ∷ []) }
    ensures refused { result ≢ status.ok → block.new.value ≡ block.old.value }
{
    if let Some(kept) = block.take(alloc) {
        block.put(kept);
        return IN_USE;
    }
    if size == 0 {
        return INVALID;
    }
    if !granularity.is_power_of_two() {
        return INVALID;
    }
    create(block, alloc, size, granularity)
}

/// Allocates the least place for the request in the shortest gap that it fits in. `INVALID` where the request is none that is served,
/// else `OUT_OF_MEMORY` where no gap has a place, else `HOST_OUT_OF_MEMORY` where the host refused memory.
#[unsafe(no_mangle)]
pub extern "C" fn pilhangko_raw_virtual_block_allocate(
    block: &mut VirtualBlockHandle,
    alloc: Global,
    request: &VirtualRequest,
    name: &[u8],
    piece: &mut VirtualPiece,
) -> u32
    ensures allocated { result ≡ status.ok → Changes block.old.value block.new.value
        (λ old new. BlockAllocates old request.now name.now piece.new new) }
    ensures no_handle { (result ≡ status.no_handle) ↔ (block.old.value ≡ None) }
    ensures invalid { (result ≡ status.invalid) ↔ IsSomeAnd block.old.value
        (λ _. IsRequestServed request.now.size request.now.alignment request.now.kind name.now → ⊥) }
    ensures out_of_memory { result ≡ status.out_of_memory → IsSomeAnd block.old.value
        (λ b. IsRefusedFor b request.now name.now OutOfMemory) }
    ensures host_out_of_memory { result ≡ status.host_out_of_memory → IsSomeAnd block.old.value
        (λ b. IsRefusedFor b request.now name.now HostOutOfMemory) }
    ensures statuses { IsOneOf result (status.ok ∷ status.no_handle ∷ status.invalid
        ∷ status.out_of_memory ∷ status.host_out_of_memory ∷ []) }
    ensures refused { result ≢ status.ok
        → (block.new.value ≡ block.old.value) × (piece.new ≡ piece.old) }
{
    match block.take(alloc) {
        None => NO_HANDLE,
        Some(mut kept) => {
            let status = kept.allocate(request, name, piece);
            block.put(kept);
            status
        }
    }
}

/// Frees a live piece; its place joins the gaps beside it. It takes no host memory. `NOT_LIVE` where no live piece has that number
/// and offset.
#[unsafe(no_mangle)]
pub extern "C" fn pilhangko_raw_virtual_block_free(
    block: &mut VirtualBlockHandle,
    alloc: Global,
    piece: &VirtualPiece,
) -> u32
    ensures freed { result ≡ status.ok → Changes block.old.value block.new.value
        (λ old new. BlockFrees old piece.now new) }
    ensures no_handle { (result ≡ status.no_handle) ↔ (block.old.value ≡ None) }
    ensures not_live { (result ≡ status.not_live)
        ↔ IsSomeAnd block.old.value (λ b. IsLivePiece b piece.now → ⊥) }
    ensures statuses { IsOneOf result (status.ok ∷ status.no_handle ∷ status.not_live ∷ []) }
    ensures refused { result ≢ status.ok → block.new.value ≡ block.old.value }
{
    match block.take(alloc) {
        None => NO_HANDLE,
        Some(mut kept) => {
            let status = kept.free(piece);
            block.put(kept);
            status
        }
    }
}

/// Renames a live piece. `INVALID` where the name isn't UTF-8, else `NOT_LIVE`, else `HOST_OUT_OF_MEMORY`.
#[unsafe(no_mangle)]
pub extern "C" fn pilhangko_raw_virtual_block_rename(
    block: &mut VirtualBlockHandle,
    alloc: Global,
    piece: &VirtualPiece,
    name: &[u8],
) -> u32
    ensures renamed { result ≡ status.ok
        → IsUtf8 name.now × Changes block.old.value block.new.value
        (λ old new. NamesPiece old piece.now name.now new) }
    ensures no_handle { (result ≡ status.no_handle) ↔ (block.old.value ≡ None) }
    ensures invalid { (result ≡ status.invalid)
        ↔ IsSomeAnd block.old.value (λ _. IsUtf8 name.now → ⊥) }
    ensures not_live { (result ≡ status.not_live)
        ↔ IsSomeAnd block.old.value (λ b. IsUtf8 name.now × (IsLivePiece b piece.now → ⊥)) }
    ensures host_out_of_memory { result ≡ status.host_out_of_memory
        → IsSomeAnd block.old.value (λ b. IsUtf8 name.now × IsLivePiece b piece.now) }
    ensures statuses { IsOneOf result (status.ok ∷ status.no_handle ∷ status.invalid
        ∷ status.not_live ∷ status.host_out_of_memory ∷ []) }
    ensures refused { result ≢ status.ok → block.new.value ≡ block.old.value }
{
    match block.take(alloc) {
        None => NO_HANDLE,
        Some(mut kept) => {
            let status = kept.rename(piece, name);
            block.put(kept);
            status
        }
    }
}

/// Keeps another word of the caller's with a live piece, the address of an object, say, which visits show; a new piece has the word 0.
/// `NOT_LIVE` where the piece is none.
#[unsafe(no_mangle)]
pub extern "C" fn pilhangko_raw_virtual_block_set_word(
    block: &mut VirtualBlockHandle,
    alloc: Global,
    piece: &VirtualPiece,
    word: u64,
) -> u32
    ensures set { result ≡ status.ok → Changes block.old.value block.new.value
        (λ old new. SetsWord old piece.now word new) }
    ensures no_handle { (result ≡ status.no_handle) ↔ (block.old.value ≡ None) }
    ensures not_live { (result ≡ status.not_live)
        ↔ IsSomeAnd block.old.value (λ b. IsLivePiece b piece.now → ⊥) }
    ensures statuses { IsOneOf result (status.ok ∷ status.no_handle ∷ status.not_live ∷ []) }
    ensures refused { result ≢ status.ok → block.new.value ≡ block.old.value }
{
    match block.take(alloc) {
        None => NO_HANDLE,
        Some(mut kept) => {
            let status = kept.set_word(piece, word);
            block.put(kept);
            status
        }
    }
}

/// Frees all pieces: the block is as create made it. `HOST_OUT_OF_MEMORY` where the host refused memory for that.
#[unsafe(no_mangle)]
pub extern "C" fn pilhangko_raw_virtual_block_clear(
    block: &mut VirtualBlockHandle,
    alloc: Global,
) -> u32
    ensures emptied { result ≡ status.ok
        → Changes block.old.value block.new.value (λ old new. new ≡ cleared old) }
    ensures host_out_of_memory { result ≡ status.host_out_of_memory → IsSome block.old.value }
    ensures no_handle { (result ≡ status.no_handle) ↔ (block.old.value ≡ None) }
    ensures statuses { IsOneOf result (status.ok ∷ status.no_handle ∷ status.host_out_of_memory
        ∷ []) }
    ensures refused { result ≢ status.ok → block.new.value ≡ block.old.value }
{
    match block.take(alloc) {
        None => NO_HANDLE,
        Some(mut kept) => {
            let status = kept.clear(alloc);
            block.put(kept);
            status
        }
    }
}

/// Pieces and their bytes, gaps and the longest one; before destroy, how many pieces leak.
#[unsafe(no_mangle)]
pub extern "C" fn pilhangko_raw_virtual_block_statistics(
    block: &mut VirtualBlockHandle,
    alloc: Global,
    statistics: &mut VirtualStatistics,
) -> u32
    ensures reported { result ≡ status.ok
        → IsSomeAnd block.old.value (λ b. statistics.new ≡ counts_of b) }
    ensures no_handle { (result ≡ status.no_handle) ↔ (block.old.value ≡ None) }
    ensures statuses { IsOneOf result (status.ok ∷ status.no_handle ∷ []) }
    ensures same { block.new.value ≡ block.old.value }
    ensures refused { result ≢ status.ok → statistics.new ≡ statistics.old }
{
    match block.take(alloc) {
        None => NO_HANDLE,
        Some(kept) => {
            *statistics = kept.statistics();
            block.put(kept);
            OK
        }
    }
}

/// The first live piece whose own bytes begin at `from` or behind it, for a visit of all pieces in order of offset.
#[unsafe(no_mangle)]
pub extern "C" fn pilhangko_raw_virtual_block_next_piece(
    block: &mut VirtualBlockHandle,
    alloc: Global,
    from: u64,
    piece: &mut PieceView,
) -> u32
    ensures reported { result ≡ status.ok
        → IsSomeAnd block.old.value (λ b. piece.new ≡ piece_view (piece_from from (extents_of b))) }
    ensures no_handle { (result ≡ status.no_handle) ↔ (block.old.value ≡ None) }
    ensures statuses { IsOneOf result (status.ok ∷ status.no_handle ∷ []) }
    ensures same { block.new.value ≡ block.old.value }
    ensures refused { result ≢ status.ok → piece.new ≡ piece.old }
{
    match block.take(alloc) {
        None => NO_HANDLE,
        Some(kept) => {
            *piece = kept.next_piece(from);
            block.put(kept);
            OK
        }
    }
}

/// Fills an array with the live pieces whose own bytes begin at `from` or behind it, in order of offset and as far as it has room, and
/// reports how many it shows: with an array for all pieces, one call visits them all, each once.
#[unsafe(no_mangle)]
pub extern "C" fn pilhangko_raw_virtual_block_pieces(
    block: &mut VirtualBlockHandle,
    alloc: Global,
    from: u64,
    pieces: &mut [PieceView],
    count: &mut usize,
) -> u32
    ensures reported { result ≡ status.ok
        → IsSomeAnd block.old.value (λ b. ShowsPieces (pieces_from from (extents_of b)) pieces.old
        pieces.new count.new) }
    ensures no_handle { (result ≡ status.no_handle) ↔ (block.old.value ≡ None) }
    ensures statuses { IsOneOf result (status.ok ∷ status.no_handle ∷ []) }
    ensures same { block.new.value ≡ block.old.value }
    ensures refused { result ≢ status.ok → (pieces.new ≡ pieces.old) × (count.new ≡ count.old) }
{
    match block.take(alloc) {
        None => NO_HANDLE,
        Some(kept) => {
            *count = kept.pieces(from, pieces);
            block.put(kept);
            OK
        }
    }
}

/// The name of the piece that the visit shows from there: copies as many bytes of it as there is room for, and reports how many it has, 0
/// where there is no piece.
#[unsafe(no_mangle)]
pub extern "C" fn pilhangko_raw_virtual_block_piece_name(
    block: &mut VirtualBlockHandle,
    alloc: Global,
    from: u64,
    name: &mut [u8],
    whole: &mut usize,
) -> u32
    ensures reported { result ≡ status.ok
        → IsSomeAnd block.old.value (λ b. ShowsName (piece_from from (extents_of b)) name.old
        name.new whole.new) }
    ensures no_handle { (result ≡ status.no_handle) ↔ (block.old.value ≡ None) }
    ensures statuses { IsOneOf result (status.ok ∷ status.no_handle ∷ []) }
    ensures same { block.new.value ≡ block.old.value }
    ensures refused { result ≢ status.ok → (name.new ≡ name.old) × (whole.new ≡ whole.old) }
{
    match block.take(alloc) {
        None => NO_HANDLE,
        Some(kept) => {
            *whole = kept.piece_name(from, name);
            block.put(kept);
            OK
        }
    }
}

/// The names of the live pieces that `pieces` shows: fills an array with their lengths and a buffer with the names one after another,
/// as far as each has room, and reports how many lengths there are.
#[unsafe(no_mangle)]
pub extern "C" fn pilhangko_raw_virtual_block_piece_names(
    block: &mut VirtualBlockHandle,
    alloc: Global,
    from: u64,
    lengths: &mut [usize],
    names: &mut [u8],
    count: &mut usize,
) -> u32
    ensures reported { result ≡ status.ok
        → IsSomeAnd block.old.value (λ b. ShowsNames (pieces_from from (extents_of b)) lengths.old
        lengths.new names.old names.new count.new) }
    ensures no_handle { (result ≡ status.no_handle) ↔ (block.old.value ≡ None) }
    ensures statuses { IsOneOf result (status.ok ∷ status.no_handle ∷ []) }
    ensures same { block.new.value ≡ block.old.value }
    ensures refused { result ≢ status.ok
        → (lengths.new ≡ lengths.old) × (names.new ≡ names.old) × (count.new ≡ count.old) }
{
    match block.take(alloc) {
        None => NO_HANDLE,
        Some(kept) => {
            *count = kept.piece_names(from, lengths, names);
            block.put(kept);
            OK
        }
    }
}

/// Ends a block, with the pieces that are still live, and leaves the handle zeroed.
#[unsafe(no_mangle)]
pub extern "C" fn pilhangko_raw_virtual_block_destroy(
    block: &mut VirtualBlockHandle,
    alloc: Global,
) -> u32
    ensures gone { block.new.value ≡ None }
    ensures no_handle { (result ≡ status.no_handle) ↔ (block.old.value ≡ None) }
    ensures statuses { IsOneOf result (status.ok ∷ status.no_handle ∷ []) }
{
    match block.take(alloc) {
        None => NO_HANDLE,
        Some(_) => OK,
    }
}
