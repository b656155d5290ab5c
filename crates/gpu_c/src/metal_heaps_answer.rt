//! What an allocator of Metal's memory answers, as C is told.

ghost use Rattle.std.specs.Prelude.{◌≡◌, MatchOption};
ghost use Rattle.gpu_values.specs.Refusal.{refusal_of};
ghost use Rattle.gpu_c.specs.MetalHeaps.{piece_told, allocated_told, no_heaps_piece, location_number, storage_number, cache_number, question_told, no_heaps_question, progress_told, refused_told, grant_told, block_told};
ghost use Rattle.gpu_c.specs.MemoryType.{no_memory_piece};
ghost use Rattle.gpu_c.specs.declared.status.TheConstants.{OK};

use crate::heaps_values::HeapsPiece;
use crate::memory_type_values::MemoryPiece;
use crate::metal_heaps_values::{
    MetalHeapsBlock, MetalHeapsGrant, MetalHeapsProgress, MetalHeapsQuestion,
};
use crate::refusal::refusal_status;
use crate::status::OK;
use gpu_core::Piece;
use gpu_device::metal::{CpuCacheMode, MTLHeap, StorageMode};
use gpu_machine::metal::{Allocated, Granted, HeapBack, Progress, Question};
use gpu_values::{AllocationError, MemoryLocation};
use std::num::NonZeroU64;

/// A piece, as C is told of it.
pub fn piece_told(piece: &Piece<MTLHeap>) -> MemoryPiece
    ensures { result ≡ piece_told piece.now }
{
    MemoryPiece {
        slot: piece.slot,
        number: piece.chunk_id.get(),
        offset: piece.offset,
        size: piece.size,
        block: piece.handle.0,
    }
}

/// The piece that a caller names; `None` where its number is 0.
pub fn named_piece(named: &HeapsPiece) -> Option<Piece<MTLHeap>>
    ensures { MatchOption result (named.now.piece.number ≡ 0)
        (λ p. piece_told p ≡ named.now.piece) }
{
    let piece = &named.piece;
    match NonZeroU64::new(piece.number) {
        None => None,
        Some(number) => Some(Piece {
            slot: piece.slot,
            chunk_id: number,
            offset: piece.offset,
            size: piece.size,
            handle: MTLHeap(piece.block),
        }),
    }
}

/// A piece of an allocator.
fn allocated_told(allocated: &Allocated) -> HeapsPiece
    ensures { result ≡ allocated_told allocated.now }
{
    HeapsPiece {
        memory_type: allocated.memory_type,
        piece: piece_told(&allocated.piece),
    }
}

/// A piece of the heap that was asked for, and whether the heap joins the residency set.
pub fn grant_told(granted: &Granted) -> MetalHeapsGrant
    ensures { result ≡ grant_told granted.now }
{
    MetalHeapsGrant {
        piece: allocated_told(&granted.allocated),
        joins: granted.joins,
    }
}

/// A heap, or none.
pub fn block_told(heap: Option<HeapBack>) -> MetalHeapsBlock
    ensures { result ≡ block_told heap }
{
    match heap {
        None => MetalHeapsBlock {
            exists: false,
            heap: 0,
            leaves: false,
        },
        Some(back) => MetalHeapsBlock {
            exists: true,
            heap: back.heap.0,
            leaves: back.leaves,
        },
    }
}

/// No piece: all zeros.
pub fn no_piece() -> HeapsPiece
    ensures { result ≡ no_heaps_piece }
{
    HeapsPiece {
        memory_type: 0,
        piece: MemoryPiece {
            slot: 0,
            number: 0,
            offset: 0,
            size: 0,
            block: 0,
        },
    }
}

/// The number of a location.
fn location_number(location: MemoryLocation) -> u32
    ensures { result ≡ location_number location }
{
    match location {
        MemoryLocation::Unknown => 1,
        MemoryLocation::GpuOnly => 2,
        MemoryLocation::CpuToGpu => 3,
        MemoryLocation::GpuToCpu => 4,
    }
}

/// The number of a storage mode (`MTLStorageMode`).
fn storage_number(mode: StorageMode) -> u32
    ensures { result ≡ storage_number mode }
{
    match mode {
        StorageMode::Shared => 0,
        StorageMode::Managed => 1,
        StorageMode::Private => 2,
        StorageMode::Memoryless => 3,
        StorageMode::Other(number) => number,
    }
}

/// The number of a cache mode (`MTLCPUCacheMode`).
fn cache_number(mode: CpuCacheMode) -> u32
    ensures { result ≡ cache_number mode }
{
    match mode {
        CpuCacheMode::DefaultCache => 0,
        CpuCacheMode::WriteCombined => 1,
    }
}

fn question_told(question: &Question) -> MetalHeapsQuestion
    ensures { result ≡ question_told question.now }
{
    MetalHeapsQuestion {
        memory_type: question.block.memory_type,
        size: question.block.size,
        location: location_number(question.location),
        storage_mode: storage_number(question.descriptor.storage_mode),
        cpu_cache_mode: cache_number(question.descriptor.cpu_cache_mode),
        dedicated: question.block.dedicated,
    }
}

fn no_question() -> MetalHeapsQuestion
    ensures { result ≡ no_heaps_question }
{
    MetalHeapsQuestion {
        memory_type: 0,
        size: 0,
        location: 0,
        storage_mode: 0,
        cpu_cache_mode: 0,
        dedicated: false,
    }
}

/// What a request leads to.
pub fn progress_told(progress: &Progress) -> MetalHeapsProgress
    ensures { result ≡ progress_told progress.now }
{
    match progress {
        Progress::Piece(allocated) => MetalHeapsProgress {
            kind: 1,
            status: OK,
            piece: allocated_told(allocated),
            question: no_question(),
        },
        Progress::Question(question) => MetalHeapsProgress {
            kind: 2,
            status: OK,
            piece: no_piece(),
            question: question_told(question),
        },
    }
}

/// Why a request is refused whose heap the device has refused.
pub fn refused_told(error: &AllocationError) -> MetalHeapsProgress
    ensures { result ≡ refused_told (refusal_of error.now) }
{
    MetalHeapsProgress {
        kind: 3,
        status: refusal_status(error),
        piece: no_piece(),
        question: no_question(),
    }
}
