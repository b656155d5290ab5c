//! What an allocator of DirectX 12's memory answers, as C is told.

ghost use Rattle.std.specs.Prelude.{◌≡◌, MatchOption};
ghost use Rattle.gpu_values.specs.Refusal.{refusal_of};
ghost use Rattle.gpu_c.specs.Heaps.{piece_told, allocated_told, no_heaps_piece, heap_told, heap_type_number, page_number, pool_number, heap_flags, question_told, no_heaps_question, progress_told, refused_told, code_told, committed_told, committed_named, committed_counts};
ghost use Rattle.gpu_c.specs.MemoryType.{no_memory_piece};
ghost use Rattle.gpu_c.specs.declared.status.TheConstants.{OK};

use crate::heaps_values::{
    HeapsCommitted, HeapsCommittedCounts, HeapsPiece, HeapsProgress, HeapsQuestion,
};
use crate::memory_type::memory_block;
use crate::memory_type_values::{MemoryBlock, MemoryPiece};
use crate::refusal::refusal_status;
use crate::status::OK;
use gpu_core::Piece;
use gpu_d3d12::{Committed, CommittedAllocationStatistics};
use gpu_device::d3d12::{
    CpuPageProperty, HeapContent, HeapType, ID3D12Heap, ID3D12Resource, MemoryPool,
};
use gpu_machine::d3d12::{Allocated, Progress, Question};
use gpu_values::AllocationError;
use std::num::NonZeroU64;

/// A piece, as C is told of it.
pub fn piece_told(piece: &Piece<ID3D12Heap>) -> MemoryPiece
    ensures { result ≡ piece_told piece.now }
{
    MemoryPiece {
        slot: piece.slot,
        number: piece.chunk_id.get(),
        offset: piece.offset,
        size: piece.size,
        block: piece.handle.0,
    }
}

/// The piece that a caller names; `None` where its number is 0.
pub fn named_piece(named: &HeapsPiece) -> Option<Piece<ID3D12Heap>>
    ensures { MatchOption result (named.now.piece.number ≡ 0)
        (λ p. piece_told p ≡ named.now.piece) }
{
    let piece = &named.piece;
    match NonZeroU64::new(piece.number) {
        None => None,
        Some(number) => Some(Piece {
            slot: piece.slot,
            chunk_id: number,
            offset: piece.offset,
            size: piece.size,
            handle: ID3D12Heap(piece.block),
        }),
    }
}

/// A piece of an allocator.
pub fn allocated_told(allocated: &Allocated) -> HeapsPiece
    ensures { result ≡ allocated_told allocated.now }
{
    HeapsPiece {
        memory_type: allocated.memory_type,
        piece: piece_told(&allocated.piece),
    }
}

/// No piece: all zeros.
pub fn no_piece() -> HeapsPiece
    ensures { result ≡ no_heaps_piece }
{
    HeapsPiece {
        memory_type: 0,
        piece: MemoryPiece {
            slot: 0,
            number: 0,
            offset: 0,
            size: 0,
            block: 0,
        },
    }
}

/// A heap, or none.
pub fn heap_told(heap: Option<ID3D12Heap>) -> MemoryBlock
    ensures { result ≡ heap_told heap }
{
    match heap {
        None => memory_block(None),
        Some(heap) => memory_block(Some(heap.0)),
    }
}

/// The number of a heap type (`D3D12_HEAP_TYPE`).
fn heap_type_number(heap_type: HeapType) -> u32
    ensures { result ≡ heap_type_number heap_type }
{
    match heap_type {
        HeapType::Default => 1,
        HeapType::Upload => 2,
        HeapType::Readback => 3,
        HeapType::Custom => 4,
    }
}

/// The number of a page property (`D3D12_CPU_PAGE_PROPERTY`).
fn page_number(page: CpuPageProperty) -> u32
    ensures { result ≡ page_number page }
{
    match page {
        CpuPageProperty::Unknown => 0,
        CpuPageProperty::NotAvailable => 1,
        CpuPageProperty::WriteCombine => 2,
        CpuPageProperty::WriteBack => 3,
    }
}

/// The number of a memory pool (`D3D12_MEMORY_POOL`).
fn pool_number(pool: MemoryPool) -> u32
    ensures { result ≡ pool_number pool }
{
    match pool {
        MemoryPool::Unknown => 0,
        MemoryPool::L0 => 1,
        MemoryPool::L1 => 2,
    }
}

/// The flags of a heap that may hold this (`D3D12_HEAP_FLAGS`).
fn heap_flags(content: HeapContent) -> u32
    ensures { result ≡ heap_flags content }
{
    match content {
        HeapContent::All => 0,
        HeapContent::Buffers => 0xc0,
        HeapContent::RtDsTextures => 0x84,
        HeapContent::NonRtDsTextures => 0x44,
    }
}

fn question_told(question: &Question) -> HeapsQuestion
    ensures { result ≡ question_told question.now }
{
    let properties = &question.desc.properties;
    HeapsQuestion {
        memory_type: question.block.memory_type,
        size: question.desc.size,
        alignment: question.desc.alignment,
        heap_type: heap_type_number(properties.heap_type),
        cpu_page_property: page_number(properties.cpu_page_property),
        memory_pool: pool_number(properties.memory_pool_preference),
        flags: heap_flags(question.desc.content),
        dedicated: question.block.dedicated,
    }
}

fn no_question() -> HeapsQuestion
    ensures { result ≡ no_heaps_question }
{
    HeapsQuestion {
        memory_type: 0,
        size: 0,
        alignment: 0,
        heap_type: 0,
        cpu_page_property: 0,
        memory_pool: 0,
        flags: 0,
        dedicated: false,
    }
}

/// What a request leads to.
pub fn progress_told(progress: &Progress) -> HeapsProgress
    ensures { result ≡ progress_told progress.now }
{
    match progress {
        Progress::Piece(allocated) => HeapsProgress {
            kind: 1,
            status: OK,
            piece: allocated_told(allocated),
            question: no_question(),
        },
        Progress::Question(question) => HeapsProgress {
            kind: 2,
            status: OK,
            piece: no_piece(),
            question: question_told(question),
        },
    }
}

/// Why a request is refused whose heap the device has refused.
pub fn refused_told(error: &AllocationError) -> HeapsProgress
    ensures { result ≡ refused_told (refusal_of error.now) }
{
    HeapsProgress {
        kind: 3,
        status: refusal_status(error),
        piece: no_piece(),
        question: no_question(),
    }
}

/// The device's code of a refusal; none where it is 0, `S_OK`, and there was no heap.
pub fn code_told(code: i32) -> Option<i32>
    ensures { result ≡ code_told code }
{
    if code == 0 { None } else { Some(code) }
}

/// A committed resource, as it is recorded.
pub fn committed_told(committed: &Committed) -> HeapsCommitted
    ensures { result ≡ committed_told committed.now }
{
    HeapsCommitted {
        memory_type: committed.memory_type,
        resource: committed.resource.0,
        size: committed.size,
    }
}

/// The committed resource that a caller names.
pub fn committed_named(named: &HeapsCommitted) -> Committed
    ensures { result ≡ committed_named named.now }
{
    Committed {
        memory_type: named.memory_type,
        resource: ID3D12Resource(named.resource),
        size: named.size,
    }
}

/// What is counted of a memory type's committed resources.
pub fn committed_counts(counted: &CommittedAllocationStatistics) -> HeapsCommittedCounts
    ensures { result ≡ committed_counts counted.now }
{
    HeapsCommittedCounts {
        count: counted.num_allocations,
        bytes: counted.total_size,
    }
}
