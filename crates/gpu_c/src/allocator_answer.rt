//! What an allocator answers, as C is told.

ghost use Rattle.std.specs.Prelude.{◌≡◌, MatchOption};
ghost use Rattle.gpu_c.specs.Allocator.{piece_told, Names, allocated_told, no_allocator_piece, question_told, no_question, progress_told, outcome_told, memory_told, block_told, budget_told, code_if};
ghost use Rattle.gpu_c.specs.MemoryType.{no_memory_piece};
ghost use Rattle.gpu_c.specs.declared.status.TheConstants.{OK};

use crate::allocator_values::{
    AllocatorBlock, AllocatorBudget, AllocatorMemory, AllocatorPiece, AllocatorProgress,
    AllocatorQuestion,
};
use crate::mapped_memory::MappedMemory;
use crate::memory_type_values::MemoryPiece;
use crate::refusal::refusal_status;
use crate::status::OK;
use gpu_core::Piece;
use gpu_machine::vulkan::{Allocated, LiveBlock, MemoryBack, Progress, Question};
use gpu_values::Result;
use std::num::NonZeroU64;

/// A piece, as C is told of it.
pub fn piece_told(piece: &Piece<MappedMemory>) -> MemoryPiece
    ensures { result ≡ piece_told piece.now }
{
    MemoryPiece {
        slot: piece.slot,
        number: piece.chunk_id.get(),
        offset: piece.offset,
        size: piece.size,
        block: piece.handle.memory,
    }
}

/// The piece that a caller names; `None` where its number is 0.
pub fn named_piece(named: &AllocatorPiece) -> Option<Piece<MappedMemory>>
    ensures { MatchOption result (named.now.piece.number ≡ 0) (Names named.now) }
{
    let piece = &named.piece;
    match NonZeroU64::new(piece.number) {
        None => None,
        Some(number) => Some(Piece {
            slot: piece.slot,
            chunk_id: number,
            offset: piece.offset,
            size: piece.size,
            handle: MappedMemory {
                memory: piece.block,
                address: named.address,
            },
        }),
    }
}

/// A piece of an allocator.
pub fn allocated_told(allocated: &Allocated<MappedMemory>) -> AllocatorPiece
    ensures { result ≡ allocated_told allocated.now }
{
    AllocatorPiece {
        memory_type: allocated.memory_type,
        address: allocated.piece.handle.address,
        piece: piece_told(&allocated.piece),
    }
}

/// No piece: all zeros.
pub fn no_piece() -> AllocatorPiece
    ensures { result ≡ no_allocator_piece }
{
    AllocatorPiece {
        memory_type: 0,
        address: 0,
        piece: MemoryPiece {
            slot: 0,
            number: 0,
            offset: 0,
            size: 0,
            block: 0,
        },
    }
}

fn question_told(question: &Question) -> AllocatorQuestion
    ensures { result ≡ question_told question.now }
{
    AllocatorQuestion {
        size: question.block.size,
        memory_type: question.block.memory_type,
        dedicated: question.block.dedicated,
        mapped: question.mapped,
    }
}

fn no_question() -> AllocatorQuestion
    ensures { result ≡ no_question }
{
    AllocatorQuestion {
        size: 0,
        memory_type: 0,
        dedicated: false,
        mapped: false,
    }
}

/// What a request leads to.
pub fn progress_told(progress: &Progress<MappedMemory>) -> AllocatorProgress
    ensures { result ≡ progress_told progress.now }
{
    match progress {
        Progress::Piece(allocated) => AllocatorProgress {
            kind: 1,
            status: OK,
            piece: allocated_told(allocated),
            question: no_question(),
        },
        Progress::Question(question) => AllocatorProgress {
            kind: 2,
            status: OK,
            piece: no_piece(),
            question: question_told(question),
        },
    }
}

/// The same once the driver has refused.
pub fn outcome_told(outcome: &Result<Progress<MappedMemory>>) -> AllocatorProgress
    ensures { result ≡ outcome_told outcome.now }
{
    match outcome {
        Ok(progress) => progress_told(progress),
        Err(error) => AllocatorProgress {
            kind: 3,
            status: refusal_status(error),
            piece: no_piece(),
            question: no_question(),
        },
    }
}

/// Memory that goes back, or none.
pub fn memory_told(back: Option<MemoryBack<MappedMemory>>) -> AllocatorMemory
    ensures { result ≡ memory_told back }
{
    match back {
        None => AllocatorMemory {
            exists: false,
            mapped: false,
            memory: 0,
            address: 0,
        },
        Some(back) => AllocatorMemory {
            exists: true,
            mapped: back.mapped,
            memory: back.handle.memory,
            address: back.handle.address,
        },
    }
}

/// A live block, or none.
pub fn block_told(block: Option<LiveBlock<MappedMemory>>) -> AllocatorBlock
    ensures { result ≡ block_told block }
{
    match block {
        None => AllocatorBlock {
            exists: false,
            mapped: false,
            shared: false,
            memory: 0,
            address: 0,
            size: 0,
        },
        Some(block) => AllocatorBlock {
            exists: true,
            mapped: block.mapped,
            shared: block.shared,
            memory: block.handle.memory,
            address: block.handle.address,
            size: block.size,
        },
    }
}

/// A budget, or none.
pub fn budget_told(budget: Option<u64>) -> AllocatorBudget
    ensures { result ≡ budget_told budget }
{
    match budget {
        None => AllocatorBudget {
            exists: false,
            bytes: 0,
        },
        Some(bytes) => AllocatorBudget {
            exists: true,
            bytes,
        },
    }
}

/// A code that counts only where there is one.
pub fn code_if(exists: bool, code: i32) -> Option<i32>
    ensures { result ≡ code_if exists code }
{
    if exists { Some(code) } else { None }
}
