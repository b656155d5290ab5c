//! What is told of a piece in a heap.

ghost use Rattle.std.specs.Prelude.{◌≡◌};
ghost use Rattle.gpu_pool.specs.Allocation.{piece_of};
ghost use Rattle.gpu_run.specs.Shown.{shown, shown_of};

use gpu_pool::Allocation;
use std::num::NonZeroU64;

/// What is told of a piece. Offset and size are bytes.
#[derive(Clone, Copy, Debug, PartialEq, Eq)]
pub struct Allocated<H> {
    pub memory_type: usize,
    pub slot: usize,
    pub offset: u64,
    pub size: u64,
    /// Its number in its block.
    pub chunk: NonZeroU64,
    /// The heap that it lies in.
    pub heap: H,
}

/// What is told of an allocation.
pub(crate) fn told<H: Copy>(allocation: &Allocation<H>) -> Allocated<H>
    ensures { shown_of result ≡ shown allocation.now.memory_type_index (piece_of allocation.now) }
{
    let Some(chunk) = allocation.chunk_id() else {
        unreachable!()
    };
    Allocated {
        memory_type: allocation.memory_type_index(),
        slot: allocation.memory_block_index(),
        offset: allocation.offset(),
        size: allocation.size(),
        chunk,
        heap: allocation.heap(),
    }
}
