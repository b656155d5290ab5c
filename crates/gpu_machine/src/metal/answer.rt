//! What the calls of Metal's machine answer.

use gpu_core::Piece;
use gpu_device::metal::{HeapDescriptor, MTLHeap};
use gpu_values::MemoryLocation;

/// A piece, and the memory type that it is of.
#[derive(Clone, Copy, Debug)]
pub struct Allocated {
    /// The memory type.
    pub memory_type: usize,
    /// The piece.
    pub piece: Piece<MTLHeap>,
}

/// What the device is to be asked for: a heap of placement type.
#[derive(Clone, Copy, Debug)]
pub struct Question {
    /// The block: its memory type, its size in bytes, and whether it is one piece's own.
    pub block: gpu_pool::Question,
    /// Who reads and writes it; `heap_label` has its heap's label.
    pub location: MemoryLocation,
    /// Where the heap lies, and how the CPU caches it.
    pub descriptor: HeapDescriptor,
}

/// What a request that isn't refused leads to.
#[derive(Clone, Copy, Debug)]
pub enum Progress {
    /// A piece is allocated.
    Piece(Allocated),
    /// A new heap is needed: ask the device, and then call `granted` or `refused`.
    Question(Question),
}

/// A piece of the heap that was asked for.
#[derive(Clone, Copy, Debug)]
pub struct Granted {
    /// The piece.
    pub allocated: Allocated,
    /// Whether its heap is to join the residency set now.
    pub joins: bool,
}

/// A heap that goes back to the device.
#[derive(Clone, Copy, Debug)]
pub struct HeapBack {
    /// The heap.
    pub heap: MTLHeap,
    /// Whether it is to leave the residency set before it is released.
    pub leaves: bool,
}
