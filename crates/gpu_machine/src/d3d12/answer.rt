//! What the calls of DirectX 12's machine answer.

use gpu_core::Piece;
use gpu_device::d3d12::{HeapDesc, ID3D12Heap};

/// A piece, and the memory type that it is of.
#[derive(Clone, Copy, Debug)]
pub struct Allocated {
    /// The memory type.
    pub memory_type: usize,
    /// The piece.
    pub piece: Piece<ID3D12Heap>,
}

/// What the device is to be asked for (`ID3D12Device::CreateHeap`).
#[derive(Clone, Copy, Debug)]
pub struct Question {
    /// The block: its memory type, its size in bytes, and whether it is one piece's own.
    pub block: gpu_pool::Question,
    /// The heap.
    pub desc: HeapDesc,
}

/// What a request that isn't refused leads to.
#[derive(Clone, Copy, Debug)]
pub enum Progress {
    /// A piece is allocated.
    Piece(Allocated),
    /// A new heap is needed: ask the device, and then call `granted` or `refused`.
    Question(Question),
}
