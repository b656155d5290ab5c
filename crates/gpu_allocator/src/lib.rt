//! GPU memory allocators: pieces of device memory from a few large blocks, over a device that is handed in.
#![tactic(auto)]

pub mod d3d12;
pub mod metal;
pub mod vulkan;

pub use gpu_core::{
    AllLeaks, AllocationError, AllocationReport, AllocationSizes, AllocationType,
    AllocatorDebugSettings, AllocatorReport, BlockStatistics, DedicatedBlockAllocator, Fault,
    FreeListAllocator, Gaps, Leak, Leaks, LivePiece, MemoryBlockReport, MemoryLocation, MemoryType,
    MemoryTypes, NeedBlock, PendingBlock, Piece, Pieces, Prepared, Request, Result, SubAllocator,
    TypeLeaks, fmt_bytes, laws, type_laws,
};
