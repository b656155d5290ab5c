//! The blocks of one memory type, with no device at hand: the slots that they lie in, which of them has a place for a request, which
//! block is needed where none has, and which goes with its last piece; and all memory types of an allocator, what is the same for Vulkan,
//! DirectX 12 and Metal. Re-exports blocks and plain values.
#![tactic(auto)]

mod marks;
mod memory_type;
mod memory_types;
mod need;
mod piece;
mod report;
mod slot;
mod slots;
mod statistics;
pub mod type_laws;
mod type_leaks;

pub use gpu_block::{
    BlockStatistics, DedicatedBlockAllocator, FreeListAllocator, Gaps, Leak, Leaks, LivePiece,
    Pieces, SubAllocator, laws,
};
pub use gpu_values::{
    AllocationError, AllocationReport, AllocationSizes, AllocationType, AllocatorDebugSettings,
    AllocatorReport, Fault, MemoryBlockReport, MemoryLocation, Result, fmt_bytes,
};
pub use memory_type::{MemoryType, Prepared};
pub use memory_types::{AllLeaks, MemoryTypes};
pub use need::{NeedBlock, PendingBlock};
pub use piece::{Piece, Request};
pub use type_leaks::TypeLeaks;
