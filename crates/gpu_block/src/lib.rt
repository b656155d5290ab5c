//! One block of GPU memory: which piece lies where, and what reports and leaks say of it. It holds no memory of a device.
#![tactic(auto)]

mod dedicated_block;
pub mod laws;
mod queries;
mod said;
mod sub_allocator;

pub use dedicated_block::DedicatedBlockAllocator;
pub use gpu_block_pieces::{
    BlockStatistics, FreeListAllocator, Gaps, Leak, Leaks, LivePiece, Pieces,
};
pub use said::Said;
pub use sub_allocator::SubAllocator;
