//! Defragmentation: moves of an allocator's allocations, so many a frame, remembered while they are open. What is the same for every API
//! is generic over its allocation; what asks or tells its allocator stands in a module of its own.
#![tactic(auto)]

pub mod d3d12;
mod defragmentation;
pub mod metal;
mod open_move;
pub mod vulkan;

pub use defragmentation::Defragmentation;
pub use open_move::{Finished, Move};
