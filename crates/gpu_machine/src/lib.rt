//! The allocators of all APIs as machines that call nobody: each asks its caller for memory, and is told the answer.
#![tactic(auto)]

pub mod d3d12;
pub mod metal;
pub mod vulkan;
