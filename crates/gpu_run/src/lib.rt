//! Sessions, by module: an allocator that serves one command after another, and what a caller's numbers stand for. The session of one
//! block, and a list of commands over any session, stand in gpu_block_session.
#![tactic(auto)]

mod allocated;
mod bindings;
mod command;
pub mod d3d12;
pub mod metal;
pub mod vulkan;

pub use allocated::Allocated;
pub use bindings::bind;
pub use command::Command;
pub use gpu_block_session::{ErrorNumber, Serve, block, number_of, run};
