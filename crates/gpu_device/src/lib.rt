//! The devices that memory is asked from, each as a trait with laws, and the plain types of their calls.
#![tactic(auto)]

mod chain;
pub mod d3d12;
mod history;
pub mod metal;
mod refusal;
pub mod vulkan;

pub use history::History;
pub use refusal::Refusal;
