//! Simulated devices, each proved to keep its trait's laws.
#![tactic(auto)]

mod memories;
mod memory;
mod refusal;
mod scripted_journal;
mod sim_vulkan;

pub use gpu_sim_base::Refusal;
pub use gpu_sim_d3d12::SimD3D12;
pub use gpu_sim_metal::SimMetal;
pub use sim_vulkan::SimVulkan;
