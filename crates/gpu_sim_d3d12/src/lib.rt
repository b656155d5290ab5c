//! A simulated DirectX 12 device, proved to keep its trait's laws.
#![tactic(auto)]

mod objects;
mod scripted_journal;
mod sim_d3d12;

pub use sim_d3d12::SimD3D12;
