//! Tests of the devices: the laws in use at any device, and the answers of the simulated ones.
#![tactic(auto)]

pub mod d3d12;
pub mod metal;
#[cfg(test)]
mod steps;
#[cfg(test)]
mod vulkan;
