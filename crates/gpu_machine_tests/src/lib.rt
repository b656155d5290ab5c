//! The machines of Metal and DirectX 12, their questions put to simulated devices, beside the allocators over such devices.
#![tactic(auto)]

#[cfg(test)]
mod d3d12;
#[cfg(test)]
mod metal;
#[cfg(test)]
mod numbers;
