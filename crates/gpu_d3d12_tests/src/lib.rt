//! Worked rows of the DirectX 12 allocator over the simulated device.
#![tactic(auto)]

#[cfg(test)]
mod d3d12;
