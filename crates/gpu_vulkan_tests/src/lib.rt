//! Tests of the Vulkan allocator over the simulated device: worked rows, log lines, and scripts with refusals.
#![tactic(auto)]

#[cfg(test)]
mod vulkan;
