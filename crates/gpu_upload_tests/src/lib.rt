//! Tests of uploads through a ring, over the simulated device.
#![tactic(auto)]

#[cfg(test)]
mod upload;
