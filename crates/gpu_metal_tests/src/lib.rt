//! Worked rows of the Metal allocator over the simulated device, and random scripts against a plain account.
#![tactic(auto)]

#[cfg(test)]
mod metal;
