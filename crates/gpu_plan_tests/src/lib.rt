//! Tests of plans: a worked frame, and that plans are there while there is memory.
#![tactic(auto)]

#[cfg(test)]
mod frame;
