//! Tests of a ring: worked rows, and that it is there while there is memory for its frames.
#![tactic(auto)]

#[cfg(test)]
mod ring;
