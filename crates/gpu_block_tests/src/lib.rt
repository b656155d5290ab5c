//! Tests of a block and of what it stands on: worked rows, printed texts, and that each call succeeds while there is memory.
#![tactic(auto)]

#[cfg(test)]
mod block;
#[cfg(test)]
mod steps;
#[cfg(test)]
mod values;
