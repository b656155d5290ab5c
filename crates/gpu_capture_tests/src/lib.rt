//! Tests of captures: the lines of each call, what ends a capture, and that it ends where the host refuses memory.
#![tactic(auto)]

#[cfg(test)]
mod lines;
#[cfg(test)]
mod refused;
#[cfg(test)]
mod room;
