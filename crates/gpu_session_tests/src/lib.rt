//! Tests of sessions over the simulated Vulkan device, and of whole traces. What they look at is told by a `bool`: a proof of a
//! call that may abort costs more than the call itself.
#![tactic(auto)]

#[cfg(test)]
mod blocks;
#[cfg(test)]
mod sessions;
#[cfg(test)]
mod trace_errors;
#[cfg(test)]
mod traces;

#[cfg(test)]
use std::process::Abort;

/// Looks that each step of a test went as it should; a failed one is told by its place.
#[cfg(test)]
fn check(rt: &impl Abort, steps: &[bool]) {
    for (place, step) in steps.iter().enumerate() {
        assert!(rt; *step, "step {place}");
    }
}
