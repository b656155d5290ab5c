//! How the tests look at answers. What they see is a `bool`: a proof of a call that may abort costs more than the call itself.

use gpu_values::{AllocationError, Result};
use std::alloc::Global;
use std::fmt::Display;
use std::process::Abort;
use std::test::Fail;

/// Looks that each step of a test went as it should; a failed one is told by its place.
pub fn check(rt: &impl Abort, steps: &[bool]) {
    for (place, step) in steps.iter().enumerate() {
        assert!(rt; *step, "step {place}");
    }
}

/// Whether the text is there and is this one.
pub fn reads(text: Result<String>, want: &str) -> bool {
    match text {
        Ok(text) => text.as_str() == want,
        Err(_) => false,
    }
}

/// Whether the value prints this text.
pub fn prints<D: Display>(alloc: Global, value: &D, want: &str) -> bool {
    match value.to_string(alloc) {
        Ok(text) => text.as_str() == want,
        Err(_) => false,
    }
}

/// Whether a call was refused host memory, which is counted.
pub fn is_refused<V: Drop>(refused: &mut u64, answer: &Result<V>) -> bool {
    let is_refused = matches!(answer, Err(AllocationError::HostOutOfMemory));
    if is_refused {
        *refused = refused.saturating_add(1);
    }
    is_refused
}

/// What a run ends with in which one request was refused.
const TOLD: &str = "one call was refused, and nothing was lost";

/// How a test ends in which so many calls were refused.
pub fn ends(refused: u64) -> std::result::Result<(), Fail> {
    match refused {
        0 => Ok(()),
        1 => Err(Fail::new(TOLD)),
        _ => Err(Fail::new("more than one call was refused")),
    }
}
