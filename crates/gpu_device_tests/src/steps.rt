//! How the tests end. What they look at is told by a `bool`: a proof of a call that may abort costs more than the call itself.

use std::process::Abort;
use std::test::Fail;

/// Looks that each step of a test went as it should; a failed one is told by its place.
pub fn check(rt: &impl Abort, steps: &[bool]) {
    for (place, step) in steps.iter().enumerate() {
        assert!(rt; *step, "step {place}");
    }
}

/// What a test ends with while one request for host memory is refused: whether a call told of it, and whether all else held.
/// `tools/check_refused` refuses each in turn, and looks for the text.
pub fn ends(refused: bool, held: bool) -> Result<(), Fail> {
    match (refused, held) {
        (false, true) => Ok(()),
        (true, true) => Err(Fail::new("one call was refused, and nothing was lost")),
        (_, false) => Err(Fail::new("something was lost")),
    }
}
