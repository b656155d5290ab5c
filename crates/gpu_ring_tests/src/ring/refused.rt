//! A ring while the host refuses one request for memory: with ample memory the test passes; where the request was refused it fails with a
//! text of its own (`tools/check_refused`).

use gpu_ring::{Frame, Ring};
use std::test::Fail;

/// What a run ends with in which one request was refused.
const TOLD: &str = "one call was refused, and nothing was lost";

#[test]
fn only_a_new_ring_takes_memory(rt: HostRuntime) -> Result<(), Fail> {
    let (mut ring, refused) = match Ring::new(rt.alloc(), 64, 3) {
        Ok(ring) => (ring, false),
        Err(_) => match Ring::new(rt.alloc(), 64, 3) {
            Ok(ring) => (ring, true),
            Err(_) => return Err(Fail::new("more than one call was refused")),
        },
    };
    let served = ring.allocate(32, 8) == Some(0)
        && ring.end_frame() == Some(Frame { number: 0 })
        && ring.allocate(32, 8) == Some(32)
        && ring.end_frame() == Some(Frame { number: 1 })
        && ring.retire(Frame { number: 1 });
    match (served, refused) {
        (true, false) => Ok(()),
        (true, true) => Err(Fail::new(TOLD)),
        (false, _) => Err(Fail::new("a call was refused")),
    }
}
