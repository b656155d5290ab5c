//! Uploads while the host refuses one request for memory: with ample memory the test passes; where a request was refused it fails with a text
//! of its own (`tools/check_refused`).

use super::*;
use gpu_ring::Frame;
use std::test::Fail;

/// What a run ends with in which one request was refused.
const TOLD: &str = "one call was refused, and nothing was lost";

/// A ring over the allocation, and whether the host refused it once.
fn ring_over(alloc: Global, allocation: Allocation) -> Option<(UploadRing, bool)> {
    let size = allocation.size();
    if size == 0 || size > 4096 {
        return None;
    }
    match UploadRing::new(alloc, allocation, 2) {
        Ok(ring) => Some((ring, false)),
        Err((_, back)) => {
            if back.size() != size {
                return None;
            }
            match UploadRing::new(alloc, back, 2) {
                Ok(ring) => Some((ring, true)),
                Err((_, _)) => None,
            }
        }
    }
}

/// Whether two frames' uploads lie where they should, and the second one's bytes stay when the first one's place is written again.
fn two_frames(a: &mut Allocator<SimVulkan>, ring: &mut UploadRing) -> bool {
    put(a, ring, &[1, 2, 3, 4], 4) == Some(0)
        && put(a, ring, &[5, 6], 8) == Some(8)
        && put(a, ring, &[7, 7, 7, 7, 7, 7, 7], 1).is_none()
        && ring.end_frame() == Some(Frame { number: 0 })
        && put(a, ring, &[8, 8, 8, 8, 8, 8], 1) == Some(10)
        && reads(a, ring, &[1, 2, 3, 4, 0, 0, 0, 0, 5, 6, 8, 8, 8, 8, 8, 8])
        && ring.retire(Frame { number: 0 })
        && put(a, ring, &[9, 9, 9], 1) == Some(0)
        && reads(a, ring, &[9, 9, 9, 4, 0, 0, 0, 0, 5, 6, 8, 8, 8, 8, 8, 8])
}

/// Whether all went as it should, and whether one call was refused.
fn uploads(alloc: Global, a: &mut Allocator<SimVulkan>) -> (bool, bool) {
    let Some(allocation) = take(a) else {
        return (true, true);
    };
    match ring_over(alloc, allocation) {
        Some((mut ring, refused)) => (two_frames(a, &mut ring), refused),
        None => (false, false),
    }
}

#[test]
fn only_a_new_ring_takes_memory(rt: HostRuntime) -> Result<(), Fail> {
    let (served, refused) = match made(rt.alloc()) {
        Some(mut a) => {
            let outcome = uploads(rt.alloc(), &mut a);
            let _ = a.destroy(&Discard);
            outcome
        }
        None => (true, true),
    };
    match (served, refused) {
        (true, false) => Ok(()),
        (true, true) => Err(Fail::new(TOLD)),
        (false, _) => Err(Fail::new("a call was refused")),
    }
}
