//! A few calls, while the host refuses one request for memory. With ample memory the test passes. Where one request was refused it
//! fails with a text of its own, after all else held: `tools/check_refused` refuses each in turn, and looks for that text. So a
//! call that takes memory and tells of no refusal is found.

use super::*;
use std::test::Fail;

/// How a test ends.
pub(super) type Outcome = std::result::Result<(), Fail>;

/// What a run ends with in which one request was refused.
const TOLD: &str = "one call was refused, and nothing was lost";

/// How a test ends in which so many calls were refused, if the device holds what it should.
pub(super) fn ends(refused: u64, held: bool) -> Outcome {
    match (refused, held) {
        (0, true) => Ok(()),
        (1, true) => Err(Fail::new(TOLD)),
        (_, true) => Err(Fail::new("more than one call was refused")),
        (_, false) => Err(Fail::new("the device holds too much or too little")),
    }
}

/// Allocates a piece and frees it; how many of these calls were refused.
fn piece_comes_and_goes(a: &mut Allocator<SimMetal>, location: MemoryLocation) -> u64 {
    match a.allocate(&Discard, &piece(512, location)) {
        Err(_) => 1,
        Ok(allocation) => {
            a.commit_residency_set();
            u64::from(a.free(&Discard, allocation).is_err())
        }
    }
}

/// Calls that take memory, and some that don't; how many were refused.
fn calls(a: &mut Allocator<SimMetal>) -> u64 {
    let told = [
        piece_comes_and_goes(a, MemoryLocation::GpuOnly),
        piece_comes_and_goes(a, MemoryLocation::CpuToGpu),
        u64::from(a.generate_report().is_err()),
        u64::from(a.set_budget(0, Some(1)).is_err()),
    ];
    let mut refused: u64 = 0;
    for one in told {
        refused = refused.saturating_add(one);
    }
    refused
}

/// At last the device holds the residency set; where no allocator was made, nothing.
#[test]
fn each_call_of_the_metal_allocator_tells_of_its_refusal(rt: HostRuntime) -> Outcome {
    let device = SimMetal::new(rt.alloc(), true, Vec::new(rt.alloc()));
    match Allocator::new(
        rt.alloc(),
        described(device, AllocationSizes::default(), true),
    ) {
        Ok(mut a) => {
            let refused = calls(&mut a);
            ends(refused, a.destroy().held() == 1)
        }
        Err((_, back)) => ends(1, back.held() == 0),
    }
}
