//! A few calls, while the host refuses one request for memory. With ample memory the test passes. Where one request was refused it
//! fails with a text of its own, after all else held: `tools/check_refused` refuses each in turn, and looks for that text. So a
//! call that takes memory and tells of no refusal is found.

use super::resources::{IN_STATE, asked, own_memory};
use super::*;
use gpu_d3d12::{Resource, ResourceType};
use std::test::Fail;

/// How a test ends.
pub(super) type Outcome = std::result::Result<(), Fail>;

/// What a run ends with in which one request was refused.
const TOLD: &str = "one call was refused, and nothing was lost";

/// How a test ends in which so many calls were refused, where nothing is held then.
pub(super) fn ends(refused: u64, held: usize) -> Outcome {
    match (refused, held) {
        (0, 0) => Ok(()),
        (1, 0) => Err(Fail::new(TOLD)),
        (_, 0) => Err(Fail::new("more than one call was refused")),
        (_, _) => Err(Fail::new("something is held")),
    }
}

/// Allocates a piece, names it anew and frees it; how many of these calls were refused.
fn piece_comes_and_goes(a: &mut Allocator<SimD3D12>, location: MemoryLocation) -> u64 {
    match a.allocate(&Discard, &piece_for(location, ResourceCategory::Buffer)) {
        Err(_) => 1,
        Ok(mut allocation) => {
            let renamed = a.rename_allocation(
                &mut allocation,
                "a name of more than twenty-two bytes, kept apart",
            );
            let freed = a.free(&Discard, allocation);
            u64::from(renamed.is_err()) + u64::from(freed.is_err())
        }
    }
}

/// Makes a resource and gives it back; how many of these calls were refused.
fn resource_comes_and_goes(a: &mut Allocator<SimD3D12>, memory: &ResourceType) -> u64 {
    let made: std::result::Result<Resource, _> = a.create_resource(
        &Discard,
        &asked(&buffer(65536), &[], IN_STATE, memory),
    );
    match made {
        Err(_) => 1,
        Ok(resource) => u64::from(a.free_resource(&Discard, resource).is_err()),
    }
}

/// Looks at what is allocated; how many of these calls were refused.
fn looks(a: &Allocator<SimD3D12>) -> u64 {
    u64::from(a.generate_report().is_err()) + u64::from(a.leak_texts().is_err())
}

/// Calls that take memory, and some that don't; how many were refused.
fn calls(a: &mut Allocator<SimD3D12>) -> u64 {
    let told = [
        piece_comes_and_goes(a, MemoryLocation::GpuOnly),
        piece_comes_and_goes(a, MemoryLocation::CpuToGpu),
        looks(a),
        resource_comes_and_goes(a, &ResourceType::Placed),
        resource_comes_and_goes(a, &own_memory()),
        u64::from(a.set_budget(0, Some(1)).is_err()),
    ];
    let mut refused: u64 = 0;
    for one in told {
        refused = refused.saturating_add(one);
    }
    refused
}

#[test]
fn each_call_of_the_directx_12_allocator_tells_of_its_refusal(rt: HostRuntime) -> Outcome {
    let tier = Ok(ResourceHeapTier::Tier2);
    let device = SimD3D12::new(rt.alloc(), tier, Vec::new(rt.alloc()));
    match Allocator::new(rt.alloc(), described(device)) {
        Ok(mut a) => {
            let refused = calls(&mut a);
            ends(refused, destroyed(a).held())
        }
        Err((_, back)) => ends(1, back.device().held()),
    }
}
