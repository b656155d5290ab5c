//! What is refused, and what is told of it.

use super::*;
use gpu_values::AllocationError;

/// Whether a piece of 512 bytes is refused with this text.
fn refuses(alloc: Global, a: &mut Allocator<SimD3D12>, told: &str) -> bool {
    let desc = piece_for(MemoryLocation::GpuOnly, ResourceCategory::Buffer);
    match a.allocate(&Discard, &desc) {
        Ok(_) => false,
        Err(error) => prints(alloc, &error, told) && a.capacity() == 0,
    }
}

/// Whether a device that refuses its first question so has an allocator tell this text, and holds nothing then.
fn first_refused(alloc: Global, refusal: Refusal, told: &str) -> bool {
    match made(alloc, &[(1, refusal)]) {
        Some(mut a) => {
            let refused = refuses(alloc, &mut a, told);
            let held = destroyed(a).held();
            refused && held == 0
        }
        None => false,
    }
}

/// Whether no allocator is made of a device that doesn't tell its tier.
fn tier_is_not_told(alloc: Global) -> bool {
    let Some(device) = simulated(alloc, Err(-7), &[]) else {
        return false;
    };
    match Allocator::new(alloc, described(device)) {
        Ok(a) => {
            let _ = destroyed(a);
            false
        }
        Err((AllocationError::Internal(fault), ID3D12DeviceVersion::Device12(device))) => {
            fault.text == "ID3D12Device::CheckFeatureSupport failed"
                && fault.code == Some(-7)
                && device.questions() == 0
        }
        Err((_, _)) => false,
    }
}

#[test]
fn refused_heaps_and_a_tier_that_is_not_told(rt: HostRuntime) {
    let alloc = rt.alloc();
    let failed = "Internal error: ID3D12Device::CreateHeap failed (code -5)";
    let null = "Internal error: ID3D12Heap pointer is null, but should not be.";
    let steps = [
        first_refused(alloc, Refusal::Code(-2147024882), "Out of memory"),
        first_refused(alloc, Refusal::Code(-5), failed),
        first_refused(alloc, Refusal::Null, null),
        tier_is_not_told(alloc),
    ];
    check(&rt, &steps);
}
