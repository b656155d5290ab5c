//! Devices that no allocator is made of.

use super::*;
use gpu_values::AllocationError;

/// The text with which an allocator over this device is refused.
fn refusal(alloc: Global, number: u64, properties: &Properties) -> Option<&'static str> {
    let device = simulated(alloc, properties).ok()?;
    let mut desc = described(device, AllocationSizes::default());
    desc.physical_device = PhysicalDevice(number);
    match Allocator::new(&Discard, alloc, desc) {
        Ok(allocator) => {
            let _ = allocator.destroy(&Discard);
            Some("none")
        }
        Err((AllocationError::InvalidAllocatorCreateDesc(fault), _)) => Some(fault.text),
        Err((_, _)) => None,
    }
}

/// Memory of the second heap.
const OF_SECOND: MemoryTypeInfo = MemoryTypeInfo {
    property_flags: MemoryPropertyFlags(6),
    heap_index: 1,
};

/// More memory types than a device may have.
const MANY: &[MemoryTypeInfo] = &[OF_SECOND; 33];

/// As many as it may have.
const FEWER: &[MemoryTypeInfo] = &[OF_SECOND; 32];

#[test]
fn bad_devices_are_refused_in_order(rt: HostRuntime) {
    let alloc = rt.alloc();
    let odd = Properties {
        granularity: 3,
        ..with_types(MANY)
    };
    let two = Properties {
        heaps: &[GIGABYTE, GIGABYTE],
        ..with_types(FEWER)
    };
    let null = "AllocatorCreateDesc field `physical_device` is null.";
    let pages = "buffer image granularity is not a power of two.";
    let heap = "memory type with a heap index out of range.";
    let steps = [
        refusal(alloc, 0, &odd) == Some(null),
        refusal(alloc, 1, &odd) == Some(pages),
        refusal(alloc, 1, &with_types(MANY)) == Some("more than 32 memory types."),
        refusal(alloc, 1, &with_types(FEWER)) == Some(heap),
        refusal(alloc, 1, &two) == Some("none"),
    ];
    check(&rt, &steps);
}
