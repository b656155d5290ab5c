//! What a piece tells of itself, what the device is asked for, and what is told of its refusals.

use super::*;
use gpu_values::AllocationError;

/// Whether it is all that the first piece tells of itself.
fn is_first_piece(x: &Allocation) -> bool {
    place(x) == (0, 0, Some(2))
        && (x.size(), x.memory_type_index()) == (512, 0)
        && !x.is_dedicated()
        && x.is_mapped()
        && !x.is_null()
        && x.memory() == DeviceMemory(1)
        && x.memory_properties() == MemoryPropertyFlags(6)
}

fn first_piece(a: &mut Allocator<SimVulkan>) -> bool {
    match take(a, &managed(512, 256, MemoryLocation::CpuToGpu)) {
        Some(x) => {
            let told = is_first_piece(&x) && a.is_live(&x) && a.budget(0) == None;
            told && a.capacity() == 64 * MB && give(a, x)
        }
        None => false,
    }
}

/// A piece of a device whose memories have 64 MB at most.
fn shared(alloc: Global) -> bool {
    let properties = Properties {
        limit: 64 * MB,
        ..with_types(&[HOST])
    };
    match made(alloc, &properties, AllocationSizes::default()) {
        Some(mut a) => {
            let done = first_piece(&mut a);
            let capacity = a.capacity();
            let device = a.destroy(&Discard);
            let counts = (device.questions(), device.refusals(), device.held());
            done && capacity == 64 * MB && counts == (2, 0, 0)
        }
        None => false,
    }
}

/// A piece that is asked for with a block of its own.
fn dedicated_piece(a: &mut Allocator<SimVulkan>) -> bool {
    let scheme = AllocationScheme::DedicatedBuffer(Buffer(7));
    let mut desc = managed(1000, 1, MemoryLocation::GpuOnly);
    desc.allocation_scheme = scheme;
    let info = MemoryAllocateInfo {
        size: 1000,
        memory_type_index: 0,
        device_address: true,
        scheme,
    };
    match take(a, &desc) {
        Some(y) => {
            y.is_dedicated() && y.chunk_id().is_some() && a.device().last_info() == Some(info)
        }
        None => false,
    }
}

/// Such a piece, of which the device holds nothing at last.
fn dedicated(alloc: Global) -> bool {
    match made(alloc, &with_types(&[DEVICE]), AllocationSizes::default()) {
        Some(mut a) => {
            let done = dedicated_piece(&mut a);
            let device = a.destroy(&Discard);
            done && device.held() == 0
        }
        None => false,
    }
}

#[test]
fn pieces_tell_of_themselves_and_name_their_resource(rt: HostRuntime) {
    check(&rt, &[shared(rt.alloc()), dedicated(rt.alloc())]);
}

/// What a piece of memory that is mapped is refused with by a device that refuses this question so.
fn error_of(alloc: Global, refusal: (u64, Refusal)) -> Option<AllocationError> {
    let properties = Properties {
        refusals: &[refusal],
        ..with_types(&[HOST])
    };
    let mut a = made(alloc, &properties, AllocationSizes::default())?;
    let answer = a.allocate(&Discard, &managed(512, 256, MemoryLocation::GpuToCpu));
    let _ = a.destroy(&Discard);
    match answer {
        Ok(_) => None,
        Err(error) => Some(error),
    }
}

fn is_null_mapping(error: Option<AllocationError>) -> bool {
    match error {
        Some(AllocationError::FailedToMap(fault)) => {
            fault.text == "Returned mapped pointer is null" && fault.code.is_none()
        }
        _ => false,
    }
}

fn is_fault_of_the_device(error: Option<AllocationError>) -> bool {
    match error {
        Some(AllocationError::Internal(fault)) => {
            fault.text == "Unexpected error in vkAllocateMemory" && fault.code == Some(-4)
        }
        _ => false,
    }
}

#[test]
fn a_null_mapping_and_another_code_are_told(rt: HostRuntime) {
    let steps = [
        is_null_mapping(error_of(rt.alloc(), (2, Refusal::Null))),
        is_fault_of_the_device(error_of(rt.alloc(), (1, Refusal::Code(-4)))),
    ];
    check(&rt, &steps);
}
