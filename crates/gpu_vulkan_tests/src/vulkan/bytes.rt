//! Bytes of mapped allocations.

use super::refused::are_same;
use super::*;
use gpu_values::AllocatorReport;

/// Writes over the whole of an allocation: whether it could.
pub(super) fn write(a: &mut Allocator<SimVulkan>, x: &Allocation, bytes: &[u8]) -> bool {
    match a.mapped_slice_mut(x) {
        Some(slice) => {
            if slice.len() != bytes.len() {
                return false;
            }
            slice.copy_from_slice(bytes);
            true
        }
        None => false,
    }
}

/// Whether the allocation reads as these bytes.
pub(super) fn reads(a: &Allocator<SimVulkan>, x: &Allocation, bytes: &[u8]) -> bool {
    match a.mapped_slice(x) {
        Some(slice) => slice == bytes,
        None => false,
    }
}

/// Four bytes of this memory.
fn four(location: MemoryLocation) -> AllocationCreateDesc<'static> {
    managed(4, 4, location)
}

/// Writes to two pieces side by side, which begin as zeros, and hold 1 to 8 then.
fn write_two(a: &mut Allocator<SimVulkan>, x: &Allocation, y: &Allocation) -> bool {
    place(y) == (0, 4, Some(3))
        && reads(a, x, &[0, 0, 0, 0])
        && write(a, x, &[1, 2, 3, 4])
        && write(a, y, &[5, 6, 7, 8])
}

/// Whether the slab of an allocation is its bytes.
fn slab_is_bytes(a: &mut Allocator<SimVulkan>, x: &Allocation) -> bool {
    match a.try_as_mapped_slab(x) {
        Some(mut slab) => {
            if slab.size() != 4 || slab.as_slice() != [0u8, 0, 0, 0].as_slice() {
                return false;
            }
            slab.as_mut_slice().fill(7);
        }
        None => return false,
    }
    reads(a, x, &[7, 7, 7, 7])
}

fn slab_of_four(a: &mut Allocator<SimVulkan>) -> bool {
    match take(a, &four(MemoryLocation::CpuToGpu)) {
        Some(x) => slab_is_bytes(a, &x) && is_not_lent(a, &Allocation::default()),
        None => false,
    }
}

#[test]
fn a_slab_is_the_allocations_bytes(rt: HostRuntime) {
    let done = match made(rt.alloc(), &with_types(&[HOST]), AllocationSizes::default()) {
        Some(mut a) => {
            let done = slab_of_four(&mut a);
            let _ = a.destroy(&Discard);
            done
        }
        None => false,
    };
    check(&rt, &[done]);
}

/// Whether the memory begins with these bytes, and all others are zeros.
fn holds(a: &Allocator<SimVulkan>, memory: DeviceMemory, front: &[u8]) -> bool {
    match a.device().bytes(memory, 0, 4 * MB) {
        Some(bytes) => match bytes.split_at_checked(front.len()) {
            Some((own, rest)) => own == front && rest.iter().all(|byte| *byte == 0),
            None => false,
        },
        None => false,
    }
}

/// Whether bytes aren't lent.
fn is_not_lent(a: &mut Allocator<SimVulkan>, other: &Allocation) -> bool {
    a.mapped_slice_mut(other).is_none() && a.try_as_mapped_slab(other).is_none()
}

/// Borrows the bytes of a live allocation, which are dropped as they are.
fn borrow(a: &mut Allocator<SimVulkan>, live: &Allocation) -> bool {
    if a.mapped_slice_mut(live).is_none() {
        return false;
    }
    match a.try_as_mapped_slab(live) {
        Some(mut slab) => &*slab.as_mut_slice() == [1u8, 2, 3, 4].as_slice(),
        None => false,
    }
}

/// What the allocator holds and the device was asked.
fn counts(a: &Allocator<SimVulkan>) -> (u64, usize, u64) {
    (a.capacity(), a.device().held(), a.device().questions())
}

/// Whether a report shows the same as this one.
fn reports_same(a: &Allocator<SimVulkan>, before: &AllocatorReport) -> bool {
    match a.generate_report() {
        Ok(after) => are_same(before, &after),
        Err(_) => false,
    }
}

/// Asks for bytes that aren't lent, and then for those of a live allocation: capacity, report, and what the device holds and
/// was asked are as they were.
fn lend(
    a: &mut Allocator<SimVulkan>,
    live: &Allocation,
    strange: &Allocation,
    unmapped: &Allocation,
) -> bool {
    let Ok(report) = a.generate_report() else {
        return false;
    };
    let before = counts(a);
    let lent = is_not_lent(a, &Allocation::default())
        && is_not_lent(a, strange)
        && is_not_lent(a, unmapped)
        && borrow(a, live);
    lent && counts(a) == before && reports_same(a, &report)
}

/// What lending leaves as it was, all bytes with it. `strange` is an allocation of another allocator.
fn lend_and_look(a: &mut Allocator<SimVulkan>, strange: &Allocation) -> Option<bool> {
    let x = take(a, &four(MemoryLocation::CpuToGpu))?;
    let y = take(a, &four(MemoryLocation::CpuToGpu))?;
    let unmapped = take(a, &four(MemoryLocation::GpuOnly))?;
    Some(
        write_two(a, &x, &y)
            && lend(a, &x, strange, &unmapped)
            && holds(a, x.memory(), &[1, 2, 3, 4, 5, 6, 7, 8]),
    )
}

/// Memory for uploads, and memory that the host can't see.
const BOTH: &[MemoryTypeInfo] = &[HOST, DEVICE];

/// An upload of an allocator that is gone then.
fn strange_upload(alloc: Global) -> Option<Allocation> {
    let mut other = made(alloc, &with_types(BOTH), small())?;
    let strange = take(&mut other, &managed(16, 16, MemoryLocation::CpuToGpu));
    let _ = other.destroy(&Discard);
    strange
}

/// Whether lending changes nothing, and the device holds nothing at last.
fn lends(alloc: Global, strange: &Allocation) -> bool {
    match made(alloc, &with_types(BOTH), small()) {
        Some(mut a) => {
            let done = lend_and_look(&mut a, strange);
            let device = a.destroy(&Discard);
            done == Some(true) && device.held() == 0
        }
        None => false,
    }
}

#[test]
fn lending_changes_nothing_by_itself(rt: HostRuntime) {
    let done = match strange_upload(rt.alloc()) {
        Some(strange) => lends(rt.alloc(), &strange),
        None => false,
    };
    check(&rt, &[done]);
}
