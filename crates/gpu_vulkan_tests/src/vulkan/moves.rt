//! Second places of the Vulkan allocator's pieces: two blocks of 4 MB have room for two pieces of 2 MB each.

mod refused;

use super::bytes::{reads, write};
use super::*;
use gpu_values::AllocationError;

/// A piece that fills half a block.
fn half_a_block() -> AllocationCreateDesc<'static> {
    managed(2 * MB, 256, MemoryLocation::CpuToGpu)
}

/// A second place, where there is one.
fn second_place(a: &mut Allocator<SimVulkan>, from: &Allocation) -> Option<Allocation> {
    match a.propose_move(from, &half_a_block()) {
        Ok(place) => place,
        Err(_) => None,
    }
}

/// Whether there is none.
fn stays(a: &mut Allocator<SimVulkan>, from: &Allocation) -> bool {
    match a.propose_move(from, &half_a_block()) {
        Ok(place) => place.is_none(),
        Err(_) => false,
    }
}

/// Whether the request isn't the piece's.
fn is_invalid(
    a: &mut Allocator<SimVulkan>,
    from: &Allocation,
    desc: &AllocationCreateDesc,
) -> bool {
    match a.propose_move(from, desc) {
        Err(AllocationError::InvalidAllocationCreateDesc) => true,
        _ => false,
    }
}

/// Requests of another size, at no alignment, and for a buffer alone.
fn other_requests_are_invalid(a: &mut Allocator<SimVulkan>, from: &Allocation) -> bool {
    let mut alone = half_a_block();
    alone.allocation_scheme = AllocationScheme::DedicatedBuffer(Buffer(7));
    is_invalid(a, from, &managed(MB, 256, MemoryLocation::CpuToGpu))
        && is_invalid(a, from, &managed(2 * MB, 3, MemoryLocation::CpuToGpu))
        && is_invalid(a, from, &alone)
}

/// Both pieces of the lower block move to the upper one, which makes room, and the lower one goes.
fn a_block_empties(a: &mut Allocator<SimVulkan>) -> Option<bool> {
    let first = take(a, &half_a_block())?;
    let second = take(a, &half_a_block())?;
    let third = take(a, &half_a_block())?;
    let fourth = take(a, &half_a_block())?;
    let full = stays(a, &first) && other_requests_are_invalid(a, &first) && give(a, third);
    let to = second_place(a, &first)?;
    let placed = place(&to) == (1, 0, Some(2)) && a.is_live(&first) && a.is_live(&to);
    let moved = give(a, first) && stays(a, &to) && give(a, fourth);
    let again = second_place(a, &second)?;
    let emptied = give(a, second) && a.capacity() == 4 * MB;
    Some(full && placed && moved && place(&again) == (1, 2 * MB, Some(1)) && emptied)
}

#[test]
fn pieces_move_to_a_higher_block_until_theirs_is_empty(rt: HostRuntime) {
    let done = match made(rt.alloc(), &with_types(&[HOST]), small()) {
        Some(mut a) => {
            let done = a_block_empties(&mut a);
            let device = a.destroy(&Discard);
            done == Some(true) && device.held() == 0
        }
        None => false,
    };
    check(&rt, &[done]);
}

/// Moves a mapped piece by a request of another size, which is refused: whether it comes back as it was.
fn comes_back(a: &mut Allocator<SimVulkan>, from: Allocation) -> Option<Allocation> {
    match a.move_mapped(&Discard, from, &managed(8, 4, MemoryLocation::CpuToGpu)) {
        Err((AllocationError::InvalidAllocationCreateDesc, same)) => Some(same),
        _ => None,
    }
}

/// A piece of the device's own memory has no bytes that the host can carry.
fn stays_unmapped(a: &mut Allocator<SimVulkan>) -> Option<bool> {
    let desc = managed(4, 4, MemoryLocation::GpuOnly);
    let from = take(a, &desc)?;
    match a.move_mapped(&Discard, from, &desc) {
        Ok(same) => Some(place(&same) == (0, 0, Some(2)) && give(a, same)),
        Err((_, _)) => Some(false),
    }
}

/// A piece that is refused, and one without bytes, come back as they were; a dead one does too.
fn others_stay(a: &mut Allocator<SimVulkan>) -> Option<bool> {
    let from = take(a, &managed(4, 4, MemoryLocation::CpuToGpu))?;
    let written = write(a, &from, &[1, 2, 3, 4]);
    let same = comes_back(a, from)?;
    let kept = place(&same) == (0, 0, Some(2)) && reads(a, &same, &[1, 2, 3, 4]);
    let dead = match a.move_mapped(&Discard, Allocation::default(), &half_a_block()) {
        Ok(none) => !a.is_live(&none),
        Err((_, _)) => false,
    };
    Some(written && kept && dead && give(a, same) && stays_unmapped(a)?)
}

#[test]
fn pieces_that_cannot_be_carried_come_back(rt: HostRuntime) {
    let done = match made(rt.alloc(), &with_types(&[DEVICE, HOST]), small()) {
        Some(mut a) => {
            let done = others_stay(&mut a);
            let device = a.destroy(&Discard);
            done == Some(true) && device.held() == 0
        }
        None => false,
    };
    check(&rt, &[done]);
}
