//! Moves of a frame that stay open: two blocks of 4 MB have room for two pieces of 2 MB each.

mod refused;

use super::*;
use gpu_defragment::vulkan::{Defragmentation, Finished, Move};
use gpu_values::AllocationError;

/// A piece that fills half a block.
fn half() -> AllocationCreateDesc<'static> {
    managed(2 * MB, 256, MemoryLocation::CpuToGpu)
}

/// Proposes a move: the piece, where it stays.
fn stays(
    d: &mut Defragmentation,
    a: &mut Allocator<SimVulkan>,
    from: Allocation,
) -> Option<Allocation> {
    match d.propose(a, from, &half()) {
        Ok(stays) => stays,
        Err((_, _)) => None,
    }
}

/// Finishes a move: the piece at its second place, and the bytes that went back.
fn finished(a: &mut Allocator<SimVulkan>, ready: Move) -> Option<Finished> {
    match ready.finish(&Discard, a) {
        Ok(done) => Some(done),
        Err((_, _)) => None,
    }
}

/// Abandons a move: the piece at its first place.
fn abandoned(a: &mut Allocator<SimVulkan>, ready: Move) -> Option<Allocation> {
    match ready.abandon(&Discard, a) {
        Ok(from) => Some(from),
        Err((_, _)) => None,
    }
}

/// One move fits the frame and is finished; no other is open.
fn one_moves(
    d: &mut Defragmentation,
    a: &mut Allocator<SimVulkan>,
    first: Allocation,
    fourth: Allocation,
) -> Option<(Allocation, Allocation)> {
    let began = d.begin_frame(2 * MB, 1).is_ok();
    let opened = stays(d, a, first).is_none() && d.open().len() == 1;
    let fourth = stays(d, a, fourth)?;
    let none = d.take(1).is_none() && d.open().len() == 1;
    let done = finished(a, d.take(0)?)?;
    if began && opened && none && done.freed == 0 && d.open().len() == 0 {
        Some((done.allocation, fourth))
    } else {
        None
    }
}

/// The last piece of the lower block is too long for a frame of 1 MB; its move is abandoned once, and then finished, and the block
/// goes back. A piece of the highest block stays.
fn the_last_moves(
    d: &mut Defragmentation,
    a: &mut Allocator<SimVulkan>,
    last: Allocation,
    highest: Allocation,
) -> Option<bool> {
    let began = d.begin_frame(MB, 5).is_ok();
    let last = stays(d, a, last)?;
    let again = d.begin_frame(4 * MB, 5).is_ok();
    let highest = stays(d, a, highest)?;
    let opened = stays(d, a, last).is_none();
    let last = abandoned(a, d.take(0)?)?;
    let back = place(&last) == (0, 2 * MB, Some(1)) && a.capacity() == 8 * MB;
    let reopened = stays(d, a, last).is_none();
    let done = finished(a, d.take(0)?)?;
    let moved = place(&done.allocation) == (1, 2 * MB, Some(1)) && done.freed == 4 * MB;
    let freed = give(a, highest) && give(a, done.allocation);
    Some(began && again && opened && back && reopened && moved && freed)
}

/// Both pieces of the lower block move, in two frames.
fn a_block_goes(a: &mut Allocator<SimVulkan>, d: &mut Defragmentation) -> Option<bool> {
    let first = take(a, &half())?;
    let second = take(a, &half())?;
    let third = take(a, &half())?;
    let fourth = take(a, &half())?;
    let given = give(a, third);
    let (moved, fourth) = one_moves(d, a, first, fourth)?;
    let there = place(&moved) == (1, 0, Some(2)) && give(a, fourth);
    let all = the_last_moves(d, a, second, moved)?;
    Some(given && there && all && a.capacity() == 4 * MB)
}

#[test]
fn moves_stay_open_until_they_end(rt: HostRuntime) {
    let done = match made(rt.alloc(), &with_types(&[HOST]), small()) {
        Some(mut a) => {
            let mut d = Defragmentation::new(rt.alloc());
            let done = a_block_goes(&mut a, &mut d);
            let device = a.destroy(&Discard);
            done == Some(true) && device.held() == 0
        }
        None => false,
    };
    check(&rt, &[done]);
}

/// Proposes a move of a null allocation, which no request is for: whether it comes back.
fn a_null_one_comes_back(a: &mut Allocator<SimVulkan>, d: &mut Defragmentation) -> bool {
    let began = d.begin_frame(2 * MB, 1).is_ok();
    let back = match d.propose(a, Allocation::default(), &half()) {
        Err((AllocationError::InvalidAllocationCreateDesc, none)) => !a.is_live(&none),
        _ => false,
    };
    began && back && d.open().len() == 0
}

#[test]
fn a_null_allocation_comes_back(rt: HostRuntime) {
    let done = match made(rt.alloc(), &with_types(&[HOST]), small()) {
        Some(mut a) => {
            let mut d = Defragmentation::new(rt.alloc());
            let done = a_null_one_comes_back(&mut a, &mut d);
            let device = a.destroy(&Discard);
            done && device.held() == 0
        }
        None => false,
    };
    check(&rt, &[done]);
}
