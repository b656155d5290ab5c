//! Moves of a frame that stay open: two heaps of 4 MB have room for two pieces of 2 MB each.

mod refused;

use super::*;
use gpu_defragment::metal::{Defragmentation, Finished, Move};
use gpu_metal::Allocation;
use gpu_values::AllocationError;

const MB: u64 = 1_048_576;

/// A piece of so many bytes.
fn sized(size: u64) -> AllocationCreateDesc<'static> {
    piece(size, MemoryLocation::GpuOnly)
}

/// A piece that fills half a heap.
fn take(a: &mut Allocator<SimMetal>) -> Option<Allocation> {
    match a.allocate(&Discard, &sized(2 * MB)) {
        Ok(allocation) => Some(allocation),
        Err(_) => None,
    }
}

/// Proposes a move: the piece, where it stays.
fn stays(
    d: &mut Defragmentation,
    a: &mut Allocator<SimMetal>,
    from: Allocation,
) -> Option<Allocation> {
    match d.propose(a, from, &sized(2 * MB)) {
        Ok(stays) => stays,
        Err((_, _)) => None,
    }
}

/// Finishes a move: the piece at its second place, and the bytes that went back.
fn finished(a: &mut Allocator<SimMetal>, ready: Move) -> Option<Finished> {
    match ready.finish(&Discard, a) {
        Ok(done) => Some(done),
        Err((_, _)) => None,
    }
}

/// Abandons a move: the piece at its first place.
fn abandoned(a: &mut Allocator<SimMetal>, ready: Move) -> Option<Allocation> {
    match ready.abandon(&Discard, a) {
        Ok(from) => Some(from),
        Err((_, _)) => None,
    }
}

/// The slot and offset of a piece.
fn place(allocation: &Allocation) -> (usize, u64) {
    (allocation.memory_block_index(), allocation.offset())
}

/// One move fits the frame and is finished; no other is open. A request of another size is refused, and the piece comes back.
fn one_moves(
    d: &mut Defragmentation,
    a: &mut Allocator<SimMetal>,
    first: Allocation,
    fourth: Allocation,
) -> Option<(Allocation, Allocation)> {
    let began = d.begin_frame(2 * MB, 1).is_ok();
    let first = match d.propose(a, first, &sized(MB)) {
        Err((AllocationError::InvalidAllocationCreateDesc, same)) => same,
        _ => return None,
    };
    let opened = stays(d, a, first).is_none() && d.open().len() == 1 && !d.has_room(1);
    let fourth = stays(d, a, fourth)?;
    let none = d.take(1).is_none() && d.open().len() == 1;
    let done = finished(a, d.take(0)?)?;
    if began && opened && none && done.freed == 0 && d.open().len() == 0 {
        Some((done.allocation, fourth))
    } else {
        None
    }
}

/// The last piece of the lower heap is too long for a frame of 1 MB; its move is abandoned once, and then finished, and the heap goes
/// back. A piece of the highest heap stays.
fn the_last_moves(
    d: &mut Defragmentation,
    a: &mut Allocator<SimMetal>,
    last: Allocation,
    highest: Allocation,
) -> Option<bool> {
    let began = d.begin_frame(MB, 5).is_ok();
    let last = stays(d, a, last)?;
    let again = d.begin_frame(4 * MB, 5).is_ok();
    let highest = stays(d, a, highest)?;
    let opened = stays(d, a, last).is_none();
    let last = abandoned(a, d.take(0)?)?;
    let back = place(&last) == (0, 2 * MB) && a.capacity() == 8 * MB;
    let reopened = stays(d, a, last).is_none();
    let done = finished(a, d.take(0)?)?;
    let moved = place(&done.allocation) == (1, 2 * MB) && done.freed == 4 * MB;
    let freed = a.free(&Discard, highest).is_ok() && a.free(&Discard, done.allocation).is_ok();
    Some(began && again && opened && back && reopened && moved && freed)
}

/// Both pieces of the lower heap move, in two frames.
fn a_heap_goes(a: &mut Allocator<SimMetal>, d: &mut Defragmentation) -> Option<bool> {
    let first = take(a)?;
    let second = take(a)?;
    let third = take(a)?;
    let fourth = take(a)?;
    let given = a.free(&Discard, third).is_ok();
    let (moved, fourth) = one_moves(d, a, first, fourth)?;
    let there = place(&moved) == (1, 0) && a.free(&Discard, fourth).is_ok();
    let all = the_last_moves(d, a, second, moved)?;
    Some(given && there && all && a.capacity() == 4 * MB)
}

/// An allocator of heaps of 4 MB over a simulated device.
fn small(alloc: Global) -> Option<Allocator<SimMetal>> {
    let device = simulated(alloc, &[])?;
    let sizes = AllocationSizes::new(4 * MB, 4 * MB);
    match Allocator::new(alloc, described(device, sizes, false)) {
        Ok(allocator) => Some(allocator),
        Err((_, _)) => None,
    }
}

#[test]
fn moves_stay_open_until_they_end(rt: HostRuntime) {
    let done = match small(rt.alloc()) {
        Some(mut a) => {
            let mut d = Defragmentation::new(rt.alloc());
            let done = a_heap_goes(&mut a, &mut d);
            let held = a.destroy().held();
            done == Some(true) && held == 0
        }
        None => false,
    };
    check(&rt, &[done]);
}
