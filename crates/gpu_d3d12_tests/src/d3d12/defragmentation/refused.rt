//! A frame of moves, while the host refuses one request for memory. Such tests end as those of the allocator's `refused`.

use super::super::refused::{Outcome, ends};
use super::*;
use std::alloc::AllocError;

/// Allocates a piece; where the host refused memory, none has come, and it is asked for once more.
fn take_again(a: &mut Allocator<SimD3D12>, refused: &mut u64) -> Option<Allocation> {
    let before = a.capacity();
    match take(a) {
        Some(allocation) => Some(allocation),
        None => {
            *refused = refused.saturating_add(1);
            if a.capacity() == before {
                take(a)
            } else {
                None
            }
        }
    }
}

/// Begins a frame; where the host refused memory, none has begun, and it is asked for once more.
fn begin_again(d: &mut Defragmentation, refused: &mut u64) -> bool {
    match d.begin_frame(4 * MB, 2) {
        Ok(()) => true,
        Err(AllocError) => {
            *refused = refused.saturating_add(1);
            d.begin_frame(4 * MB, 2).is_ok()
        }
    }
}

/// Proposes a move, and once more where the host refused memory: whether it is open then.
fn opens(
    d: &mut Defragmentation,
    a: &mut Allocator<SimD3D12>,
    from: Allocation,
    refused: &mut u64,
) -> bool {
    match d.propose(a, from, &sized(2 * MB)) {
        Ok(stays) => stays.is_none(),
        Err((AllocationError::HostOutOfMemory, same)) => {
            *refused = refused.saturating_add(1);
            d.open().len() == 0 && stays(d, a, same).is_none()
        }
        Err((_, _)) => false,
    }
}

/// Two pieces fill the lower heap and one lies in the upper one; the first moves beside it.
fn moved(a: &mut Allocator<SimD3D12>, d: &mut Defragmentation, refused: &mut u64) -> Option<bool> {
    let first = take_again(a, refused)?;
    let second = take_again(a, refused)?;
    let ahead = take_again(a, refused)?;
    let began = begin_again(d, refused);
    let opened = opens(d, a, first, refused);
    let done = finished(a, d.take(0)?)?;
    let there = place(&done.allocation) == (1, 2 * MB) && done.freed == 0;
    let freed = a.free(&Discard, second).is_ok()
        && a.free(&Discard, ahead).is_ok()
        && a.free(&Discard, done.allocation).is_ok();
    Some(began && opened && there && freed)
}

/// The moves of one allocator; where one went wrong, the device seems to hold too much.
fn told(alloc: Global, mut a: Allocator<SimD3D12>) -> Outcome {
    let mut refused = 0;
    let mut d = Defragmentation::new(alloc);
    let done = moved(&mut a, &mut d, &mut refused);
    let held = destroyed(a).held();
    ends(refused, if done == Some(true) { held } else { 1 })
}

#[test]
fn a_frame_begins_or_nothing_changes_where_memory_is_refused(rt: HostRuntime) -> Outcome {
    let tier = Ok(ResourceHeapTier::Tier2);
    let mut desc = described(SimD3D12::new(rt.alloc(), tier, Vec::new(rt.alloc())));
    desc.allocation_sizes = AllocationSizes::new(4 * MB, 4 * MB);
    match Allocator::new(rt.alloc(), desc) {
        Ok(a) => told(rt.alloc(), a),
        Err((_, back)) => ends(1, back.device().held()),
    }
}
