//! A frame of moves, while the host refuses one request for memory. Such tests end as those of the allocator's `refused`.

use super::super::refused::{ends, take_again};
use super::*;
use std::test::Fail;

/// A piece that fills half a block, and that the host reads: uploads are asked for again where the device lacks host memory.
fn download() -> AllocationCreateDesc<'static> {
    managed(2 * MB, 256, MemoryLocation::GpuToCpu)
}

/// Begins a frame; where the host refused memory, none has begun, and it is asked for once more.
fn begin_again(d: &mut Defragmentation, refused: &mut u64) -> bool {
    match d.begin_frame(4 * MB, 2) {
        Ok(()) => true,
        Err(AllocError) => {
            *refused = refused.saturating_add(1);
            d.begin_frame(4 * MB, 2).is_ok()
        }
    }
}

/// Proposes a move, and once more where the host refused memory: whether it is open then.
fn opens(
    d: &mut Defragmentation,
    a: &mut Allocator<SimVulkan>,
    from: Allocation,
    refused: &mut u64,
) -> bool {
    match d.propose(a, from, &download()) {
        Ok(stays) => stays.is_none(),
        Err((AllocationError::HostOutOfMemory, same)) => {
            *refused = refused.saturating_add(1);
            d.open().len() == 0 && stays(d, a, same).is_none()
        }
        Err((_, _)) => false,
    }
}

/// Two pieces fill the lower block and one lies in the upper one; the first moves beside it.
fn moved(a: &mut Allocator<SimVulkan>, d: &mut Defragmentation, refused: &mut u64) -> Option<bool> {
    let first = take_again(a, &download(), refused)?;
    let second = take_again(a, &download(), refused)?;
    let ahead = take_again(a, &download(), refused)?;
    let began = begin_again(d, refused);
    let opened = opens(d, a, first, refused);
    let done = finished(a, d.take(0)?)?;
    let there = place(&done.allocation) == (1, 2 * MB, Some(1)) && done.freed == 0;
    let freed = give(a, second) && give(a, ahead) && give(a, done.allocation);
    Some(began && opened && there && freed)
}

/// The moves of one allocator.
fn told(alloc: Global, mut a: Allocator<SimVulkan>) -> std::result::Result<(), Fail> {
    let mut refused = 0;
    let mut d = Defragmentation::new(alloc);
    let done = moved(&mut a, &mut d, &mut refused);
    let device = a.destroy(&Discard);
    ends(refused, done == Some(true) && device.held() == 0)
}

#[test]
fn a_frame_begins_or_nothing_changes_where_memory_is_refused(
    rt: HostRuntime,
) -> std::result::Result<(), Fail> {
    match simulated(rt.alloc(), &with_types(&[HOST])) {
        Ok(device) => match Allocator::new(&Discard, rt.alloc(), described(device, small())) {
            Ok(a) => told(rt.alloc(), a),
            Err((_, device)) => ends(1, device.held() == 0),
        },
        Err(AllocError) => ends(1, true),
    }
}
