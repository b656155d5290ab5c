//! Second places of the DirectX 12 allocator's pieces: two heaps of 4 MB have room for two pieces of 2 MB each.

use super::*;
use gpu_d3d12::Allocation;
use gpu_values::AllocationError;

const MB: u64 = 1_048_576;

/// A piece of so many bytes.
fn sized(size: u64) -> AllocationCreateDesc<'static> {
    AllocationCreateDesc {
        size,
        ..piece_for(MemoryLocation::GpuOnly, ResourceCategory::Buffer)
    }
}

fn take(a: &mut Allocator<SimD3D12>) -> Option<Allocation> {
    match a.allocate(&Discard, &sized(2 * MB)) {
        Ok(allocation) => Some(allocation),
        Err(_) => None,
    }
}

/// A second place, where there is one.
fn second_place(a: &mut Allocator<SimD3D12>, from: &Allocation) -> Option<Allocation> {
    match a.propose_move(from, &sized(2 * MB)) {
        Ok(place) => place,
        Err(_) => None,
    }
}

/// Whether a request of another size is refused.
fn is_invalid(a: &mut Allocator<SimD3D12>, from: &Allocation) -> bool {
    match a.propose_move(from, &sized(MB)) {
        Err(AllocationError::InvalidAllocationCreateDesc) => true,
        _ => false,
    }
}

/// A piece of the lower heap moves to the upper one, which makes room.
fn a_piece_moves(a: &mut Allocator<SimD3D12>) -> Option<bool> {
    let first = take(a)?;
    let second = take(a)?;
    let third = take(a)?;
    let fourth = take(a)?;
    let full = second_place(a, &first).is_none() && is_invalid(a, &first);
    let freed = a.free(&Discard, third).is_ok();
    let to = second_place(a, &first)?;
    let placed = to.offset() == 0 && to.size() == 2 * MB && to.heap() == fourth.heap();
    let both = a.is_live(&first) && a.is_live(&to) && a.is_live(&second);
    Some(full && freed && placed && both && a.free(&Discard, first).is_ok() && a.is_live(&to))
}

/// The same over a simulated device, which gets all heaps back.
fn moves_over_a_device(alloc: Global) -> bool {
    let Some(device) = simulated(alloc, Ok(ResourceHeapTier::Tier2), &[]) else {
        return false;
    };
    let mut desc = described(device);
    desc.allocation_sizes = AllocationSizes::new(4 * MB, 4 * MB);
    match Allocator::new(alloc, desc) {
        Ok(mut a) => {
            let done = a_piece_moves(&mut a);
            let device = destroyed(a);
            done == Some(true) && device.held() == 0
        }
        Err((_, _)) => false,
    }
}

#[test]
fn pieces_move_to_a_higher_heap(rt: HostRuntime) {
    check(&rt, &[moves_over_a_device(rt.alloc())]);
}
