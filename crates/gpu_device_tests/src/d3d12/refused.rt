//! A question for a heap, while the host refuses one request for memory. With ample memory the test passes.

use super::tests::{HEAP, counts, heap};
use crate::steps::ends;
use gpu_device::d3d12::{D3D12Device, ID3D12Heap, ResourceHeapTier};
use gpu_sim::SimD3D12;
use std::test::Fail;

/// Where the host refuses memory, the answer is code -2147024882, and the counts and the latest question alone tell of
/// it: no number is lost.
fn ask(sim: &mut SimD3D12) -> (bool, bool) {
    let first = Ok(Some(ID3D12Heap(1)));
    let answer = sim.create_heap(&HEAP);
    let named = sim.last_heap() == Some(HEAP);
    if answer == Err(-2147024882) {
        let held = counts(sim, (0, 1, 1)) && heap(sim, HEAP.size, first);
        return (true, named && held);
    }
    (false, named && answer == first && counts(sim, (1, 1, 0)))
}

#[test]
fn a_heap(rt: HostRuntime) -> Result<(), Fail> {
    let tier = Ok(ResourceHeapTier::Tier2);
    let mut sim = SimD3D12::new(rt.alloc(), tier, Vec::new(rt.alloc()));
    let (refused, held) = ask(&mut sim);
    ends(refused, held)
}
