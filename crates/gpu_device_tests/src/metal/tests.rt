//! The answers of the simulated Metal device, with ample memory and with memory refused.

use super::laws::commit_one_heap;
use crate::steps::check;
use gpu_device::metal::{
    CpuCacheMode, HeapDescriptor, MTLHeap, MTLResidencySet, MetalDevice, StorageMode,
};
use gpu_sim::SimMetal;
use gpu_sim_base::Refusal;
use std::test::Fail;

pub(super) const PRIVATE: HeapDescriptor = HeapDescriptor {
    storage_mode: StorageMode::Private,
    cpu_cache_mode: CpuCacheMode::DefaultCache,
};

/// Whether the device holds so much, was asked so many questions, and refused so many.
pub(super) fn counts(sim: &SimMetal, want: (usize, u64, u64)) -> bool {
    (sim.held(), sim.questions(), sim.refusals()) == want
}

/// Asks for a heap of this size, which the device remembers.
pub(super) fn heap(sim: &mut SimMetal, size: u64, want: Option<MTLHeap>) -> bool {
    sim.new_heap(&PRIVATE, size, "heap") == want && sim.last_heap() == Some((PRIVATE, size))
}

/// Asks for a set.
fn set(sim: &mut SimMetal, want: Result<MTLResidencySet, i32>) -> bool {
    sim.new_residency_set("set") == want
}

/// Looks for sets under the number of a heap, and under one that stands for nothing.
fn no_sets(sim: &SimMetal) -> bool {
    sim.members(MTLResidencySet(2)).is_none() && sim.committed_members(MTLResidencySet(9)).is_none()
}

/// Gives back what is no heap, and then the heap, twice.
fn release_all(sim: &mut SimMetal) -> bool {
    sim.release_heap(MTLHeap(1));
    sim.release_heap(MTLHeap(2));
    sim.release_heap(MTLHeap(2));
    sim.held() == 1
}

/// A set and a heap, with a heap and two sets refused.
#[test]
fn heaps_and_sets(rt: HostRuntime) -> Result<(), Fail> {
    let refusals = vec![in rt.alloc();
        (2, Refusal::Code(-7)),
        (4, Refusal::Null),
        (5, Refusal::Code(-3)),
    ]?;
    let mut sim = SimMetal::new(rt.alloc(), true, refusals);
    let steps = [
        sim.last_heap().is_none(),
        set(&mut sim, Ok(MTLResidencySet(1))),
        heap(&mut sim, 512, None),
        heap(&mut sim, 1024, Some(MTLHeap(2))),
        set(&mut sim, Err(-1)),
        set(&mut sim, Err(-3)),
        counts(&sim, (2, 5, 3)),
        no_sets(&sim),
        release_all(&mut sim),
        heap(&mut sim, 1, Some(MTLHeap(3))),
    ];
    check(&rt, &steps);
    Ok(())
}

/// A set, and a heap that was its member when it was committed; none where the device refuses either.
#[tactic(auto, using(gpu_device::proofs::HeapsAndSets::metal_changes))]
pub(super) fn set_and_heap(sim: &mut SimMetal) -> Option<(MTLResidencySet, MTLHeap)> {
    let set = sim.new_residency_set("set").ok()?;
    let heap = commit_one_heap(sim, set, &PRIVATE, 512)?;
    Some((set, heap))
}
