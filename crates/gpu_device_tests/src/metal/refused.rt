//! Heaps and a residency set, while the host refuses one request for memory. With ample memory the tests pass.

ghost use Rattle.std.specs.Prelude.{All};
ghost use Rattle.gpu_device.specs.Metal.{IsHeap, IsSet};
ghost use Rattle.gpu_sim_metal.specs.Simulation.{held_of};

use super::tests::{PRIVATE, counts, heap, set_and_heap};
use crate::steps::ends;
use gpu_device::metal::{MTLHeap, MTLResidencySet, MetalDevice};
use gpu_sim::SimMetal;
use std::alloc::Global;
use std::test::Fail;

const HEAPS: usize = 10_000;

/// Where the host refuses memory, the counts alone tell of it: no number is lost.
fn ask(sim: &mut SimMetal) -> (bool, bool) {
    match set_and_heap(sim) {
        Some(both) => {
            let held = both == (MTLResidencySet(1), MTLHeap(2)) && counts(sim, (2, 2, 0));
            (false, held)
        }
        None => {
            let held = sim.held();
            let next = (held as u64).saturating_add(1);
            let held = counts(sim, (held, next, 1)) && heap(sim, 512, Some(MTLHeap(next)));
            (true, held)
        }
    }
}

#[test]
fn a_set_and_a_heap(rt: HostRuntime) -> Result<(), Fail> {
    let mut sim = SimMetal::new(rt.alloc(), true, Vec::new(rt.alloc()));
    let (refused, held) = ask(&mut sim);
    ends(refused, held)
}

/// Makes heaps until one is refused or there are so many, and adds each to the set and to the list of heaps.
#[tactic(auto, using(gpu_device::proofs::HeapsAndSets::metal_kinds))]
fn add_new(sim: &mut SimMetal, set: MTLResidencySet, heaps: &mut Vec<MTLHeap>)
    requires set { IsSet (held_of sim.old) set.0 }
    requires heaps { All (λ heap. IsHeap (held_of sim.old) heap.0) heaps.old.items }
    ensures set { IsSet (held_of sim.new) set.0 }
    ensures heaps { All (λ heap. IsHeap (held_of sim.new) heap.0) heaps.new.items }
{
    for _ in 0..HEAPS {
        let Some(heap) = sim.new_heap(&PRIVATE, 256, "heap") else {
            return;
        };
        sim.add_allocation(set, heap);
        let _pushed = heaps.push(heap);
    }
}

/// Adds each heap to the set.
#[tactic(auto, using(gpu_device::proofs::HeapsAndSets::metal_kinds))]
fn add_each(sim: &mut SimMetal, set: MTLResidencySet, heaps: &[MTLHeap])
    requires set { IsSet (held_of sim.old) set.0 }
    requires heaps { All (λ heap. IsHeap (held_of sim.old) heap.0) heaps.now }
    ensures set { IsSet (held_of sim.new) set.0 }
    ensures heaps { All (λ heap. IsHeap (held_of sim.new) heap.0) heaps.now }
{
    for heap in heaps {
        sim.add_allocation(set, *heap);
    }
}

/// Removes each heap from the set.
#[tactic(auto, using(gpu_device::proofs::HeapsAndSets::metal_kinds))]
fn remove_each(sim: &mut SimMetal, set: MTLResidencySet, heaps: &[MTLHeap])
    requires set { IsSet (held_of sim.old) set.0 }
    requires heaps { All (λ heap. IsHeap (held_of sim.old) heap.0) heaps.now }
    ensures set { IsSet (held_of sim.new) set.0 }
    ensures heaps { All (λ heap. IsHeap (held_of sim.new) heap.0) heaps.now }
{
    for heap in heaps {
        sim.remove_allocation(set, *heap);
    }
}

/// Whether the set has these heaps, and had those at the last commit.
fn has(sim: &SimMetal, set: MTLResidencySet, members: &[MTLHeap], committed: &[MTLHeap]) -> bool {
    sim.members(set) == Some(members) && sim.committed_members(set) == Some(committed)
}

/// Removes the set's heaps, adds them again and commits.
#[tactic(auto, using(gpu_device::proofs::HeapsAndSets::metal_kinds))]
fn remove_and_add(sim: &mut SimMetal, set: MTLResidencySet, heaps: &[MTLHeap]) -> bool
    requires set { IsSet (held_of sim.old) set.0 }
    requires heaps { All (λ heap. IsHeap (held_of sim.old) heap.0) heaps.now }
{
    let full = has(sim, set, heaps, &[]);
    remove_each(sim, set, heaps);
    let empty = has(sim, set, &[], &[]);
    add_each(sim, set, heaps);
    let again = has(sim, set, heaps, &[]);
    sim.commit(set);
    full && empty && again && has(sim, set, heaps, heaps)
}

/// Fills a set, and looks that its calls take no memory.
#[tactic(auto, using(gpu_device::proofs::HeapsAndSets::metal_kinds))]
fn fill(alloc: Global, sim: &mut SimMetal) -> (bool, bool) {
    let Ok(mut heaps) = Vec::with_capacity(alloc, HEAPS) else {
        return (true, true);
    };
    let Ok(set) = sim.new_residency_set("set") else {
        return (true, counts(sim, (0, 1, 1)));
    };
    add_new(sim, set, &mut heaps);
    let count = heaps.len();
    let held = sim.held() == count + 1 && remove_and_add(sim, set, &heaps);
    let refused = sim.refusals() == 1;
    (
        refused,
        held && (refused || (count, sim.refusals()) == (HEAPS, 0)),
    )
}

/// Once the heaps are made and added, removing them, adding them again and committing take no memory: those calls can't
/// tell of a refusal, so `tools/check_refused` would find any request of theirs. A set looks through its members for a heap
/// that is added: a fifth of a second in all as it is built, and over a minute under the checks of `rt try --test`.
#[test]
fn a_set_has_room_for_ten_thousand_heaps(rt: HostRuntime) -> Result<(), Fail> {
    let mut sim = SimMetal::new(rt.alloc(), true, Vec::new(rt.alloc()));
    let (refused, held) = fill(rt.alloc(), &mut sim);
    ends(refused, held)
}
