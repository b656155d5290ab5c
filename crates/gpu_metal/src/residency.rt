//! The residency set of an allocator, where it has one: the heaps of its live blocks are the members.

ghost use Rattle.std.specs.Prelude.{◌≡◌, ℤ, true, Err, MatchResult};
ghost use Rattle.gpu_values.specs.Refusal.{refusal_of};
ghost use Rattle.gpu_device.specs.Metal.{IsHeap};
ghost use Rattle.gpu_metal.specs.Residency.{MakesSet, AnswersSet, set_refusal, HoldsSet, with_joined, with_left, with_committed, join_recorded, leave_recorded, commit_recorded, ChangesHeld};

use gpu_device::metal::{MTLHeap, MTLResidencySet, MetalDevice};
use gpu_values::{Result, internal_fault};

/// The label of the residency set.
const LABEL: &str = "gpu-allocator global residency set";

/// The residency set, where one is wanted. `Internal` where the device refuses it, and then what it holds is as before.
pub fn create_residency_set<D: MetalDevice>(
    device: &mut D,
    wanted: bool,
) -> Result<Option<MTLResidencySet>>
    ensures { MatchResult result (λ set. MakesSet D.MetalDevice wanted device.old set device.new)
        (λ e. (refusal_of e ≡ set_refusal) × (wanted ≡ true)
        × ((code : ℤ) × AnswersSet D.MetalDevice device.old (Err code) device.new)) }
{
    if !wanted {
        return Ok(None);
    }
    match device.new_residency_set(LABEL) {
        Ok(set) => Ok(Some(set)),
        Err(_) => Err(internal_fault(
            "Failed to create MTLResidencySet.  Unsupported MacOS/iOS version?",
        )),
    }
}

/// Makes a heap a member of the set, where there is one. Never refused.
pub fn join_set<D: MetalDevice>(device: &mut D, set: Option<MTLResidencySet>, heap: MTLHeap)
    requires set { HoldsSet (D.held device.old) set }
    requires heap { IsHeap (D.held device.old) heap.0 }
    ensures { ChangesHeld D.MetalDevice device.old (with_joined (D.held device.old) set heap)
        (join_recorded set heap (D.history device.old)) device.new }
{
    if let Some(set) = set {
        device.add_allocation(set, heap);
    }
}

/// Takes a heap out of the set, where there is one. Never refused.
pub fn leave_set<D: MetalDevice>(device: &mut D, set: Option<MTLResidencySet>, heap: MTLHeap)
    requires set { HoldsSet (D.held device.old) set }
    requires heap { IsHeap (D.held device.old) heap.0 }
    ensures { ChangesHeld D.MetalDevice device.old (with_left (D.held device.old) set heap)
        (leave_recorded set heap (D.history device.old)) device.new }
{
    if let Some(set) = set {
        device.remove_allocation(set, heap);
    }
}

/// Makes the members of the set its committed members, where there is one. Never refused.
pub fn commit_set<D: MetalDevice>(device: &mut D, set: Option<MTLResidencySet>)
    ensures { ChangesHeld D.MetalDevice device.old (with_committed (D.held device.old) set)
        (commit_recorded set (D.history device.old)) device.new }
{
    if let Some(set) = set {
        device.commit(set);
    }
}
