//! A simulated Metal device.

ghost use Rattle.std.specs.Prelude.{◌≡◌, refl, ◌+◌, [], ◌∷◌, Some, None, length, option_copied};
ghost use Rattle.std.specs.FinMap.{empty, len as map_len};
ghost use Rattle.gpu_device.specs.Granted.{IsNew, with_granted, counted};
ghost use Rattle.gpu_device.specs.Metal.{Heap, Set, IsHeap, IsSet, granted_heap, granted_set, without_heap, with_member, without_member, with_commit, members_of, committed_of};
ghost use Rattle.gpu_device.specs.MetalHistory.{questions_in, sets_in};
ghost use Rattle.gpu_device.specs.declared.metal.event.Event.TheVariants.{AskedHeap, AskedSet, ReleasedHeap, Added, Removed, Committed};
ghost use Rattle.gpu_sim_metal.specs.Answer.{asked, code_for_set, IsHeapAnswer, IsSetAnswer};
ghost use Rattle.gpu_sim_metal.specs.Objects.{held_by};
ghost use Rattle.gpu_sim_metal.specs.Scripted.{EndAsScripted, told, issued_in};
ghost use Rattle.gpu_sim_metal.specs.Sizes.{told_size, texture_bytes};

use crate::objects::Objects;
use crate::scripted_journal::ScriptedJournal;
use gpu_device::metal::{
    HeapDescriptor, MTLHeap, MTLResidencySet, MetalDevice, SizeAndAlign, StorageMode,
    TextureDescriptor,
};
use gpu_sim_base::{Refusal, rounded_up};
use std::alloc::Global;

/// In bytes.
const ALIGNMENT: u64 = 256;

/// There are no residency sets, the host refused memory, or the answer is null.
const NO_SET: i32 = -1;

/// A Metal device without a GPU: heaps and residency sets have the numbers 1, 2 and so on, and no number twice. Sizes are
/// rounded up to a multiple of 256 bytes, at least one. It refuses the questions that its script names by their number,
/// the first question being 1, and what the host refuses it. Made without residency sets, it refuses each of them.
#[derive(Drop)]
pub struct SimMetal {
    residency: bool,
    objects: Objects,
    journal: ScriptedJournal,
    ghost numbered: { length objects.numbers.slots.items ≡ issued_in journal.history },
    ghost told_sets: { residency ≡ sets_in journal.history },
}

impl SimMetal {
    ghost use Rattle.gpu_sim_metal.specs.Simulation.{held_of, history_of, refused_of, latest_heap_of, plan_of};

    /// A device that holds nothing, with residency sets or without. `refusals` names questions by their number, and of two
    /// at one number the first counts.
    pub fn new(alloc: Global, residency: bool, refusals: Vec<(u64, Refusal)>) -> Self
        ensures held { held_of result ≡ empty }
        ensures plan { plan_of result ≡ record
            { residency = residency; script = refusals.items; questions = 0; issued = 0 } }
        ensures refused { refused_of result ≡ 0 }
        ensures history { history_of result ≡ told residency refusals.items }
    {
        SimMetal {
            residency,
            objects: Objects::new(alloc),
            journal: ScriptedJournal::new(residency, refusals),
        }
    }

    /// How many heaps and sets it holds.
    pub fn held(&self) -> usize
        ensures { result ≡ map_len (held_of self.now) }
    {
        self.objects.count()
    }

    /// How many questions came, for heaps and for sets, granted or refused. The count stays at `u64::MAX`.
    pub fn questions(&self) -> u64
        ensures plan { result ≡ (plan_of self.now).questions }
        ensures history { result ≡ questions_in (history_of self.now) }
    {
        self.journal.questions()
    }

    /// At any time each question has ended as the script says, with which the history begins, and a grant has the number behind those
    /// before. It does nothing.
    pub fn ends_as_scripted(&self)
        ensures { EndAsScripted (history_of self.now) }
    {
        self.journal.ends_as_scripted();
    }

    /// The latest question for a heap, its description and its size in bytes, granted or refused.
    pub fn last_heap(&self) -> Option<(HeapDescriptor, u64)>
        ensures { result ≡ latest_heap_of self.now }
    {
        self.journal.last_heap()
    }

    /// The heaps of a set in the order in which they were added, where it is held.
    pub fn members(&self, set: MTLResidencySet) -> Option<&[MTLHeap]>
        ensures { option_copied result ≡ members_of (held_of self.now) set.0 }
    {
        match self.objects.set(set.0) {
            Some(set) => Some(set.members()),
            None => None,
        }
    }

    /// The heaps that a set had when it was last committed, in the order in which they were added, where it is held.
    pub fn committed_members(&self, set: MTLResidencySet) -> Option<&[MTLHeap]>
        ensures { option_copied result ≡ committed_of (held_of self.now) set.0 }
    {
        match self.objects.set(set.0) {
            Some(set) => Some(set.committed()),
            None => None,
        }
    }
}

/// The answer to a question for a heap: a number, or none where the script or the host refuses it.
fn answer_heap(
    objects: &mut Objects,
    refusal: Option<Refusal>,
    desc: &HeapDescriptor,
    size: u64,
) -> Option<MTLHeap>
    ensures number { IsNew (held_by objects.old.numbers.slots.items) (granted_heap result) }
    ensures holds { held_by objects.new.numbers.slots.items
        ≡ with_granted (held_by objects.old.numbers.slots.items) (granted_heap result)
        (Heap desc.now size) }
    ensures answer { IsHeapAnswer refusal (length objects.old.numbers.slots.items + 1) result }
    ensures issues { length objects.new.numbers.slots.items
        ≡ asked (length objects.old.numbers.slots.items) (granted_heap result) }
{
    if refusal.is_some() {
        return None;
    }
    let number = objects.hold_heap(*desc, size).ok()?;
    Some(MTLHeap(number))
}

/// The answer to a question for a set: a number, or a code where there are no sets or the script or the host refuses it.
fn answer_set(
    objects: &mut Objects,
    residency: bool,
    refusal: Option<Refusal>,
) -> Result<MTLResidencySet, i32>
    ensures number { IsNew (held_by objects.old.numbers.slots.items) (granted_set result) }
    ensures holds { held_by objects.new.numbers.slots.items
        ≡ with_granted (held_by objects.old.numbers.slots.items) (granted_set result) (Set [] []) }
    ensures answer { IsSetAnswer residency refusal (length objects.old.numbers.slots.items + 1)
        result }
    ensures issues { length objects.new.numbers.slots.items
        ≡ asked (length objects.old.numbers.slots.items) (granted_set result) }
{
    if residency && refusal.is_none() {
        if let Ok(number) = objects.hold_set() {
            return Ok(MTLResidencySet(number));
        }
    }
    Err(code_for_set(refusal))
}

/// What a resource of so many bytes takes of a heap.
fn told_size(bytes: u64) -> SizeAndAlign
    ensures { result ≡ told_size bytes }
{
    SizeAndAlign {
        size: rounded_up(bytes, ALIGNMENT),
        align: ALIGNMENT,
    }
}

/// The code with which a residency set is refused.
fn code_for_set(refusal: Option<Refusal>) -> i32
    ensures { result ≡ code_for_set refusal }
{
    match refusal {
        Some(Refusal::Code(code)) => code,
        Some(Refusal::Null) | None => NO_SET,
    }
}

/// A texture's bytes: all its texels', at most as many as 64 bits hold.
fn texture_bytes(desc: &TextureDescriptor) -> u64
    ensures { result ≡ texture_bytes desc.now }
{
    desc.width
        .saturating_mul(desc.height)
        .saturating_mul(desc.bytes_per_texel)
}

impl MetalDevice for SimMetal {
    ghost use Rattle.gpu_sim_metal.specs.Simulation.{held_of, properties_of, history_of, refused_of, latest_heap_of, plan_of, planned, answered};
    ghost use Rattle.gpu_sim_metal.specs.SimulationLaws.{no_null as no_null_law};

    ghost properties = { properties_of };

    ghost held = { held_of };

    ghost history = { history_of };

    ghost refused = { refused_of };

    ghost latest_heap = { latest_heap_of };

    ghost no_null = { no_null_law };

    ghost refused_is = { λ s. refl };

    ghost latest_heap_is = { λ s. refl };

    fn heap_buffer_size_and_align(&self, length: u64, storage_mode: StorageMode) -> SizeAndAlign {
        told_size(length)
    }

    fn heap_texture_size_and_align(&self, desc: &TextureDescriptor) -> SizeAndAlign {
        told_size(texture_bytes(desc))
    }

    fn heap_acceleration_structure_size_and_align(&self, size: u64) -> SizeAndAlign {
        told_size(size)
    }

    fn refusals(&self) -> u64 {
        self.journal.refusals()
    }

    fn new_heap(&mut self, desc: &HeapDescriptor, size: u64, label: &str) -> Option<MTLHeap>
        ensures number { IsNew (held_of self.old) (granted_heap result) }
        ensures holds { held_of self.new
            ≡ with_granted (held_of self.old) (granted_heap result) (Heap desc.now size) }
        ensures counts { refused_of self.new ≡ counted (refused_of self.old) (granted_heap result) }
        ensures names_heap { latest_heap_of self.new ≡ Some (desc.now, size) }
        ensures recorded { history_of self.new
            ≡ AskedHeap desc.now size result ∷ history_of self.old }
        ensures constant { properties_of self.new ≡ properties_of self.old }
        ensures answer { IsHeapAnswer (planned (plan_of self.old)) ((plan_of self.old).issued + 1)
            result }
        ensures plan { plan_of self.new ≡ answered (plan_of self.old) (granted_heap result) }
    {
        let refusal = self.journal.next_refusal();
        let answer = answer_heap(&mut self.objects, refusal, desc, size);
        self.journal.asked_heap(desc, size, answer);
        answer
    }

    fn release_heap(&mut self, heap: MTLHeap)
        ensures gives_back { held_of self.new ≡ without_heap (held_of self.old) heap.0 }
        ensures counts_nothing { refused_of self.new ≡ refused_of self.old }
        ensures names_no_heap { latest_heap_of self.new ≡ latest_heap_of self.old }
        ensures recorded { history_of self.new ≡ ReleasedHeap heap ∷ history_of self.old }
        ensures constant { properties_of self.new ≡ properties_of self.old }
        ensures plan { plan_of self.new ≡ plan_of self.old }
    {
        self.objects.release_heap(heap.0);
        self.journal.released_heap(heap);
    }

    fn new_residency_set(&mut self, label: &str) -> Result<MTLResidencySet, i32>
        ensures number { IsNew (held_of self.old) (granted_set result) }
        ensures holds { held_of self.new
            ≡ with_granted (held_of self.old) (granted_set result) (Set [] []) }
        ensures counts { refused_of self.new ≡ counted (refused_of self.old) (granted_set result) }
        ensures names_no_heap { latest_heap_of self.new ≡ latest_heap_of self.old }
        ensures recorded { history_of self.new ≡ AskedSet result ∷ history_of self.old }
        ensures constant { properties_of self.new ≡ properties_of self.old }
        ensures answer { IsSetAnswer (plan_of self.old).residency (planned (plan_of self.old))
            ((plan_of self.old).issued + 1) result }
        ensures plan { plan_of self.new ≡ answered (plan_of self.old) (granted_set result) }
    {
        let refusal = self.journal.next_refusal();
        let answer = answer_set(&mut self.objects, self.residency, refusal);
        self.journal.asked_set(answer);
        answer
    }

    fn add_allocation(&mut self, set: MTLResidencySet, heap: MTLHeap)
        requires set { IsSet (held_of self.old) set.0 }
        requires heap { IsHeap (held_of self.old) heap.0 }
        ensures adds { held_of self.new ≡ with_member (held_of self.old) set.0 heap }
        ensures counts_nothing { refused_of self.new ≡ refused_of self.old }
        ensures names_no_heap { latest_heap_of self.new ≡ latest_heap_of self.old }
        ensures recorded { history_of self.new ≡ Added set heap ∷ history_of self.old }
        ensures constant { properties_of self.new ≡ properties_of self.old }
        ensures plan { plan_of self.new ≡ plan_of self.old }
    {
        self.objects.add_member(set.0, heap);
        self.journal.added(set, heap);
    }

    fn remove_allocation(&mut self, set: MTLResidencySet, heap: MTLHeap)
        requires set { IsSet (held_of self.old) set.0 }
        requires heap { IsHeap (held_of self.old) heap.0 }
        ensures removes { held_of self.new ≡ without_member (held_of self.old) set.0 heap }
        ensures counts_nothing { refused_of self.new ≡ refused_of self.old }
        ensures names_no_heap { latest_heap_of self.new ≡ latest_heap_of self.old }
        ensures recorded { history_of self.new ≡ Removed set heap ∷ history_of self.old }
        ensures constant { properties_of self.new ≡ properties_of self.old }
        ensures plan { plan_of self.new ≡ plan_of self.old }
    {
        self.objects.remove_member(set.0, heap);
        self.journal.removed(set, heap);
    }

    fn commit(&mut self, set: MTLResidencySet)
        ensures commits { held_of self.new ≡ with_commit (held_of self.old) set.0 }
        ensures counts_nothing { refused_of self.new ≡ refused_of self.old }
        ensures names_no_heap { latest_heap_of self.new ≡ latest_heap_of self.old }
        ensures recorded { history_of self.new ≡ Committed set ∷ history_of self.old }
        ensures constant { properties_of self.new ≡ properties_of self.old }
        ensures plan { plan_of self.new ≡ plan_of self.old }
    {
        self.objects.commit(set.0);
        self.journal.committed(set);
    }
}
