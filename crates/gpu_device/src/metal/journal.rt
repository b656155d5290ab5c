//! The history that a Metal device keeps, and what it answers of it.

ghost use Rattle.std.specs.Prelude.{◌≡◌, [], ◌∷◌};
ghost use Rattle.gpu_device.specs.MetalHistory.{scripted, refused_in, latest_heap_in};
ghost use Rattle.gpu_device.specs.declared.metal.event.Event.TheVariants.{Scripted, WithoutSets, AskedHeap, AskedSet, ReleasedHeap, Added, Removed, Committed};

use crate::history::History;
use crate::metal::event::Event;
use crate::metal::types::{HeapDescriptor, MTLHeap, MTLResidencySet};
use crate::refusal::Refusal;

/// All that a device was asked and was given back, for contracts alone; at run time the count of refusals and the latest
/// question for a heap. A device has one, and adds one event to it in each call that asks, gives back or changes a set.
#[derive(Drop)]
pub struct Journal {
    refusals: u64,
    last_heap: Option<(HeapDescriptor, u64)>,
    pub history: History<Event>,
    ghost counted: { refusals ≡ refused_in history },
    ghost named: { last_heap ≡ latest_heap_in history },
}

impl Journal {
    /// Nothing was asked yet.
    pub fn new() -> Journal
        ensures { result.history ≡ [] }
    {
        Journal {
            refusals: 0,
            last_heap: None,
            history: History::new(),
        }
    }

    /// Nothing was asked yet, and the script has these entries: each names a question by its number, and of two at one number the first
    /// counts.
    pub fn with_script(entries: &[(u64, Refusal)]) -> Journal
        ensures { result.history ≡ scripted entries.now }
    {
        let mut journal = Journal::new();
        let mut left = entries.len();
        while left > 0 {
            left -= 1;
            let (question, refusal) = entries[left];
            journal.script(question, refusal);
        }
        journal
    }

    fn script(&mut self, question: u64, refusal: Refusal)
        ensures { self.new.history ≡ Scripted question refusal ∷ self.old.history }
    {
        self.history.push(&Event::Scripted(question, refusal));
    }

    /// Each question for a residency set is to be refused.
    pub fn without_sets(&mut self)
        ensures { self.new.history ≡ WithoutSets ∷ self.old.history }
    {
        self.history.push(&Event::WithoutSets);
    }

    /// How many questions were refused. The count stays at `u64::MAX`.
    pub fn refusals(&self) -> u64
        ensures { result ≡ refused_in self.now.history }
    {
        self.refusals
    }

    /// The latest question for a heap, its description and its size in bytes, granted or refused.
    pub fn last_heap(&self) -> Option<(HeapDescriptor, u64)>
        ensures { result ≡ latest_heap_in self.now.history }
    {
        self.last_heap
    }

    /// A heap was asked for.
    pub fn asked_heap(&mut self, desc: &HeapDescriptor, size: u64, answer: Option<MTLHeap>)
        ensures { self.new.history ≡ AskedHeap desc.now size answer ∷ self.old.history }
    {
        if answer.is_none() {
            self.refusals = self.refusals.saturating_add(1);
        }
        self.last_heap = Some((*desc, size));
        self.history.push(&Event::AskedHeap(*desc, size, answer));
    }

    /// A residency set was asked for.
    pub fn asked_set(&mut self, answer: Result<MTLResidencySet, i32>)
        ensures { self.new.history ≡ AskedSet answer ∷ self.old.history }
    {
        if answer.is_err() {
            self.refusals = self.refusals.saturating_add(1);
        }
        self.history.push(&Event::AskedSet(answer));
    }

    /// A heap was given back.
    pub fn released_heap(&mut self, heap: MTLHeap)
        ensures { self.new.history ≡ ReleasedHeap heap ∷ self.old.history }
    {
        self.history.push(&Event::ReleasedHeap(heap));
    }

    /// A heap was added to a set.
    pub fn added(&mut self, set: MTLResidencySet, heap: MTLHeap)
        ensures { self.new.history ≡ Added set heap ∷ self.old.history }
    {
        self.history.push(&Event::Added(set, heap));
    }

    /// A heap was removed from a set.
    pub fn removed(&mut self, set: MTLResidencySet, heap: MTLHeap)
        ensures { self.new.history ≡ Removed set heap ∷ self.old.history }
    {
        self.history.push(&Event::Removed(set, heap));
    }

    /// A set was committed.
    pub fn committed(&mut self, set: MTLResidencySet)
        ensures { self.new.history ≡ Committed set ∷ self.old.history }
    {
        self.history.push(&Event::Committed(set));
    }
}
