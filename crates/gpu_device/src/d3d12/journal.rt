//! The history that a DirectX 12 device keeps, and what it answers of it.

ghost use Rattle.std.specs.Prelude.{◌≡◌, [], ◌∷◌, option_copied};
ghost use Rattle.gpu_device.specs.D3D12History.{scripted, refused_in, latest_heap_in, latest_resource_in};
ghost use Rattle.gpu_device.specs.declared.d3d12.event.Event.TheVariants.{Scripted, AskedHeap, AskedResource, ReleasedHeap, ReleasedResource};

use crate::d3d12::event::{Event, ResourceRequest};
use crate::d3d12::types::{HeapDesc, ID3D12Heap, ID3D12Resource};
use crate::history::History;
use crate::refusal::Refusal;

/// All that a device was asked and was given back, for contracts alone; at run time the count of refusals and the latest
/// question of each kind. A device has one, and adds one event to it in each call that asks or gives back.
#[derive(Drop)]
pub struct Journal {
    refusals: u64,
    last_heap: Option<HeapDesc>,
    last_resource: Option<ResourceRequest>,
    pub history: History<Event>,
    ghost counted: { refusals ≡ refused_in history },
    ghost heap_named: { last_heap ≡ latest_heap_in history },
    ghost resource_named: { last_resource ≡ latest_resource_in history },
}

impl Journal {
    /// Nothing was asked yet.
    pub fn new() -> Journal
        ensures { result.history ≡ [] }
    {
        Journal {
            refusals: 0,
            last_heap: None,
            last_resource: None,
            history: History::new(),
        }
    }

    /// Nothing was asked yet, and the script has these entries: each names a question by its number, and of two at one number the first
    /// counts.
    pub fn with_script(entries: &[(u64, Refusal)]) -> Journal
        ensures { result.history ≡ scripted entries.now }
    {
        let mut journal = Journal::new();
        let mut left = entries.len();
        while left > 0 {
            left -= 1;
            let (question, refusal) = entries[left];
            journal.script(question, refusal);
        }
        journal
    }

    fn script(&mut self, question: u64, refusal: Refusal)
        ensures { self.new.history ≡ Scripted question refusal ∷ self.old.history }
    {
        self.history.push(&Event::Scripted(question, refusal));
    }

    /// How many questions were refused. The count stays at `u64::MAX`.
    pub fn refusals(&self) -> u64
        ensures { result ≡ refused_in self.now.history }
    {
        self.refusals
    }

    /// The latest question for a heap, granted or refused.
    pub fn last_heap(&self) -> Option<HeapDesc>
        ensures { result ≡ latest_heap_in self.now.history }
    {
        self.last_heap
    }

    /// The latest question for a resource, granted or refused.
    pub fn last_resource(&self) -> Option<&ResourceRequest>
        ensures { option_copied result ≡ latest_resource_in self.now.history }
    {
        self.last_resource.as_ref()
    }

    /// A heap was asked for.
    pub fn asked_heap(&mut self, desc: &HeapDesc, answer: Result<Option<ID3D12Heap>, i32>)
        ensures { self.new.history ≡ AskedHeap desc.now answer ∷ self.old.history }
    {
        if !matches!(answer, Ok(Some(_))) {
            self.refusals = self.refusals.saturating_add(1);
        }
        self.last_heap = Some(*desc);
        self.history.push(&Event::AskedHeap(*desc, answer));
    }

    /// A resource was asked for.
    pub fn asked_resource(
        &mut self,
        request: ResourceRequest,
        answer: Result<Option<ID3D12Resource>, i32>,
    )
        ensures { self.new.history ≡ AskedResource request answer ∷ self.old.history }
    {
        if !matches!(answer, Ok(Some(_))) {
            self.refusals = self.refusals.saturating_add(1);
        }
        let event = Event::AskedResource(request, answer);
        self.history.push(&event);
        if let Event::AskedResource(request, _) = event {
            self.last_resource = Some(request);
        }
    }

    /// A heap was given back.
    pub fn released_heap(&mut self, heap: ID3D12Heap)
        ensures { self.new.history ≡ ReleasedHeap heap ∷ self.old.history }
    {
        self.history.push(&Event::ReleasedHeap(heap));
    }

    /// A resource was given back.
    pub fn released_resource(&mut self, resource: ID3D12Resource)
        ensures { self.new.history ≡ ReleasedResource resource ∷ self.old.history }
    {
        self.history.push(&Event::ReleasedResource(resource));
    }
}
