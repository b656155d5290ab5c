//! What a simulated device was asked, beside the script that says which questions it refuses.

ghost use Rattle.std.specs.Prelude.{◌≡◌, ◌+◌, ◌∷◌, option_copied};
ghost use Rattle.gpu_device.specs.D3D12History.{scripted, questions_in, refused_in, latest_heap_in, latest_resource_in};
ghost use Rattle.gpu_device.specs.declared.d3d12.event.Event.TheVariants.{AskedHeap, AskedResource, ReleasedHeap, ReleasedResource};
ghost use Rattle.gpu_sim_base.specs.Script.{next_refusal, counted};
ghost use Rattle.gpu_sim_d3d12.specs.Objects.{IsAnswer};
ghost use Rattle.gpu_sim_d3d12.specs.Scripted.{EndAsScripted, issued_in};

use gpu_device::d3d12::{HeapDesc, ID3D12Heap, ID3D12Resource, Journal, ResourceRequest};
use gpu_sim_base::{Refusal, Script};
use std::marker::Model;

/// The script of a device and its history, which begins with the script's entries: each question ended as the script says, and grants
/// have the numbers 1, 2 and so on.
#[derive(Drop)]
pub struct ScriptedJournal {
    script: Script,
    journal: Journal,
}

impl Model for ScriptedJournal {
    ghost use Rattle.gpu_sim_d3d12.specs.Scripted.{Journaled, IsKept};

    ghost Value = { Journaled };

    ghost view = { λ j. record { script = j.script; history = j.journal.history } };

    ghost invariant = { λ j. IsKept j.script j.journal.history };
}

impl ScriptedJournal {
    /// Nothing was asked yet. An entry names a question by its number, the first being 1; of two at one number the first counts.
    pub fn new(entries: Vec<(u64, Refusal)>) -> ScriptedJournal
        ensures script { result.script ≡ record { entries = entries; questions = 0 } }
        ensures history { result.history ≡ scripted entries.items }
    {
        let journal = Journal::with_script(&entries);
        ScriptedJournal {
            script: Script::new(entries),
            journal,
        }
    }

    /// At any time each question has ended as the script says, and a grant has the number behind those before. It does nothing.
    pub fn ends_as_scripted(&self)
        ensures { EndAsScripted self.now.history }
    {
        let _questions = self.script.questions();
    }

    /// The refusal that the script has for the next question.
    pub fn next_refusal(&self) -> Option<Refusal>
        ensures { result ≡ next_refusal self.now.script }
    {
        self.script.next_refusal()
    }

    /// How many questions came, granted or refused. The count stays at `u64::MAX`.
    pub fn questions(&self) -> u64
        ensures script { result ≡ self.now.script.questions }
        ensures history { result ≡ questions_in self.now.history }
    {
        self.script.questions()
    }

    /// How many questions were refused. The count stays at `u64::MAX`.
    pub fn refusals(&self) -> u64
        ensures { result ≡ refused_in self.now.history }
    {
        self.journal.refusals()
    }

    /// The latest question for a heap, granted or refused.
    pub fn last_heap(&self) -> Option<HeapDesc>
        ensures { result ≡ latest_heap_in self.now.history }
    {
        self.journal.last_heap()
    }

    /// The latest question for a resource, granted or refused.
    pub fn last_resource(&self) -> Option<&ResourceRequest>
        ensures { option_copied result ≡ latest_resource_in self.now.history }
    {
        self.journal.last_resource()
    }

    /// A heap was asked for. The answer is the script's where it has one; a grant has the next number.
    pub fn asked_heap(&mut self, desc: &HeapDesc, answer: Result<Option<ID3D12Heap>, i32>)
        requires { IsAnswer (λ heap. heap.0) (next_refusal self.old.script)
            (issued_in self.old.history + 1) answer }
        ensures script { self.new.script ≡ counted self.old.script }
        ensures history { self.new.history ≡ AskedHeap desc.now answer ∷ self.old.history }
    {
        self.script.count();
        self.journal.asked_heap(desc, answer);
    }

    /// A resource was asked for. The answer is the script's where it has one; a grant has the next number.
    pub fn asked_resource(
        &mut self,
        request: ResourceRequest,
        answer: Result<Option<ID3D12Resource>, i32>,
    )
        requires { IsAnswer (λ resource. resource.0) (next_refusal self.old.script)
            (issued_in self.old.history + 1) answer }
        ensures script { self.new.script ≡ counted self.old.script }
        ensures history { self.new.history ≡ AskedResource request answer ∷ self.old.history }
    {
        self.script.count();
        self.journal.asked_resource(request, answer);
    }

    /// A heap was given back.
    pub fn released_heap(&mut self, heap: ID3D12Heap)
        ensures script { self.new.script ≡ self.old.script }
        ensures history { self.new.history ≡ ReleasedHeap heap ∷ self.old.history }
    {
        self.journal.released_heap(heap);
    }

    /// A resource was given back.
    pub fn released_resource(&mut self, resource: ID3D12Resource)
        ensures script { self.new.script ≡ self.old.script }
        ensures history { self.new.history ≡ ReleasedResource resource ∷ self.old.history }
    {
        self.journal.released_resource(resource);
    }
}
