//! What a simulated device was asked, beside the script that says which questions it refuses.

ghost use Rattle.std.specs.Prelude.{◌≡◌, ◌+◌, ◌∷◌};
ghost use Rattle.gpu_device.specs.MetalHistory.{questions_in, sets_in, refused_in, latest_heap_in};
ghost use Rattle.gpu_device.specs.declared.metal.event.Event.TheVariants.{AskedHeap, AskedSet, ReleasedHeap, Added, Removed, Committed};
ghost use Rattle.gpu_sim_base.specs.Script.{next_refusal, counted};
ghost use Rattle.gpu_sim_metal.specs.Answer.{IsHeapAnswer, IsSetAnswer};
ghost use Rattle.gpu_sim_metal.specs.Scripted.{EndAsScripted, told, issued_in};

use gpu_device::metal::{HeapDescriptor, Journal, MTLHeap, MTLResidencySet};
use gpu_sim_base::{Refusal, Script};
use std::marker::Model;

/// The script of a device and its history, which begins with the script's entries: each question ended as the script says, and grants
/// have the numbers 1, 2 and so on.
#[derive(Drop)]
pub struct ScriptedJournal {
    script: Script,
    journal: Journal,
}

impl Model for ScriptedJournal {
    ghost use Rattle.gpu_sim_metal.specs.Scripted.{Journaled, IsKept};

    ghost Value = { Journaled };

    ghost view = { λ j. record { script = j.script; history = j.journal.history } };

    ghost invariant = { λ j. IsKept j.script j.journal.history };
}

impl ScriptedJournal {
    /// Nothing was asked yet; there are residency sets or not. An entry names a question by its number, the first being 1; of two at one
    /// number the first counts.
    pub fn new(residency: bool, entries: Vec<(u64, Refusal)>) -> ScriptedJournal
        ensures script { result.script ≡ record { entries = entries; questions = 0 } }
        ensures history { result.history ≡ told residency entries.items }
    {
        let journal = begun(residency, &entries);
        ScriptedJournal {
            script: Script::new(entries),
            journal,
        }
    }

    /// At any time each question has ended as the script says, and a grant has the number behind those before. It does nothing.
    pub fn ends_as_scripted(&self)
        ensures { EndAsScripted self.now.history }
    {
        let _questions = self.script.questions();
    }

    /// The refusal that the script has for the next question.
    pub fn next_refusal(&self) -> Option<Refusal>
        ensures { result ≡ next_refusal self.now.script }
    {
        self.script.next_refusal()
    }

    /// How many questions came, granted or refused. The count stays at `u64::MAX`.
    pub fn questions(&self) -> u64
        ensures script { result ≡ self.now.script.questions }
        ensures history { result ≡ questions_in self.now.history }
    {
        self.script.questions()
    }

    /// How many questions were refused. The count stays at `u64::MAX`.
    pub fn refusals(&self) -> u64
        ensures { result ≡ refused_in self.now.history }
    {
        self.journal.refusals()
    }

    /// The latest question for a heap, its description and its size in bytes, granted or refused.
    pub fn last_heap(&self) -> Option<(HeapDescriptor, u64)>
        ensures { result ≡ latest_heap_in self.now.history }
    {
        self.journal.last_heap()
    }

    /// A heap was asked for. The answer is the script's where it has one; a grant has the next number.
    pub fn asked_heap(&mut self, desc: &HeapDescriptor, size: u64, answer: Option<MTLHeap>)
        requires { IsHeapAnswer (next_refusal self.old.script) (issued_in self.old.history + 1)
            answer }
        ensures script { self.new.script ≡ counted self.old.script }
        ensures history { self.new.history ≡ AskedHeap desc.now size answer ∷ self.old.history }
    {
        self.script.count();
        self.journal.asked_heap(desc, size, answer);
    }

    /// A residency set was asked for. It is refused where there are none, the answer is the script's where it has one, and a grant has the
    /// next number.
    pub fn asked_set(&mut self, answer: Result<MTLResidencySet, i32>)
        requires { IsSetAnswer (sets_in self.old.history) (next_refusal self.old.script)
            (issued_in self.old.history + 1) answer }
        ensures script { self.new.script ≡ counted self.old.script }
        ensures history { self.new.history ≡ AskedSet answer ∷ self.old.history }
    {
        self.script.count();
        self.journal.asked_set(answer);
    }

    /// A heap was given back.
    pub fn released_heap(&mut self, heap: MTLHeap)
        ensures script { self.new.script ≡ self.old.script }
        ensures history { self.new.history ≡ ReleasedHeap heap ∷ self.old.history }
    {
        self.journal.released_heap(heap);
    }

    /// A heap was added to a set.
    pub fn added(&mut self, set: MTLResidencySet, heap: MTLHeap)
        ensures script { self.new.script ≡ self.old.script }
        ensures history { self.new.history ≡ Added set heap ∷ self.old.history }
    {
        self.journal.added(set, heap);
    }

    /// A heap was removed from a set.
    pub fn removed(&mut self, set: MTLResidencySet, heap: MTLHeap)
        ensures script { self.new.script ≡ self.old.script }
        ensures history { self.new.history ≡ Removed set heap ∷ self.old.history }
    {
        self.journal.removed(set, heap);
    }

    /// A set was committed.
    pub fn committed(&mut self, set: MTLResidencySet)
        ensures script { self.new.script ≡ self.old.script }
        ensures history { self.new.history ≡ Committed set ∷ self.old.history }
    {
        self.journal.committed(set);
    }
}

/// The journal of a device that was told this, and asked nothing yet.
fn begun(residency: bool, entries: &[(u64, Refusal)]) -> Journal
    ensures { result.history ≡ told residency entries.now }
{
    let mut journal = Journal::with_script(entries);
    if !residency {
        journal.without_sets();
    }
    journal
}
