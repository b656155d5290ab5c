//! What a simulated device was asked, beside the script that says which questions it refuses.

ghost use Rattle.std.specs.Prelude.{◌≡◌, ◌∷◌};
ghost use Rattle.gpu_device.specs.VulkanHistory.{scripted, limit_in, questions_in, refused_in, latest_in};
ghost use Rattle.gpu_device.specs.declared.vulkan.event.Event.TheVariants.{Limited, AskedMemory, AskedMapping, Unmapped, Freed};
ghost use Rattle.gpu_sim.specs.Plan.{code_for_memory};
ghost use Rattle.gpu_sim.specs.Scripted.{EndsMemory, EndsMapping, EndAsScripted};
ghost use Rattle.gpu_sim_base.specs.Script.{next_refusal, counted};

use gpu_device::vulkan::{DeviceMemory, Journal, MemoryAllocateInfo};
use gpu_sim_base::{Refusal, Script};
use std::marker::Model;

/// The script of a device, the largest memory that it grants, in bytes, and its history, which begins with both: each question ended as
/// they say.
#[derive(Drop)]
pub struct ScriptedJournal {
    limit: u64,
    script: Script,
    journal: Journal,
}

impl Model for ScriptedJournal {
    ghost use Rattle.gpu_sim.specs.Scripted.{Journaled, IsKept};

    ghost Value = { Journaled };

    ghost view = { λ j. record { limit = j.limit; script = j.script; history = j.journal.history } };

    ghost invariant = { λ j. IsKept j.limit j.script j.journal.history };
}

impl ScriptedJournal {
    /// Nothing was asked yet. `limit` is the largest memory in bytes. An entry names a question by its number, the first being 1; of two at
    /// one number the first counts.
    pub fn new(limit: u64, entries: Vec<(u64, Refusal)>) -> ScriptedJournal
        ensures limit { result.limit ≡ limit }
        ensures script { result.script ≡ record { entries = entries; questions = 0 } }
        ensures history { result.history ≡ Limited limit ∷ scripted entries.items }
    {
        let mut journal = Journal::with_script(&entries);
        journal.limited(limit);
        ScriptedJournal {
            limit,
            script: Script::new(entries),
            journal,
        }
    }

    /// At any time each question has ended as the script and the limit say. It does nothing.
    pub fn ends_as_scripted(&self)
        ensures { EndAsScripted self.now.history }
    {
        let _questions = self.script.questions();
    }

    /// The largest memory that is granted, in bytes.
    pub fn limit(&self) -> u64
        ensures { result ≡ self.now.limit }
    {
        self.limit
    }

    /// The refusal that the script has for the next question.
    pub fn next_refusal(&self) -> Option<Refusal>
        ensures { result ≡ next_refusal self.now.script }
    {
        self.script.next_refusal()
    }

    /// How many questions came, granted or refused. The count stays at `u64::MAX`.
    pub fn questions(&self) -> u64
        ensures script { result ≡ self.now.script.questions }
        ensures history { result ≡ questions_in self.now.history }
    {
        self.script.questions()
    }

    /// How many questions were refused. The count stays at `u64::MAX`.
    pub fn refusals(&self) -> u64
        ensures { result ≡ refused_in self.now.history }
    {
        self.journal.refusals()
    }

    /// The latest question for memory, granted or refused.
    pub fn last_info(&self) -> Option<MemoryAllocateInfo>
        ensures { result ≡ latest_in self.now.history }
    {
        self.journal.last_info()
    }

    /// A memory was asked for, and the answer is the script's or the limit's where they refuse it.
    pub fn asked_memory(&mut self, info: &MemoryAllocateInfo, answer: Result<DeviceMemory, i32>)
        requires { EndsMemory (code_for_memory (next_refusal self.old.script) info.now.size
            self.old.limit) answer }
        ensures limit { self.new.limit ≡ self.old.limit }
        ensures script { self.new.script ≡ counted self.old.script }
        ensures history { self.new.history ≡ AskedMemory info.now answer ∷ self.old.history }
    {
        self.script.count();
        self.journal.asked_memory(info, answer);
    }

    /// A memory's bytes were asked for, and the answer is the script's where it has one.
    pub fn asked_mapping(&mut self, memory: DeviceMemory, answer: Result<bool, i32>)
        requires { EndsMapping (next_refusal self.old.script) answer }
        ensures limit { self.new.limit ≡ self.old.limit }
        ensures script { self.new.script ≡ counted self.old.script }
        ensures history { self.new.history ≡ AskedMapping memory answer ∷ self.old.history }
    {
        self.script.count();
        self.journal.asked_mapping(memory, answer);
    }

    /// A memory's bytes were given back.
    pub fn unmapped(&mut self, memory: DeviceMemory)
        ensures limit { self.new.limit ≡ self.old.limit }
        ensures script { self.new.script ≡ self.old.script }
        ensures history { self.new.history ≡ Unmapped memory ∷ self.old.history }
    {
        self.journal.unmapped(memory);
    }

    /// A memory was given back.
    pub fn freed(&mut self, memory: DeviceMemory)
        ensures limit { self.new.limit ≡ self.old.limit }
        ensures script { self.new.script ≡ self.old.script }
        ensures history { self.new.history ≡ Freed memory ∷ self.old.history }
    {
        self.journal.freed(memory);
    }
}
