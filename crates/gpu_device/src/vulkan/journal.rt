//! The history that a Vulkan device keeps, and what it answers of it.

ghost use Rattle.std.specs.Prelude.{◌≡◌, [], ◌∷◌};
ghost use Rattle.gpu_device.specs.VulkanHistory.{scripted, refused_in, latest_in};
ghost use Rattle.gpu_device.specs.declared.vulkan.event.Event.TheVariants.{Scripted, Limited, AskedMemory, AskedMapping, Unmapped, Freed};

use crate::history::History;
use crate::refusal::Refusal;
use crate::vulkan::event::Event;
use crate::vulkan::types::{DeviceMemory, MemoryAllocateInfo};

/// All that a device was asked and was given back, for contracts alone; at run time the count of refusals and the latest
/// question for memory. A device has one, and adds one event to it in each call that asks or gives back.
#[derive(Drop)]
pub struct Journal {
    refusals: u64,
    last_info: Option<MemoryAllocateInfo>,
    pub history: History<Event>,
    ghost counted: { refusals ≡ refused_in history },
    ghost named: { last_info ≡ latest_in history },
}

impl Journal {
    /// Nothing was asked yet.
    pub fn new() -> Journal
        ensures { result.history ≡ [] }
    {
        Journal {
            refusals: 0,
            last_info: None,
            history: History::new(),
        }
    }

    /// Nothing was asked yet, and the script has these entries: each names a question by its number, and of two at one number the first
    /// counts.
    pub fn with_script(entries: &[(u64, Refusal)]) -> Journal
        ensures { result.history ≡ scripted entries.now }
    {
        let mut journal = Journal::new();
        let mut left = entries.len();
        while left > 0 {
            left -= 1;
            let (question, refusal) = entries[left];
            journal.script(question, refusal);
        }
        journal
    }

    fn script(&mut self, question: u64, refusal: Refusal)
        ensures { self.new.history ≡ Scripted question refusal ∷ self.old.history }
    {
        self.history.push(&Event::Scripted(question, refusal));
    }

    /// Memory of more bytes is to be refused.
    pub fn limited(&mut self, limit: u64)
        ensures { self.new.history ≡ Limited limit ∷ self.old.history }
    {
        self.history.push(&Event::Limited(limit));
    }

    /// How many questions were refused. The count stays at `u64::MAX`.
    pub fn refusals(&self) -> u64
        ensures { result ≡ refused_in self.now.history }
    {
        self.refusals
    }

    /// The latest question for memory, granted or refused.
    pub fn last_info(&self) -> Option<MemoryAllocateInfo>
        ensures { result ≡ latest_in self.now.history }
    {
        self.last_info
    }

    /// A memory was asked for.
    pub fn asked_memory(&mut self, info: &MemoryAllocateInfo, answer: Result<DeviceMemory, i32>)
        ensures { self.new.history ≡ AskedMemory info.now answer ∷ self.old.history }
    {
        if answer.is_err() {
            self.refusals = self.refusals.saturating_add(1);
        }
        self.last_info = Some(*info);
        self.history.push(&Event::AskedMemory(*info, answer));
    }

    /// A memory's bytes were asked for.
    pub fn asked_mapping(&mut self, memory: DeviceMemory, answer: Result<bool, i32>)
        ensures { self.new.history ≡ AskedMapping memory answer ∷ self.old.history }
    {
        if !matches!(answer, Ok(true)) {
            self.refusals = self.refusals.saturating_add(1);
        }
        self.history.push(&Event::AskedMapping(memory, answer));
    }

    /// A memory's bytes were given back.
    pub fn unmapped(&mut self, memory: DeviceMemory)
        ensures { self.new.history ≡ Unmapped memory ∷ self.old.history }
    {
        self.history.push(&Event::Unmapped(memory));
    }

    /// A memory was given back.
    pub fn freed(&mut self, memory: DeviceMemory)
        ensures { self.new.history ≡ Freed memory ∷ self.old.history }
    {
        self.history.push(&Event::Freed(memory));
    }
}
