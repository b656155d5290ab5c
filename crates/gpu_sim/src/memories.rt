//! The memories of a simulated device, by number.

ghost use Rattle.std.specs.Prelude.{◌≡◌, ◌+◌, ◌<◌, length, vec_len, Some, None, IsSome, IfSome, IfOk, OnErr, option_copied, count_by};
ghost use Rattle.std.specs.Borrow.{sem};
ghost use Rattle.std.specs.FinMap.{empty, get, insert, remove, len as map_len};
ghost use Rattle.gpu_device.specs.Held.{new_entry, size_of, range_of, mapped_with, unmapped};
ghost use Rattle.gpu_sim.specs.Memory.{is_held};
ghost use Rattle.gpu_sim.specs.Memories.{held_in, issued, lends_memories};

use crate::memory::{Contents, Memory, Slot};
use gpu_device::vulkan::MemoryAllocateInfo;
use std::alloc::{AllocError, Global};

/// A slot for each number that was given out: 1, 2 and so on. No number is given out twice.
#[derive(Drop)]
pub(crate) struct Memories {
    slots: Vec<Slot>,
}

impl Memories {
    /// None.
    pub(crate) fn new(alloc: Global) -> Self
        ensures held { held_in result ≡ empty }
        ensures none { issued result ≡ 0 }
    {
        Memories {
            slots: Vec::new(alloc),
        }
    }

    /// How many are held.
    pub(crate) fn count(&self) -> usize
        ensures { result ≡ map_len (held_in self.now) }
    {
        held_count(&self.slots)
    }

    /// A new memory, and its number. Where the host refuses room for it nothing changes.
    pub(crate) fn add(&mut self, info: &MemoryAllocateInfo) -> Result<u64, AllocError>
        ensures number { IfOk result (λ number. number ≡ issued self.old + 1) }
        ensures fresh { IfOk result (λ number. get (held_in self.old) number ≡ None) }
        ensures held { IfOk result (λ number. held_in self.new
            ≡ insert (held_in self.old) number (new_entry info.now)) }
        ensures given { IfOk result (λ number. issued self.new ≡ issued self.old + 1) }
        ensures refused { OnErr result (held_in self.new ≡ held_in self.old) }
        ensures none_given { OnErr result (issued self.new ≡ issued self.old) }
    {
        self.slots.push(Slot::Held(Memory {
            memory_type_index: info.memory_type_index,
            contents: Contents::Unmapped(info.size),
        }))?;
        Ok(self.slots.len() as u64)
    }

    /// The size of a memory, in bytes; 0 where it isn't held.
    pub(crate) fn size(&self, number: u64) -> u64
        ensures { result ≡ size_of (held_in self.now) number }
    {
        match self.index_of(number) {
            Some(index) => self.slots[index].size(),
            None => 0,
        }
    }

    /// Gives a memory its bytes.
    pub(crate) fn map(&mut self, number: u64, bytes: Vec<u8>)
        requires { length bytes.items ≡ size_of (held_in self.old) number }
        ensures held { held_in self.new ≡ mapped_with (held_in self.old) number bytes.items }
        ensures given { issued self.new ≡ issued self.old }
    {
        if let Some(index) = self.index_of(number) {
            self.slots[index].map(bytes);
        }
    }

    /// Takes a memory's bytes away.
    pub(crate) fn unmap(&mut self, number: u64)
        ensures held { held_in self.new ≡ unmapped (held_in self.old) number }
        ensures given { issued self.new ≡ issued self.old }
    {
        if let Some(index) = self.index_of(number) {
            self.slots[index].unmap();
        }
    }

    /// Takes a memory away.
    pub(crate) fn free(&mut self, number: u64)
        ensures held { held_in self.new ≡ remove (held_in self.old) number }
        ensures given { issued self.new ≡ issued self.old }
    {
        if let Some(index) = self.index_of(number) {
            self.slots[index] = Slot::Free;
        }
    }

    /// The bytes of a range, where they are there.
    pub(crate) fn part(&self, number: u64, start: u64, len: u64) -> Option<&[u8]>
        ensures { option_copied result ≡ range_of (held_in self.now) number start len }
    {
        match self.index_of(number) {
            Some(index) => self.slots[index].part(start, len),
            None => None,
        }
    }

    /// The bytes of a range, lent.
    pub(crate) fn part_mut(&mut self, number: u64, start: u64, len: u64) -> &mut [u8]
        requires { IsSome (range_of (held_in self.old) number start len) }
        ensures* lends { sem 𝓛 (lends_memories self.entry number start result) }
        ensures value { range_of (held_in self.old) number start len ≡ Some result.now }
    {
        let index = (number - 1) as usize;
        self.slots[index].part_mut(start as usize, len as usize)
    }

    /// The slot of a number, where it was given out.
    fn index_of(&self, number: u64) -> Option<usize>
        ensures index { IfSome result (λ index. (index + 1 ≡ number)
            × (index < vec_len self.now.slots)) }
        ensures unknown { result ≡ None → get (held_in self.now) number ≡ None }
    {
        if number == 0 {
            return None;
        }
        let index = (number - 1) as usize;
        if index < self.slots.len() {
            Some(index)
        } else {
            None
        }
    }
}

/// How many slots hold a memory.
fn held_count(slots: &[Slot]) -> usize
    ensures { result ≡ count_by is_held slots.now }
{
    slots.iter().filter(|slot| slot.is_held()).count()
}
