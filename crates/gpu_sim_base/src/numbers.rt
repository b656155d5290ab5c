//! What a simulated device holds, by number.

ghost use Rattle.std.specs.Prelude.{◌≡◌, ℕ, ◌+◌, ◌<◌, ◌⊎◌, [], ◌∷◌, ◌++◌, length, vec_len, Some, None, IfSome, IfOk, OnErr, option_copied, count_by, is_some};
ghost use Rattle.gpu_sim_base.specs.Numbers.{item_at, with_item_at};

use std::alloc::{AllocError, Global};

/// A slot for each number that was given out: 1, 2 and so on. No number is given out twice.
#[derive(Drop)]
pub struct Numbers<T> {
    slots: Vec<Option<T>>,
}

impl<T: Drop> Numbers<T> {
    /// Nothing is held, and no number was given out.
    pub fn new(alloc: Global) -> Self
        ensures { result.slots.items ≡ [] }
    {
        Numbers {
            slots: Vec::new(alloc),
        }
    }

    /// How many are held.
    pub fn count(&self) -> usize
        ensures { result ≡ count_by is_some self.now.slots.items }
    {
        self.slots.iter().filter(|slot| slot.is_some()).count()
    }

    /// Holds an item, and gives its new number. Where the host refuses room for it nothing changes.
    pub fn add(&mut self, item: T) -> Result<u64, AllocError>
        ensures number { IfOk result (λ number. number ≡ length self.old.slots.items + 1) }
        ensures held { IfOk result (λ number. self.new.slots.items
            ≡ self.old.slots.items ++ Some item ∷ []) }
        ensures refused { OnErr result (self.new.slots.items ≡ self.old.slots.items) }
    {
        self.slots.push(Some(item))?;
        Ok(self.slots.len() as u64)
    }

    /// The item of a number, where it is held.
    pub fn get(&self, number: u64) -> Option<&T>
        ensures { option_copied result ≡ item_at self.now.slots.items number }
    {
        self.slots[self.index_of(number)?].as_ref()
    }

    /// Takes the item of a number out, where it is held; `put` puts it back.
    pub fn take(&mut self, number: u64) -> Option<T>
        ensures item { result ≡ item_at self.old.slots.items number }
        ensures held { self.new.slots.items ≡ with_item_at self.old.slots.items number None }
    {
        let index = self.index_of(number)?;
        self.slots[index].take()
    }

    /// Puts an item under a number; it is dropped where the number was not given out.
    pub fn put(&mut self, number: u64, item: T)
        ensures { self.new.slots.items ≡ with_item_at self.old.slots.items number (Some item) }
    {
        if let Some(index) = self.index_of(number) {
            self.slots[index] = Some(item);
        }
    }

    /// How many numbers were given out.
    pub fn issued(&self) -> u64
        ensures { result ≡ length self.now.slots.items }
    {
        self.slots.len() as u64
    }

    /// Takes an item away. Its number isn't given out again.
    pub fn remove(&mut self, number: u64)
        ensures { self.new.slots.items ≡ with_item_at self.old.slots.items number None }
    {
        if let Some(index) = self.index_of(number) {
            self.slots[index] = None;
        }
    }

    /// The slot of a number, where it was given out.
    fn index_of(&self, number: u64) -> Option<usize>
        ensures index { IfSome result (λ index. (index + 1 ≡ number)
            × (index < vec_len self.now.slots)) }
        ensures unknown { result ≡ None → (number ≡ 0) ⊎ (vec_len self.now.slots < number) }
    {
        let index = number.checked_sub(1)? as usize;
        if index < self.slots.len() {
            Some(index)
        } else {
            None
        }
    }
}
