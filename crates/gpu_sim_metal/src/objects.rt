//! What a simulated device holds.

ghost use Rattle.std.specs.Prelude.{◌≡◌, ◌≢◌, ℕ, ◌+◌, ◌<◌, ◌≤◌, [], length, count_by, is_some, Some, None, IfOk, OnOk, OnErr, IsSome, if◌then◌else◌, option_copied};
ghost use Rattle.std.specs.FinMap.{get, insert};
ghost use Rattle.gpu_device.specs.Metal.{Heap, Set, IsHeap, without_heap, with_member, without_member, with_commit};
ghost use Rattle.gpu_sim_base.specs.Numbers.{item_at, with_item_at};
ghost use Rattle.gpu_sim_metal.specs.Objects.{held_by, is_heap, set_in, HasRoom, AllHaveRoom};

use crate::residency_set::ResidencySet;
use gpu_device::metal::{HeapDescriptor, MTLHeap};
use gpu_sim_base::Numbers;
use std::alloc::{AllocError, Global};

/// A heap, as it was asked for, or a residency set.
#[derive(Drop)]
pub(crate) enum Object {
    Heap { desc: HeapDescriptor, size: u64 },
    Set(ResidencySet),
}

/// Heaps and sets by number. Each set has room for every number that was given out, so that adding a heap takes no
/// memory.
#[derive(Drop)]
pub(crate) struct Objects {
    alloc: Global,
    numbers: Numbers<Object>,
    // How many numbers each set has room for.
    room: usize,
    ghost roomy: { AllHaveRoom room numbers.slots.items },
    ghost fits: { length numbers.slots.items ≤ room },
}

impl Objects {
    /// Nothing is held.
    pub(crate) fn new(alloc: Global) -> Self
        ensures { result.numbers.slots.items ≡ [] }
    {
        Objects {
            alloc,
            numbers: Numbers::new(alloc),
            room: 0,
        }
    }

    /// How many are held.
    pub(crate) fn count(&self) -> usize
        ensures { result ≡ count_by is_some self.now.numbers.slots.items }
    {
        self.numbers.count()
    }

    /// Makes room for one number more in every set, and for as many more as were given out, so that few calls go over all
    /// sets. Where the host refuses it, nothing that is held changes.
    fn make_room(&mut self) -> Result<(), AllocError>
        ensures held { held_by self.new.numbers.slots.items ≡ held_by self.old.numbers.slots.items }
        ensures given { length self.new.numbers.slots.items ≡ length self.old.numbers.slots.items }
        ensures room { OnOk result (length self.new.numbers.slots.items < self.new.room) }
    {
        let issued = self.numbers.issued() as usize;
        if issued < self.room {
            return Ok(());
        }
        let room = issued.saturating_mul(2).saturating_add(1);
        make_room_in_all(&mut self.numbers, room)?;
        self.room = room;
        Ok(())
    }

    /// A new heap, and its number. Where the host refuses room for it, also in a set, nothing that is held changes.
    pub(crate) fn hold_heap(&mut self, desc: HeapDescriptor, size: u64) -> Result<u64, AllocError>
        ensures number { IfOk result (λ number. number ≡ length self.old.numbers.slots.items + 1) }
        ensures new { IfOk result (λ number. get (held_by self.old.numbers.slots.items) number
            ≡ None) }
        ensures held { IfOk result (λ number. held_by self.new.numbers.slots.items
            ≡ insert (held_by self.old.numbers.slots.items) number (Heap desc size)) }
        ensures given { OnOk result (length self.new.numbers.slots.items
            ≡ length self.old.numbers.slots.items + 1) }
        ensures refused { OnErr result (held_by self.new.numbers.slots.items
            ≡ held_by self.old.numbers.slots.items) }
        ensures none_given { OnErr result
            (length self.new.numbers.slots.items ≡ length self.old.numbers.slots.items) }
    {
        self.make_room()?;
        let number = self.numbers.add(Object::Heap { desc, size })?;
        Ok(number)
    }

    /// A new empty set, and its number. Where the host refuses room for it nothing that is held changes.
    pub(crate) fn hold_set(&mut self) -> Result<u64, AllocError>
        ensures number { IfOk result (λ number. number ≡ length self.old.numbers.slots.items + 1) }
        ensures new { IfOk result (λ number. get (held_by self.old.numbers.slots.items) number
            ≡ None) }
        ensures held { IfOk result (λ number. held_by self.new.numbers.slots.items
            ≡ insert (held_by self.old.numbers.slots.items) number (Set [] [])) }
        ensures given { OnOk result (length self.new.numbers.slots.items
            ≡ length self.old.numbers.slots.items + 1) }
        ensures refused { OnErr result (held_by self.new.numbers.slots.items
            ≡ held_by self.old.numbers.slots.items) }
        ensures none_given { OnErr result
            (length self.new.numbers.slots.items ≡ length self.old.numbers.slots.items) }
    {
        self.make_room()?;
        let set = ResidencySet::new(self.alloc, self.room)?;
        let number = self.numbers.add(Object::Set(set))?;
        Ok(number)
    }

    /// Takes a heap away; nothing where the number is no heap's.
    pub(crate) fn release_heap(&mut self, number: u64)
        ensures held { held_by self.new.numbers.slots.items
            ≡ without_heap (held_by self.old.numbers.slots.items) number }
        ensures given { length self.new.numbers.slots.items ≡ length self.old.numbers.slots.items }
    {
        if self.is_heap(number) {
            self.numbers.remove(number);
        }
    }

    /// Whether the number is a heap's.
    fn is_heap(&self, number: u64) -> bool
        ensures { result ≡ is_heap (item_at self.now.numbers.slots.items number) }
    {
        matches!(self.numbers.get(number), Some(Object::Heap { .. }))
    }

    /// The set of a number, where it is one's.
    pub(crate) fn set(&self, number: u64) -> Option<&ResidencySet>
        ensures { option_copied result ≡ set_in (item_at self.now.numbers.slots.items number) }
    {
        match self.numbers.get(number) {
            Some(Object::Set(set)) => Some(set),
            _ => None,
        }
    }

    /// Adds a heap to a set's members; nothing where the number is no set's.
    pub(crate) fn add_member(&mut self, number: u64, heap: MTLHeap)
        requires { IsHeap (held_by self.old.numbers.slots.items) heap.0 }
        ensures held { held_by self.new.numbers.slots.items
            ≡ with_member (held_by self.old.numbers.slots.items) number heap }
        ensures given { length self.new.numbers.slots.items ≡ length self.old.numbers.slots.items }
    {
        if let Some(mut set) = take_set(&mut self.numbers, number) {
            set.add(heap);
            self.numbers.put(number, Object::Set(set));
        }
    }

    /// Removes a heap from a set's members; nothing where the number is no set's.
    pub(crate) fn remove_member(&mut self, number: u64, heap: MTLHeap)
        ensures held { held_by self.new.numbers.slots.items
            ≡ without_member (held_by self.old.numbers.slots.items) number heap }
        ensures given { length self.new.numbers.slots.items ≡ length self.old.numbers.slots.items }
    {
        if let Some(mut set) = take_set(&mut self.numbers, number) {
            set.remove(heap);
            self.numbers.put(number, Object::Set(set));
        }
    }

    /// Makes a set's members its committed members; nothing where the number is no set's.
    pub(crate) fn commit(&mut self, number: u64)
        ensures held { held_by self.new.numbers.slots.items
            ≡ with_commit (held_by self.old.numbers.slots.items) number }
        ensures given { length self.new.numbers.slots.items ≡ length self.old.numbers.slots.items }
    {
        if let Some(mut set) = take_set(&mut self.numbers, number) {
            set.commit();
            self.numbers.put(number, Object::Set(set));
        }
    }
}

/// Takes a set out; nothing where the number is no set's.
fn take_set(numbers: &mut Numbers<Object>, number: u64) -> Option<ResidencySet>
    ensures set { result ≡ set_in (item_at numbers.old.slots.items number) }
    ensures slots { numbers.new.slots.items
        ≡ (if is_some result then with_item_at numbers.old.slots.items number None
        else numbers.old.slots.items) }
{
    match numbers.take(number) {
        Some(Object::Set(set)) => Some(set),
        Some(object) => {
            numbers.put(number, object);
            None
        }
        None => None,
    }
}

/// Makes room for this many numbers in every set. Where the host refuses it, nothing that is held changes.
fn make_room_in_all(numbers: &mut Numbers<Object>, room: usize) -> Result<(), AllocError>
    ensures held { held_by numbers.new.slots.items ≡ held_by numbers.old.slots.items }
    ensures given { length numbers.new.slots.items ≡ length numbers.old.slots.items }
    ensures keeps { (count : ℕ) → AllHaveRoom count numbers.old.slots.items
        → AllHaveRoom count numbers.new.slots.items }
    ensures room { OnOk result (AllHaveRoom room numbers.new.slots.items) }
{
    for index in 0..numbers.issued() {
        make_room_in(numbers, index + 1, room)?;
    }
    Ok(())
}

/// Makes room for this many numbers in the set of a number, where it is a set's.
fn make_room_in(numbers: &mut Numbers<Object>, number: u64, room: usize) -> Result<(), AllocError>
    ensures held { held_by numbers.new.slots.items ≡ held_by numbers.old.slots.items }
    ensures given { length numbers.new.slots.items ≡ length numbers.old.slots.items }
    ensures others { (other : ℕ) → other ≢ number
        → item_at numbers.new.slots.items other ≡ item_at numbers.old.slots.items other }
    ensures keeps { (count : ℕ) → HasRoom count (item_at numbers.old.slots.items number)
        → HasRoom count (item_at numbers.new.slots.items number) }
    ensures room { OnOk result (HasRoom room (item_at numbers.new.slots.items number)) }
{
    let Some(mut set) = take_set(numbers, number) else {
        return Ok(());
    };
    let answer = set.make_room(room);
    numbers.put(number, Object::Set(set));
    answer
}
