//! Gaps in slots, each linked to the slots of the ones beside it, in an order that the caller keeps.

ghost use Rattle.std.specs.Prelude.{◌≡◌, ◌≢◌, ℕ, ◌+◌, ◌-◌, ◌^◌, ◌<◌, ◌≤◌, ◌∷◌, List, [], length, map, max, slice_index, slice_set, All, OnOk, OnErr};
ghost use Rattle.std.specs.List.{AllPairs, insert, remove};
ghost use Rattle.gpu_rows.specs.Rows.{row_count};
ghost use Rattle.gpu_block_gaps.specs.Order.{IsIn};
ghost use Rattle.gpu_block_gaps.specs.Thread.{gap_in};
ghost use Rattle.gpu_block_gaps.specs.Records.{next_in, prev_in, gap_of, order_of, LeadsTo, LeadsThrough, IsThread};

use crate::index::Gap;
use crate::packed_record::PackedRecord;
use gpu_rows::Rows;
use gpu_values::AllocationType;
use std::alloc::{AllocError, Global};
use std::marker::Model;

/// A gap, and the slots of the ones before and behind it. Slot 0 has no gap, and stands before the first and behind the last.
#[derive(Clone, Copy)]
pub struct Record {
    pub gap: Gap,
    pub prev: u32,
    pub next: u32,
}

/// Gaps in slots, threaded in an order. A gap keeps its slot until it is taken out.
#[derive(Drop)]
pub struct Thread {
    records: Rows<PackedRecord>,
    // The slots of no gap, but for slot 0.
    spare: Rows<u32>,
}

impl Model for Thread {
    ghost use Rattle.std.specs.Prelude.{map};
    ghost use Rattle.gpu_block_gaps.specs.Thread.{Threaded};
    ghost use Rattle.gpu_block_gaps.specs.Records.{gap_of, last_of, order_of, IsThread};

    ghost Value = { Threaded };

    ghost view = { λ s. record {
      order = order_of s.records.items;
      gaps = map gap_of s.records.items;
      vacant = last_of s.spare.items;
    } };

    ghost invariant = { λ s. IsThread s.records.items s.spare.items s.spare.capacity };
}

/// Links a slot to the one behind it.
fn set_next(records: &mut Rows<PackedRecord>, slot: u32, next: u32)
    requires slot { slot < row_count records.old }
    requires next { next < 2 ^ 30 }
    ensures next { LeadsTo (next_in records.old.items) (next_in records.new.items) slot next }
    ensures prev { (k : ℕ) → prev_in records.new.items k ≡ prev_in records.old.items k }
    ensures gaps { map gap_of records.new.items ≡ map gap_of records.old.items }
    ensures count { row_count records.new ≡ row_count records.old }
{
    records[slot as usize].set_next(next);
}

/// Links a slot to the one before it.
fn set_prev(records: &mut Rows<PackedRecord>, slot: u32, prev: u32)
    requires slot { slot < row_count records.old }
    requires prev { prev < 2 ^ 30 }
    ensures prev { LeadsTo (prev_in records.old.items) (prev_in records.new.items) slot prev }
    ensures next { (k : ℕ) → next_in records.new.items k ≡ next_in records.old.items k }
    ensures gaps { map gap_of records.new.items ≡ map gap_of records.old.items }
    ensures count { row_count records.new ≡ row_count records.old }
{
    records[slot as usize].set_prev(prev);
}

/// Puts another gap into a slot.
fn set_gap(records: &mut Rows<PackedRecord>, slot: u32, gap: Gap)
    requires { slot < row_count records.old }
    ensures next { (k : ℕ) → next_in records.new.items k ≡ next_in records.old.items k }
    ensures prev { (k : ℕ) → prev_in records.new.items k ≡ prev_in records.old.items k }
    ensures gaps { map gap_of records.new.items ≡ slice_set (map gap_of records.old.items) slot gap }
    ensures count { row_count records.new ≡ row_count records.old }
{
    records[slot as usize].set_gap(gap);
}

/// Puts a record into a slot, and links the slots beside it to that.
fn link(records: &mut Rows<PackedRecord>, slot: u32, entry: Record)
    requires few { row_count records.old < 2 ^ 30 }
    requires slot { slot < row_count records.old }
    requires prev { (entry.prev < row_count records.old) × (entry.prev ≢ slot) }
    requires next { (entry.next < row_count records.old) × (entry.next ≢ slot) }
    ensures next { LeadsThrough (next_in records.old.items) (next_in records.new.items) entry.prev slot
        entry.next }
    ensures prev { LeadsThrough (prev_in records.old.items) (prev_in records.new.items) entry.next slot
        entry.prev }
    ensures gaps { map gap_of records.new.items ≡ slice_set (map gap_of records.old.items) slot entry.gap }
    ensures count { row_count records.new ≡ row_count records.old }
{
    records[slot as usize] = PackedRecord::new(entry);
    set_next(records, entry.prev, slot);
    set_prev(records, entry.next, slot);
}

/// Links the slots beside a slot to each other.
fn unlink(records: &mut Rows<PackedRecord>, slot: u32)
    requires slot { slot < row_count records.old }
    requires prev { prev_in records.old.items slot < row_count records.old }
    requires next { next_in records.old.items slot < row_count records.old }
    ensures next { LeadsTo (next_in records.old.items) (next_in records.new.items) (prev_in records.old.items slot)
        (next_in records.old.items slot) }
    ensures prev { LeadsTo (prev_in records.old.items) (prev_in records.new.items) (next_in records.old.items slot)
        (prev_in records.old.items slot) }
    ensures gaps { map gap_of records.new.items ≡ map gap_of records.old.items }
    ensures count { row_count records.new ≡ row_count records.old }
{
    let record = records[slot as usize];
    let (prev, next) = (record.prev(), record.next());
    set_next(records, prev, next);
    set_prev(records, next, prev);
}

/// Adds a slot. There is room for it.
fn add_slot(records: &mut Rows<PackedRecord>, spare: &mut Rows<u32>)
    requires thread { IsThread records.old.items spare.old.items spare.old.capacity }
    requires few { row_count records.old + 1 < 2 ^ 30 }
    requires records { row_count records.old < records.old.capacity }
    requires spare { row_count records.old < spare.old.capacity }
    ensures thread { IsThread records.new.items spare.new.items spare.new.capacity }
    ensures order { order_of records.new.items ≡ order_of records.old.items }
    ensures gaps { (k : ℕ) → gap_in (map gap_of records.new.items) k
        ≡ gap_in (map gap_of records.old.items) k }
    ensures long { row_count records.new ≡ row_count records.old + 1 }
    ensures room { (records.new.capacity ≡ records.old.capacity)
        × (spare.new.capacity ≡ spare.old.capacity) }
{
    if !records.is_empty() {
        spare.push_reserved(records.len() as u32);
    }
    let gap = Gap {
        length: 0,
        start: 0,
        chunk_id: 0,
        before: AllocationType::Free,
        after: AllocationType::Free,
    };
    records.push_reserved(PackedRecord::new(Record {
        gap,
        prev: 0,
        next: 0,
    }));
}

/// Adds slots up to that count. There is room for them.
fn fill(records: &mut Rows<PackedRecord>, spare: &mut Rows<u32>, count: usize)
    requires thread { IsThread records.old.items spare.old.items spare.old.capacity }
    requires few { count < 2 ^ 30 }
    requires records { count ≤ records.old.capacity }
    requires spare { count ≤ spare.old.capacity }
    ensures thread { IsThread records.new.items spare.new.items spare.new.capacity }
    ensures order { order_of records.new.items ≡ order_of records.old.items }
    ensures gaps { (k : ℕ) → gap_in (map gap_of records.new.items) k
        ≡ gap_in (map gap_of records.old.items) k }
    ensures long { row_count records.new ≡ max (row_count records.old) count }
{
    while records.len() < count {
        add_slot(records, spare);
    }
}

impl Thread {
    /// No slots: no memory is taken.
    pub fn new(alloc: Global) -> Thread
        ensures { (result.order ≡ []) × (result.gaps ≡ []) }
    {
        Thread {
            records: Rows::new(alloc),
            spare: Rows::new(alloc),
        }
    }

    /// Tells proofs that each slot of the order has a gap of its own; it does nothing.
    pub fn sound(&self)
        ensures inside { (slot : ℕ) → IsIn slot self.now.order
            → (0 < slot) × (slot < length self.now.gaps) }
        ensures few { (length self.now.gaps < 2 ^ 30)
            × (length self.now.order ≤ length self.now.gaps - 1) }
        ensures distinct { AllPairs (λ a b. a ≢ b) self.now.order }
    {
        let _ = self.records.len();
    }

    /// For how many gaps there is room.
    pub fn room(&self) -> usize
        ensures { result ≡ length self.now.gaps - 1 }
    {
        self.records.len().saturating_sub(1)
    }

    /// The gap in a slot.
    pub fn gap(&self, slot: u32) -> Gap
        requires { slot < length self.now.gaps }
        ensures { result ≡ gap_in self.now.gaps slot }
    {
        self.records[slot as usize].gap()
    }

    /// The record in a slot: its gap, and the slot behind it, 0 at the end.
    #[inline(always)]
    pub fn record(&self, slot: u32) -> &PackedRecord
        requires { IsIn slot self.now.order }
        ensures gap { result.now.gap ≡ gap_in self.now.gaps slot }
        ensures next { (k : ℕ) → k < length self.now.order → slot ≡ slice_index self.now.order k
            → result.now.next ≡ slice_index self.now.order (k + 1) }
    {
        &self.records[slot as usize]
    }

    /// The slot behind one, 0 at the end; at 0 the first one.
    pub fn next(&self, slot: u32) -> u32
        ensures { (k : ℕ) → k ≤ length self.now.order → slot ≡ slice_index (0 ∷ self.now.order) k
            → result ≡ slice_index self.now.order k }
    {
        match self.records.get(slot as usize) {
            Some(record) => record.next(),
            None => 0,
        }
    }

    /// The slot before one, 0 at the front; at 0 the last one.
    pub fn prev(&self, slot: u32) -> u32
        ensures { (k : ℕ) → k ≤ length self.now.order → slot ≡ slice_index self.now.order k
            → result ≡ slice_index (0 ∷ self.now.order) k }
    {
        match self.records.get(slot as usize) {
            Some(record) => record.prev(),
            None => 0,
        }
    }

    /// Makes room for that many gaps in all. A refusal changes nothing.
    pub fn reserve_to(&mut self, count: usize) -> Result<(), AllocError>
        requires { count + 1 < 2 ^ 30 }
        ensures order { self.new.order ≡ self.old.order }
        ensures gaps { (k : ℕ) → gap_in self.new.gaps k ≡ gap_in self.old.gaps k }
        ensures room { OnOk result (count < length self.new.gaps) }
        ensures kept { length self.old.gaps ≤ length self.new.gaps }
        ensures most { length self.new.gaps ≤ max (length self.old.gaps) (count + 1) }
        ensures refused { OnErr result (self.new ≡ self.old) }
    {
        let slots = count + 1;
        self.records
            .reserve(slots.saturating_sub(self.records.len()))?;
        self.spare.reserve(slots.saturating_sub(self.spare.len()))?;
        fill(&mut self.records, &mut self.spare, slots);
        Ok(())
    }

    /// The slot that the next gap gets. There is room for one.
    pub fn vacant(&self) -> u32
        requires { length self.now.order + 1 < length self.now.gaps }
        ensures is { result ≡ self.now.vacant }
        ensures free { (0 < result) × (result < length self.now.gaps)
            × (IsIn result self.now.order → ⊥) }
        ensures few { result + 1 < 2 ^ 31 }
    {
        self.spare[self.spare.len() - 1]
    }

    /// Puts a gap into the vacant slot, and into the order before the one in the slot `next`, or at the end where that is 0.
    pub fn insert(&mut self, gap: Gap, next: u32)
        requires room { length self.old.order + 1 < length self.old.gaps }
        requires there { (k : ℕ) × (k ≤ length self.old.order)
            × (next ≡ slice_index self.old.order k) }
        ensures order { (k : ℕ) → k ≤ length self.old.order → next ≡ slice_index self.old.order k
            → self.new.order ≡ insert self.old.order k self.old.vacant }
        ensures gaps { self.new.gaps ≡ slice_set self.old.gaps self.old.vacant gap }
    {
        let Some(slot) = self.spare.pop() else {
            unreachable!()
        };
        let prev = self.records[next as usize].prev();
        link(&mut self.records, slot, Record { gap, prev, next });
    }

    /// Puts another gap into a slot, which stays where it is in the order.
    pub fn set(&mut self, slot: u32, gap: Gap)
        requires { IsIn slot self.old.order }
        ensures order { self.new.order ≡ self.old.order }
        ensures gaps { self.new.gaps ≡ slice_set self.old.gaps slot gap }
    {
        set_gap(&mut self.records, slot, gap);
    }

    /// Takes the gap in a slot out.
    pub fn remove(&mut self, slot: u32)
        requires { IsIn slot self.old.order }
        ensures order { (k : ℕ) → k < length self.old.order → slot ≡ slice_index self.old.order k
            → self.new.order ≡ remove self.old.order k }
        ensures gaps { self.new.gaps ≡ self.old.gaps }
    {
        unlink(&mut self.records, slot);
        self.spare.push_reserved(slot);
    }
}
