//! The gaps of a block in the order of length and start.
ghost use Rattle.std.specs.Prelude.{◌≡◌, ℕ, ◌<◌, ◌≤◌, List, [], length, slice_index_or, Some, OnOk, OnErr, IsOk, IsTrue, ◌↔◌};
ghost use Rattle.std.specs.List.{AllPairs};
ghost use Rattle.gpu_cost.specs.Cost.{Compares, ComparesKeys, Tests};
ghost use Rattle.gpu_block_gaps.specs.Index.{Before, HasNoKey, HasKeyAt, IsInserted, IsRemoved, IsReplaced, HasLength};
ghost use Rattle.gpu_block_gaps.specs.Last.{gap_if, IsLast, StaysLast, last_count, is_last_long};

use crate::classed::{ClassedGaps, is_before};
use crate::packed_record::PackedRecord;
use crate::scan::Scan;
use crate::thread::Record;
use gpu_cost::Cost;
use gpu_values::AllocationType;
use std::alloc::{AllocError, Global};
use std::marker::Model;

/// A gap of a block, with what a test of it reads: the kinds of the pieces beside it, `Free` at an end of the block.
#[derive(Clone, Copy)]
pub struct Gap {
    pub length: u64,
    pub start: u64,
    pub chunk_id: u64,
    pub before: AllocationType,
    pub after: AllocationType,
}

/// The gaps of a block, of which the first that is long enough is found by its class and the bits of its length.
#[derive(Drop)]
pub struct GapIndex {
    classed: ClassedGaps,
    // A gap that is in no class, behind all that are in one: so nothing is looked for where pieces are taken one after another from what
    // is left of a block.
    last: Option<PackedRecord>,
}

impl Model for GapIndex {
    ghost use Rattle.gpu_block_gaps.specs.Index.{Index};
    ghost use Rattle.gpu_block_gaps.specs.Last.{gap_if, with_last, IsBehind};

    ghost Value = { Index };

    ghost view = { λ s. record {
      gaps = with_last s.classed.gaps (gap_if s.last);
      room = s.classed.room;
      longest = s.classed.longest;
    } };

    ghost invariant = { λ s. IsBehind s.classed.gaps s.classed.room (gap_if s.last) };
}

/// A gap as the last one.
fn last_of(gap: Gap) -> Option<PackedRecord>
    ensures { gap_if result ≡ Some gap }
{
    Some(PackedRecord::new(Record {
        gap,
        prev: 0,
        next: 0,
    }))
}

/// The gap of a record, if there is one.
fn gap_if(record: &Option<PackedRecord>) -> Option<Gap>
    ensures { result ≡ gap_if record.now }
{
    match record {
        Some(record) => Some(record.gap()),
        None => None,
    }
}

/// Whether the last gap has that length and start.
fn is_last(last: &Option<PackedRecord>, size: u64, start: u64) -> bool
    ensures { IsTrue result ↔ IsLast (gap_if last.now) size start }
{
    match gap_if(last) {
        Some(gap) => gap.length == size && gap.start == start,
        None => false,
    }
}

/// Whether a gap stays the last one where another comes in the place of that length and start.
fn stays_last(last: &Option<PackedRecord>, size: u64, start: u64, other: Gap) -> bool
    ensures { IsTrue result ↔ StaysLast (gap_if last.now) size start other }
{
    match gap_if(last) {
        Some(gap) => (gap.length != size || gap.start != start) && is_before(other, gap),
        None => false,
    }
}

/// Whether the last gap is long enough for a search. It counts as a comparison, if there is one.
fn is_last_long(last: &Option<PackedRecord>, size: u64, cost: &mut Cost) -> bool
    ensures long { result ≡ is_last_long (gap_if last.now) size }
    ensures counted { ComparesKeys (last_count (gap_if last.now)) cost.old cost.new }
{
    match gap_if(last) {
        Some(gap) => {
            cost.compare();
            size <= gap.length
        }
        None => false,
    }
}

impl GapIndex {
    /// An index without gaps, which has taken no memory. It is made for gaps up to that length; longer ones are found more slowly.
    pub fn new(alloc: Global, longest: u64) -> GapIndex
        ensures gaps { result.gaps ≡ [] }
        ensures room { result.room ≡ 0 }
        ensures longest { result.longest ≡ longest }
    {
        GapIndex {
            classed: ClassedGaps::new(alloc, longest),
            last: None,
        }
    }

    /// Tells proofs that the gaps are in order; it does nothing.
    pub fn in_order(&self)
        ensures { AllPairs Before self.now.gaps }
    {
        self.classed.in_order();
    }

    /// The length of the longest gap, which is the last one; 0 where there is none. It counts as a test.
    pub fn longest(&self, cost: &mut Cost) -> u64
        ensures bound { (k : ℕ) (d : Gap) → k < length self.now.gaps
            → (slice_index_or self.now.gaps k d).length ≤ result }
        ensures reached { 0 < result → HasLength self.now.gaps result }
        ensures counted { Tests 1 cost.old cost.new }
    {
        let longest = self.classed.longest(cost);
        match gap_if(&self.last) {
            Some(gap) => gap.length,
            None => longest,
        }
    }

    /// Makes room for that many gaps in all, at most 1,073,741,822. A refusal changes nothing.
    #[inline(always)]
    pub fn reserve_to(&mut self, count: usize) -> Result<(), AllocError>
        ensures same { self.new.gaps ≡ self.old.gaps }
        ensures room { OnOk result (count ≤ self.new.room) }
        ensures kept { self.old.room ≤ self.new.room }
        ensures enough { count ≤ self.old.room → IsOk result × (self.new ≡ self.old) }
        ensures longest { self.new.longest ≡ self.old.longest }
        ensures refused { OnErr result (self.new ≡ self.old) }
    {
        self.classed.reserve_to(count)
    }

    /// The gaps from the first of at least that length on, to be tested one after another.
    pub fn first_at_least(&self, size: u64, cost: &mut Cost) -> Scan<'_>
        ensures gaps { result.gaps ≡ self.now.gaps }
        ensures within { result.place ≤ length self.now.gaps }
        ensures below { (k : ℕ) (d : Gap) → k < result.place
            → (slice_index_or self.now.gaps k d).length < size }
        ensures from { (k : ℕ) (d : Gap) → result.place ≤ k → k < length self.now.gaps
            → size ≤ (slice_index_or self.now.gaps k d).length }
        ensures ordered { AllPairs Before self.now.gaps }
        ensures counted { Compares (length self.now.gaps) cost.old cost.new }
    {
        let from = self.classed.first_at_least(size, cost);
        let pending = is_last_long(&self.last, size, cost);
        Scan::new(from, &self.last, pending)
    }

    /// Puts a gap in its place. There is room for it, so no memory is taken.
    pub fn insert(&mut self, gap: Gap)
        requires room { length self.old.gaps < self.old.room }
        requires fresh { HasNoKey self.old.gaps gap.length gap.start }
        ensures gaps { IsInserted self.old.gaps gap self.new.gaps }
        ensures room { self.new.room ≡ self.old.room }
        ensures longest { self.new.longest ≡ self.old.longest }
    {
        self.classed.in_order();
        let Some(last) = gap_if(&self.last) else {
            if self.classed.are_before(gap) {
                self.last = last_of(gap);
            } else {
                self.classed.insert(gap);
            }
            return;
        };
        if is_before(gap, last) {
            self.classed.insert(gap);
            return;
        }
        self.classed.insert(last);
        self.classed.in_order();
        self.last = last_of(gap);
    }

    /// Takes the gap of that length and start away.
    pub fn remove(&mut self, size: u64, start: u64)
        requires { HasKeyAt self.old.gaps size start }
        ensures gaps { IsRemoved self.old.gaps size start self.new.gaps }
        ensures ordered { AllPairs Before self.old.gaps }
        ensures room { self.new.room ≡ self.old.room }
        ensures longest { self.new.longest ≡ self.old.longest }
    {
        self.classed.in_order();
        if is_last(&self.last, size, start) {
            self.last = None;
            return;
        }
        self.classed.remove(size, start);
    }

    /// Puts a gap in its place, and the one of that length and start away. It takes no memory.
    pub fn replace(&mut self, size: u64, start: u64, gap: Gap)
        requires there { HasKeyAt self.old.gaps size start }
        requires fresh { (rest : List Gap) → IsRemoved self.old.gaps size start rest
            → HasNoKey rest gap.length gap.start }
        ensures gaps { IsReplaced self.old.gaps size start gap self.new.gaps }
        ensures ordered { AllPairs Before self.old.gaps }
        ensures room { self.new.room ≡ self.old.room }
        ensures longest { self.new.longest ≡ self.old.longest }
    {
        self.classed.in_order();
        if stays_last(&self.last, size, start, gap) {
            self.classed.replace(size, start, gap);
            return;
        }
        self.remove(size, start);
        self.insert(gap);
    }
}
