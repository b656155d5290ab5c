//! Gaps that are all in classes, in the order of length and start.
ghost use Rattle.std.specs.Prelude.{◌≡◌, ℕ, ◌+◌, ◌^◌, ◌<◌, ◌≤◌, List, [], length, min, slice_index_or, OnOk, OnErr, IfOk, IsOk, IsTrue, ◌↔◌};
ghost use Rattle.std.specs.List.{AllPairs};
ghost use Rattle.gpu_cost.specs.Cost.{Tests};
ghost use Rattle.gpu_block_gaps.specs.Index.{Before, HasNoKey, HasKeyAt, IsInserted, IsRemoved, IsReplaced, HasLength};
ghost use Rattle.gpu_block_gaps.specs.Last.{AreBefore};
ghost use Rattle.gpu_block_gaps.specs.Ordered.{gaps_of};

use crate::class::Scale;
use crate::forest::Forest;
use crate::index::Gap;
use crate::key::Key;
use crate::order::{compare_near, exchange, key_of, next_from, put, take};
use crate::thread::Thread;
use crate::thread_place::ThreadPlace;
use gpu_cost::Cost;
use std::alloc::{AllocError, Global};
use std::marker::Model;

/// How many binary digits of a length its class tells, behind the first, where there is room for few gaps.
const FEW_DIGITS: u32 = 4;

/// For how many gaps there is room at most: a slot has a number of 30 bits, and slot 0 has no gap.
const MOST_GAPS: usize = (1 << 30) - 2;

/// For how many gaps more there is room at least, once it grows.
const LEAST_GROWTH: usize = 4;

/// And at most: a page of rows.
const MOST_GROWTH: usize = 256;

/// For how many gaps there is room after it grew. It grows by a sixteenth, so that few places are in vain, and by a page of rows at most, so
/// that no call makes many.
fn grown(room: usize) -> usize
    ensures { result + 1 < 2 ^ 30 }
{
    let more = (room / 16).max(LEAST_GROWTH).min(MOST_GROWTH);
    MOST_GAPS.min(room.saturating_add(more))
}

/// How many digits serve that many gaps. Each digit more halves the gaps of a class, and doubles the table of the classes.
fn digits_for(count: usize) -> u32
    ensures { result < 24 }
{
    if count < 64 {
        FEW_DIGITS
    } else if count < 512 {
        8
    } else {
        10
    }
}

/// Gaps of a block, of which the first that is long enough is found by its class and the bits of its length.
#[derive(Drop)]
pub struct ClassedGaps {
    thread: Thread,
    forest: Forest,
    // Lengths up to it fall into classes; longer ones share the last.
    longest: u64,
}

impl Model for ClassedGaps {
    ghost use Rattle.std.specs.Prelude.{◌-◌, length};
    ghost use Rattle.gpu_block_gaps.specs.Index.{Index};
    ghost use Rattle.gpu_block_gaps.specs.Class.{EndsAt};
    ghost use Rattle.gpu_block_gaps.specs.Ordered.{gaps_of, IsIndexed};

    ghost Value = { Index };

    ghost view = { λ s. record {
      gaps = gaps_of s.thread;
      room = length s.thread.gaps - 1;
      longest = s.longest;
    } };

    ghost invariant = { λ s. IsIndexed s.thread s.forest × EndsAt s.forest.scale s.longest };
}

/// Whether a gap is before another one in the order of length and start.
pub fn is_before(gap: Gap, other: Gap) -> bool
    ensures { IsTrue result ↔ Before gap other }
{
    gap.length < other.length || (gap.length == other.length && gap.start < other.start)
}

/// Puts the gaps of a thread into an index that has none. There is room for them.
fn put_all(from: &Thread, index: &mut ClassedGaps)
    requires ordered { AllPairs Before (gaps_of from.now) }
    requires empty { index.old.gaps ≡ [] }
    requires room { length (gaps_of from.now) ≤ index.old.room }
    ensures gaps { index.new.gaps ≡ gaps_of from.now }
    ensures room { index.new.room ≡ index.old.room }
    ensures longest { index.new.longest ≡ index.old.longest }
{
    from.sound();
    let mut slot = from.next(0);
    while slot != 0 {
        index.insert(from.gap(slot));
        index.in_order();
        slot = from.next(slot);
    }
}

impl ClassedGaps {
    /// An index without gaps, which has taken no memory. It is made for gaps up to that length; longer ones are found more slowly.
    pub fn new(alloc: Global, longest: u64) -> ClassedGaps
        ensures gaps { result.gaps ≡ [] }
        ensures room { result.room ≡ 0 }
        ensures longest { result.longest ≡ longest }
    {
        ClassedGaps::with_digits(alloc, longest, FEW_DIGITS)
    }

    fn with_digits(alloc: Global, longest: u64, digits: u32) -> ClassedGaps
        requires { digits < 24 }
        ensures gaps { result.gaps ≡ [] }
        ensures room { result.room ≡ 0 }
        ensures longest { result.longest ≡ longest }
    {
        ClassedGaps {
            thread: Thread::new(alloc),
            forest: Forest::new(alloc, Scale::up_to(longest, digits)),
            longest,
        }
    }

    /// Tells proofs that the gaps are in order; it does nothing.
    pub fn in_order(&self)
        ensures { AllPairs Before self.now.gaps }
    {
        let _ = self.thread.room();
    }

    /// The length of the longest gap, which is the last one; 0 where there is none. It counts as a test.
    pub fn longest(&self, cost: &mut Cost) -> u64
        ensures bound { (k : ℕ) (d : Gap) → k < length self.now.gaps
            → (slice_index_or self.now.gaps k d).length ≤ result }
        ensures reached { 0 < result → HasLength self.now.gaps result }
        ensures counted { Tests 1 cost.old cost.new }
    {
        self.thread.sound();
        cost.test();
        let last = self.thread.prev(0);
        if last == 0 {
            return 0;
        }
        self.thread.gap(last).length
    }

    /// Whether each gap is before that one.
    pub fn are_before(&self, gap: Gap) -> bool
        ensures { IsTrue result ↔ AreBefore self.now.gaps gap }
    {
        self.thread.sound();
        let last = self.thread.prev(0);
        last == 0 || is_before(self.thread.gap(last), gap)
    }

    /// Makes room for that many gaps in all, at most 1,073,741,822. A refusal changes nothing.
    #[inline(always)]
    pub fn reserve_to(&mut self, count: usize) -> Result<(), AllocError>
        ensures same { self.new.gaps ≡ self.old.gaps }
        ensures room { OnOk result (count ≤ self.new.room) }
        ensures kept { self.old.room ≤ self.new.room }
        ensures enough { count ≤ self.old.room → IsOk result × (self.new ≡ self.old) }
        ensures longest { self.new.longest ≡ self.old.longest }
        ensures refused { OnErr result (self.new ≡ self.old) }
    {
        if count <= self.thread.room() {
            return Ok(());
        }
        self.grow_to(count)
    }

    /// The same where there is no room for that many yet. Out of line: few calls come here.
    #[cold]
    #[inline(never)]
    fn grow_to(&mut self, count: usize) -> Result<(), AllocError>
        requires more { self.old.room < count }
        ensures same { self.new.gaps ≡ self.old.gaps }
        ensures room { OnOk result (count ≤ self.new.room) }
        ensures kept { self.old.room ≤ self.new.room }
        ensures longest { self.new.longest ≡ self.old.longest }
        ensures refused { OnErr result (self.new ≡ self.old) }
    {
        if count > MOST_GAPS {
            return Err(AllocError);
        }
        let wanted = count.max(grown(self.thread.room()));
        if digits_for(wanted) == self.forest.scale.digits {
            return self.widen(wanted);
        }
        *self = self.made_anew(wanted)?;
        Ok(())
    }

    /// Makes room for that many gaps in all, with the same classes. A refusal changes nothing.
    fn widen(&mut self, count: usize) -> Result<(), AllocError>
        requires few { count + 1 < 2 ^ 30 }
        ensures same { self.new.gaps ≡ self.old.gaps }
        ensures room { OnOk result (count ≤ self.new.room) }
        ensures kept { self.old.room ≤ self.new.room }
        ensures longest { self.new.longest ≡ self.old.longest }
        ensures refused { OnErr result (self.new ≡ self.old) }
    {
        self.forest.reserve_to(count)?;
        self.thread.reserve_to(count)
    }

    /// The same gaps, with classes for that many, and with room for them.
    fn made_anew(&self, count: usize) -> Result<ClassedGaps, AllocError>
        requires few { count + 1 < 2 ^ 30 }
        requires enough { self.now.room ≤ count }
        ensures same { IfOk result (λ i. i.gaps ≡ self.now.gaps) }
        ensures room { IfOk result (λ i. count ≤ i.room) }
        ensures longest { IfOk result (λ i. i.longest ≡ self.now.longest) }
    {
        self.thread.sound();
        let alloc = *self.forest.forks.allocator();
        let mut anew = ClassedGaps::with_digits(alloc, self.longest, digits_for(count));
        anew.widen(count)?;
        put_all(&self.thread, &mut anew);
        Ok(anew)
    }

    /// The place of the first gap of at least that length.
    pub fn first_at_least(&self, size: u64, cost: &mut Cost) -> ThreadPlace<'_>
        ensures gaps { result.gaps ≡ self.now.gaps }
        ensures within { result.place ≤ length self.now.gaps }
        ensures below { (k : ℕ) (d : Gap) → k < result.place
            → (slice_index_or self.now.gaps k d).length < size }
        ensures from { (k : ℕ) (d : Gap) → result.place ≤ k → k < length self.now.gaps
            → size ≤ (slice_index_or self.now.gaps k d).length }
        ensures ordered { AllPairs Before self.now.gaps }
        ensures compared { (cost.old.comparisons ≤ cost.new.comparisons)
            × (cost.new.comparisons ≤ cost.old.comparisons + min 1 (length self.now.gaps)) }
        ensures others { (cost.new.tests ≡ cost.old.tests) × (cost.new.lookups ≡ cost.old.lookups) }
    {
        if self.thread.next(0) == 0 {
            return ThreadPlace::new(&self.thread, 0);
        }
        let key = Key {
            length: size,
            start: 0,
        };
        let class = self.forest.class(key);
        let near = compare_near(&self.thread, &self.forest, key, class, cost);
        ThreadPlace::new(
            &self.thread,
            next_from(&self.thread, &self.forest, key, class, near),
        )
    }

    /// Puts a gap in its place. There is room for it, so no memory is taken.
    pub fn insert(&mut self, gap: Gap)
        requires room { length self.old.gaps < self.old.room }
        requires fresh { HasNoKey self.old.gaps gap.length gap.start }
        ensures gaps { IsInserted self.old.gaps gap self.new.gaps }
        ensures room { self.new.room ≡ self.old.room }
        ensures longest { self.new.longest ≡ self.old.longest }
    {
        let class = self.forest.class(key_of(&gap));
        put(&mut self.thread, &mut self.forest, gap, class);
    }

    /// Takes the gap of that length and start away.
    pub fn remove(&mut self, size: u64, start: u64)
        requires { HasKeyAt self.old.gaps size start }
        ensures gaps { IsRemoved self.old.gaps size start self.new.gaps }
        ensures ordered { AllPairs Before self.old.gaps }
        ensures room { self.new.room ≡ self.old.room }
        ensures longest { self.new.longest ≡ self.old.longest }
    {
        let key = Key {
            length: size,
            start,
        };
        let class = self.forest.class(key);
        take(&mut self.thread, &mut self.forest, key, class);
    }

    /// Puts a gap in its place, and the one of that length and start away. It takes no memory.
    pub fn replace(&mut self, size: u64, start: u64, gap: Gap)
        requires there { HasKeyAt self.old.gaps size start }
        requires fresh { (rest : List Gap) → IsRemoved self.old.gaps size start rest
            → HasNoKey rest gap.length gap.start }
        ensures gaps { IsReplaced self.old.gaps size start gap self.new.gaps }
        ensures ordered { AllPairs Before self.old.gaps }
        ensures room { self.new.room ≡ self.old.room }
        ensures longest { self.new.longest ≡ self.old.longest }
    {
        exchange(&mut self.thread, &mut self.forest, size, start, gap);
    }
}
