//! A mark of each slot, and numbers that those of runs of slots stay within: a search passes over 4,096 low slots at once.

ghost use Rattle.std.specs.Prelude.{◌≡◌, ℕ, ◌+◌, ◌-◌, ◌*◌, ◌/◌, ◌<◌, ◌≤◌, max, [], ◌∷◌, ◌++◌, length, slice_set, slice_index, vec_capacity, OnOk};

use std::alloc::{AllocError, Global};
use std::marker::Model;

/// So many slots are a run, so many runs a span, and so many spans a stretch.
const RUN: usize = 16;

/// A mark of each slot, for each run of slots a number that none of its marks is above, and the same for each span of runs and
/// each stretch of spans.
#[derive(Drop)]
pub struct Marks {
    each: Vec<u64>,
    runs: Vec<u64>,
    spans: Vec<u64>,
    stretches: Vec<u64>,
}

impl Model for Marks {
    ghost use Rattle.std.specs.Prelude.{vec_capacity, min, ◌*◌};
    ghost use Rattle.gpu_core.specs.Marks.{Marks, AreWithin};

    ghost Value = { Marks };

    ghost view = { λ m. record {
      marks = m.each.items;
      room = min (vec_capacity m.each)
          (min (16 * vec_capacity m.runs)
          (min (256 * vec_capacity m.spans) (4096 * vec_capacity m.stretches)));
    } };

    ghost invariant = { λ m. AreWithin m.each.items m.runs.items m.spans.items m.stretches.items };
}

impl Marks {
    /// No slots. It takes no memory.
    pub fn new(alloc: Global) -> Self
        ensures { result.marks ≡ [] }
    {
        Marks {
            each: Vec::new(alloc),
            runs: Vec::new(alloc),
            spans: Vec::new(alloc),
            stretches: Vec::new(alloc),
        }
    }

    /// How many slots there are.
    pub fn len(&self) -> usize
        ensures { result ≡ length self.now.marks }
    {
        self.each.len()
    }

    /// Makes host memory for one more slot.
    pub fn reserve(&mut self) -> Result<(), AllocError>
        ensures marks { self.new.marks ≡ self.old.marks }
        ensures room { OnOk result (length self.new.marks < self.new.room) }
    {
        self.each.reserve(1)?;
        self.runs.reserve(1)?;
        self.spans.reserve(1)?;
        self.stretches.reserve(1)?;
        Ok(())
    }

    /// Adds a slot of mark 0. It takes no memory.
    pub fn push(&mut self)
        requires { length self.old.marks < self.old.room }
        ensures marks { self.new.marks ≡ self.old.marks ++ 0 ∷ [] }
        ensures room { self.new.room ≡ self.old.room }
    {
        let place = self.each.len();
        self.each.push_reserved(0);
        cover(place, &mut self.runs);
        cover(place / RUN, &mut self.spans);
        cover(place / RUN / RUN, &mut self.stretches);
    }

    /// Notes a slot's mark.
    pub fn set(&mut self, slot: usize, mark: u64)
        requires { slot < length self.old.marks }
        ensures marks { self.new.marks ≡ slice_set self.old.marks slot mark }
        ensures room { self.new.room ≡ self.old.room }
    {
        // Mostly it is as it was: few calls fill or empty a slot.
        if self.each[slot] != mark {
            self.change(slot, mark);
        }
    }

    /// Gives a slot another mark.
    fn change(&mut self, slot: usize, mark: u64)
        requires { slot < length self.old.marks }
        ensures marks { self.new.marks ≡ slice_set self.old.marks slot mark }
        ensures room { self.new.room ≡ self.old.room }
    {
        let run = slot / RUN;
        let span = run / RUN;
        let stretch = span / RUN;
        let old = self.each[slot];
        self.each[slot] = mark;
        if mark > old {
            raise(&mut self.runs, run, mark);
            raise(&mut self.spans, span, mark);
            raise(&mut self.stretches, stretch, mark);
        } else if self.runs[run] == old {
            self.runs[run] = highest(&self.each, run * RUN);
            self.spans[span] = highest(&self.runs, span * RUN);
            self.stretches[stretch] = highest(&self.spans, stretch * RUN);
        }
    }

    /// Passes over the slots below `end` whose mark is below `least`, downwards, and answers the end of those that are left:
    /// the slot before it has that mark or a higher one, or there is none.
    pub fn pass_over(&self, end: usize, least: u64) -> usize
        requires { end ≤ length self.now.marks }
        ensures within { result ≤ end }
        ensures passed { (i : ℕ) → result ≤ i → i < end → slice_index self.now.marks i < least }
        ensures stops { 0 < result → least ≤ slice_index self.now.marks (result - 1) }
    {
        let mut below = end;
        while below > 0 {
            let run = (below - 1) / RUN;
            let span = run / RUN;
            let stretch = span / RUN;
            if self.stretches[stretch] < least {
                below = stretch * RUN * RUN * RUN;
            } else if self.spans[span] < least {
                below = span * RUN * RUN;
            } else if self.runs[run] < least {
                below = run * RUN;
            } else if self.each[below - 1] < least {
                below -= 1;
            } else {
                return below;
            }
        }
        0
    }

    /// The lowest slot whose mark is `enough` or higher, or the end where there is none.
    pub fn lowest(&self, enough: u64) -> usize
        ensures within { result ≤ length self.now.marks }
        ensures passed { (i : ℕ) → i < result → slice_index self.now.marks i < enough }
        ensures stops { result < length self.now.marks
            → enough ≤ slice_index self.now.marks result }
    {
        let mut slot = 0;
        while slot < self.each.len() {
            let run = slot / RUN;
            let span = run / RUN;
            let stretch = span / RUN;
            if self.stretches[stretch] < enough {
                slot = (stretch + 1) * RUN * RUN * RUN;
            } else if self.spans[span] < enough {
                slot = (span + 1) * RUN * RUN;
            } else if self.runs[run] < enough {
                slot = (run + 1) * RUN;
            } else if self.each[slot] < enough {
                slot += 1;
            } else {
                return slot;
            }
        }
        self.each.len()
    }
}

/// Raises a number where it is lower.
fn raise(numbers: &mut Vec<u64>, place: usize, least: u64)
    requires { place < length numbers.old.items }
    ensures raised { numbers.new.items
        ≡ slice_set numbers.old.items place (max (slice_index numbers.old.items place) least) }
    ensures room { vec_capacity numbers.new ≡ vec_capacity numbers.old }
{
    numbers[place] = numbers[place].max(least);
}

/// Adds a run of number 0 where the number at a place is in none. It takes no memory.
fn cover(place: usize, runs: &mut Vec<u64>)
    requires next { place ≤ 16 * length runs.old.items }
    requires room { place < 16 * vec_capacity runs.old }
    ensures covered { place < 16 * length runs.new.items }
    ensures longer { length runs.old.items ≤ length runs.new.items }
    ensures needed { length runs.new.items ≤ max (length runs.old.items) (place / 16 + 1) }
    ensures same { (i : ℕ) → slice_index runs.new.items i ≡ slice_index runs.old.items i }
    ensures room { vec_capacity runs.new ≡ vec_capacity runs.old }
{
    if place / RUN == runs.len() {
        runs.push_reserved(0);
    }
}

/// The highest number of the run that begins there.
fn highest(numbers: &[u64], start: usize) -> u64
    requires { start ≤ length numbers.now }
    ensures { (i : ℕ) → start ≤ i → i < start + 16 → i < length numbers.now
        → slice_index numbers.now i ≤ result }
{
    let end = numbers.len().min(start + RUN);
    let mut most = 0;
    for number in &numbers[start..end] {
        most = most.max(*number);
    }
    most
}
