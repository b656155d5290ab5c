//! The gaps of an index one after another, to be tested.

ghost use Rattle.std.specs.Prelude.{◌≡◌, ℕ, ◌+◌, ◌≤◌, length, slice_index, Some, None, true, false, is_some, MatchOption, if◌then◌else◌};
ghost use Rattle.std.specs.List.{slice_get};
ghost use Rattle.gpu_block_gaps.specs.Scan.{StandsIn};
ghost use Rattle.gpu_block_gaps.specs.Last.{gap_if, with_last, passed, IsLeft, IsRecordAt};

use crate::index::Gap;
use crate::packed_record::PackedRecord;
use crate::thread::Thread;
use crate::thread_place::ThreadPlace;
use gpu_cost::Cost;
use std::marker::Model;

/// The gaps of an index from a place on. Each is counted as tested when it is given. It takes no memory.
#[derive(Drop)]
pub struct Scan<'a> {
    thread: &'a Thread,
    // The slot of the next gap in a class, 0 behind those.
    slot: u32,
    last: &'a Option<PackedRecord>,
    // Whether the last gap is still to come.
    pending: bool,
}

impl<'a> Model for Scan<'a> {
    ghost use Rattle.std.specs.Prelude.{◌+◌};
    ghost use Rattle.gpu_block_gaps.specs.Ordered.{gaps_of};
    ghost use Rattle.gpu_block_gaps.specs.Scan.{Scanned, StandsIn, place_in};
    ghost use Rattle.gpu_block_gaps.specs.Last.{gap_if, with_last, passed, IsLeft};

    ghost Value = { Scanned };

    ghost view = { λ s. record {
      gaps = with_last (gaps_of s.thread.now) (gap_if s.last.now);
      place = place_in s.slot s.thread.now.order + passed (gap_if s.last.now) s.pending;
    } };

    ghost invariant = { λ s. StandsIn s.slot s.thread.now.order
        × IsLeft (gaps_of s.thread.now) (place_in s.slot s.thread.now.order) (gap_if s.last.now) s.pending };
}

/// The record of the gap in a slot; none in slot 0, which stands behind all.
#[inline(always)]
fn record_at(thread: &Thread, slot: u32) -> Option<&PackedRecord>
    requires { StandsIn slot thread.now.order }
    ensures { (k : ℕ) → k ≤ length thread.now.order → slot ≡ slice_index thread.now.order k
        → MatchOption result (length thread.now.order ≤ k)
        (λ r. IsRecordAt thread.now k r.now) }
{
    thread.sound();
    if slot == 0 {
        return None;
    }
    Some(thread.record(slot))
}

/// The record of the next gap: of the last one, where there is no other and that is to come.
#[inline(always)]
fn record_or<'a>(
    next: Option<&'a PackedRecord>,
    last: &'a Option<PackedRecord>,
    pending: bool,
) -> Option<&'a PackedRecord>
    ensures { MatchOption next.entry
        (MatchOption result (pending ≡ true → last.now ≡ None)
        (λ r. (pending ≡ true) × (last.now ≡ Some r.now)))
        (λ r. result ≡ next.entry) }
{
    match next {
        Some(record) => Some(record),
        None if pending => last.as_ref(),
        None => None,
    }
}

/// Whether the last gap is still to come, behind the next one.
#[inline(always)]
fn is_left(next: Option<&PackedRecord>, pending: bool) -> bool
    ensures { MatchOption next.entry (result ≡ false) (λ r. result ≡ pending) }
{
    match next {
        Some(_) => pending,
        None => false,
    }
}

/// The slot behind that of a record, 0 where there is none.
#[inline(always)]
fn slot_behind(next: Option<&PackedRecord>) -> u32
    ensures { MatchOption next.entry (result ≡ 0) (λ r. result ≡ r.now.next) }
{
    match next {
        Some(record) => record.next(),
        None => 0,
    }
}

impl<'a> Scan<'a> {
    /// The gaps in classes from a place on, and the last one if it is to come.
    pub(crate) fn new(
        from: ThreadPlace<'a>,
        last: &'a Option<PackedRecord>,
        pending: bool,
    ) -> Scan<'a>
        requires { IsLeft from.gaps from.place (gap_if last.now) pending }
        ensures gaps { result.gaps ≡ with_last from.entry.gaps (gap_if last.now) }
        ensures place { result.place ≡ from.entry.place + passed (gap_if last.now) pending }
    {
        Scan {
            thread: from.thread,
            slot: from.slot,
            last,
            pending,
        }
    }

    /// The next gap that is in a class, to be tested. Where there is none, at most the last gap is left. A loop over these alone has no
    /// branch for that one.
    #[inline(always)]
    pub fn next_in_class(&mut self, cost: &mut Cost) -> Option<Gap>
        ensures gap { MatchOption result (length self.old.gaps ≤ self.old.place + 1)
            (λ g. Some g ≡ slice_get self.old.gaps self.old.place) }
        ensures gaps { self.new.gaps ≡ self.old.gaps }
        ensures place { self.new.place ≡ self.old.place + (if is_some result then 1 else 0) }
        ensures counted { cost.new.tests ≡ cost.old.tests + (if is_some result then 1 else 0) }
        ensures others { (cost.new.comparisons ≡ cost.old.comparisons)
            × (cost.new.lookups ≡ cost.old.lookups) }
    {
        self.thread.sound();
        let next = record_at(self.thread, self.slot)?;
        cost.test();
        self.slot = next.next();
        Some(next.gap())
    }

    /// The next gap, to be tested.
    pub fn next(&mut self, cost: &mut Cost) -> Option<Gap>
        ensures gap { result ≡ slice_get self.old.gaps self.old.place }
        ensures gaps { self.new.gaps ≡ self.old.gaps }
        ensures place { self.new.place ≡ self.old.place + (if is_some result then 1 else 0) }
        ensures counted { cost.new.tests ≡ cost.old.tests + (if is_some result then 1 else 0) }
        ensures others { (cost.new.comparisons ≡ cost.old.comparisons)
            × (cost.new.lookups ≡ cost.old.lookups) }
    {
        self.thread.sound();
        let next = record_at(self.thread, self.slot);
        let record = record_or(next, self.last, self.pending)?;
        self.pending = is_left(next, self.pending);
        cost.test();
        self.slot = slot_behind(next);
        Some(record.gap())
    }
}
