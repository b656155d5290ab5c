//! Records in 32 bytes: each link has one of the gap's kinds beside it.

ghost use Rattle.std.specs.Prelude.{◌≡◌, ◌<◌, ◌^◌};

use crate::index::Gap;
use crate::tagged_slot::TaggedSlot;
use crate::thread::Record;
use std::marker::Model;

/// A record with its links and its gap's kinds packed.
#[derive(Clone, Copy)]
pub struct PackedRecord {
    length: u64,
    start: u64,
    chunk_id: u64,
    prev_before: TaggedSlot,
    next_after: TaggedSlot,
}

// What a test of a gap reads.
const _: () = prove!(size_of::<PackedRecord>() == 32);

impl Model for PackedRecord {
    ghost use Rattle.gpu_block_gaps.specs.declared.thread.Record.{Record};

    ghost Value = { Record };

    ghost view = { λ p. record {
      gap = record {
        length = p.length;
        start = p.start;
        chunk_id = p.chunk_id;
        before = p.prev_before.1;
        after = p.next_after.1;
      };
      prev = p.prev_before.0;
      next = p.next_after.0;
    } };

    ghost inverse = { λ r. record {
      length = r.gap.length;
      start = r.gap.start;
      chunk_id = r.gap.chunk_id;
      prev_before = (r.prev, r.gap.before);
      next_after = (r.next, r.gap.after);
    } };
}

impl PackedRecord {
    /// A record, packed.
    #[inline(always)]
    pub fn new(entry: Record) -> PackedRecord
        requires prev { entry.prev < 2 ^ 30 }
        requires next { entry.next < 2 ^ 30 }
        ensures { result ≡ entry }
    {
        let gap = entry.gap;
        PackedRecord {
            length: gap.length,
            start: gap.start,
            chunk_id: gap.chunk_id,
            prev_before: TaggedSlot::new(entry.prev, gap.before),
            next_after: TaggedSlot::new(entry.next, gap.after),
        }
    }

    /// The gap.
    #[inline(always)]
    pub fn gap(&self) -> Gap
        ensures { result ≡ self.now.gap }
    {
        Gap {
            length: self.length,
            start: self.start,
            chunk_id: self.chunk_id,
            before: self.prev_before.kind(),
            after: self.next_after.kind(),
        }
    }

    /// The slot before this one.
    #[inline(always)]
    pub fn prev(&self) -> u32
        ensures is { result ≡ self.now.prev }
        ensures small { result < 2 ^ 30 }
    {
        self.prev_before.slot()
    }

    /// The slot behind this one.
    #[inline(always)]
    pub fn next(&self) -> u32
        ensures is { result ≡ self.now.next }
        ensures small { result < 2 ^ 30 }
    {
        self.next_after.slot()
    }

    /// Links the record to another slot before it.
    #[inline(always)]
    pub fn set_prev(&mut self, prev: u32)
        requires { prev < 2 ^ 30 }
        ensures { self.new ≡ record self.old { prev = prev } }
    {
        self.prev_before = self.prev_before.with_slot(prev);
    }

    /// Links the record to another slot behind it.
    #[inline(always)]
    pub fn set_next(&mut self, next: u32)
        requires { next < 2 ^ 30 }
        ensures { self.new ≡ record self.old { next = next } }
    {
        self.next_after = self.next_after.with_slot(next);
    }

    /// Puts another gap into the record.
    #[inline(always)]
    pub fn set_gap(&mut self, gap: Gap)
        ensures { self.new ≡ record self.old { gap = gap } }
    {
        *self = PackedRecord::new(Record {
            gap,
            prev: self.prev(),
            next: self.next(),
        });
    }
}
