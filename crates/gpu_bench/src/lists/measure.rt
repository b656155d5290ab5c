//! Runs a list on fresh blocks and prints the median of the times.

use crate::lists::block::Block;
use crate::lists::work::{Class, Operation, Segment, Work};
use std::alloc::{AllocError, Global};
use std::io;
use std::num::NonZeroU64;
use std::rt::Clock;
use std::time::{Duration, Instant};

/// What one run came to.
#[derive(Drop)]
struct Outcome {
    spans: Vec<u64>,
    refused: usize,
    allocated: u64,
}

/// Prints the checksum of a list, and how many operations it has.
pub fn check(rt: &impl Print, work: &Work) -> io::Result<()> {
    let name = work.name;
    let checksum = work.checksum();
    let count = work.operations.len();
    println!(rt; "# {name} checksum {checksum:016x} ops {count}")
}

/// Does the operations, and tells how many takes were refused.
fn perform(block: &mut Block, held: &mut [Option<NonZeroU64>], operations: &[Operation]) -> usize {
    let mut refused = 0usize;
    for operation in operations {
        match *operation {
            Operation::Allocate {
                slot,
                size,
                alignment,
                non_linear,
            } => {
                let number = block.allocate(size, alignment, non_linear);
                if number.is_none() {
                    refused = refused.wrapping_add(1);
                }
                if slot < held.len() {
                    held[slot] = number;
                }
            }
            Operation::Free { slot } => {
                if slot < held.len() {
                    let number = held[slot];
                    if number.is_some() {
                        held[slot] = None;
                        block.free(number);
                    }
                }
            }
        }
    }
    refused
}

/// The operations of a segment.
fn part(operations: &[Operation], start: usize, end: usize) -> &[Operation] {
    if start <= end && end <= operations.len() {
        return &operations[start..end];
    }
    &[]
}

/// A time in nanoseconds.
fn nanoseconds(span: Duration) -> u64 {
    let whole = span.as_secs().wrapping_mul(1_000_000_000);
    whole.wrapping_add(u64::from(span.subsec_nanos()))
}

/// Does a whole list on a fresh block.
fn run(rt: &impl Clock, alloc: Global, work: &Work) -> io::Result<Outcome> {
    let mut held: Vec<Option<NonZeroU64>> = vec![in alloc; None; work.slots]?;
    let mut outcome = Outcome {
        spans: Vec::with_capacity(alloc, work.segments.len())?,
        refused: 0,
        allocated: 0,
    };
    let Some(mut block) = Block::new(alloc, work.block, work.granularity) else {
        return Err(io::Error::from(io::ErrorKind::InvalidInput));
    };
    let mut start = 0usize;
    for segment in &work.segments {
        let operations = part(&work.operations, start, segment.end);
        let clock = Instant::now(rt)?;
        let refused = perform(&mut block, &mut held, operations);
        let span = clock.elapsed(rt)?;
        outcome.refused = outcome.refused.wrapping_add(refused);
        outcome.spans.push(nanoseconds(span))?;
        start = segment.end;
    }
    outcome.allocated = block.allocated();
    Ok(outcome)
}

/// How many operations a class has.
fn count_of(segments: &[Segment], class: Class) -> u64 {
    let mut start = 0usize;
    let mut count = 0u64;
    for segment in segments {
        if segment.class == class {
            count = count.wrapping_add(segment.end.saturating_sub(start) as u64);
        }
        start = segment.end;
    }
    count
}

/// What the operations of a class took in one run, in nanoseconds.
fn time_of(segments: &[Segment], spans: &[u64], class: Class) -> u64 {
    let mut sum = 0u64;
    for (segment, span) in segments.iter().zip(spans) {
        if segment.class == class {
            sum = sum.wrapping_add(*span);
        }
    }
    sum
}

/// What they took in the median of the runs.
fn median(
    alloc: Global,
    segments: &[Segment],
    outcomes: &[Outcome],
    class: Class,
) -> Result<u64, AllocError> {
    let mut times = Vec::new(alloc);
    for outcome in outcomes {
        times.push(time_of(segments, &outcome.spans, class))?;
    }
    times.sort_unstable();
    Ok(times.get(times.len() / 2).copied().unwrap_or(0))
}

/// One line a class: the workload, its operations, and nanoseconds an operation.
fn line(rt: &impl Print, name: &str, class: Class, count: u64, time: u64) -> io::Result<()> {
    if count == 0 {
        return Ok(());
    }
    let tenths = time.wrapping_mul(10).wrapping_add(count / 2) / count;
    let suffix = class.suffix();
    let whole = tenths / 10;
    let rest = tenths % 10;
    println!(rt; "{name}{suffix} {count} {whole}.{rest}")
}

/// Runs a list, and prints what each class took.
pub fn measure(
    rt: &(impl Clock + Print),
    alloc: Global,
    work: &Work,
    runs: usize,
) -> io::Result<()> {
    let checksum = work.checksum();
    let name = work.name;
    let mut outcomes = Vec::new(alloc);
    for _ in 0..runs.max(1) {
        outcomes.push(run(rt, alloc, work)?)?;
    }
    for class in Class::TIMED {
        let time = median(alloc, &work.segments, &outcomes, class)?;
        line(rt, name, class, count_of(&work.segments, class), time)?;
    }
    let Some(outcome) = outcomes.first() else {
        return Ok(());
    };
    let refused = outcome.refused;
    let allocated = outcome.allocated;
    println!(rt; "# {name} checksum {checksum:016x} refused {refused} allocated {allocated}")
}
