//! What a case shows of its field and of its time.

use crate::field::Field;
use std::io;
use std::time::Duration;

/// What came of a case's calls, the same in every run.
pub fn show_tally(rt: &HostRuntime, case: &str, field: &Field) -> io::Result<()> {
    let tally = field.tally();
    let granted = tally.granted;
    let refused = tally.refused;
    let sum = tally.sum;
    let held = field.held();
    println!(rt; "{case}: {granted} granted, {refused} refused, offsets {sum}, held {held}")
}

/// What the takes and the releases of a case took.
#[derive(Clone, Copy)]
pub struct Times {
    pub taking: Duration,
    pub giving: Duration,
}

impl Times {
    pub fn new() -> Times {
        Times {
            taking: Duration::ZERO,
            giving: Duration::ZERO,
        }
    }
}

/// What an operation took, in nanoseconds with one decimal place.
pub fn show_time(rt: &HostRuntime, case: &str, taken: Duration, operations: u64) -> io::Result<()> {
    let whole = taken.as_nanos().saturating_mul(10);
    let tenths = if operations == 0 {
        whole
    } else {
        whole / operations as u128
    };
    let nanos = tenths / 10;
    let rest = tenths % 10;
    eprintln!(rt; "{case}: {nanos}.{rest} ns")
}

/// What came of a case's calls, and what each of them took.
pub fn show_case(
    rt: &HostRuntime,
    case: &str,
    field: &Field,
    taken: Duration,
    operations: u64,
) -> io::Result<()> {
    show_tally(rt, case, field)?;
    show_time(rt, case, taken, operations)
}
