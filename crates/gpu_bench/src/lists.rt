//! Lists of operations that other allocators are timed on as well, and their times in the same form: for each list and class its
//! name, how many operations, and nanoseconds an operation.

mod block;
mod choice;
mod measure;
mod work;
mod workloads;

use crate::error::Result;
use choice::Choice;

/// Prints the checksums of all lists.
pub fn check_lists(rt: &HostRuntime) -> Result<()> {
    for name in workloads::NAMES {
        measure::check(rt, &workloads::work_of(rt.alloc(), name)?)?;
    }
    Ok(())
}

/// Runs the lists that the arguments name, or all.
pub fn run_lists(rt: &HostRuntime) -> Result<()> {
    let alloc = rt.alloc();
    let choice = Choice::read(rt, alloc)?;
    for name in workloads::NAMES {
        if choice.takes(name) {
            let work = workloads::work_of(alloc, name)?;
            if choice.check {
                measure::check(rt, &work)?;
            } else {
                measure::measure(rt, alloc, &work, choice.runs)?;
            }
        }
    }
    Ok(())
}
