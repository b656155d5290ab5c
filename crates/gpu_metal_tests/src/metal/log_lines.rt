//! Log lines, in a log that is kept in memory.

use super::*;
use gpu_values::AllocationError;
use log::Log;
use log::sink::{Lines, Memory};

/// Settings that log allocations or frees, or both. This allocator has no line of the other two sorts.
fn settings(log_allocations: bool, log_frees: bool) -> AllocatorDebugSettings {
    AllocatorDebugSettings {
        log_memory_information: true,
        log_leaks_on_shutdown: true,
        log_allocations,
        log_frees,
    }
}

/// A piece that comes and goes, and a request that is refused.
fn calls<L: Log>(log: &L, a: &mut Allocator<SimMetal>) -> bool {
    let Ok(first) = a.allocate(log, &piece(512, MemoryLocation::GpuOnly)) else {
        return false;
    };
    matches!(
        a.allocate(log, &piece(0, MemoryLocation::GpuOnly)),
        Err(AllocationError::InvalidAllocationCreateDesc)
    ) && a.free(log, first).is_ok()
}

/// Whether an allocator under these settings makes those calls.
fn makes_calls<L: Log>(alloc: Global, log: &L, debug_settings: AllocatorDebugSettings) -> bool {
    let Some(device) = simulated(alloc, &[]) else {
        return false;
    };
    let mut desc = described(device, AllocationSizes::default(), false);
    desc.debug_settings = debug_settings;
    match Allocator::new(alloc, desc) {
        Ok(mut a) => {
            let done = calls(log, &mut a);
            let _ = a.destroy();
            done
        }
        Err((_, _)) => false,
    }
}

/// Whether a log has these lines and no others.
fn lines_are(lines: &Lines, want: &[&str]) -> bool {
    for (line, want) in lines.as_slice().iter().zip(want) {
        if line.as_str() != *want {
            return false;
        }
    }
    lines.len() == want.len()
}

/// Whether these are the lines of the calls, in a log without a target of its own.
fn logs(alloc: Global, log_allocations: bool, log_frees: bool, want: &[&str]) -> bool {
    let sink = Memory::new(alloc);
    makes_calls(alloc, &sink, settings(log_allocations, log_frees))
        && lines_are(&sink.into_lines(), want)
}

/// Whether a log of a target has these lines of frees.
fn logs_frees_to_gpu(alloc: Global, want: &[&str]) -> bool {
    let sink = Memory::new(alloc);
    makes_calls(alloc, &sink.with_target("gpu"), settings(false, true))
        && lines_are(&sink.into_lines(), want)
}

/// Before the description is looked at.
const FIRST: &str =
    "[DEBUG gpu_allocator::metal] Allocating `piece` of 512 bytes with an alignment of 256.";

const EMPTY: &str =
    "[DEBUG gpu_allocator::metal] Allocating `piece` of 0 bytes with an alignment of 256.";

const FREEING: &str = "[DEBUG gpu_allocator::metal] Freeing `piece`.";

#[test]
fn each_setting_logs_its_own_lines(rt: HostRuntime) {
    let alloc = rt.alloc();
    let steps = [
        logs(alloc, true, true, &[FIRST, EMPTY, FREEING]),
        logs(alloc, true, false, &[FIRST, EMPTY]),
        logs(alloc, false, true, &[FREEING]),
        logs(alloc, false, false, &[]),
        logs_frees_to_gpu(alloc, &["[DEBUG gpu] Freeing `piece`."]),
    ];
    check(&rt, &steps);
}
