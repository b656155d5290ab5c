//! Log lines, in a log that is kept in memory.

use super::reports::{FIRST, SECOND, named, two_pieces};
use super::*;
use gpu_values::AllocationError;
use log::sink::{Lines, Memory};
use log::{Level, Log};

/// Everything is logged.
const ALL: AllocatorDebugSettings = AllocatorDebugSettings {
    log_memory_information: true,
    log_leaks_on_shutdown: true,
    log_allocations: true,
    log_frees: true,
};

/// Nothing is.
const NONE: AllocatorDebugSettings = AllocatorDebugSettings {
    log_memory_information: false,
    log_leaks_on_shutdown: false,
    log_allocations: false,
    log_frees: false,
};

/// A line: how it begins, and the rest.
type Line = (&'static str, &'static str);

const DEBUG: &str = "[DEBUG gpu_allocator::vulkan] ";

const WARN: &str = "[WARN  gpu_allocator::vulkan] ";

/// Whether the lines are there, and are these and no others.
fn told(lines: Option<Lines>, want: &[Line]) -> bool {
    match lines {
        Some(lines) => lines_are(&lines, want),
        None => false,
    }
}

fn lines_are(lines: &Lines, want: &[Line]) -> bool {
    for (line, want) in lines.as_slice().iter().zip(want) {
        if line.as_str().strip_prefix(want.0) != Some(want.1) {
            return false;
        }
    }
    lines.len() == want.len()
}

/// An allocator that logs under these settings, in blocks of 4 MB.
fn logging<L: Log>(
    alloc: Global,
    log: &L,
    settings: AllocatorDebugSettings,
    properties: &Properties,
) -> Option<Allocator<SimVulkan>> {
    let device = simulated(alloc, properties).ok()?;
    let mut desc = described(device, small());
    desc.debug_settings = settings;
    match Allocator::new(log, alloc, desc) {
        Ok(allocator) => Some(allocator),
        Err((_, _)) => None,
    }
}

/// Two pieces, a request that is refused, one piece given back, and nothing given back.
fn script<L: Log>(log: &L, a: &mut Allocator<SimVulkan>) -> bool {
    let Ok(first) = a.allocate(log, &named("a", 100, 1)) else {
        return false;
    };
    a.allocate(log, &named("b", 64, 256)).is_ok()
        && matches!(
            a.allocate(log, &named("c", 0, 3)),
            Err(AllocationError::InvalidAllocationCreateDesc)
        )
        && a.free(log, first).is_ok()
        && a.free(log, Allocation::default()).is_ok()
}

/// The lines of the script, and of the allocator's making and end, in a log without a target of its own.
fn lines_of(alloc: Global, settings: AllocatorDebugSettings) -> Option<Lines> {
    let sink = Memory::new(alloc);
    let mut a = logging(alloc, &sink, settings, &with_types(&[HOST]))?;
    let done = script(&sink, &mut a);
    let _ = a.destroy(&sink);
    if done { Some(sink.into_lines()) } else { None }
}

const EVERYTHING: &[Line] = &[
    (DEBUG, "memory type count: 1"),
    (DEBUG, "memory heap count: 1"),
    (DEBUG, "memory type[0]: prop flags: 0x6, heap[0]"),
    (DEBUG, "heap[0] flags: 0x0, size: 1024 MiB"),
    (DEBUG, "Allocating `a` of 100 bytes with an alignment of 1."),
    (
        DEBUG,
        "Allocating `b` of 64 bytes with an alignment of 256.",
    ),
    (DEBUG, "Allocating `c` of 0 bytes with an alignment of 3."),
    (DEBUG, "Freeing `a`."),
    (DEBUG, "Freeing `<null>`."),
    (WARN, SECOND),
];

/// Two memory types on two heaps, of which one has a little less than a number of megabytes.
const TWO: Properties<'static> = Properties {
    heaps: &[
        MemoryHeap {
            size: 1_572_863,
            flags: 0,
        },
        GIGABYTE,
    ],
    types: &[
        MemoryTypeInfo {
            property_flags: MemoryPropertyFlags(1),
            heap_index: 1,
        },
        MemoryTypeInfo {
            property_flags: MemoryPropertyFlags(14),
            heap_index: 0,
        },
    ],
    granularity: 1,
    limit: u64::MAX,
    refusals: &[],
};

/// The lines of an allocator's making, over two memory types.
fn lines_of_types(alloc: Global) -> Option<Lines> {
    let sink = Memory::new(alloc);
    let mut settings = NONE;
    settings.log_memory_information = true;
    let a = logging(alloc, &sink.with_target("gpu"), settings, &TWO)?;
    let _ = a.destroy(&Discard);
    Some(sink.into_lines())
}

const GPU: &str = "[DEBUG gpu] ";

const TYPES: &[Line] = &[
    (GPU, "memory type count: 2"),
    (GPU, "memory heap count: 2"),
    (GPU, "memory type[0]: prop flags: 0x1, heap[1]"),
    (GPU, "memory type[1]: prop flags: 0xe, heap[0]"),
    (GPU, "heap[0] flags: 0x0, size: 1 MiB"),
    (GPU, "heap[1] flags: 0x0, size: 1024 MiB"),
];

/// The lines of an allocator that is not made, since its device has pages of 3 bytes.
fn lines_of_a_bad_device(alloc: Global) -> Option<Lines> {
    let sink = Memory::new(alloc);
    let properties = Properties {
        granularity: 3,
        ..with_types(&[HOST])
    };
    match logging(alloc, &sink, ALL, &properties) {
        Some(a) => {
            let _ = a.destroy(&Discard);
            None
        }
        None => Some(sink.into_lines()),
    }
}

#[test]
fn all_that_is_set_is_logged_in_order(rt: HostRuntime) {
    let alloc = rt.alloc();
    let steps = [
        told(lines_of(alloc, ALL), EVERYTHING),
        told(lines_of(alloc, NONE), &[]),
        told(
            lines_of(alloc, AllocatorDebugSettings::default()),
            &[(WARN, SECOND)],
        ),
        told(lines_of_types(alloc), TYPES),
        told(lines_of_a_bad_device(alloc), &[]),
    ];
    check(&rt, &steps);
}

/// What a log is told of two pieces, where the leaks are asked for and at the allocator's end.
fn leaks_told(alloc: Global) -> Option<Lines> {
    let sink = Memory::new(alloc);
    let mut a = logging(alloc, &Discard, NONE, &with_types(&[HOST]))?;
    let done = two_pieces(&mut a).is_some();
    a.report_memory_leaks(&sink.with_target("gpu"), Level::Info);
    let _ = a.destroy(&sink.with_target("gpu"));
    if done { Some(sink.into_lines()) } else { None }
}

/// Offers an allocation to an allocator that isn't its own, and frees it in its own one: each logs its name.
fn free_in_both<L: Log>(
    log: &L,
    a: &mut Allocator<SimVulkan>,
    b: &mut Allocator<SimVulkan>,
) -> bool {
    let Some((_first, second)) = two_pieces(a) else {
        return false;
    };
    match b.free(log, second) {
        Err((AllocationError::Internal(_), back)) => a.free(log, back).is_ok(),
        _ => false,
    }
}

/// The same, with another allocator.
fn free_in_another<L: Log>(alloc: Global, log: &L, a: &mut Allocator<SimVulkan>) -> bool {
    match logging(alloc, &Discard, ALL, &with_types(&[HOST])) {
        Some(mut b) => {
            let done = free_in_both(log, a, &mut b);
            let _ = b.destroy(&Discard);
            done
        }
        None => false,
    }
}

/// What a log is told of a refused free and of one that isn't.
fn frees_told(alloc: Global) -> Option<Lines> {
    let sink = Memory::new(alloc);
    let mut a = logging(alloc, &Discard, ALL, &with_types(&[HOST]))?;
    let done = free_in_another(alloc, &sink.with_target("gpu"), &mut a);
    let _ = a.destroy(&Discard);
    if done { Some(sink.into_lines()) } else { None }
}

#[test]
fn leaks_at_a_level_and_refused_frees_are_told(rt: HostRuntime) {
    let info = "[INFO  gpu] ";
    let freed = "Freeing `b`.";
    let steps = [
        told(leaks_told(rt.alloc()), &[(info, FIRST), (info, SECOND)]),
        told(frees_told(rt.alloc()), &[(GPU, freed), (GPU, freed)]),
    ];
    check(&rt, &steps);
}
