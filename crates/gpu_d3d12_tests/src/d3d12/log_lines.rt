//! Log lines, in a log that is kept in memory.

use super::resources::{IN_STATE, asked, own_memory};
use super::*;
use gpu_d3d12::ResourceType;
use gpu_values::AllocationError;
use log::sink::{Lines, Memory};
use log::{Level, Log};

/// Whether a log has these lines and no others.
fn lines_are(lines: &Lines, want: &[&str]) -> bool {
    for (line, want) in lines.as_slice().iter().zip(want) {
        if line.as_str() != *want {
            return false;
        }
    }
    lines.len() == want.len()
}

/// Everything is logged.
const ALL: AllocatorDebugSettings = AllocatorDebugSettings {
    log_memory_information: true,
    log_leaks_on_shutdown: true,
    log_allocations: true,
    log_frees: true,
};

/// Nothing is.
const NONE: AllocatorDebugSettings = AllocatorDebugSettings {
    log_memory_information: false,
    log_leaks_on_shutdown: false,
    log_allocations: false,
    log_frees: false,
};

/// A piece, a placed and a committed resource, both given back, and a refused placed one.
fn resources<L: Log>(log: &L, a: &mut Allocator<SimD3D12>) -> bool {
    let small = buffer(512);
    let own = own_memory();
    let placed = asked(&small, &[], IN_STATE, &ResourceType::Placed);
    let Ok(resource) = a.create_resource(log, &placed) else {
        return false;
    };
    let Ok(committed) = a.create_resource(log, &asked(&small, &[], IN_STATE, &own)) else {
        return false;
    };
    a.free_resource(log, resource).is_ok()
        && a.free_resource(log, committed).is_ok()
        && a.create_resource(log, &placed).is_err()
}

/// The lines of resources, of which the third placed one is refused, and of the allocator's end.
fn lines_of_resources(alloc: Global) -> Option<Lines> {
    let sink = Memory::new(alloc);
    let mut a = made_with(alloc, ALL, &[(4, Refusal::Null)])?;
    let done = resources(&sink.with_target("gpu"), &mut a);
    let _ = a.destroy(&sink.with_target("gpu"));
    if done { Some(sink.into_lines()) } else { None }
}

/// A piece of this name.
fn named(name: &'static str, size: u64, alignment: u64) -> AllocationCreateDesc<'static> {
    AllocationCreateDesc {
        name,
        size,
        alignment,
        ..piece_for(MemoryLocation::GpuOnly, ResourceCategory::Buffer)
    }
}

/// Two pieces, a request that is refused, and one piece given back.
fn pieces<L: Log>(log: &L, a: &mut Allocator<SimD3D12>) -> bool {
    let Ok(first) = a.allocate(log, &named("a", 256, 256)) else {
        return false;
    };
    a.is_live(&first)
        && a.allocate(log, &named("b", 512, 256)).is_ok()
        && matches!(
            a.allocate(log, &named("c", 0, 3)),
            Err(AllocationError::InvalidAllocationCreateDesc)
        )
        && a.free(log, first).is_ok()
}

/// The lines of two pieces one of which is given back, and of the allocator's end, in a log without a target of its own.
fn lines_of(alloc: Global, settings: AllocatorDebugSettings) -> Option<Lines> {
    let sink = Memory::new(alloc);
    let mut a = made_with(alloc, settings, &[])?;
    let done = pieces(&sink, &mut a);
    let _ = a.destroy(&sink);
    if done { Some(sink.into_lines()) } else { None }
}

/// What a log is told of the piece that is left, where it is asked for.
fn leaks_told(alloc: Global) -> Option<Lines> {
    let sink = Memory::new(alloc);
    let mut a = made_with(alloc, NONE, &[])?;
    let done = pieces(&Discard, &mut a);
    a.report_memory_leaks(&sink.with_target("gpu"), Level::Info);
    let _ = destroyed(a);
    if done { Some(sink.into_lines()) } else { None }
}

/// Whether the lines are there, and are these.
fn told(lines: Option<Lines>, want: &[&str]) -> bool {
    match lines {
        Some(lines) => lines_are(&lines, want),
        None => false,
    }
}

const RESOURCE: &str = "[DEBUG gpu] Allocating `buffer` of 65536 bytes with an alignment of 65536.";

/// What is told of the piece that is left, by an allocator's end.
const LEFT: &str = "[WARN  gpu_allocator::d3d12] leak detected: {
    memory type: 0
    memory block: 0
    chunk: {
        chunk_id: 3,
        size: 0x200,
        offset: 0x100,
        allocation_type: Linear,
        name: b
    }
}";

/// What is told of it to a log of a target, at another level.
const LEFT_TO_GPU: &str = "[INFO  gpu] leak detected: {
    memory type: 0
    memory block: 0
    chunk: {
        chunk_id: 3,
        size: 0x200,
        offset: 0x100,
        allocation_type: Linear,
        name: b
    }
}";

const EVERYTHING: &[&str] = &[
    "[DEBUG gpu_allocator::d3d12] Allocating `a` of 256 bytes with an alignment of 256.",
    "[DEBUG gpu_allocator::d3d12] Allocating `b` of 512 bytes with an alignment of 256.",
    "[DEBUG gpu_allocator::d3d12] Allocating `c` of 0 bytes with an alignment of 3.",
    "[DEBUG gpu_allocator::d3d12] Freeing `a`.",
    LEFT,
];

#[test]
fn all_that_is_set_is_logged_in_order(rt: HostRuntime) {
    let alloc = rt.alloc();
    let freed = "[DEBUG gpu] Freeing `buffer`.";
    let steps = [
        told(lines_of_resources(alloc), &[RESOURCE, freed, RESOURCE]),
        told(lines_of(alloc, ALL), EVERYTHING),
        told(lines_of(alloc, NONE), &[]),
        told(lines_of(alloc, AllocatorDebugSettings::default()), &[LEFT]),
        told(leaks_told(alloc), &[LEFT_TO_GPU]),
    ];
    check(&rt, &steps);
}
