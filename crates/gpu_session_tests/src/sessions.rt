//! Sessions: lists of commands, each with its reply.

mod refused;

use crate::check;
use gpu_allocator::vulkan::*;
use gpu_session::{Command, Other, Reply, Request, Session};
use gpu_sim::SimVulkan;
use gpu_values::{AllocationError, AllocationSizes, AllocatorDebugSettings, MemoryLocation};
use log::sink::Discard;
use std::alloc::{AllocError, Global};

/// Bytes in a megabyte.
const MB: u64 = 1_048_576;

const HEAP: MemoryHeap = MemoryHeap {
    size: 1024 * MB,
    flags: 0,
};

const HOST: MemoryTypeInfo = MemoryTypeInfo {
    property_flags: MemoryPropertyFlags(6),
    heap_index: 0,
};

/// A simulated device with one memory type that the host can see, in a heap of 1 GB.
fn simulated(alloc: Global) -> std::result::Result<SimVulkan, AllocError> {
    let heaps = Vec::from_slice(alloc, &[HEAP])?;
    let types = Vec::from_slice(alloc, &[HOST])?;
    Ok(SimVulkan::new(alloc, heaps, types, 1, u64::MAX, Vec::new(alloc)))
}

/// An allocator over a device, with these block sizes; else why not, and the device.
fn made(
    alloc: Global,
    device: SimVulkan,
    allocation_sizes: AllocationSizes,
) -> std::result::Result<Allocator<SimVulkan>, (AllocationError, SimVulkan)> {
    let desc = AllocatorCreateDesc {
        device,
        physical_device: PhysicalDevice(1),
        debug_settings: AllocatorDebugSettings::default(),
        buffer_device_address: true,
        allocation_sizes,
    };
    Allocator::new(&Discard, alloc, desc)
}

/// A session over that device.
fn session(alloc: Global) -> Option<Session<SimVulkan>> {
    let device = simulated(alloc).ok()?;
    match made(alloc, device, AllocationSizes::default()) {
        Ok(a) => Some(Session::new(alloc, a)),
        Err((_, _)) => None,
    }
}

/// A piece of this size and alignment.
#[derive(Clone, Copy)]
struct Piece<'a> {
    size: u64,
    alignment: u64,
    location: MemoryLocation,
    name: &'a str,
}

/// A command, whose name and bytes are borrowed. Each but the last begins with its number.
#[derive(Clone, Copy)]
enum Call<'a> {
    Take(u64, Piece<'a>),
    /// A second place of the first number's piece under the second.
    Move(u64, u64, Piece<'a>),
    /// Writes at this offset.
    Write(u64, u64, &'a [u8]),
    /// Reads so many bytes behind this offset.
    Read(u64, u64, u64),
    Free(u64),
    Capacity,
}

fn request_of(alloc: Global, piece: Piece) -> std::result::Result<Request, AllocError> {
    Ok(Request {
        requirements: MemoryRequirements {
            size: piece.size,
            alignment: piece.alignment,
            memory_type_bits: 1,
        },
        location: piece.location,
        linear: true,
        scheme: AllocationScheme::GpuAllocatorManaged,
        name: piece.name.to_string(alloc)?,
    })
}

fn command_of(alloc: Global, call: Call) -> std::result::Result<Command, AllocError> {
    match call {
        Call::Take(key, piece) => Ok(Command::Alloc {
            key,
            request: request_of(alloc, piece)?,
        }),
        Call::Move(key, to, piece) => Ok(Command::Move {
            key,
            to,
            request: request_of(alloc, piece)?,
        }),
        Call::Write(key, at, bytes) => Ok(Command::Other(Other::Write {
            key,
            at,
            bytes: Vec::from_slice(alloc, bytes)?,
        })),
        Call::Read(key, at, size) => Ok(Command::Other(Other::Read { key, at, size })),
        Call::Free(key) => Ok(Command::Free { key }),
        Call::Capacity => Ok(Command::Capacity),
    }
}

fn commands_of(alloc: Global, calls: &[Call]) -> std::result::Result<Vec<Command>, AllocError> {
    let mut commands = Vec::new(alloc);
    for call in calls {
        commands.push(command_of(alloc, *call)?)?;
    }
    Ok(commands)
}

/// Where a new allocation lies, and its number.
fn given_at(reply: &Reply) -> Option<(u64, u64, u64)> {
    match reply {
        Reply::Allocated(given) => Some((given.offset, given.size, given.chunk.get())),
        _ => None,
    }
}

/// Eight bytes that the host writes.
fn upload(name: &str) -> Piece<'_> {
    Piece {
        size: 8,
        alignment: 4,
        location: MemoryLocation::CpuToGpu,
        name,
    }
}

/// So many bytes, anywhere in a block.
fn large(size: u64) -> Piece<'static> {
    Piece {
        size,
        alignment: 1,
        location: MemoryLocation::CpuToGpu,
        name: "large",
    }
}

/// In blocks of 4 MB the pieces 1 and 3 fill the block in slot 0, and 2 and 4 the one in slot 1. With 4 gone, 3 has a second place
/// there and 1 has none. With 3 and 1 gone, the block in slot 0 goes.
fn moves(alloc: Global) -> std::result::Result<Vec<Command>, AllocError> {
    let calls = [
        Call::Take(1, large(3 * MB)),
        Call::Take(2, large(2 * MB)),
        Call::Take(4, large(2 * MB)),
        Call::Take(3, large(MB)),
        Call::Move(3, 5, large(MB)),
        Call::Free(4),
        Call::Move(1, 5, large(3 * MB)),
        Call::Move(3, 2, large(MB)),
        Call::Move(6, 5, large(MB)),
        Call::Move(3, 5, large(2 * MB)),
        Call::Move(3, 5, large(MB)),
        Call::Free(3),
        Call::Free(1),
        Call::Capacity,
    ];
    commands_of(alloc, &calls)
}

/// The slot of a new allocation.
fn slot_of(reply: &Reply) -> Option<usize> {
    match reply {
        Reply::Allocated(given) => Some(given.slot),
        _ => None,
    }
}

/// Whether no move is made but the one that there is a place for: behind the piece 2, with a number of its own.
fn moves_are(replies: &[Reply]) -> bool {
    let [
        _,
        _,
        _,
        _,
        full,
        _,
        long,
        busy,
        unbound,
        other,
        placed,
        _,
        _,
        capacity,
    ] = replies
    else {
        return false;
    };
    matches!(full, Reply::NoPlace)
        && matches!(long, Reply::NoPlace)
        && matches!(busy, Reply::Busy)
        && matches!(unbound, Reply::Unbound)
        && matches!(
            other,
            Reply::Error(AllocationError::InvalidAllocationCreateDesc)
        )
        && given_at(placed) == Some((2 * MB, MB, 3))
        && slot_of(placed) == Some(1)
        && matches!(capacity, Reply::Capacity(4_194_304))
}

/// Whether a session over blocks of 4 MB answers these commands so, and its device holds nothing at last.
fn moved(alloc: Global) -> Option<bool> {
    let commands = moves(alloc).ok()?;
    let device = simulated(alloc).ok()?;
    let Ok(a) = made(alloc, device, AllocationSizes::new(4 * MB, 4 * MB)) else {
        return None;
    };
    let mut s = Session::new(alloc, a);
    let ran = s.run(&Discard, &commands);
    let held = s.destroy(&Discard).held();
    let replies = ran.ok()?;
    Some(moves_are(&replies) && held == 0)
}

#[test]
fn a_piece_moves_to_a_higher_slot(rt: HostRuntime) {
    check(&rt, &[moved(rt.alloc()) == Some(true)]);
}

/// Two parties, 1 and 2: the second writes `theirs`, and what the first has taken after the second gave its piece back begins
/// with that.
fn parties(alloc: Global, theirs: u8) -> std::result::Result<Vec<Command>, AllocError> {
    let bytes = [theirs; 8];
    let calls = [
        Call::Take(2, upload("theirs")),
        Call::Write(2, 0, &bytes),
        Call::Take(3, upload("theirs")),
        Call::Free(2),
        Call::Take(1, upload("ours")),
        Call::Write(1, 2, &[1, 2, 3]),
        Call::Write(3, 0, &bytes),
        Call::Read(1, 0, 8),
        Call::Capacity,
    ];
    commands_of(alloc, &calls)
}

/// Whether our piece lies at the block's beginning, and our read gave these bytes.
fn our_read_is(replies: &[Reply], want: &[u8]) -> bool {
    let [_, _, _, _, given, _, _, ours, capacity] = replies else {
        return false;
    };
    let reads = match ours {
        Reply::Bytes(bytes) => bytes.as_slice() == want,
        _ => false,
    };
    reads
        && matches!(capacity, Reply::Capacity(67_108_864))
        && matches!(given_at(given), Some((0, _, _)))
}

/// Whether our read gives these bytes in a run of the two parties, and the device holds nothing at last.
fn reads(alloc: Global, theirs: u8, want: &[u8]) -> Option<bool> {
    let commands = parties(alloc, theirs).ok()?;
    let mut s = session(alloc)?;
    let ran = s.run(&Discard, &commands);
    let held = s.destroy(&Discard).held();
    let replies = ran.ok()?;
    Some(our_read_is(&replies, want) && held == 0)
}

/// What is read at places that we wrote doesn't depend on the other party's bytes; elsewhere our piece begins with them.
#[test]
fn others_bytes_change_nothing_that_we_wrote(rt: HostRuntime) {
    let steps = [
        reads(rt.alloc(), 7, &[7, 7, 1, 2, 3, 7, 7, 7]) == Some(true),
        reads(rt.alloc(), 9, &[9, 9, 1, 2, 3, 9, 9, 9]) == Some(true),
    ];
    check(&rt, &steps);
}
