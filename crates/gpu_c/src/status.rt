//! What the calls return. 1 to 11 are the library's errors E1 to E11, 12 and 13 two causes of E6, 14 to 16 of E5; from 100 on a handle is in the wrong state.

ghost use Rattle.std.specs.Prelude.{◌≡◌};
ghost use Rattle.gpu_c.specs.Status.{status_of};

use gpu_values::AllocationError;

/// The call did what it says.
pub const OK: u32 = 0;

/// There is no place in the block, or the sum of the blocks' sizes would pass 2^64 - 1.
pub const OUT_OF_MEMORY: u32 = 1;

/// The driver granted memory, but didn't map it.
pub const FAILED_TO_MAP: u32 = 2;

/// No memory type that the request allows has what its location needs.
pub const NO_MEMORY_TYPE: u32 = 3;

/// A size of 0, an alignment or a page size that isn't a power of two, an unknown kind, or a name that isn't UTF-8.
pub const INVALID: u32 = 4;

/// The page size of a device isn't a power of two.
pub const INVALID_DEVICE: u32 = 5;

/// No live piece, or no record of a committed resource, is the one that was named.
pub const NOT_LIVE: u32 = 6;

/// A resource begins in a barrier layout, and the device is no `ID3D12Device10`.
pub const LAYOUT_NEEDS_DEVICE10: u32 = 7;

/// A resource has castable formats, and begins in a state.
pub const FORMATS_NEED_LAYOUT: u32 = 8;

/// A resource has castable formats, and the device is no `ID3D12Device12`.
pub const FORMATS_NEED_DEVICE12: u32 = 9;

/// The host refused memory.
pub const HOST_OUT_OF_MEMORY: u32 = 10;

/// A block more would pass the budget.
pub const BUDGET_EXCEEDED: u32 = 11;

/// The driver refused memory for a cause that has no status of its own.
pub const DRIVER_REFUSED: u32 = 12;

/// No memory type has that index.
pub const NO_SUCH_TYPE: u32 = 13;

/// A device has more than 32 memory types (`VK_MAX_MEMORY_TYPES`).
pub const TOO_MANY_TYPES: u32 = 14;

/// A memory type of a device lies in a heap that isn't there.
pub const NO_SUCH_HEAP: u32 = 15;

/// The resource heap tier of a device is 0.
pub const INVALID_TIER: u32 = 16;

/// The handle is empty.
pub const NO_HANDLE: u32 = 100;

/// The handle isn't empty, and create takes an empty one alone.
pub const IN_USE: u32 = 101;

/// A block is awaited: install or abandon it first.
pub const AWAITS_BLOCK: u32 = 102;

/// No block is awaited, so that there is none to install or to abandon.
pub const AWAITS_NO_BLOCK: u32 = 103;

/// A question is open: answer it first.
pub const AWAITS_ANSWER: u32 = 104;

/// No question is open, so that there is none to answer.
pub const AWAITS_NO_ANSWER: u32 = 105;

/// As many frames are in flight as create made room for: retire one first. Or frames are numbered up to 2^64 - 2.
pub const TOO_MANY_FRAMES: u32 = 106;

/// The status of a refusal.
pub fn status_of(error: &AllocationError) -> u32
    ensures { result ≡ status_of error.now }
{
    match error {
        AllocationError::OutOfMemory => OUT_OF_MEMORY,
        AllocationError::HostOutOfMemory => HOST_OUT_OF_MEMORY,
        AllocationError::InvalidAllocationCreateDesc => INVALID,
        AllocationError::BudgetExceeded => BUDGET_EXCEEDED,
        _ => NOT_LIVE,
    }
}
