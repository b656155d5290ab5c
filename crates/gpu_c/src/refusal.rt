//! Refusals of allocators as statuses.

ghost use Rattle.std.specs.Prelude.{◌≡◌};
ghost use Rattle.gpu_values.specs.Refusal.{refusal_of};
ghost use Rattle.gpu_c.specs.Status.{refusal_status};
ghost use Rattle.gpu_c.specs.declared.status.TheConstants.{OUT_OF_MEMORY, FAILED_TO_MAP, NO_MEMORY_TYPE, INVALID, INVALID_DEVICE, LAYOUT_NEEDS_DEVICE10, FORMATS_NEED_LAYOUT, FORMATS_NEED_DEVICE12, HOST_OUT_OF_MEMORY, BUDGET_EXCEEDED, DRIVER_REFUSED};

use crate::status::{
    BUDGET_EXCEEDED, DRIVER_REFUSED, FAILED_TO_MAP, FORMATS_NEED_DEVICE12, FORMATS_NEED_LAYOUT,
    HOST_OUT_OF_MEMORY, INVALID, INVALID_DEVICE, LAYOUT_NEEDS_DEVICE10, NO_MEMORY_TYPE,
    OUT_OF_MEMORY,
};
use gpu_values::AllocationError;

/// The status of an allocator's refusal.
pub fn refusal_status(error: &AllocationError) -> u32
    ensures { result ≡ refusal_status (refusal_of error.now) }
{
    match error {
        AllocationError::OutOfMemory => OUT_OF_MEMORY,
        AllocationError::FailedToMap(_) => FAILED_TO_MAP,
        AllocationError::NoCompatibleMemoryTypeFound => NO_MEMORY_TYPE,
        AllocationError::InvalidAllocationCreateDesc => INVALID,
        AllocationError::InvalidAllocatorCreateDesc(_) => INVALID_DEVICE,
        AllocationError::BarrierLayoutNeedsDevice10 => LAYOUT_NEEDS_DEVICE10,
        AllocationError::CastableFormatsRequiresEnhancedBarriers => FORMATS_NEED_LAYOUT,
        AllocationError::CastableFormatsRequiresAtLeastDevice12 => FORMATS_NEED_DEVICE12,
        AllocationError::HostOutOfMemory => HOST_OUT_OF_MEMORY,
        AllocationError::BudgetExceeded => BUDGET_EXCEEDED,
        AllocationError::Internal(_) => DRIVER_REFUSED,
    }
}
