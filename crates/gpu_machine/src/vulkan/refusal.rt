//! Refusals: of a driver's mapping and of a heap that isn't there; and those after which another memory type is tried.

ghost use Rattle.std.specs.Prelude.{◌≡◌};
ghost use Rattle.std.specs.Option.{option_map};
ghost use Rattle.gpu_values.specs.Refusal.{refusal_of};
ghost use Rattle.gpu_vulkan.specs.BlockAnswer.{map_refusal};
ghost use Rattle.gpu_machine.specs.VulkanRoom.{lacks_room, is_bounded};
ghost use Rattle.gpu_machine.specs.VulkanCalls.{no_such_heap};

use gpu_values::{AllocationError, Fault};

/// Why memory wasn't mapped: the driver's code, or none where it gave a null pointer.
pub fn refusal_of_mapping(code: Option<i32>) -> AllocationError
    ensures { refusal_of result ≡ map_refusal code }
{
    match code {
        None => AllocationError::FailedToMap(Fault {
            text: "Returned mapped pointer is null",
            code: None,
        }),
        Some(code) => AllocationError::FailedToMap(Fault {
            text: "vkMapMemory failed",
            code: Some(i64::from(code)),
        }),
    }
}

/// Whether a memory type, its budget or its heap has no room: a smaller block, or another memory type, may have.
pub fn lacks_room(error: &AllocationError) -> bool
    ensures { result ≡ lacks_room (refusal_of error.now) }
{
    matches!(
        error,
        AllocationError::OutOfMemory | AllocationError::BudgetExceeded
    )
}

/// Whether a bound is why there is no room.
pub fn is_bounded(error: &AllocationError) -> bool
    ensures { result ≡ is_bounded (refusal_of error.now) }
{
    matches!(error, AllocationError::BudgetExceeded)
}

/// No heap has that index.
pub fn no_such_heap() -> AllocationError
    ensures { refusal_of result ≡ no_such_heap }
{
    AllocationError::Internal(Fault {
        text: "No such heap.",
        code: None,
    })
}
