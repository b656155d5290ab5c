//! What a session is asked for.

ghost use Rattle.gpu_run.specs.VulkanCommand.{Describes, wanted_of};

use gpu_device::vulkan::{AllocationScheme, MemoryRequirements};
use gpu_values::MemoryLocation;
use gpu_vulkan::AllocationCreateDesc;

/// What an allocation is asked for.
#[derive(Debug, Drop)]
pub struct Request {
    pub requirements: MemoryRequirements,
    pub location: MemoryLocation,
    /// Whether it is a buffer or a linear image.
    pub linear: bool,
    pub scheme: AllocationScheme,
    pub name: String,
}

/// The description of what is asked for.
pub(crate) fn describe(request: &Request) -> AllocationCreateDesc<'_>
    ensures { Describes result (wanted_of request.now) }
{
    AllocationCreateDesc {
        name: request.name.as_str(),
        requirements: request.requirements,
        location: request.location,
        linear: request.linear,
        allocation_scheme: request.scheme,
    }
}

/// What only sessions of Vulkan are asked for. `key` is the caller's own number of an allocation; sizes and places are bytes.
#[derive(Debug, Drop)]
pub enum Other {
    /// Binds the number to a null allocation.
    Null { key: u64 },
    /// Renames the allocation.
    Rename { key: u64, name: String },
    /// Writes bytes into the allocation from `at` on.
    Write { key: u64, at: u64, bytes: Vec<u8> },
    /// Reads `size` bytes of the allocation from `at` on.
    Read { key: u64, at: u64, size: u64 },
    /// Asks for the texts of all live pieces.
    Leaks,
}

/// A command to a session of Vulkan.
pub type Command = crate::Command<Request, Other>;
