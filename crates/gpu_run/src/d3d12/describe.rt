//! What the allocator is asked for a piece and for a resource.

ghost use Rattle.std.specs.Prelude.{◌≡◌};
ghost use Rattle.gpu_run.specs.D3D12Describe.{memory_of, wanted_of, AsksFor, AsksForResource};

use crate::d3d12::command::{Memory, Request, WantedResource};
use gpu_d3d12::{AllocationCreateDesc, ResourceCreateDesc, ResourceType};

/// The description of a piece.
pub(crate) fn describe_piece(request: &Request) -> AllocationCreateDesc<'_>
    ensures { AsksFor (wanted_of request.now) result }
{
    AllocationCreateDesc {
        name: request.name.as_str(),
        location: request.location,
        size: request.size,
        alignment: request.alignment,
        resource_category: request.category,
    }
}

/// Where the memory comes from, in the allocator's words.
pub(crate) fn resource_type(memory: &Memory) -> ResourceType<'_>
    ensures { memory_of result ≡ memory.now }
{
    match memory {
        Memory::Own(properties, flags) => ResourceType::Committed {
            heap_properties: properties,
            heap_flags: *flags,
        },
        Memory::Placed => ResourceType::Placed,
    }
}

/// The description of what is wanted, with this memory.
pub(crate) fn describe<'a>(
    wanted: &'a WantedResource,
    memory: &'a ResourceType<'a>,
) -> ResourceCreateDesc<'a>
    ensures { memory_of memory.now ≡ wanted.now.memory → AsksForResource wanted.now result }
{
    ResourceCreateDesc {
        name: wanted.name.as_str(),
        memory_location: wanted.location,
        resource_category: wanted.category,
        resource_desc: &wanted.desc,
        castable_formats: &wanted.castable_formats,
        clear_value: wanted.clear_value.as_ref(),
        initial_state_or_layout: wanted.initial,
        resource_type: memory,
    }
}
