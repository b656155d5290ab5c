//! Requests of an allocator of Metal's memory and its settings, as C makes them.

ghost use Rattle.std.specs.Prelude.{◌≡◌, MatchOption};
ghost use Rattle.gpu_c.specs.Request.{linear, location_named};
ghost use Rattle.gpu_c.specs.MetalHeaps.{block_sizes, IsAsked, Says};
ghost use Rattle.gpu_c.specs.declared.request.TheConstants.{LINEAR};

use crate::metal_heaps_values::{MetalHeapsRequest, MetalHeapsSettings};
use crate::request::{LINEAR, location_named, served};
use gpu_metal::AllocationCreateDesc;
use gpu_values::AllocationSizes;

/// How large blocks are, as the settings ask.
pub fn sizes_of(settings: &MetalHeapsSettings) -> AllocationSizes
    ensures { result ≡ block_sizes settings.now }
{
    AllocationSizes::new(settings.device_block_size, settings.host_block_size)
        .with_max_device_memblock_size(settings.largest_device_block_size)
        .with_max_host_memblock_size(settings.largest_host_block_size)
}

/// What an allocator is asked, if the request is one that is served. All pieces are linear: none here keep pages apart.
pub fn described<'a>(
    request: &MetalHeapsRequest,
    name: &'a [u8],
) -> Option<AllocationCreateDesc<'a>>
    ensures { MatchOption result (IsAsked request.now name.now → ⊥)
        (λ d. Says request.now name.now d) }
{
    match served(request.size, request.alignment, LINEAR, name) {
        None => None,
        Some((_, name)) => match location_named(request.location) {
            None => None,
            Some(location) => Some(AllocationCreateDesc {
                name,
                location,
                size: request.size,
                alignment: request.alignment,
            }),
        },
    }
}
