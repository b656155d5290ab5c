//! Requests of an allocator of DirectX 12's memory and its settings, as C makes them.

ghost use Rattle.std.specs.Prelude.{◌≡◌, MatchOption};
ghost use Rattle.gpu_c.specs.Request.{linear, location_named};
ghost use Rattle.gpu_c.specs.Heaps.{tier_named, category_named, block_sizes, IsAsked, Says};
ghost use Rattle.gpu_c.specs.declared.request.TheConstants.{LINEAR};

use crate::heaps_values::{HeapsRequest, HeapsSettings};
use crate::request::{LINEAR, location_named, served};
use gpu_d3d12::{AllocationCreateDesc, ResourceCategory};
use gpu_device::d3d12::ResourceHeapTier;
use gpu_values::AllocationSizes;

/// The resource heap tier of that number; `None` where it is 0.
pub fn tier_named(tier: u32) -> Option<ResourceHeapTier>
    ensures { result ≡ tier_named tier }
{
    match tier {
        0 => None,
        1 => Some(ResourceHeapTier::Tier1),
        _ => Some(ResourceHeapTier::Tier2),
    }
}

/// The category of that number; `None` where none has it.
pub fn category_named(category: u32) -> Option<ResourceCategory>
    ensures { result ≡ category_named category }
{
    match category {
        1 => Some(ResourceCategory::Buffer),
        2 => Some(ResourceCategory::RtvDsvTexture),
        3 => Some(ResourceCategory::OtherTexture),
        _ => None,
    }
}

/// How large blocks are, as the settings ask.
pub fn sizes_of(settings: &HeapsSettings) -> AllocationSizes
    ensures { result ≡ block_sizes settings.now }
{
    AllocationSizes::new(settings.device_block_size, settings.host_block_size)
        .with_max_device_memblock_size(settings.largest_device_block_size)
        .with_max_host_memblock_size(settings.largest_host_block_size)
}

/// What an allocator is asked, if the request is one that is served. All pieces are linear: none here keep pages apart.
pub fn described<'a>(request: &HeapsRequest, name: &'a [u8]) -> Option<AllocationCreateDesc<'a>>
    ensures { MatchOption result (IsAsked request.now name.now → ⊥)
        (λ d. Says request.now name.now d) }
{
    match served(request.size, request.alignment, LINEAR, name) {
        None => None,
        Some((_, name)) => match location_named(request.location) {
            None => None,
            Some(location) => match category_named(request.category) {
                None => None,
                Some(resource_category) => Some(AllocationCreateDesc {
                    name,
                    location,
                    size: request.size,
                    alignment: request.alignment,
                    resource_category,
                }),
            },
        },
    }
}
