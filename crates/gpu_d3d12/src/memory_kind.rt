//! The memory types of a device, and which of them serves a request.

ghost use Rattle.std.specs.Prelude.{◌≡◌, ◌<◌, length, slice_get, Some};
ghost use Rattle.gpu_d3d12.specs.MemoryKinds.{locations, contents, memory_kinds, location_index, category_index, IsFirstServing};

use crate::ResourceCategory;
use gpu_device::d3d12::{HeapContent, ResourceHeapTier};
use gpu_values::MemoryLocation;

/// How many locations have memory types of their own.
const LOCATIONS: usize = 3;

/// How many memory types a location has where a heap holds resources of one category alone.
const CATEGORIES: usize = 3;

/// What the memory of one memory type is for: where it lies, and what its heaps may hold.
#[derive(Clone, Copy, Debug, PartialEq, Eq)]
pub struct MemoryKind {
    /// Who reads and writes it.
    pub location: MemoryLocation,
    /// What its heaps may hold.
    pub content: HeapContent,
}

/// How many memory types a device of this tier has.
pub fn type_count(tier: ResourceHeapTier) -> usize
    ensures { result ≡ length (memory_kinds tier) }
{
    match tier {
        ResourceHeapTier::Tier1 => LOCATIONS * CATEGORIES,
        ResourceHeapTier::Tier2 => LOCATIONS,
    }
}

/// Where a location stands among the memory types. Any serves an unknown one, so the first does.
fn location_index(location: MemoryLocation) -> usize
    ensures { result ≡ location_index location }
{
    match location {
        MemoryLocation::Unknown | MemoryLocation::GpuOnly => 0,
        MemoryLocation::CpuToGpu => 1,
        MemoryLocation::GpuToCpu => 2,
    }
}

/// Where a category stands among the memory types of a location.
fn category_index(category: ResourceCategory) -> usize
    ensures { result ≡ category_index category }
{
    match category {
        ResourceCategory::Buffer => 0,
        ResourceCategory::RtvDsvTexture => 1,
        ResourceCategory::OtherTexture => 2,
    }
}

/// The memory type that a location and a category take: the first that serves both.
pub fn type_for(
    tier: ResourceHeapTier,
    location: MemoryLocation,
    category: ResourceCategory,
) -> usize
    ensures first { IsFirstServing location category (memory_kinds tier) result }
    ensures there { result < length (memory_kinds tier) }
{
    match tier {
        ResourceHeapTier::Tier1 => CATEGORIES * location_index(location) + category_index(category),
        ResourceHeapTier::Tier2 => location_index(location),
    }
}

/// The location of the memory types at this place.
fn location_at(index: usize) -> MemoryLocation
    requires { index < length locations }
    ensures { slice_get locations index ≡ Some result }
{
    match index {
        0 => MemoryLocation::GpuOnly,
        1 => MemoryLocation::CpuToGpu,
        _ => MemoryLocation::GpuToCpu,
    }
}

/// What the heaps of the memory type at this place of a location may hold, where they hold one category alone.
fn content_at(index: usize) -> HeapContent
    requires { index < length contents }
    ensures { slice_get contents index ≡ Some result }
{
    match index {
        0 => HeapContent::Buffers,
        1 => HeapContent::RtDsTextures,
        _ => HeapContent::NonRtDsTextures,
    }
}

/// What the memory type at `index` is for.
pub fn kind_at(tier: ResourceHeapTier, index: usize) -> MemoryKind
    requires { index < length (memory_kinds tier) }
    ensures { slice_get (memory_kinds tier) index ≡ Some result }
{
    match tier {
        ResourceHeapTier::Tier1 => MemoryKind {
            location: location_at(index / CATEGORIES),
            content: content_at(index % CATEGORIES),
        },
        ResourceHeapTier::Tier2 => MemoryKind {
            location: location_at(index),
            content: HeapContent::All,
        },
    }
}
