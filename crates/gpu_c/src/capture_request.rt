//! What captures are told of requests and settings, from what C says of them.

ghost use Rattle.std.specs.Prelude.{◌≡◌, ℕ, map, IfSome, IfOk, MatchOption, Some};
ghost use Rattle.gpu_capture.specs.D3D12.{category_word, committed_words, whole_units};
ghost use Rattle.gpu_capture.specs.Line.{name_word};
ghost use Rattle.gpu_capture.specs.Requests.{request_words};
ghost use Rattle.gpu_capture.specs.declared.request.Request.TheVariants as requests;
ghost use Rattle.gpu_c.specs.Allocator.{SaysNothing};
ghost use Rattle.gpu_c.specs.Heaps as heaps;
ghost use Rattle.gpu_c.specs.Heaps.{AreNamed};
ghost use Rattle.gpu_c.specs.MetalHeaps as metal_heaps;
ghost use Rattle.gpu_c.specs.Capture.{allocator_words, category_told, heaps_words, created_words, metal_heaps_words, allocator_sizes, heaps_sizes, metal_heaps_sizes, allocator_lines, BeginsWith};

use crate::allocator_request::{described as allocator_described, memory_types_of};
use crate::allocator_values::{AllocatorRequest, AllocatorSettings, DeviceHeap, DeviceMemoryType};
use crate::heaps_request::{category_named, described as heaps_described};
use crate::heaps_values::{HeapsRequest, HeapsSettings};
use crate::metal_heaps_request::described as metal_heaps_described;
use crate::metal_heaps_values::{MetalHeapsRequest, MetalHeapsSettings};
use crate::request::location_named;
use gpu_capture::{
    BlockSizes, Capture, Category, D3D12Request, MetalRequest, Request, VulkanDevice, VulkanRequest,
};
use gpu_d3d12::ResourceCategory;
use std::alloc::{AllocError, Global};

/// A request of the Vulkan allocator, where it serves it.
pub fn allocator_request<'a>(request: &AllocatorRequest, name: &'a [u8]) -> Option<Request<'a>>
    ensures unserved { MatchOption result (SaysNothing request.now name.now)
        (λ _. SaysNothing request.now name.now → ⊥) }
    ensures words { IfSome result
        (λ r. allocator_words request.now name.now ≡ Some (request_words r)) }
{
    match allocator_described(request, name) {
        None => None,
        Some(desc) => Some(Request::Vulkan(VulkanRequest {
            requirements: desc.requirements,
            location: desc.location,
            linear: desc.linear,
            scheme: desc.allocation_scheme,
            name: desc.name.as_bytes(),
        })),
    }
}

fn category_told(category: ResourceCategory) -> Category
    ensures { result ≡ category_told category }
{
    match category {
        ResourceCategory::Buffer => Category::Buffer,
        ResourceCategory::RtvDsvTexture => Category::Target,
        ResourceCategory::OtherTexture => Category::Texture,
    }
}

/// A request of the DirectX 12 allocator, where it serves it.
pub fn heaps_request<'a>(request: &HeapsRequest, name: &'a [u8]) -> Option<Request<'a>>
    ensures unserved { MatchOption result (heaps.IsAsked request.now name.now → ⊥)
        (λ _. heaps.IsAsked request.now name.now) }
    ensures words { IfSome result
        (λ r. heaps_words request.now name.now ≡ Some (request_words r)) }
{
    match heaps_described(request, name) {
        None => None,
        Some(desc) => Some(Request::D3D12(D3D12Request {
            size: desc.size,
            alignment: desc.alignment,
            location: desc.location,
            category: category_told(desc.resource_category),
            name: desc.name.as_bytes(),
        })),
    }
}

/// A committed resource's request, where location and category are known: the allocator isn't told its alignment and its name, which may be
/// any bytes.
pub fn committed_request<'a>(request: &HeapsRequest, name: &'a [u8]) -> Option<D3D12Request<'a>>
    ensures unserved { MatchOption result (AreNamed request.now.location request.now.category → ⊥)
        (λ _. AreNamed request.now.location request.now.category) }
    ensures created { IfSome result (λ r. (number : ℕ)
        → created_words number request.now name.now ≡ Some (committed_words number r.location
        (category_word r.category) (whole_units r.size) (name_word r.name.now))) }
{
    match location_named(request.location) {
        None => None,
        Some(location) => match category_named(request.category) {
            None => None,
            Some(category) => Some(D3D12Request {
                size: request.size,
                alignment: request.alignment,
                location,
                category: category_told(category),
                name,
            }),
        },
    }
}

/// A request of the Metal allocator, where it serves it.
pub fn metal_heaps_request<'a>(request: &MetalHeapsRequest, name: &'a [u8]) -> Option<Request<'a>>
    ensures unserved { MatchOption result (metal_heaps.IsAsked request.now name.now → ⊥)
        (λ _. metal_heaps.IsAsked request.now name.now) }
    ensures words { IfSome result
        (λ r. metal_heaps_words request.now name.now ≡ Some (request_words r)) }
{
    match metal_heaps_described(request, name) {
        None => None,
        Some(desc) => Some(Request::Metal(MetalRequest {
            size: desc.size,
            alignment: desc.alignment,
            location: desc.location,
            name: desc.name.as_bytes(),
        })),
    }
}

fn allocator_sizes(settings: &AllocatorSettings) -> BlockSizes
    ensures { result ≡ allocator_sizes settings.now }
{
    BlockSizes {
        device: settings.device_block_size,
        host: settings.host_block_size,
        max_device: settings.largest_device_block_size,
        max_host: settings.largest_host_block_size,
    }
}

fn heap_sizes(alloc: Global, heaps: &[DeviceHeap]) -> Result<Vec<u64>, AllocError>
    ensures { IfOk result (λ v. v.items ≡ map (λ h. h.size) heaps.now) }
{
    let mut sizes = Vec::with_capacity(alloc, heaps.len())?;
    for heap in heaps {
        sizes.push_reserved(heap.size);
    }
    Ok(sizes)
}

/// The capture of a Vulkan allocator that is made.
pub fn of_allocator(
    alloc: Global,
    types: &[DeviceMemoryType],
    heaps: &[DeviceHeap],
    settings: &AllocatorSettings,
) -> Result<Capture, AllocError>
    ensures { IfOk result (BeginsWith (allocator_lines types.now heaps.now settings.now) 0) }
{
    let heaps = heap_sizes(alloc, heaps)?;
    let types = memory_types_of(alloc, types)?;
    let device = VulkanDevice {
        heaps: &heaps,
        types: &types,
        granularity: settings.granularity,
    };
    Ok(Capture::of_vulkan(alloc, &device, allocator_sizes(settings)))
}

/// The sizes of blocks that the settings of DirectX 12's allocator ask for.
pub fn heaps_sizes(settings: &HeapsSettings) -> BlockSizes
    ensures { result ≡ heaps_sizes settings.now }
{
    BlockSizes {
        device: settings.device_block_size,
        host: settings.host_block_size,
        max_device: settings.largest_device_block_size,
        max_host: settings.largest_host_block_size,
    }
}

/// The sizes of blocks that the settings of Metal's allocator ask for.
pub fn metal_heaps_sizes(settings: &MetalHeapsSettings) -> BlockSizes
    ensures { result ≡ metal_heaps_sizes settings.now }
{
    BlockSizes {
        device: settings.device_block_size,
        host: settings.host_block_size,
        max_device: settings.largest_device_block_size,
        max_host: settings.largest_host_block_size,
    }
}
