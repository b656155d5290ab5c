//! What an allocator is made with, and never changes.

ghost use Rattle.std.specs.Prelude.{◌≡◌, ◌<◌, length, not, Some, None, IfOk, OnOk, IsTrue, map, All, [], slice_get, IfSome};
ghost use Rattle.std.specs.List.{list_any};
ghost use Rattle.std.specs.Option.{option_map};
ghost use Rattle.std.specs.Int.{is_power_of_two};
ghost use Rattle.gpu_values.specs.Refusal.{refusal_of, invalid_allocator_create_desc};
ghost use Rattle.gpu_vulkan.specs.Setup.{lacks_heap, setup_fault, IsValid, properties_told};
ghost use Rattle.gpu_vulkan.specs.Types.{heap_size};
ghost use Rattle.gpu_vulkan.specs.Types.{is_host_visible};
ghost use Rattle.gpu_core.specs.Budgets.{budgets};
ghost use Rattle.gpu_core.specs.Types.{slots_of, kinds, MemoryTypesInvariant};
ghost use Rattle.gpu_vulkan.specs.Types.{kinds_of_device};

use gpu_core::{MemoryType, MemoryTypes};
use gpu_device::vulkan::{
    DeviceMemory, MemoryHeap, MemoryPropertyFlags, MemoryTypeInfo, PhysicalDevice, VulkanDevice,
};
use gpu_values::{AllocationError, AllocationSizes, AllocatorDebugSettings, Fault};
use std::alloc::{AllocError, Global};
use std::marker::Model;

/// How many memory types a device may have (`VK_MAX_MEMORY_TYPES`).
const MAX_MEMORY_TYPES: usize = 32;

/// What the device tells of itself, and the settings of an allocator.
#[derive(Drop)]
pub struct Setup {
    memory_types: Vec<MemoryTypeInfo>,
    heaps: Vec<MemoryHeap>,
    granularity: u64,
    settings: Settings,
}

/// What the allocator's maker chose.
#[derive(Clone, Copy, Debug)]
pub struct Settings {
    pub sizes: AllocationSizes,
    pub debug: AllocatorDebugSettings,
    pub buffer_device_address: bool,
}

impl Model for Setup {
    ghost use Rattle.gpu_vulkan.specs.Setup.{Setup, IsValid};

    ghost Value = { Setup };

    ghost view = { λ s. record {
      properties = record
          { types = s.memory_types.items; heaps = s.heaps.items; granularity = s.granularity };
      sizes = s.settings.sizes;
      debug = s.settings.debug;
      device_address =
          s.settings.buffer_device_address;
    } };

    ghost invariant = { λ s. IsValid (record
        { types = s.memory_types.items; heaps = s.heaps.items; granularity = s.granularity }) };
}

/// A fault in what an allocator is made from.
fn invalid(text: &'static str) -> AllocationError
    ensures { refusal_of result ≡ invalid_allocator_create_desc text.now None }
{
    AllocationError::InvalidAllocatorCreateDesc(Fault { text, code: None })
}

/// Whether a memory type lies in a heap that is there.
fn has_heap<D: VulkanDevice>(device: &D, index: usize) -> bool
    requires { index < length (D.properties device.now).types }
    ensures { IfSome (slice_get (D.properties device.now).types index)
        (λ info. result ≡ not (lacks_heap (D.properties device.now) info)) }
{
    (device.memory_type(index).heap_index as usize) < device.heap_count()
}

/// Whether each memory type lies in a heap that is there.
#[tactic(auto, using(crate::proofs::Taken::none_next_told, crate::proofs::Taken::one_passes_told))]
fn has_heaps<D: VulkanDevice>(device: &D) -> bool
    ensures { result ≡ not (list_any (lacks_heap (D.properties device.now))
        (D.properties device.now).types) }
{
    for index in 0..device.memory_type_count() {
        if !has_heap(device, index) {
            return false;
        }
    }
    true
}

/// Why no allocator is made of this device, if it is so.
pub fn fault_of<D: VulkanDevice>(
    device: &D,
    physical_device: PhysicalDevice,
) -> Option<AllocationError>
    ensures { option_map refusal_of result
        ≡ setup_fault physical_device.0 (D.properties device.now) }
{
    if physical_device.0 == 0 {
        return Some(invalid("AllocatorCreateDesc field `physical_device` is null."));
    }
    if !device.buffer_image_granularity().is_power_of_two() {
        return Some(invalid("buffer image granularity is not a power of two."));
    }
    if device.memory_type_count() > MAX_MEMORY_TYPES {
        return Some(invalid("more than 32 memory types."));
    }
    if !has_heaps(device) {
        return Some(invalid("memory type with a heap index out of range."));
    }
    None
}

/// The memory types of a device, in order.
#[tactic(auto, using(crate::proofs::Taken::taken_next))]
pub fn memory_types_of<D: VulkanDevice>(
    alloc: Global,
    device: &D,
) -> Result<Vec<MemoryTypeInfo>, AllocError>
    ensures { IfOk result (λ v. v.items ≡ (D.properties device.now).types) }
{
    let count = device.memory_type_count();
    let mut types = Vec::with_capacity(alloc, count)?;
    for index in 0..count {
        types.push_reserved(device.memory_type(index));
    }
    Ok(types)
}

/// The heaps of a device, in order.
#[tactic(auto, using(crate::proofs::Taken::taken_next))]
pub fn heaps_of<D: VulkanDevice>(alloc: Global, device: &D) -> Result<Vec<MemoryHeap>, AllocError>
    ensures { IfOk result (λ v. v.items ≡ (D.properties device.now).heaps) }
{
    let count = device.heap_count();
    let mut heaps = Vec::with_capacity(alloc, count)?;
    for index in 0..count {
        heaps.push_reserved(device.heap(index));
    }
    Ok(heaps)
}

/// A memory type without blocks for each of the device's.
pub fn empty_types<H: Copy + Eq>(
    alloc: Global,
    memory_types: &[MemoryTypeInfo],
    granularity: u64,
) -> Result<Vec<MemoryType<H>>, AllocError>
    requires { IsTrue (is_power_of_two granularity) }
    ensures kinds { IfOk result (λ v. kinds v.items
        ≡ map (λ info. (is_host_visible info, granularity)) memory_types.now) }
    ensures empty { IfOk result (λ v. All (λ slots. slots ≡ []) (slots_of v.items)) }
    ensures unbounded { IfOk result (λ v. All (λ b. b ≡ None) (budgets v.items)) }
{
    let mut types = Vec::with_capacity(alloc, memory_types.len())?;
    for info in memory_types {
        types.push_reserved(MemoryType::new(alloc, is_mapped(info), granularity));
    }
    Ok(types)
}

impl Setup {
    /// The device's memory types, in order.
    pub fn memory_types(&self) -> &[MemoryTypeInfo]
        ensures { result.now ≡ self.now.properties.types }
    {
        &self.memory_types
    }

    /// Whether memory is made so that shaders may read its address.
    pub fn buffer_device_address(&self) -> bool
        ensures { result ≡ self.now.device_address }
    {
        self.settings.buffer_device_address
    }

    /// How large the shared blocks are.
    pub fn sizes(&self) -> AllocationSizes
        ensures { result ≡ self.now.sizes }
    {
        self.settings.sizes
    }

    /// Which lines the allocator logs.
    pub fn debug(&self) -> AllocatorDebugSettings
        ensures { result ≡ self.now.debug }
    {
        self.settings.debug
    }

    /// The size in bytes of the heap that memory of the type at `index` lies in.
    pub fn heap_size(&self, index: usize) -> u64
        requires { index < length self.now.properties.types }
        ensures size { result ≡ heap_size self.now.properties index }
        ensures valid { IsValid self.now.properties }
    {
        let info = self.memory_types[index];
        self.heaps[info.heap_index as usize].size
    }

    /// Whether memory of the type at `index` is mapped.
    pub fn is_mapped(&self, index: usize) -> bool
        requires { index < length self.now.properties.types }
        ensures { IfSome (slice_get self.now.properties.types index)
            (λ info. result ≡ is_host_visible info) }
    {
        is_mapped(&self.memory_types[index])
    }
}

/// Whether the host can map memory of a type.
pub fn is_mapped(info: &MemoryTypeInfo) -> bool
    ensures { result ≡ is_host_visible info.now }
{
    info.property_flags
        .contains(MemoryPropertyFlags::HOST_VISIBLE)
}

/// The setup over what a device told, and its memory types, whose blocks have handles of the caller's sort.
pub fn told_parts<H: Copy + Eq>(
    alloc: Global,
    memory_types: Vec<MemoryTypeInfo>,
    heaps: Vec<MemoryHeap>,
    granularity: u64,
    settings: Settings,
) -> Result<(Setup, MemoryTypes<H>), AllocError>
    requires { IsValid (properties_told memory_types.items heaps.items granularity) }
    ensures setup { IfOk result (λ parts. parts.0 ≡ record {
      properties = properties_told memory_types.items heaps.items granularity;
      sizes = settings.sizes;
      debug = settings.debug;
      device_address = settings.buffer_device_address;
    }) }
    ensures kinds { IfOk result (λ parts. kinds parts.1
        ≡ kinds_of_device (properties_told memory_types.items heaps.items granularity)) }
    ensures empty { IfOk result (λ parts. All (λ slots. slots ≡ []) (slots_of parts.1)) }
    ensures unbounded { IfOk result (λ parts. All (λ b. b ≡ None) (budgets parts.1)) }
    ensures kept { IfOk result (λ parts. MemoryTypesInvariant parts.1) }
{
    let types = empty_types(alloc, &memory_types, granularity)?;
    let setup = Setup {
        memory_types,
        heaps,
        granularity,
        settings,
    };
    Ok((setup, MemoryTypes::new(types)))
}

/// The setup over a device, and its memory types.
pub fn parts_of<D: VulkanDevice>(
    alloc: Global,
    device: &D,
    settings: Settings,
) -> Result<(Setup, MemoryTypes<DeviceMemory>), AllocError>
    requires { IsValid (D.properties device.now) }
    ensures setup { IfOk result (λ parts. parts.0 ≡ record {
      properties = D.properties device.now;
      sizes = settings.sizes;
      debug = settings.debug;
      device_address = settings.buffer_device_address;
    }) }
    ensures valid { OnOk result (IsValid (D.properties device.now)) }
    ensures kinds { IfOk result (λ parts. kinds parts.1
        ≡ kinds_of_device (D.properties device.now)) }
    ensures empty { IfOk result (λ parts. All (λ slots. slots ≡ []) (slots_of parts.1)) }
    ensures unbounded { IfOk result (λ parts. All (λ b. b ≡ None) (budgets parts.1)) }
    ensures kept { IfOk result (λ parts. MemoryTypesInvariant parts.1) }
{
    let memory_types = memory_types_of(alloc, device)?;
    let heaps = heaps_of(alloc, device)?;
    let granularity = device.buffer_image_granularity();
    told_parts(alloc, memory_types, heaps, granularity, settings)
}
