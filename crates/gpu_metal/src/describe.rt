//! What an allocator and an allocation are made from.

ghost use Rattle.std.specs.Prelude.{◌≡◌, false, MatchResult, IfOk};
ghost use Rattle.gpu_values.specs.Refusal.{refusal_of};
ghost use Rattle.gpu_core.specs.TypeTake.{asked};
ghost use Rattle.gpu_metal.specs.Describe.{buffer_storage_mode, IsTextureLocation, IsUnknownMode, request_of};
ghost use Rattle.gpu_metal.specs.Step.{is_again};

use crate::Allocation;
use gpu_core::Request;
use gpu_device::metal::{MetalDevice, StorageMode, TextureDescriptor};
use gpu_values::{
    AllocationError, AllocationSizes, AllocationType, AllocatorDebugSettings, Fault,
    MemoryLocation, Result,
};

/// What an allocator is made from. It owns the device until `destroy` gives it back.
pub struct AllocatorCreateDesc<D> {
    /// What memory is asked of: your implementation of `MetalDevice`.
    pub device: D,
    /// Which lines are logged.
    pub debug_settings: AllocatorDebugSettings,
    /// How large the shared blocks are, in bytes.
    pub allocation_sizes: AllocationSizes,
    /// Whether all heaps are members of a residency set, which the allocator then makes.
    pub create_residency_set: bool,
}

/// What an allocation is asked for. Sizes and alignments are bytes.
#[derive(Clone, Debug, Drop)]
pub struct AllocationCreateDesc<'a> {
    /// Names the allocation in reports and log lines.
    pub name: &'a str,
    /// Who reads and writes it.
    pub location: MemoryLocation,
    /// What the resource takes of a heap (`MTLSizeAndAlign`).
    pub size: u64,
    /// Its offset is a multiple of this, a power of two.
    pub alignment: u64,
}

/// Committed resources of a memory type: how many, and the sum of their sizes in bytes. No call answers it, as none does in
/// the crate that this one stands for.
#[derive(Debug, Drop)]
pub struct CommittedAllocationStatistics {
    pub num_allocations: usize,
    pub total_size: u64,
}

/// The storage mode by which a buffer's size is asked: the GPU's own memory for `GpuOnly`, else shared memory.
fn buffer_storage_mode(location: MemoryLocation) -> StorageMode
    ensures { result ≡ buffer_storage_mode location }
{
    match location {
        MemoryLocation::GpuOnly => StorageMode::Private,
        MemoryLocation::CpuToGpu | MemoryLocation::GpuToCpu | MemoryLocation::Unknown => {
            StorageMode::Shared
        }
    }
}

/// Where a texture of this storage mode is allocated. `Internal`, with the mode's value, where the mode has no name.
fn texture_location(storage_mode: StorageMode) -> Result<MemoryLocation>
    ensures { MatchResult result (IsTextureLocation storage_mode)
        (λ e. IsUnknownMode storage_mode (refusal_of e)) }
{
    match storage_mode {
        StorageMode::Private => Ok(MemoryLocation::GpuOnly),
        StorageMode::Shared | StorageMode::Managed | StorageMode::Memoryless => {
            Ok(MemoryLocation::Unknown)
        }
        StorageMode::Other(mode) => Err(AllocationError::Internal(Fault {
            text: "Unknown storage mode",
            code: Some(i64::from(mode)),
        })),
    }
}

impl<'a> AllocationCreateDesc<'a> {
    /// What an allocation for a buffer of `length` bytes is asked for: its size and alignment are what the device tells.
    pub fn buffer<D: MetalDevice>(
        device: &D,
        name: &'a str,
        length: u64,
        location: MemoryLocation,
    ) -> Self
        ensures size { result.size ≡ ((D.properties device.now).buffer_size length
            (buffer_storage_mode location)).size }
        ensures alignment { result.alignment
            ≡ ((D.properties device.now).buffer_size length (buffer_storage_mode location)).align }
        ensures name { result.name.now ≡ name.now }
        ensures location { result.location ≡ location }
    {
        let told = device.heap_buffer_size_and_align(length, buffer_storage_mode(location));
        AllocationCreateDesc {
            name,
            location,
            size: told.size,
            alignment: told.align,
        }
    }

    /// What an allocation for this texture is asked for: its size and alignment are what the device tells, and its location
    /// is `GpuOnly` for private storage and else `Unknown`. `Internal`, with the mode's value, where the storage mode is
    /// `Other`.
    pub fn texture<D: MetalDevice>(
        device: &D,
        name: &'a str,
        desc: &TextureDescriptor,
    ) -> Result<Self>
        ensures location { MatchResult result
            (λ d. IsTextureLocation desc.now.storage_mode d.location)
            (λ e. IsUnknownMode desc.now.storage_mode (refusal_of e)) }
        ensures size { IfOk result (λ d. d.size
            ≡ ((D.properties device.now).texture_size desc.now).size) }
        ensures alignment { IfOk result
            (λ d. d.alignment ≡ ((D.properties device.now).texture_size desc.now).align) }
        ensures name { IfOk result (λ d. d.name.now ≡ name.now) }
    {
        let told = device.heap_texture_size_and_align(desc);
        match texture_location(desc.storage_mode) {
            Err(error) => Err(error),
            Ok(location) => Ok(AllocationCreateDesc {
                name,
                location,
                size: told.size,
                alignment: told.align,
            }),
        }
    }

    /// What an allocation for an acceleration structure of `size` bytes is asked for: its size and alignment are what the
    /// device tells.
    pub fn acceleration_structure_with_size<D: MetalDevice>(
        device: &D,
        name: &'a str,
        size: u64,
        location: MemoryLocation,
    ) -> Self
        ensures size { result.size ≡ ((D.properties device.now).acceleration_structure_size
            size).size }
        ensures alignment { result.alignment
            ≡ ((D.properties device.now).acceleration_structure_size size).align }
        ensures name { result.name.now ≡ name.now }
        ensures location { result.location ≡ location }
    {
        let told = device.heap_acceleration_structure_size_and_align(size);
        AllocationCreateDesc {
            name,
            location,
            size: told.size,
            alignment: told.align,
        }
    }
}

/// What a memory type is asked for: all pieces are linear, and none asks for a block of its own.
pub fn request_of<'a>(desc: &AllocationCreateDesc<'a>) -> Request<'a>
    ensures asks { asked result ≡ request_of desc.now }
    ensures shared { result.dedicated ≡ false }
{
    Request {
        size: desc.size,
        alignment: desc.alignment,
        kind: AllocationType::Linear,
        dedicated: false,
        name: desc.name,
    }
}

/// Whether the description is the request again that a piece of this size was made for: valid, and of that size.
pub fn is_again(size: u64, desc: &AllocationCreateDesc) -> bool
    ensures { result ≡ is_again size desc.now }
{
    desc.size != 0 && desc.alignment.is_power_of_two() && desc.size == size
}
