//! What a resource is asked for, and by which question the device makes it.

ghost use Rattle.std.specs.Prelude.{◌≡◌, Ok, Err, MatchResult};
ghost use Rattle.gpu_values.specs.Refusal.{refusal_of};
ghost use Rattle.gpu_d3d12.specs.DeviceVersion.{device_of};
ghost use Rattle.gpu_d3d12.specs.Question.{desc1_of, resource_question, told_info};

use crate::{ID3D12DeviceVersion, ResourceCategory};
use gpu_device::d3d12::{
    ClearValue, D3D12Device, Format, HeapFlags, HeapProperties, ResourceAllocationInfo,
    ResourceDesc, ResourceDesc1,
};
use gpu_values::{AllocationError, MemoryLocation, Result};

/// How a resource begins.
#[derive(Clone, Copy, Debug, PartialEq, Eq)]
pub enum ResourceStateOrBarrierLayout {
    /// In a state, as `D3D12_RESOURCE_STATES` numbers it.
    ResourceState(u32),
    /// In a layout of enhanced barriers, as `D3D12_BARRIER_LAYOUT` numbers it.
    BarrierLayout(u32),
}

/// Where the memory of a resource comes from.
#[derive(Drop)]
pub enum ResourceType<'a> {
    /// The device makes memory of the resource's own (`CreateCommittedResource`).
    Committed {
        /// Where the memory lies.
        heap_properties: &'a HeapProperties,
        /// What it is for.
        heap_flags: HeapFlags,
    },
    /// The resource is placed in a piece of the allocator's (`CreatePlacedResource`).
    Placed,
}

/// What a resource is asked for.
#[derive(Clone, Copy)]
pub struct ResourceCreateDesc<'a> {
    /// Names the resource in reports, leaks and log lines.
    pub name: &'a str,
    /// Who reads and writes it.
    pub memory_location: MemoryLocation,
    /// Of which category it is; it matters at resource heap tier 1 alone.
    pub resource_category: ResourceCategory,
    /// What it is.
    pub resource_desc: &'a ResourceDesc,
    /// The formats that views of it may have besides its own. They need `Device12` and a layout.
    pub castable_formats: &'a [Format],
    /// The value that it is cleared to fastest.
    pub clear_value: Option<&'a ClearValue>,
    /// How it begins. A layout needs `Device10`.
    pub initial_state_or_layout: ResourceStateOrBarrierLayout,
    /// Where its memory comes from.
    pub resource_type: &'a ResourceType<'a>,
}

/// How many committed resources of a memory type there are that weren't given back, and their sizes' sum in bytes.
#[derive(Debug, Drop)]
pub struct CommittedAllocationStatistics {
    pub num_allocations: usize,
    pub total_size: u64,
}

/// By which question a resource is made.
#[derive(Clone, Copy, Debug, PartialEq, Eq)]
pub enum CreateCall {
    /// In a state (`CreateCommittedResource`, `CreatePlacedResource`).
    InState(u32),
    /// In a layout, at a device that takes no list of formats (`CreateCommittedResource3`, `CreatePlacedResource2`).
    InLayout(u32),
    /// The same with the list of formats, be it empty.
    InLayoutWithFormats(u32),
}

/// By which question a resource is made, or why it isn't: `CastableFormatsRequiresEnhancedBarriers` for castable formats with a
/// state, else `CastableFormatsRequiresAtLeastDevice12` for castable formats, else `BarrierLayoutNeedsDevice10` for a layout. The
/// device isn't asked.
pub fn question_for<D>(
    version: &ID3D12DeviceVersion<D>,
    desc: &ResourceCreateDesc,
) -> Result<CreateCall>
    ensures { MatchResult result (λ question. resource_question version.now
        desc.now.initial_state_or_layout desc.now.castable_formats.now ≡ Ok question)
        (λ e. resource_question version.now desc.now.initial_state_or_layout
        desc.now.castable_formats.now ≡ Err (refusal_of e)) }
{
    let has_formats = !desc.castable_formats.is_empty();
    let layout = match desc.initial_state_or_layout {
        ResourceStateOrBarrierLayout::ResourceState(_) if has_formats => {
            return Err(AllocationError::CastableFormatsRequiresEnhancedBarriers);
        }
        ResourceStateOrBarrierLayout::ResourceState(state) => {
            return Ok(CreateCall::InState(state));
        }
        ResourceStateOrBarrierLayout::BarrierLayout(layout) => layout,
    };
    match version {
        ID3D12DeviceVersion::Device12(_) => Ok(CreateCall::InLayoutWithFormats(layout)),
        _ if has_formats => Err(AllocationError::CastableFormatsRequiresAtLeastDevice12),
        ID3D12DeviceVersion::Device10(_) => Ok(CreateCall::InLayout(layout)),
        ID3D12DeviceVersion::Device(_) => Err(AllocationError::BarrierLayoutNeedsDevice10),
    }
}

/// The same description for the later questions. No resource here is a sampler's feedback map.
pub fn desc1_of(desc: &ResourceDesc) -> ResourceDesc1
    ensures { result ≡ desc1_of desc.now }
{
    ResourceDesc1 {
        desc: *desc,
        sampler_feedback_mip_region: [0, 0, 0],
    }
}

/// What a resource takes of a heap, as the device tells by its newest interface.
pub fn allocation_info_of<D: D3D12Device>(
    version: &ID3D12DeviceVersion<D>,
    desc: &ResourceCreateDesc,
) -> ResourceAllocationInfo
    ensures { result ≡ told_info (D.properties (device_of version.now)) version.now
        desc.now.resource_desc.now desc.now.castable_formats.now }
{
    match version {
        ID3D12DeviceVersion::Device(device) => device.resource_allocation_info(desc.resource_desc),
        ID3D12DeviceVersion::Device10(device) => {
            device.resource_allocation_info(desc.resource_desc)
        }
        ID3D12DeviceVersion::Device12(device) => {
            let desc1 = desc1_of(desc.resource_desc);
            device.resource_allocation_info3(&desc1, desc.castable_formats)
        }
    }
}
