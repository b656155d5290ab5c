//! The heap tier of a device, and its memory types.

ghost use Rattle.std.specs.Prelude.{◌≡◌, ℤ, Ok, Err, IfOk, IfErr, MatchResult, All, [], None};
ghost use Rattle.std.specs.Option.{unwrap_or};
ghost use Rattle.gpu_values.specs.Refusal.{refusal_of, host_out_of_memory};
ghost use Rattle.gpu_core.specs.Budgets.{budgets};
ghost use Rattle.gpu_core.specs.Types.{slots_of, kinds, MemoryTypesInvariant};
ghost use Rattle.gpu_d3d12.specs.Setup.{tier_refusal, setup_fault, kinds_of_device};

use crate::heap::is_host;
use crate::memory_kind::{kind_at, type_count};
use gpu_core::{MemoryType, MemoryTypes};
use gpu_device::d3d12::{D3D12Device, ID3D12Heap, ResourceHeapTier};
use gpu_values::{AllocationError, Fault, Result};
use std::alloc::{AllocError, Global};

/// The device's heap tier, or why it can't be told. That is a property of the device, and no refused question.
pub fn tier_of<D: D3D12Device>(device: &D) -> Result<ResourceHeapTier>
    ensures { MatchResult result (λ tier. (D.properties device.now).tier ≡ Ok tier)
        (λ e. (code : ℤ) × ((D.properties device.now).tier ≡ Err code)
        × (refusal_of e ≡ tier_refusal code)) }
{
    match device.resource_heap_tier() {
        Ok(tier) => Ok(tier),
        Err(code) => Err(AllocationError::Internal(Fault {
            text: "ID3D12Device::CheckFeatureSupport failed",
            code: Some(i64::from(code)),
        })),
    }
}

/// The memory types of a device of this tier, each without blocks.
pub fn empty_types(
    alloc: Global,
    tier: ResourceHeapTier,
) -> Result<Vec<MemoryType<ID3D12Heap>>, AllocError>
    ensures kinds { IfOk result (λ v. kinds v.items ≡ kinds_of_device tier) }
    ensures empty { IfOk result (λ v. All (λ slots. slots ≡ []) (slots_of v.items)) }
    ensures unbounded { IfOk result (λ v. All (λ b. b ≡ None) (budgets v.items)) }
{
    let count = type_count(tier);
    let mut types = Vec::with_capacity(alloc, count)?;
    for index in 0..count {
        types.push_reserved(MemoryType::new(alloc, is_host(kind_at(tier, index)), 1));
    }
    Ok(types)
}

/// The device's heap tier, and its memory types. `Internal` where the device can't tell its heap tier, else `HostOutOfMemory`
/// where the host refused memory.
pub fn parts_of<D: D3D12Device>(
    alloc: Global,
    device: &D,
) -> Result<(ResourceHeapTier, MemoryTypes<ID3D12Heap>)>
    ensures tier { IfOk result (λ parts. (D.properties device.now).tier ≡ Ok parts.0) }
    ensures kinds { IfOk result (λ parts. kinds parts.1 ≡ kinds_of_device parts.0) }
    ensures empty { IfOk result (λ parts. All (λ slots. slots ≡ []) (slots_of parts.1)) }
    ensures unbounded { IfOk result (λ parts. All (λ b. b ≡ None) (budgets parts.1)) }
    ensures kept { IfOk result (λ parts. MemoryTypesInvariant parts.1) }
    ensures cause { IfErr result (λ e. refusal_of e
        ≡ unwrap_or (setup_fault (D.properties device.now)) host_out_of_memory) }
{
    let tier = match tier_of(device) {
        Ok(tier) => tier,
        Err(error) => return Err(error),
    };
    match empty_types(alloc, tier) {
        Ok(types) => Ok((tier, MemoryTypes::new(types))),
        Err(AllocError) => Err(AllocationError::HostOutOfMemory),
    }
}
