//! What pieces are asked for.

use super::*;

/// Whether the device tells what a buffer takes.
fn buffer_is_asked_for(device: &SimD3D12) -> bool {
    let location = MemoryLocation::CpuToGpu;
    let desc = buffer(70000);
    let asked = AllocationCreateDesc::from_d3d12_resource_desc(device, &desc, "a", location);
    (asked.size, asked.alignment) == (131072, 65536)
        && (asked.name, asked.location) == ("a", location)
        && asked.resource_category == ResourceCategory::Buffer
}

/// The category of a texture with these flags.
fn category(flags: u32) -> ResourceCategory {
    ResourceCategory::from(&ResourceDesc {
        dimension: ResourceDimension::Texture2D,
        flags,
        ..buffer(512)
    })
}

#[test]
fn devices_tell_what_buffers_take_and_flags_decide_categories(rt: HostRuntime) {
    let told = match simulated(rt.alloc(), Ok(ResourceHeapTier::Tier2), &[]) {
        Some(device) => buffer_is_asked_for(&device),
        None => false,
    };
    let target = ResourceCategory::RtvDsvTexture;
    let other = ResourceCategory::OtherTexture;
    // no flag, a render target, a depth stencil, and unordered access
    let steps = [
        told,
        category(0) == other,
        category(1) == target,
        category(2) == target,
        category(4) == other,
    ];
    check(&rt, &steps);
}
