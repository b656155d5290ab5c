//! Flags have the values of Vulkan's headers, and keep bits that have no name here.

use crate::steps::check;
use bitflags::Flags;
use gpu_device::vulkan::MemoryPropertyFlags;

#[test]
fn values_and_sets(rt: HostRuntime) {
    let host = MemoryPropertyFlags::HOST_VISIBLE | MemoryPropertyFlags::HOST_COHERENT;
    let unnamed = MemoryPropertyFlags::from_bits_retain(0x11);
    let steps = [
        MemoryPropertyFlags::DEVICE_LOCAL.bits() == 0x1,
        MemoryPropertyFlags::HOST_VISIBLE.bits() == 0x2,
        MemoryPropertyFlags::HOST_COHERENT.bits() == 0x4,
        MemoryPropertyFlags::HOST_CACHED.bits() == 0x8,
        MemoryPropertyFlags::all().bits() == 0xf,
        host.bits() == 0x6,
        host.contains(MemoryPropertyFlags::HOST_COHERENT),
        !MemoryPropertyFlags::HOST_VISIBLE.contains(host),
        host.contains(MemoryPropertyFlags::empty()),
        (host & MemoryPropertyFlags::HOST_VISIBLE).bits() == 0x2,
        unnamed.bits() == 0x11,
        unnamed.contains(MemoryPropertyFlags::DEVICE_LOCAL),
        (unnamed | MemoryPropertyFlags::HOST_VISIBLE).bits() == 0x13,
        MemoryPropertyFlags::from_bits(0x11).is_none(),
        MemoryPropertyFlags::from_name("HOST_CACHED") == Some(MemoryPropertyFlags::HOST_CACHED),
    ];
    check(&rt, &steps);
}
