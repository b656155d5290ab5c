//! Which memory type serves a location.

ghost use Rattle.std.specs.Prelude.{◌≡◌, ◌==◌, ◌<◌, length, IfSome};
ghost use Rattle.std.specs.Int.{bit_at};
ghost use Rattle.gpu_vulkan.specs.Choice.{preferred, required, serves, first_type, best_type};

use gpu_device::vulkan::{MemoryPropertyFlags, MemoryTypeInfo};
use gpu_values::MemoryLocation;

/// What a location would best have of its memory.
pub fn preferred_flags(location: MemoryLocation) -> MemoryPropertyFlags
    ensures { result.0 ≡ preferred location }
{
    match location {
        MemoryLocation::Unknown => MemoryPropertyFlags(0),
        MemoryLocation::GpuOnly => MemoryPropertyFlags::DEVICE_LOCAL,
        MemoryLocation::CpuToGpu => {
            MemoryPropertyFlags::HOST_VISIBLE
                | MemoryPropertyFlags::HOST_COHERENT
                | MemoryPropertyFlags::DEVICE_LOCAL
        }
        MemoryLocation::GpuToCpu => {
            MemoryPropertyFlags::HOST_VISIBLE
                | MemoryPropertyFlags::HOST_COHERENT
                | MemoryPropertyFlags::HOST_CACHED
        }
    }
}

/// What a location must have of its memory.
pub fn required_flags(location: MemoryLocation) -> MemoryPropertyFlags
    ensures { result.0 ≡ required location }
{
    match location {
        MemoryLocation::Unknown => MemoryPropertyFlags(0),
        MemoryLocation::GpuOnly => MemoryPropertyFlags::DEVICE_LOCAL,
        MemoryLocation::CpuToGpu | MemoryLocation::GpuToCpu => {
            MemoryPropertyFlags::HOST_VISIBLE | MemoryPropertyFlags::HOST_COHERENT
        }
    }
}

/// Whether a bit is set.
fn has_bit(bits: u32, index: usize) -> bool
    ensures { result ≡ (bit_at bits index == 1) }
{
    if index >= 32 {
        return false;
    }
    (bits >> index) % 2 == 1
}

/// Whether a memory type's bit is set and it has all the flags.
pub fn serves(info: &MemoryTypeInfo, index: usize, bits: u32, flags: MemoryPropertyFlags) -> bool
    ensures { result ≡ serves bits flags.0 index info.now }
{
    has_bit(bits, index) && info.property_flags.contains(flags)
}

/// The first memory type whose bit is set and which has all the flags.
pub fn first_type(types: &[MemoryTypeInfo], bits: u32, flags: MemoryPropertyFlags) -> Option<usize>
    ensures first { result ≡ first_type types.now bits flags.0 }
    ensures there { IfSome result (λ index. index < length types.now) }
{
    let mut index = 0;
    for info in types {
        if serves(info, index, bits, flags) {
            return Some(index);
        }
        index += 1;
    }
    None
}

/// The memory type that a location takes, of those whose bit is set: the first with all that it prefers, else the first with
/// all that it must have; `None` where there is neither.
pub fn best_type(types: &[MemoryTypeInfo], bits: u32, location: MemoryLocation) -> Option<usize>
    ensures best { result ≡ best_type types.now bits location }
    ensures there { IfSome result (λ index. index < length types.now) }
{
    match first_type(types, bits, preferred_flags(location)) {
        Some(index) => Some(index),
        None => first_type(types, bits, required_flags(location)),
    }
}
