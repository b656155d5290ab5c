//! Each handle may go to another thread: at these calls the check derives `Send` of it, from each type that lies behind it. C calls none of
//! them.

ghost use Rattle.std.specs.Prelude.{◌≡◌};

use crate::allocator_handle::AllocatorHandle;
use crate::capture_handle::CaptureHandle;
use crate::heaps_handle::HeapsHandle;
use crate::memory_type_handle::MemoryTypeHandle;
use crate::metal_heaps_handle::MetalHeapsHandle;
use crate::ring_handle::RingHandle;
use crate::virtual_block_handle::VirtualBlockHandle;

/// What may go to another thread, as it is.
fn sent<T: Send>(value: T) -> T
    ensures { result ≡ value }
{
    value
}

/// A virtual block's handle may.
pub fn sent_virtual_block(block: VirtualBlockHandle) -> VirtualBlockHandle
    ensures { result ≡ block }
{
    sent(block)
}

/// A memory type's handle may.
pub fn sent_memory_type(memory: MemoryTypeHandle) -> MemoryTypeHandle
    ensures { result ≡ memory }
{
    sent(memory)
}

/// An allocator's handle may.
pub fn sent_allocator(allocator: AllocatorHandle) -> AllocatorHandle
    ensures { result ≡ allocator }
{
    sent(allocator)
}

/// A ring's handle may.
pub fn sent_ring(ring: RingHandle) -> RingHandle
    ensures { result ≡ ring }
{
    sent(ring)
}

/// A handle of an allocator of DirectX 12's memory may.
pub fn sent_heaps(heaps: HeapsHandle) -> HeapsHandle
    ensures { result ≡ heaps }
{
    sent(heaps)
}

/// A handle of an allocator of Metal's memory may.
pub fn sent_metal_heaps(metal: MetalHeapsHandle) -> MetalHeapsHandle
    ensures { result ≡ metal }
{
    sent(metal)
}

/// A capture's handle may.
pub fn sent_capture(capture: CaptureHandle) -> CaptureHandle
    ensures { result ≡ capture }
{
    sent(capture)
}
