//! A caller that is proved, over any device that keeps the laws of `VulkanDevice`: read this first if you want to prove something
//! on top of the allocator. docs/CALLING.md goes through it line by line.

ghost use Rattle.std.specs.Prelude.{◌≡◌, Some, replicate};
ghost use Rattle.gpu_vulkan.specs.Live.{IsLive, IsMapped, bytes_at};
ghost use Rattle.gpu_vulkan.specs.Lends.{AreDistinct};

use gpu_allocator::vulkan::{Allocation, Allocator, VulkanDevice};

/// Fills one allocation with a byte. Whoever calls it knows of any other live allocation, of another party say, that it is
/// live still and has the bytes that it had.
pub fn fill_one_of_two<D: VulkanDevice>(
    a: &mut Allocator<D>,
    x: &Allocation,
    y: &Allocation,
    byte: u8,
)
    // the host sees the first one's memory, and it is live: `mapped_slice` tells
    requires mapped { IsMapped a.old.setup.properties a.old.slots x.now }
    requires live { IsLive a.old.slots y.now }
    // two pieces: of another memory type, in another block, or under another number
    requires other { AreDistinct y.now x.now }
    ensures written { bytes_at (D.held a.new.device) x.now ≡ Some (replicate x.now.size byte) }
    ensures kept { bytes_at (D.held a.new.device) y.now ≡ bytes_at (D.held a.old.device) y.now }
    ensures live { IsLive a.new.slots y.now }
{
    a.slice_mut(x).fill(byte);
}
