//! The sizes of the blocks that pieces share.

use std::marker::Model;

/// Bytes in a megabyte.
const MB: u64 = 1_048_576;

/// Block sizes are multiples of this, and at least as large.
pub(crate) const STEP: u64 = 4 * MB;

/// No block size is larger than this.
pub(crate) const LARGEST: u64 = 256 * MB;

/// How many times a block size doubles at most.
pub(crate) const DOUBLINGS: usize = 7;

/// The sizes in bytes of the blocks that pieces share: one range for memory of the device alone, one for memory that the host
/// can see. The next shared block of a memory type has the range's minimum, doubled for each of its shared blocks that is
/// live, at most seven times and up to the range's maximum. All four limits are multiples of 4 MB, from 4 MB to 256 MB. A
/// request above the next shared block's size gets a block of its own.
///
/// Keep the defaults, 256 MB and 64 MB, where memory is plenty. Change them where
/// - little is allocated, or many programs share the GPU: begin with small blocks and let them double. Less is held and not
///   used, for more questions to the driver at the start;
/// - a budget is small (`set_budget`): a block counts with its whole size, so choose blocks of which it holds several;
/// - most requests are larger than the blocks, and each asks the driver for memory: choose larger ones.
#[derive(Clone, Copy, Debug)]
pub struct AllocationSizes {
    min_device_memblock_size: u64,
    max_device_memblock_size: u64,
    min_host_memblock_size: u64,
    max_host_memblock_size: u64,
}

impl Model for AllocationSizes {
    ghost use Rattle.gpu_values.specs.Sizes.{Sizes, AreInLimits};

    ghost Value = { Sizes };

    ghost view = { λ s. record {
      device = record
          { smallest = s.min_device_memblock_size; largest = s.max_device_memblock_size };
      host =
          record { smallest = s.min_host_memblock_size; largest = s.max_host_memblock_size };
    } };

    ghost invariant = { λ s. AreInLimits
        (record { smallest = s.min_device_memblock_size; largest = s.max_device_memblock_size })
        × AreInLimits (record {
          smallest = s.min_host_memblock_size;
          largest =
              s.max_host_memblock_size;
        }) };

    ghost inverse = { λ v. record {
      min_device_memblock_size = v.device.smallest;
      max_device_memblock_size = v.device.largest;
      min_host_memblock_size = v.host.smallest;
      max_host_memblock_size = v.host.largest;
    } };
}

impl AllocationSizes {
    ghost use Rattle.std.specs.Prelude.{◌≡◌, ◌≤◌, ◌*◌};
    ghost use Rattle.gpu_values.specs.Sizes.{Sizes, mb, only_size, with_largest, sizes_at_most, shared_block_size};

    /// One size in bytes for all blocks of the device's memory, and one for all blocks that the host can see; they don't
    /// double. Each is brought into 4 MB to 256 MB and rounded up to a multiple of 4 MB.
    pub fn new(device_memblock_size: u64, host_memblock_size: u64) -> Self
        ensures { result ≡ record {
          device = only_size device_memblock_size;
          host = only_size
              host_memblock_size;
        } }
    {
        let device = block_size_near(device_memblock_size);
        let host = block_size_near(host_memblock_size);
        AllocationSizes {
            min_device_memblock_size: device,
            max_device_memblock_size: device,
            min_host_memblock_size: host,
            max_host_memblock_size: host,
        }
    }

    /// The same with blocks of the device's memory that double up to this size in bytes. It is brought into the limits as in
    /// `new`, and is at least the size they begin with.
    pub fn with_max_device_memblock_size(self, size: u64) -> Self
        ensures { result ≡ record self { device = with_largest self.device size } }
    {
        AllocationSizes {
            max_device_memblock_size: block_size_near(size).max(self.min_device_memblock_size),
            ..self
        }
    }

    /// The same with blocks of memory that the host can see that double up to this size in bytes. It is brought into the
    /// limits as in `new`, and is at least the size they begin with.
    pub fn with_max_host_memblock_size(self, size: u64) -> Self
        ensures { result ≡ record self { host = with_largest self.host size } }
    {
        AllocationSizes {
            max_host_memblock_size: block_size_near(size).max(self.min_host_memblock_size),
            ..self
        }
    }

    /// The same with no block above this size in bytes. It is rounded down to a multiple of 4 MB, and is 4 MB at least.
    pub fn at_most(self, size: u64) -> Self
        ensures { result ≡ sizes_at_most self size }
    {
        let largest = block_size_below(size);
        AllocationSizes {
            min_device_memblock_size: self.min_device_memblock_size.min(largest),
            max_device_memblock_size: self.max_device_memblock_size.min(largest),
            min_host_memblock_size: self.min_host_memblock_size.min(largest),
            max_host_memblock_size: self.max_host_memblock_size.min(largest),
        }
    }

    /// The size in bytes of the next shared block of a memory type with `count` live ones. `is_host` says whether the host
    /// can see its memory.
    pub fn memblock_size(&self, is_host: bool, count: usize) -> u64
        ensures size { result ≡ shared_block_size self.now is_host count }
        ensures low { 4 * mb ≤ result }
        ensures high { result ≤ 256 * mb }
    {
        let (min, max) = if is_host {
            (self.min_host_memblock_size, self.max_host_memblock_size)
        } else {
            (self.min_device_memblock_size, self.max_device_memblock_size)
        };
        doubled(min, count).min(max)
    }
}

/// Blocks of 256 MB on the device, and of 64 MB where the host can see them.
impl Default for AllocationSizes {
    ghost use Rattle.std.specs.Prelude.{◌≡◌};
    ghost use Rattle.gpu_values.specs.Sizes.{default_sizes};

    ghost is_default = { λ s. s ≡ default_sizes };

    fn default() -> Self {
        AllocationSizes::new(256 * MB, 64 * MB)
    }
}

ghost use Rattle.std.specs.Prelude.{◌≡◌, ◌≤◌, ◌*◌, ◌^◌, min};
ghost use Rattle.gpu_values.specs.Sizes.{mb, block_size_near, block_size_below};

/// A size between the limits, and a whole number of steps.
fn block_size_near(size: u64) -> u64
    ensures value { result ≡ block_size_near size }
    ensures low { 4 * mb ≤ result }
    ensures high { result ≤ 256 * mb }
{
    size.max(STEP).min(LARGEST).next_multiple_of(STEP)
}

/// The largest block size that isn't above this one, or else the smallest one.
fn block_size_below(size: u64) -> u64
    ensures value { result ≡ block_size_below size }
    ensures low { 4 * mb ≤ result }
{
    (size / STEP * STEP).max(STEP)
}

/// A block size doubled `count` times, at most seven times.
fn doubled(size: u64, count: usize) -> u64
    requires { size ≤ 256 * mb }
    ensures { result ≡ size * 2 ^ min count 7 }
{
    size << count.min(DOUBLINGS)
}
