//! Smaller blocks: in a small heap, within bounds, and where the driver has no room for one.

ghost use Rattle.std.specs.Prelude.{◌≡◌};
ghost use Rattle.gpu_machine.specs.VulkanSmallerBlocks.{sizes_in_heap, next_portion, may_be_smaller};

use gpu_pool::Question;
use gpu_values::AllocationSizes;

/// A heap of at most so many bytes is small.
const SMALL_HEAP: u64 = 1_073_741_824;

/// The size in bytes of the largest shared blocks.
pub const LARGEST_BLOCK: u64 = 268_435_456;

/// The size in bytes of the smallest shared blocks.
const SMALLEST_BLOCK: u64 = 4_194_304;

/// How large the shared block is that a request asks for, beside the first one that it asked for.
#[derive(Clone, Copy, Debug)]
pub enum Portion {
    /// As large.
    Whole,
    /// Half as large.
    Half,
    /// A quarter.
    Quarter,
}

/// The sizes of the shared blocks of a heap of `heap` bytes: in a small heap no block has more than an eighth of it, or 4 MB.
pub fn sizes_in_heap(sizes: AllocationSizes, heap: u64) -> AllocationSizes
    ensures { result ≡ sizes_in_heap sizes heap }
{
    if heap <= SMALL_HEAP {
        sizes.at_most(heap / 8)
    } else {
        sizes
    }
}

/// What is asked for after a refusal: half as much; nothing after a quarter.
pub fn next_portion(portion: Portion) -> Option<Portion>
    ensures { result ≡ next_portion portion }
{
    match portion {
        Portion::Whole => Some(Portion::Half),
        Portion::Half => Some(Portion::Quarter),
        Portion::Quarter => None,
    }
}

/// Whether a smaller block than this one may serve a request of `size` bytes: it is shared, and larger than the request, and than
/// the smallest block.
pub fn may_be_smaller(block: &Question, size: u64) -> bool
    ensures { result ≡ may_be_smaller block.now size }
{
    !block.dedicated && size < block.size && SMALLEST_BLOCK < block.size
}
