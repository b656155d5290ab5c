//! What a memory type holds.

ghost use Rattle.std.specs.Prelude.{◌≡◌};
ghost use Rattle.gpu_core.specs.TypeReport.{allocated_of};
ghost use Rattle.gpu_report.specs.Samples.{usage_of};

use crate::timeline::samples::Usage;
use gpu_core::MemoryType;

/// The bytes of a memory type's pieces with their padding.
fn allocated<H: Copy + Eq>(memory_type: &MemoryType<H>) -> u64
    ensures { result ≡ allocated_of memory_type.now.slots }
{
    let _capacity = memory_type.capacity();
    let mut taken = 0;
    for slot in 0..memory_type.slots() {
        if let Some(block) = memory_type.sub_allocator(slot) {
            taken += block.allocated();
        }
    }
    taken
}

/// The bytes of a memory type's blocks, and of their pieces with the padding. It looks at each block, and at no piece.
pub fn usage_of<H: Copy + Eq>(memory_type: &MemoryType<H>) -> Usage
    ensures { result ≡ usage_of memory_type.now.slots }
{
    Usage {
        blocks: memory_type.capacity(),
        pieces: allocated(memory_type),
    }
}
