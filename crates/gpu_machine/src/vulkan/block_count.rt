//! How many blocks a device may have, of all memory types together (`maxMemoryAllocationCount`).

ghost use Rattle.std.specs.Prelude.{◌≡◌, ◌-◌};
ghost use Rattle.gpu_core.specs.Blocks.{slots_at};
ghost use Rattle.gpu_core.specs.Types.{slots_of};
ghost use Rattle.gpu_machine.specs.VulkanBlockCount.{blocks_of, has_most};

use gpu_core::MemoryTypes;

/// What is left of a count once the blocks of the memory type at `index` are taken away, 0 where they are more.
fn left_behind<H: Copy + Eq>(types: &MemoryTypes<H>, index: usize, count: usize) -> usize
    ensures { result ≡ count - blocks_of (slots_at (slots_of types.now) index) }
{
    let mut left = count;
    for slot in 0..types.slots(index) {
        if types.block(index, slot).is_some() {
            left = left.saturating_sub(1);
        }
    }
    left
}

/// Whether one more block would be one too many.
pub fn has_most<H: Copy + Eq>(types: &MemoryTypes<H>, most: Option<usize>) -> bool
    ensures { result ≡ has_most most (slots_of types.now) }
{
    let Some(most) = most else {
        return false;
    };
    let mut left = most;
    for index in 0..types.count() {
        left = left_behind(types, index, left);
    }
    left == 0
}
