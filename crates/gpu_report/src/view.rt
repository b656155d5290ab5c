//! Blocks and resources of a plan as they are to be shown.

ghost use Rattle.std.specs.Prelude.{◌≡◌, ◌++◌, map, OnOk, IfErr};
ghost use Rattle.gpu_values.specs.declared.error.AllocationError.TheVariants.{HostOutOfMemory};
ghost use Rattle.gpu_report.specs.View.{shown, shown_from};

use gpu_block::SubAllocator;
use gpu_core::MemoryType;
use gpu_plan::Placed;
use gpu_values::Result;

/// A block, where it stands in its allocator, and the page size of its memory type in bytes, 1 where pages don't matter.
#[derive(Clone, Copy)]
pub struct BlockView<'a> {
    pub memory_type: usize,
    pub slot: usize,
    pub page_size: u64,
    pub block: &'a SubAllocator,
}

/// A resource of a plan at its offset, and its name.
#[derive(Clone, Copy)]
pub struct ResourceView<'a> {
    pub name: &'a str,
    pub placed: Placed,
}

/// Adds a view of each live block of a memory type, by slot; `index` is what the memory type is numbered by. The only refusal is
/// `HostOutOfMemory`, and then some of them may have been added.
pub fn add_views<'a, H: Copy + Eq>(
    views: &mut Vec<BlockView<'a>>,
    index: usize,
    memory_type: &'a MemoryType<H>,
) -> Result<()>
    ensures added { OnOk result (map shown views.new.items
        ≡ map shown views.old.items ++ shown_from index memory_type.now.granularity 0
        memory_type.now.slots) }
    ensures cause { IfErr result (λ e. e ≡ HostOutOfMemory) }
{
    let page_size = memory_type.granularity();
    for slot in 0..memory_type.slots() {
        if let Some(block) = memory_type.sub_allocator(slot) {
            views.push(BlockView {
                memory_type: index,
                slot,
                page_size,
                block,
            })?;
        }
    }
    Ok(())
}
