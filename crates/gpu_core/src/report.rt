//! What a memory type adds to a report.

ghost use Rattle.std.specs.Prelude.{◌≡◌, ◌+◌, ◌^◌, ◌<◌, ◌≤◌, [], ◌∷◌, Some, IfErr, OnOk};
ghost use Rattle.gpu_values.specs.declared.error.AllocationError.TheVariants.{HostOutOfMemory};
ghost use Rattle.gpu_block.specs.SubAllocator.{block_of};
ghost use Rattle.gpu_block.specs.Block.{size_of};
ghost use Rattle.gpu_values.specs.Report.{report_of};
ghost use Rattle.gpu_core.specs.TypeState.{capacity_of};
ghost use Rattle.gpu_core.specs.TypeReport.{with_type};
ghost use Rattle.gpu_core.specs.Slots.{slot_of, slots_of};

use crate::slot::LiveBlock;
use gpu_values::{AllocatorReport, MemoryBlockReport, Result};

/// Adds a block, its pieces and the sums of both. The only refusal is `HostOutOfMemory`.
fn add_block<H>(report: &mut AllocatorReport, block: &LiveBlock<H>) -> Result<()>
    requires allocated { report.old.total_allocated_bytes + size_of (block_of block.now.sub)
        < 2 ^ 64 }
    requires capacity { report.old.total_capacity_bytes + size_of (block_of block.now.sub)
        < 2 ^ 64 }
    ensures added { OnOk result (report_of report.new
        ≡ with_type (report_of report.old) (Some (slot_of block.now) ∷ [])) }
    ensures within { OnOk result (report.new.total_allocated_bytes + report.old.total_capacity_bytes
        ≤ report.new.total_capacity_bytes + report.old.total_allocated_bytes) }
    ensures cause { IfErr result (λ e. e ≡ HostOutOfMemory) }
{
    let start = report.allocations.len();
    let mut rows = block.sub.report_allocations()?;
    report.allocations.append(&mut rows)?;
    let size = block.sub.size();
    report.blocks.push(MemoryBlockReport {
        size,
        allocations: start..report.allocations.len(),
    })?;
    report.total_allocated_bytes += block.sub.allocated();
    report.total_capacity_bytes += size;
    Ok(())
}

/// Adds the blocks of all slots, their pieces and the sums of both. The only refusal is `HostOutOfMemory`.
pub fn add_slots<H>(report: &mut AllocatorReport, slots: &[Option<LiveBlock<H>>]) -> Result<()>
    requires allocated { report.old.total_allocated_bytes + capacity_of (slots_of slots.now)
        < 2 ^ 64 }
    requires capacity { report.old.total_capacity_bytes + capacity_of (slots_of slots.now)
        < 2 ^ 64 }
    ensures added { OnOk result (report_of report.new
        ≡ with_type (report_of report.old) (slots_of slots.now)) }
    ensures within { OnOk result (report.new.total_allocated_bytes + report.old.total_capacity_bytes
        ≤ report.new.total_capacity_bytes + report.old.total_allocated_bytes) }
    ensures cause { IfErr result (λ e. e ≡ HostOutOfMemory) }
{
    for slot in slots {
        match slot {
            None => {}
            Some(block) => add_block(report, block)?,
        }
    }
    Ok(())
}
