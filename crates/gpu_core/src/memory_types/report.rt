//! Reports of all memory types.

ghost use Rattle.std.specs.Prelude.{◌≡◌, ◌^◌, ◌<◌, IfOk, IfErr};
ghost use Rattle.gpu_values.specs.declared.error.AllocationError.TheVariants.{HostOutOfMemory};
ghost use Rattle.gpu_values.specs.Report.{report_of};
ghost use Rattle.gpu_core.specs.Blocks.{total_capacity};
ghost use Rattle.gpu_core.specs.Reports.{whole_report};
ghost use Rattle.gpu_core.specs.Types.{slots_of};

use crate::MemoryType;
use gpu_values::{AllocatorReport, Result};
use std::alloc::Global;

/// The live blocks and pieces of all memory types, in order, and the sums of both. The only refusal is `HostOutOfMemory`.
#[tactic(auto, using(crate::proofs::Reporting::reporting))]
pub fn report_of<H: Copy + Eq>(alloc: Global, types: &[MemoryType<H>]) -> Result<AllocatorReport>
    requires { total_capacity (slots_of types.now) < 2 ^ 64 }
    ensures report { IfOk result (λ r. report_of r ≡ whole_report (slots_of types.now)) }
    ensures cause { IfErr result (λ e. e ≡ HostOutOfMemory) }
{
    let mut report = AllocatorReport {
        allocations: Vec::new(alloc),
        blocks: Vec::new(alloc),
        total_allocated_bytes: 0,
        total_capacity_bytes: 0,
    };
    for memory_type in types {
        memory_type.report(&mut report)?;
    }
    Ok(report)
}
