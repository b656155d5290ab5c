//! Copies and texts of reports, while the host refuses one request for memory. The toolchain's library asks once more, and for
//! less, where a first request for a list's room is refused: so a refused request is told, or the answer is the one with ample
//! memory (`tools/check_refused`).

use crate::steps::{check, ends};
use crate::values::{WHOLE, sample_report};
use gpu_values::{AllocationError, AllocatorReport, Result};
use std::test::Fail;

/// What a copy prints.
fn copied_text(report: &AllocatorReport) -> Result<String> {
    report.clone()?.text(None)
}

#[test]
fn reports_are_copied_and_printed_or_want_memory(rt: HostRuntime) -> std::result::Result<(), Fail> {
    let Ok(report) = sample_report(rt.alloc()) else {
        return ends(1);
    };
    match copied_text(&report) {
        Ok(text) => {
            check(&rt, &[text.as_str() == WHOLE]);
            Ok(())
        }
        Err(AllocationError::HostOutOfMemory) => ends(1),
        Err(_) => Err(Fail::from("a text was refused for another cause")),
    }
}
