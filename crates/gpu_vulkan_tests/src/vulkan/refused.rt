//! Names, reports and leaks of the Vulkan allocator, and the calls that take no memory, while the host refuses one request for
//! memory. With ample memory the test passes. Where one request was refused it fails with a text of its own, after all else
//! held: `tools/check_refused` refuses each in turn, and looks for that text.

use super::counting::Counting;
use super::reports::{FIRST, SECOND, has_block, has_row};
use super::*;
use gpu_values::{AllocationError, AllocatorReport, Result};
use log::Level;
use std::test::Fail;

/// What a run ends with in which one request was refused.
const TOLD: &str = "one call was refused, and nothing was lost";

/// Whether the host refused memory: the allocator, or the device, whose code for it is -1.
fn is_want_of_memory(error: &AllocationError) -> bool {
    match error {
        AllocationError::HostOutOfMemory => true,
        AllocationError::Internal(fault) | AllocationError::FailedToMap(fault) => {
            fault.code == Some(-1)
        }
        _ => false,
    }
}

/// Whether the allocator was refused host memory, which is counted.
fn is_refused<V: Drop>(refused: &mut u64, answer: &Result<V>) -> bool {
    let is_refused = matches!(answer, Err(AllocationError::HostOutOfMemory));
    if is_refused {
        *refused = refused.saturating_add(1);
    }
    is_refused
}

/// What is allocated, and how much the device holds.
fn held(a: &Allocator<SimVulkan>) -> (u64, usize) {
    (a.capacity(), a.device().held())
}

/// Allocates a piece; where the host refused memory nothing has changed, and it is asked for once more.
pub(super) fn take_again(
    a: &mut Allocator<SimVulkan>,
    desc: &AllocationCreateDesc,
    refused: &mut u64,
) -> Option<Allocation> {
    let before = held(a);
    match a.allocate(&Discard, desc) {
        Ok(allocation) => Some(allocation),
        Err(error) => {
            *refused = refused.saturating_add(1);
            if is_want_of_memory(&error) && held(a) == before {
                take(a, desc)
            } else {
                None
            }
        }
    }
}

/// A report, which is asked for once more where the host refused memory.
fn report_again(a: &Allocator<SimVulkan>, refused: &mut u64) -> Option<AllocatorReport> {
    let report = a.generate_report();
    if is_refused(refused, &report) {
        return a.generate_report().ok();
    }
    report.ok()
}

/// Whether both reports have the same rows.
fn have_same_rows(before: &AllocatorReport, after: &AllocatorReport) -> bool {
    for (i, row) in before.allocations.iter().enumerate() {
        if !has_row(after, i, row.name.as_str(), row.offset, row.size) {
            return false;
        }
    }
    before.allocations.len() == after.allocations.len()
}

/// Whether both reports have the same blocks.
fn have_same_blocks(before: &AllocatorReport, after: &AllocatorReport) -> bool {
    for (i, block) in before.blocks.iter().enumerate() {
        let rows = &block.allocations;
        if !has_block(after, i, block.size, rows.start, rows.end) {
            return false;
        }
    }
    before.blocks.len() == after.blocks.len()
}

pub(super) fn are_same(before: &AllocatorReport, after: &AllocatorReport) -> bool {
    have_same_rows(before, after)
        && have_same_blocks(before, after)
        && before.total_allocated_bytes == after.total_allocated_bytes
        && before.total_capacity_bytes == after.total_capacity_bytes
}

/// Whether there are two texts.
fn are_two(texts: Result<Vec<String>>) -> bool {
    match texts {
        Ok(texts) => texts.len() == 2,
        Err(_) => false,
    }
}

/// Whether two pieces are live by the texts of all leaks, which are asked for once more where the host refused memory.
fn two_leaks(a: &Allocator<SimVulkan>, refused: &mut u64) -> bool {
    let texts = a.leak_texts();
    if is_refused(refused, &texts) {
        return are_two(a.leak_texts());
    }
    are_two(texts)
}

/// What `Debug` prints of an allocation, its own name with it.
fn shown(alloc: Global, allocation: &Allocation) -> Option<String> {
    match format!(in alloc; "{allocation:?}") {
        Ok(text) => Some(text),
        Err(_) => None,
    }
}

/// The same, asked for once more where the host refused memory.
fn shown_again(alloc: Global, allocation: &Allocation, refused: &mut u64) -> Option<String> {
    match shown(alloc, allocation) {
        Some(text) => Some(text),
        None => {
            *refused = refused.saturating_add(1);
            shown(alloc, allocation)
        }
    }
}

/// Whether `Debug` prints this text of an allocation.
fn shows(alloc: Global, allocation: &Allocation, refused: &mut u64, want: &str) -> Option<bool> {
    let text = shown_again(alloc, allocation, refused)?;
    Some(text.as_str() == want)
}

/// Whether a report shows the same as this one.
fn reports_same(a: &Allocator<SimVulkan>, refused: &mut u64, before: &AllocatorReport) -> bool {
    match report_again(a, refused) {
        Some(after) => are_same(before, &after),
        None => false,
    }
}

/// Renames an allocation; where the host refused memory nothing has changed, and it is given once more.
fn rename_again(
    alloc: Global,
    a: &mut Allocator<SimVulkan>,
    allocation: &mut Allocation,
    name: &str,
    refused: &mut u64,
) -> Option<bool> {
    let report = report_again(a, refused)?;
    let own = shown_again(alloc, allocation, refused)?;
    let answer = a.rename_allocation(allocation, name);
    if is_refused(refused, &answer) {
        let same = reports_same(a, refused, &report)
            && shows(alloc, allocation, refused, own.as_str()) == Some(true);
        return Some(same && a.rename_allocation(allocation, name).is_ok());
    }
    let is_as_before = shows(alloc, allocation, refused, own.as_str());
    Some(answer.is_ok() && is_as_before == Some(false))
}

/// Calls that take no memory.
fn look(a: &mut Allocator<SimVulkan>, x: &Allocation) -> bool {
    a.is_live(x)
        && a.mapped_slice(x).is_some()
        && a.mapped_slice_mut(x).is_some()
        && a.try_as_mapped_slab(x).is_some()
        && a.device().refusals() <= 1
}

/// How a test ends in which so many calls were refused, if all else held.
pub(super) fn ends(refused: u64, held: bool) -> std::result::Result<(), Fail> {
    match (refused, held) {
        (0, true) => Ok(()),
        (1, true) => Err(Fail::new(TOLD)),
        (_, true) => Err(Fail::new("more than one call was refused")),
        (_, false) => Err(Fail::new("something was lost")),
    }
}

/// A piece for downloads: uploads are asked for again where the device lacks host memory.
pub(super) fn named_download(name: &str, size: u64, alignment: u64) -> AllocationCreateDesc<'_> {
    AllocationCreateDesc {
        name,
        ..managed(size, alignment, MemoryLocation::GpuToCpu)
    }
}

/// Gives two pieces other names, as nothing does.
fn rename_two(
    alloc: Global,
    a: &mut Allocator<SimVulkan>,
    x: &mut Allocation,
    y: &mut Allocation,
    refused: &mut u64,
) -> bool {
    rename_again(alloc, a, y, "b", refused) == Some(true)
        && rename_again(alloc, a, x, "a", refused) == Some(true)
        && rename_again(alloc, a, &mut Allocation::default(), "nothing", refused) == Some(true)
}

/// Whether a report and the leaks tell of two pieces by their new names.
fn tells_of_two(a: &Allocator<SimVulkan>, refused: &mut u64) -> bool {
    match report_again(a, refused) {
        Some(report) => {
            report.allocations.len() == 2
                && has_row(&report, 0, "a", 0, 100)
                && has_row(&report, 1, "b", 256, 64)
                && has_block(&report, 0, 4 * MB, 0, 2)
                && two_leaks(a, refused)
        }
        None => false,
    }
}

/// Whether a log is told of both leaks, without host memory.
fn logs_two(a: &Allocator<SimVulkan>) -> bool {
    let counting = Counting::new();
    a.report_memory_leaks(&counting, Level::Warn);
    counting.counts() == (2, FIRST.len().saturating_add(SECOND.len()))
}

/// Names, reports and leaks of two pieces.
fn names(alloc: Global, a: &mut Allocator<SimVulkan>, refused: &mut u64) -> Option<bool> {
    let mut x = take_again(a, &named_download("first", 100, 1), refused)?;
    let mut y = take_again(a, &named_download("second", 64, 256), refused)?;
    let told = rename_two(alloc, a, &mut x, &mut y, refused)
        && look(a, &x)
        && tells_of_two(a, refused)
        && logs_two(a);
    Some(told && give(a, x))
}

/// The end of an allocator that tells of the piece that is left, and then holds nothing.
fn ends_with_a_leak(a: Allocator<SimVulkan>) -> bool {
    let counting = Counting::new();
    let device = a.destroy(&counting);
    counting.counts() == (1, SECOND.len()) && device.held() == 0
}

/// Names, reports and leaks of an allocator that tells what memory there is, before it takes any.
fn told(alloc: Global, device: SimVulkan) -> std::result::Result<(), Fail> {
    let counting = Counting::new();
    let mut desc = described(device, small());
    desc.debug_settings.log_memory_information = true;
    match Allocator::new(&counting, alloc, desc) {
        Ok(mut a) => {
            let mut refused = 0;
            let done = names(alloc, &mut a, &mut refused);
            let ended = ends_with_a_leak(a);
            ends(
                refused,
                done == Some(true) && ended && counting.counts().0 == 4,
            )
        }
        Err((error, device)) => ends(
            1,
            is_want_of_memory(&error) && device.held() == 0 && counting.counts().0 == 4,
        ),
    }
}

#[test]
fn names_and_reports_lose_nothing_where_memory_is_refused(
    rt: HostRuntime,
) -> std::result::Result<(), Fail> {
    match simulated(rt.alloc(), &with_types(&[HOST])) {
        Ok(device) => told(rt.alloc(), device),
        Err(AllocError) => ends(1, true),
    }
}
