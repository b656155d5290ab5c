//! Tests of what callers set and are told: block sizes, texts of errors, amounts, reports.

use crate::steps::{check, prints, reads};
use gpu_values::{
    AllocationError, AllocationReport, AllocationSizes, AllocationType, AllocatorDebugSettings,
    AllocatorReport, Fault, MemoryBlockReport, Result, fmt_bytes, internal_fault,
};
use std::alloc::{AllocError, Global};

const MB: u64 = 1_048_576;

// ---- block sizes

/// Whether the block at this place has so many megabytes, in the device's memory and in the host's.
fn sizes_are(sizes: &AllocationSizes, count: usize, device: u64, host: u64) -> bool {
    sizes.memblock_size(false, count) == device.saturating_mul(MB)
        && sizes.memblock_size(true, count) == host.saturating_mul(MB)
}

#[test]
fn sizes_double_up_to_their_maximum(rt: HostRuntime) {
    let sizes = AllocationSizes::new(8 * MB, 8 * MB)
        .with_max_device_memblock_size(256 * MB)
        .with_max_host_memblock_size(64 * MB);
    let steps = [
        sizes_are(&sizes, 0, 8, 8),
        sizes_are(&sizes, 1, 16, 16),
        sizes_are(&sizes, 2, 32, 32),
        sizes_are(&sizes, 3, 64, 64),
        sizes_are(&sizes, 4, 128, 64),
        sizes_are(&sizes, 5, 256, 64),
        sizes_are(&sizes, 6, 256, 64),
    ];
    check(&rt, &steps);
}

/// Whether the first blocks have 256 megabytes in the device's memory, and 64 in the host's.
fn stay(sizes: &AllocationSizes) -> bool {
    sizes_are(sizes, 0, 256, 64) && sizes_are(sizes, 1, 256, 64) && sizes_are(sizes, 2, 256, 64)
}

#[test]
fn sizes_stay_in_their_limits(rt: HostRuntime) {
    let below = AllocationSizes::new(64 * MB, 64 * MB).with_max_device_memblock_size(8 * MB);
    let from_four = AllocationSizes::new(4 * MB, 4 * MB)
        .with_max_device_memblock_size(u64::MAX)
        .with_max_host_memblock_size(33 * MB);
    let steps = [
        stay(&AllocationSizes::new(256 * MB, 64 * MB)),
        stay(&AllocationSizes::default()),
        sizes_are(&AllocationSizes::new(1, 5 * MB), 0, 4, 8),
        sizes_are(&AllocationSizes::new(u64::MAX, 0), 9, 256, 4),
        sizes_are(&below, usize::MAX, 64, 64),
        sizes_are(&from_four, usize::MAX, 256, 36),
    ];
    check(&rt, &steps);
}

// ---- settings and texts

#[test]
fn leaks_alone_are_logged_by_default_and_kinds_have_names(rt: HostRuntime) {
    let settings = AllocatorDebugSettings::default();
    let steps = [
        settings.log_leaks_on_shutdown,
        !settings.log_memory_information,
        !settings.log_allocations,
        !settings.log_frees,
        AllocationType::Free.as_str() == "Free",
        AllocationType::Linear.as_str() == "Linear",
        AllocationType::NonLinear.as_str() == "Non-Linear",
    ];
    check(&rt, &steps);
}

/// Whether the error prints this text.
fn is_told(alloc: Global, error: AllocationError, want: &str) -> bool {
    prints(alloc, &error, want)
}

#[test]
fn errors_print_their_texts(rt: HostRuntime) {
    let alloc = rt.alloc();
    let steps = [
        is_told(alloc, AllocationError::OutOfMemory, "Out of memory"),
        is_told(
            alloc,
            AllocationError::NoCompatibleMemoryTypeFound,
            "No compatible memory type available",
        ),
        is_told(
            alloc,
            AllocationError::InvalidAllocationCreateDesc,
            "Invalid AllocationCreateDesc",
        ),
        is_told(
            alloc,
            AllocationError::HostOutOfMemory,
            "Out of host memory",
        ),
        is_told(
            alloc,
            AllocationError::BudgetExceeded,
            "Memory budget exceeded",
        ),
        is_told(
            alloc,
            AllocationError::from(AllocError),
            "Out of host memory",
        ),
    ];
    check(&rt, &steps);
}

#[test]
fn errors_of_resources_print_their_texts(rt: HostRuntime) {
    let alloc = rt.alloc();
    let steps = [
        is_told(
            alloc,
            AllocationError::BarrierLayoutNeedsDevice10,
            "Initial `BARRIER_LAYOUT` needs at least `Device10`",
        ),
        is_told(
            alloc,
            AllocationError::CastableFormatsRequiresEnhancedBarriers,
            "Castable formats require enhanced barriers",
        ),
        is_told(
            alloc,
            AllocationError::CastableFormatsRequiresAtLeastDevice12,
            "Castable formats require at least `Device12`",
        ),
    ];
    check(&rt, &steps);
}

const NULL: Fault = Fault {
    text: "Returned mapped pointer is null",
    code: None,
};

const REMOVED: Fault = Fault {
    text: "ID3D12Device::CreatePlacedResource DEVICE_REMOVED",
    code: Some(-2005270523),
};

/// A fault of this code.
fn coded(code: i64) -> Fault {
    Fault {
        text: "vkMapMemory failed",
        code: Some(code),
    }
}

#[test]
fn faults_print_their_text_and_their_code(rt: HostRuntime) {
    let alloc = rt.alloc();
    let steps = [
        prints(alloc, &NULL, "Returned mapped pointer is null"),
        prints(alloc, &coded(-4), "vkMapMemory failed (code -4)"),
    ];
    check(&rt, &steps);
}

#[test]
fn errors_print_the_text_and_the_code_of_their_fault(rt: HostRuntime) {
    let alloc = rt.alloc();
    let steps = [
        is_told(
            alloc,
            internal_fault("Memory block must be Some."),
            "Internal error: Memory block must be Some.",
        ),
        is_told(
            alloc,
            AllocationError::FailedToMap(NULL),
            "Failed to map memory: Returned mapped pointer is null",
        ),
        is_told(
            alloc,
            AllocationError::InvalidAllocatorCreateDesc(NULL),
            "Invalid AllocatorCreateDesc Returned mapped pointer is null",
        ),
        is_told(
            alloc,
            AllocationError::Internal(REMOVED),
            "Internal error: ID3D12Device::CreatePlacedResource DEVICE_REMOVED (code -2005270523)",
        ),
        is_told(
            alloc,
            AllocationError::FailedToMap(coded(-4)),
            "Failed to map memory: vkMapMemory failed (code -4)",
        ),
        is_told(
            alloc,
            AllocationError::InvalidAllocatorCreateDesc(coded(i64::MAX)),
            "Invalid AllocatorCreateDesc vkMapMemory failed (code 9223372036854775807)",
        ),
        is_told(
            alloc,
            AllocationError::Internal(coded(i64::MIN)),
            "Internal error: vkMapMemory failed (code -9223372036854775808)",
        ),
    ];
    check(&rt, &steps);
}

// ---- reports

/// Whether the amount prints this text.
fn amount_is(alloc: Global, amount: u64, want: &str) -> bool {
    reads(fmt_bytes(alloc, amount), want)
}

#[test]
fn amounts_have_two_decimals(rt: HostRuntime) {
    let alloc = rt.alloc();
    let steps = [
        amount_is(alloc, 0, "0.00 B"),
        amount_is(alloc, 512, "512.00 B"),
        amount_is(alloc, 1023, "1023.00 B"),
        amount_is(alloc, 1024, "1.00 KB"),
        amount_is(alloc, 1152, "1.12 KB"),
        amount_is(alloc, 1408, "1.38 KB"),
        amount_is(alloc, 1536, "1.50 KB"),
        amount_is(alloc, 1048575, "1024.00 KB"),
        amount_is(alloc, 1048576, "1.00 MB"),
        amount_is(alloc, 1_073_741_824, "1.00 GB"),
        amount_is(alloc, 1_099_511_627_776, "1.00 TB"),
        amount_is(alloc, 1_125_899_906_842_624, "1.00 PB"),
        amount_is(alloc, 1_152_921_504_606_846_976, "1.00 EB"),
        amount_is(alloc, u64::MAX, "16.00 EB"),
    ];
    check(&rt, &steps);
}

fn row(alloc: Global, name: &str, offset: u64, size: u64) -> Result<AllocationReport> {
    Ok(AllocationReport {
        name: String::from_str(alloc, name)?,
        offset,
        size,
    })
}

/// Pieces of 100 bytes, and of 64 behind a padding of 156.
pub fn sample_report(alloc: Global) -> Result<AllocatorReport> {
    let mut allocations = Vec::new(alloc);
    allocations.push(row(alloc, "a", 0, 100)?)?;
    allocations.push(row(alloc, "b", 256, 64)?)?;
    let mut blocks = Vec::new(alloc);
    blocks.push(MemoryBlockReport {
        size: 4 * MB,
        allocations: 0..2,
    })?;
    Ok(AllocatorReport {
        allocations,
        blocks,
        total_allocated_bytes: 320,
        total_capacity_bytes: 4 * MB,
    })
}

/// What that report prints.
pub const WHOLE: &str =
    "AllocatorReport { summary: 320.00 B / 4.00 MB, blocks: 1, allocations: 2, largest: [\"a\": 100.00 B, \"b\": 64.00 B] }";

const LARGEST: &str =
    "AllocatorReport { summary: 320.00 B / 4.00 MB, blocks: 1, allocations: 2, largest: [\"a\": 100.00 B] }";

const NO_PIECES: &str =
    "AllocatorReport { summary: 320.00 B / 4.00 MB, blocks: 1, allocations: 2, largest: [] }";

/// Whether the report prints this text, with at most so many pieces.
fn report_is(report: &AllocatorReport, limit: Option<usize>, want: &str) -> bool {
    reads(report.text(limit), want)
}

/// The texts of the report of two pieces, and of its copy.
fn sample_prints(alloc: Global) -> Result<[bool; 5]> {
    let report = sample_report(alloc)?;
    let copy = report.clone()?;
    Ok([
        report_is(&report, None, WHOLE),
        report_is(&report, Some(2), WHOLE),
        report_is(&report, Some(1), LARGEST),
        report_is(&report, Some(0), NO_PIECES),
        report_is(&copy, None, WHOLE),
    ])
}

/// A report of four pieces.
fn four(alloc: Global) -> Result<AllocatorReport> {
    let mut allocations = Vec::new(alloc);
    for (name, offset, size) in [("", 0, 1), ("c", 1, 2), ("b", 3, 2), ("a", 5, 4096)] {
        allocations.push(row(alloc, name, offset, size)?)?;
    }
    Ok(AllocatorReport {
        allocations,
        blocks: Vec::new(alloc),
        total_allocated_bytes: 4101,
        total_capacity_bytes: 8192,
    })
}

const FOUR: &str =
    "AllocatorReport { summary: 4.00 KB / 8.00 KB, blocks: 0, allocations: 4, largest: [\"a\": 4.00 KB, \"c\": 2.00 B, \"b\": 2.00 B, \"--\": 1.00 B] }";

/// Whether the largest pieces come first, and equal ones in order.
fn four_print(alloc: Global) -> Result<bool> {
    Ok(report_is(&four(alloc)?, None, FOUR))
}

/// A copy of a block's row.
fn copied_block() -> Result<bool> {
    let block = MemoryBlockReport {
        size: 9,
        allocations: 3..5,
    };
    let copy = block.clone()?;
    Ok((copy.size, copy.allocations.start, copy.allocations.end) == (9, 3, 5))
}

/// A copy of a piece's row.
fn copied_row(alloc: Global) -> Result<bool> {
    let copy = row(alloc, "a \"b\"", 7, 1536)?.clone()?;
    let text = "\"a \\\"b\\\"\": 1.50 KB";
    Ok((copy.offset, copy.size) == (7, 1536) && reads(copy.text(), text))
}

/// Whether the answer is there, and yes.
fn yes(answer: Result<bool>) -> bool {
    matches!(answer, Ok(true))
}

#[test]
fn reports_and_copies_print_sums_and_largest_pieces(rt: HostRuntime) {
    let steps = match sample_prints(rt.alloc()) {
        Ok(steps) => steps,
        Err(_) => [false; 5],
    };
    check(&rt, &steps);
    let steps = [
        yes(four_print(rt.alloc())),
        yes(copied_block()),
        yes(copied_row(rt.alloc())),
    ];
    check(&rt, &steps);
}
