//! Log lines of this allocator.

use super::Allocation;
use crate::AllocationCreateDesc;
use gpu_core::MemoryTypes;
use gpu_device::vulkan::{DeviceMemory, VulkanDevice};
use gpu_pool::logging;
use gpu_values::AllocatorDebugSettings;
use log::{Level, Log, debug, target_or};

/// The records' target, unless the log has its own.
const MODULE: &str = "gpu_allocator::vulkan";

/// Bytes in a line's MiB.
const MEBIBYTE: u64 = 1_048_576;

fn log_memory_types<L: Log, D: VulkanDevice>(log: &L, device: &D) {
    let target = target_or(log, MODULE);
    for index in 0..device.memory_type_count() {
        let info = device.memory_type(index);
        let flags = info.property_flags.0;
        let heap = info.heap_index;
        debug!(log; target: target, "memory type[{index}]: prop flags: 0x{flags:x}, heap[{heap}]");
    }
}

fn log_heaps<L: Log, D: VulkanDevice>(log: &L, device: &D) {
    let target = target_or(log, MODULE);
    for index in 0..device.heap_count() {
        let heap = device.heap(index);
        let flags = heap.flags;
        let size = heap.size / MEBIBYTE;
        debug!(log; target: target, "heap[{index}] flags: 0x{flags:x}, size: {size} MiB");
    }
}

/// Logs what memory the device has, where the settings ask for it.
pub fn log_device<L: Log, D: VulkanDevice>(log: &L, settings: AllocatorDebugSettings, device: &D) {
    if !settings.log_memory_information {
        return;
    }
    let target = target_or(log, MODULE);
    let types = device.memory_type_count();
    let heaps = device.heap_count();
    debug!(log; target: target, "memory type count: {types}");
    debug!(log; target: target, "memory heap count: {heaps}");
    log_memory_types(log, device);
    log_heaps(log, device);
}

/// Logs what is asked for, where the settings ask for it.
pub fn log_allocate<L: Log>(log: &L, debug: AllocatorDebugSettings, desc: &AllocationCreateDesc) {
    let requirements = &desc.requirements;
    logging::log_request(
        log,
        MODULE,
        debug,
        desc.name,
        requirements.size,
        requirements.alignment,
    );
}

/// Logs what is freed, where the settings ask for it.
pub fn log_free<L: Log>(log: &L, debug: AllocatorDebugSettings, allocation: &Allocation) {
    let name = match &allocation.name {
        Some(name) => name.as_str(),
        None => "<null>",
    };
    logging::log_freed(log, MODULE, debug, name);
}

/// Logs each live piece by memory type, then by slot, then in order of offset. It takes no memory.
pub fn log_leaks<L: Log>(log: &L, level: Level, types: &MemoryTypes<DeviceMemory>) {
    logging::log_leaks(log, MODULE, level, types);
}

/// Logs the same as warnings, where the settings ask for it as an allocator goes.
pub fn log_last_leaks<L: Log>(
    log: &L,
    debug: AllocatorDebugSettings,
    types: &MemoryTypes<DeviceMemory>,
) {
    logging::log_last_leaks(log, MODULE, debug, types);
}
