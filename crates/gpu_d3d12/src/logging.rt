//! Log lines of this allocator.

use crate::{Allocation, AllocationCreateDesc};
use gpu_core::MemoryTypes;
use gpu_device::d3d12::ID3D12Heap;
use gpu_pool::logging;
use gpu_values::AllocatorDebugSettings;
use log::{Level, Log};

/// The records' target, unless the log has its own.
const MODULE: &str = "gpu_allocator::d3d12";

/// Logs what is asked for, where the settings ask for it.
pub fn log_allocate<L: Log>(log: &L, debug: AllocatorDebugSettings, desc: &AllocationCreateDesc) {
    logging::log_request(log, MODULE, debug, desc.name, desc.size, desc.alignment);
}

/// Logs what is freed, where the settings ask for it.
pub fn log_free<L: Log>(log: &L, debug: AllocatorDebugSettings, allocation: &Allocation) {
    logging::log_freed(log, MODULE, debug, allocation.name().unwrap_or(""));
}

/// Logs each live piece by memory type, then by slot, then in order of offset. It takes no memory.
pub fn log_leaks<L: Log>(log: &L, level: Level, types: &MemoryTypes<ID3D12Heap>) {
    logging::log_leaks(log, MODULE, level, types);
}

/// Logs the same as warnings, where the settings ask for it as an allocator goes.
pub fn log_last_leaks<L: Log>(
    log: &L,
    debug: AllocatorDebugSettings,
    types: &MemoryTypes<ID3D12Heap>,
) {
    logging::log_last_leaks(log, MODULE, debug, types);
}
