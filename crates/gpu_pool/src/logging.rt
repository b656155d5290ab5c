//! Log lines of the allocators. They change no result and no state, whatever log they are sent to. A record's target is the
//! log's own, where it has one, and else the module that is named.

use gpu_core::MemoryTypes;
use gpu_values::AllocatorDebugSettings;
use log::{Level, Log, debug, log, target_or};

/// Logs a request, where the settings ask for it. Sizes are bytes.
pub fn log_request<L: Log>(
    log: &L,
    module: &str,
    settings: AllocatorDebugSettings,
    name: &str,
    size: u64,
    alignment: u64,
) {
    if settings.log_allocations {
        let target = target_or(log, module);
        debug!(log; target: target, "Allocating `{name}` of {size} bytes with an alignment of {alignment}.");
    }
}

/// Logs what is freed, where the settings ask for it.
pub fn log_freed<L: Log>(log: &L, module: &str, settings: AllocatorDebugSettings, name: &str) {
    if settings.log_frees {
        let target = target_or(log, module);
        debug!(log; target: target, "Freeing `{name}`.");
    }
}

/// Logs each live piece by memory type, then by slot, then in order of offset. It takes no memory.
pub fn log_leaks<L: Log, H: Copy + Eq>(
    log: &L,
    module: &str,
    level: Level,
    types: &MemoryTypes<H>,
) {
    let target = target_or(log, module);
    for leak in types.leaks() {
        log!(log; target: target, level, "{leak}");
    }
}

/// Logs the same as warnings, where the settings ask for it as an allocator goes.
pub fn log_last_leaks<L: Log, H: Copy + Eq>(
    log: &L,
    module: &str,
    settings: AllocatorDebugSettings,
    types: &MemoryTypes<H>,
) {
    if settings.log_leaks_on_shutdown {
        log_leaks(log, module, Level::Warn, types);
    }
}
