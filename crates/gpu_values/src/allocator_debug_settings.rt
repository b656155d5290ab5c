//! What an allocator logs.

/// Which lines an allocator passes to its log. They are of level debug, and leaks of level warn.
#[derive(Clone, Copy, Debug)]
pub struct AllocatorDebugSettings {
    /// The memory types and heaps of the device, when the allocator is made: Vulkan alone.
    pub log_memory_information: bool,
    /// The allocations that are still live when the allocator is destroyed: Vulkan and DirectX 12. Metal's `destroy` has no
    /// log.
    pub log_leaks_on_shutdown: bool,
    /// Each request for a piece, be it served or refused.
    pub log_allocations: bool,
    /// Each allocation that `free` is handed, be it given back or refused, and each piece that `free_resource` gives back.
    pub log_frees: bool,
}

/// Leaks alone are logged.
impl Default for AllocatorDebugSettings {
    ghost use Rattle.std.specs.Prelude.{◌≡◌};
    ghost use Rattle.gpu_values.specs.Settings.{default_debug_settings};

    ghost is_default = { λ s. s ≡ default_debug_settings };

    fn default() -> Self {
        AllocatorDebugSettings {
            log_memory_information: false,
            log_leaks_on_shutdown: true,
            log_allocations: false,
            log_frees: false,
        }
    }
}
