//! Handles and descriptions, in place of Metal's own.

/// The number of a heap (`MTLHeap`); 0 is null.
#[derive(Clone, Copy, Debug, PartialEq, Eq)]
pub struct MTLHeap(pub u64);

/// The number of a residency set (`MTLResidencySet`); 0 is null.
#[derive(Clone, Copy, Debug, PartialEq, Eq)]
pub struct MTLResidencySet(pub u64);

/// Where a resource's memory lies, and who sees it (`MTLStorageMode`).
#[derive(Clone, Copy, Debug, PartialEq, Eq)]
pub enum StorageMode {
    /// One memory for CPU and GPU (`shared`, value 0).
    Shared,
    /// A copy for each of them (`managed`, value 1).
    Managed,
    /// The GPU alone sees it (`private`, value 2).
    Private,
    /// It lies in the GPU's tiles for one pass (`memoryless`, value 3).
    Memoryless,
    /// A mode that has no name here, with its value.
    Other(u32),
}

/// How the CPU caches what it writes (`MTLCPUCacheMode`).
#[derive(Clone, Copy, Debug, PartialEq, Eq)]
pub enum CpuCacheMode {
    /// For reads and writes (`defaultCache`, value 0).
    DefaultCache,
    /// For writes alone (`writeCombined`, value 1).
    WriteCombined,
}

/// What heap is asked for (`MTLHeapDescriptor`), beside its size; it is always a placement heap
/// (`MTLHeapType.placement`).
#[derive(Clone, Copy, Debug, PartialEq, Eq)]
pub struct HeapDescriptor {
    /// Where its memory lies.
    pub storage_mode: StorageMode,
    /// How the CPU caches it.
    pub cpu_cache_mode: CpuCacheMode,
}

/// What texture is asked for (`MTLTextureDescriptor`), as far as its size goes.
#[derive(Clone, Copy, Debug, PartialEq, Eq)]
pub struct TextureDescriptor {
    /// Where its memory lies.
    pub storage_mode: StorageMode,
    /// In texels.
    pub width: u64,
    /// In texels.
    pub height: u64,
    /// What one texel takes, in bytes.
    pub bytes_per_texel: u64,
}

/// What a resource takes of a heap (`MTLSizeAndAlign`).
#[derive(Clone, Copy, Debug, PartialEq, Eq)]
pub struct SizeAndAlign {
    /// In bytes.
    pub size: u64,
    /// In bytes; its offset in a heap is a multiple of it.
    pub align: u64,
}
