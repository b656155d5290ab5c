//! Handles and descriptions, in place of Direct3D's own.

/// The number of a heap (`ID3D12Heap`); 0 is null.
#[derive(Clone, Copy, Debug, PartialEq, Eq)]
pub struct ID3D12Heap(pub u64);

/// The number of a resource (`ID3D12Resource`); 0 is null.
#[derive(Clone, Copy, Debug, PartialEq, Eq)]
pub struct ID3D12Resource(pub u64);

/// How a texel is laid out, as `DXGI_FORMAT` numbers it; 0 is `DXGI_FORMAT_UNKNOWN`, as buffers have it.
#[derive(Clone, Copy, Debug, PartialEq, Eq)]
pub struct Format(pub u32);

/// Flags of a heap, as `D3D12_HEAP_FLAGS` numbers them: 0 allows all, 0xc0 buffers alone, 0x84 render targets and depth
/// stencils alone, 0x44 other textures alone.
#[derive(Clone, Copy, Debug, PartialEq, Eq)]
pub struct HeapFlags(pub u32);

/// Whether one heap may hold resources of all kinds (`D3D12_RESOURCE_HEAP_TIER`).
#[derive(Clone, Copy, Debug, PartialEq, Eq)]
pub enum ResourceHeapTier {
    /// A heap holds buffers, or render targets and depth stencils, or other textures (`_1`, value 1).
    Tier1,
    /// A heap holds resources of all kinds (`_2`, value 2, and every later tier).
    Tier2,
}

/// Where a heap's memory lies (`D3D12_HEAP_TYPE`).
#[derive(Clone, Copy, Debug, PartialEq, Eq)]
pub enum HeapType {
    /// Memory that the GPU alone sees (`DEFAULT`, value 1).
    Default,
    /// Memory that the CPU writes and the GPU reads (`UPLOAD`, value 2).
    Upload,
    /// Memory that the GPU writes and the CPU reads (`READBACK`, value 3).
    Readback,
    /// Memory by its page property and pool (`CUSTOM`, value 4).
    Custom,
}

/// How the CPU sees a heap's pages (`D3D12_CPU_PAGE_PROPERTY`).
#[derive(Clone, Copy, Debug, PartialEq, Eq)]
pub enum CpuPageProperty {
    /// The heap's type decides (`UNKNOWN`, value 0).
    Unknown,
    /// Not at all (`NOT_AVAILABLE`, value 1).
    NotAvailable,
    /// Writes are gathered, and nothing is cached (`WRITE_COMBINE`, value 2).
    WriteCombine,
    /// Cached (`WRITE_BACK`, value 3).
    WriteBack,
}

/// The memory that a heap is taken from (`D3D12_MEMORY_POOL`).
#[derive(Clone, Copy, Debug, PartialEq, Eq)]
pub enum MemoryPool {
    /// The heap's type decides (`UNKNOWN`, value 0).
    Unknown,
    /// The system's memory (`L0`, value 1).
    L0,
    /// The GPU's own memory, where it has some (`L1`, value 2).
    L1,
}

/// Where a heap's memory lies, and which GPUs make and see it (`D3D12_HEAP_PROPERTIES`).
#[derive(Clone, Copy, Debug, PartialEq, Eq)]
pub struct HeapProperties {
    /// Where it lies.
    pub heap_type: HeapType,
    /// How the CPU sees it; unknown but for custom heaps.
    pub cpu_page_property: CpuPageProperty,
    /// The memory that it is taken from; unknown but for custom heaps.
    pub memory_pool_preference: MemoryPool,
    /// The GPU that makes it, one bit a GPU; 0 is the only one.
    pub creation_node_mask: u32,
    /// The GPUs that see it, one bit a GPU; 0 is the only one.
    pub visible_node_mask: u32,
}

/// What a heap may hold, in place of the flags of `D3D12_HEAP_DESC`.
#[derive(Clone, Copy, Debug, PartialEq, Eq)]
pub enum HeapContent {
    /// Everything (`ALLOW_ALL_BUFFERS_AND_TEXTURES`, value 0).
    All,
    /// Buffers (`ALLOW_ONLY_BUFFERS`, value 0xc0).
    Buffers,
    /// Render targets and depth stencils (`ALLOW_ONLY_RT_DS_TEXTURES`, value 0x84).
    RtDsTextures,
    /// Other textures (`ALLOW_ONLY_NON_RT_DS_TEXTURES`, value 0x44).
    NonRtDsTextures,
}

/// What heap is asked for (`D3D12_HEAP_DESC`).
#[derive(Clone, Copy, Debug, PartialEq, Eq)]
pub struct HeapDesc {
    /// In bytes.
    pub size: u64,
    /// Where its memory lies.
    pub properties: HeapProperties,
    /// In bytes: 65,536, or 4,194,304 where textures with several samples may lie in it.
    pub alignment: u64,
    /// What it may hold.
    pub content: HeapContent,
}

/// What a resource is (`D3D12_RESOURCE_DIMENSION`).
#[derive(Clone, Copy, Debug, PartialEq, Eq)]
pub enum ResourceDimension {
    /// Not told (`UNKNOWN`, value 0).
    Unknown,
    /// A buffer (`BUFFER`, value 1).
    Buffer,
    /// A texture of one dimension (`TEXTURE1D`, value 2).
    Texture1D,
    /// A texture of two dimensions (`TEXTURE2D`, value 3).
    Texture2D,
    /// A texture of three dimensions (`TEXTURE3D`, value 4).
    Texture3D,
}

/// What resource is asked for (`D3D12_RESOURCE_DESC`).
#[derive(Clone, Copy, Debug, PartialEq, Eq)]
pub struct ResourceDesc {
    /// Buffer or texture.
    pub dimension: ResourceDimension,
    /// In bytes; 0 leaves it to the device.
    pub alignment: u64,
    /// Of a buffer in bytes, of a texture in texels.
    pub width: u64,
    /// In texels; 1 for buffers.
    pub height: u32,
    /// In texels, or how many textures there are; 1 for buffers.
    pub depth_or_array_size: u16,
    /// How many sizes of the texture there are; 0 is as many as can be.
    pub mip_levels: u16,
    /// How a texel is laid out.
    pub format: Format,
    /// How many samples a texel has (`DXGI_SAMPLE_DESC::Count`).
    pub sample_count: u32,
    /// How good they are (`DXGI_SAMPLE_DESC::Quality`).
    pub sample_quality: u32,
    /// The order of texels, as `D3D12_TEXTURE_LAYOUT` numbers it: 0 is left to the device, 1 is row by row.
    pub layout: u32,
    /// As `D3D12_RESOURCE_FLAGS` numbers them: 1 allows a render target, 2 a depth stencil.
    pub flags: u32,
}

/// What resource is asked for by the later calls (`D3D12_RESOURCE_DESC1`).
#[derive(Clone, Copy, Debug, PartialEq, Eq)]
pub struct ResourceDesc1 {
    /// The fields that `D3D12_RESOURCE_DESC` has too.
    pub desc: ResourceDesc,
    /// Width, height and depth of `SamplerFeedbackMipRegion`, in texels; zeros where the resource is no feedback map.
    pub sampler_feedback_mip_region: [u32; 3],
}

/// What a resource takes of a heap (`D3D12_RESOURCE_ALLOCATION_INFO`).
#[derive(Clone, Copy, Debug, PartialEq, Eq)]
pub struct ResourceAllocationInfo {
    /// In bytes.
    pub size_in_bytes: u64,
    /// In bytes; its offset in a heap is a multiple of it.
    pub alignment: u64,
}

/// The value that a render target or depth stencil is cleared to fastest (`D3D12_CLEAR_VALUE`).
#[derive(Clone, Copy, Debug, PartialEq, Eq)]
pub struct ClearValue {
    /// The format that the value is written in.
    pub format: Format,
    /// The four words of `Color`, or of `DepthStencil` and two more; they are handed on unread.
    pub value: [u32; 4],
}
