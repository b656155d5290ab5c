//! What callers hand to allocators of Metal's memory, and what they get. Sizes, alignments and offsets are bytes.

use crate::heaps_values::HeapsPiece;

/// What an allocator is made with. Sizes of blocks are as with a memory type.
#[repr(C)]
#[derive(Drop)]
pub struct MetalHeapsSettings {
    /// Whether heaps are to be members of a residency set (`MTLResidencySet`).
    pub has_residency_set: bool,
    /// The size of the first shared block of the device's memory.
    pub device_block_size: u64,
    /// The largest size of such a block.
    pub largest_device_block_size: u64,
    /// The size of the first shared block of memory that the host can see.
    pub host_block_size: u64,
    /// The largest size of such a block.
    pub largest_host_block_size: u64,
}

/// What is asked of an allocator.
#[repr(C)]
#[derive(Drop)]
pub struct MetalHeapsRequest {
    /// Not 0.
    pub size: u64,
    /// A power of two.
    pub alignment: u64,
    /// Who reads and writes it: `UNKNOWN`, `GPU_ONLY`, `CPU_TO_GPU` or `GPU_TO_CPU`.
    pub location: u32,
}

/// The heap that the device is to be asked for (`MTLHeapDescriptor`, by Metal's numbers). It is of placement type.
#[repr(C)]
#[derive(Drop)]
pub struct MetalHeapsQuestion {
    /// The memory type that it is of.
    pub memory_type: usize,
    /// Its size.
    pub size: u64,
    /// Who reads and writes it: `GPU_ONLY`, `CPU_TO_GPU` or `GPU_TO_CPU`.
    pub location: u32,
    /// `MTLStorageMode`.
    pub storage_mode: u32,
    /// `MTLCPUCacheMode`.
    pub cpu_cache_mode: u32,
    /// Whether it is one piece's own, and not shared.
    pub dedicated: bool,
}

/// What a request leads to: a piece, a question, or, once the device has refused, its refusal. What isn't named by `kind` is all zeros.
#[repr(C)]
#[derive(Drop)]
pub struct MetalHeapsProgress {
    /// `PIECE`, `QUESTION` or `REFUSED`.
    pub kind: u32,
    /// Why the request is refused, else `OK`.
    pub status: u32,
    /// The piece that is allocated.
    pub piece: HeapsPiece,
    /// The heap that the device is to be asked for.
    pub question: MetalHeapsQuestion,
}

/// A piece of the heap that was asked for.
#[repr(C)]
#[derive(Drop)]
pub struct MetalHeapsGrant {
    /// The piece; its block is the device's heap.
    pub piece: HeapsPiece,
    /// Whether that heap is to join the residency set now.
    pub joins: bool,
}

/// A heap, or none.
#[repr(C)]
#[derive(Drop)]
pub struct MetalHeapsBlock {
    /// Whether one is told.
    pub exists: bool,
    /// The heap; 0 where none is told.
    pub heap: u64,
    /// Whether it is to leave the residency set before it is released.
    pub leaves: bool,
}
