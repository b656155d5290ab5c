//! What callers hand to allocators of DirectX 12's memory, and what they get. Sizes, alignments and offsets are bytes.

use crate::memory_type_values::MemoryPiece;

/// What an allocator is made with. Sizes of blocks are as with a memory type.
#[repr(C)]
#[derive(Drop)]
pub struct HeapsSettings {
    /// The device's resource heap tier (`D3D12_RESOURCE_HEAP_TIER`): 1, or 2 and each later one.
    pub heap_tier: u32,
    /// The size of the first shared block of the device's memory.
    pub device_block_size: u64,
    /// The largest size of such a block.
    pub largest_device_block_size: u64,
    /// The size of the first shared block of memory that the host can see.
    pub host_block_size: u64,
    /// The largest size of such a block.
    pub largest_host_block_size: u64,
}

/// What is asked of an allocator.
#[repr(C)]
#[derive(Drop)]
pub struct HeapsRequest {
    /// Not 0.
    pub size: u64,
    /// A power of two.
    pub alignment: u64,
    /// Who reads and writes it: `UNKNOWN`, `GPU_ONLY`, `CPU_TO_GPU` or `GPU_TO_CPU`.
    pub location: u32,
    /// Of which category the resource is: `BUFFER`, `RTV_DSV_TEXTURE` or `OTHER_TEXTURE`.
    pub category: u32,
}

/// A piece of an allocator.
#[repr(C)]
#[derive(Drop)]
pub struct HeapsPiece {
    /// The memory type that it is of.
    pub memory_type: usize,
    /// The piece; its block is the device's heap.
    pub piece: MemoryPiece,
}

/// The heap that the device is to be asked for (`D3D12_HEAP_DESC`, by Direct3D's numbers). Both node masks are 0.
#[repr(C)]
#[derive(Drop)]
pub struct HeapsQuestion {
    /// The memory type that it is of.
    pub memory_type: usize,
    /// Its size.
    pub size: u64,
    /// Its alignment.
    pub alignment: u64,
    /// `D3D12_HEAP_TYPE`.
    pub heap_type: u32,
    /// `D3D12_CPU_PAGE_PROPERTY`.
    pub cpu_page_property: u32,
    /// `D3D12_MEMORY_POOL`.
    pub memory_pool: u32,
    /// `D3D12_HEAP_FLAGS`.
    pub flags: u32,
    /// Whether it is one piece's own, and not shared.
    pub dedicated: bool,
}

/// What a request leads to: a piece, a question, or, once the device has refused, its refusal. What isn't named by `kind` is all zeros.
#[repr(C)]
#[derive(Drop)]
pub struct HeapsProgress {
    /// `PIECE`, `QUESTION` or `REFUSED`.
    pub kind: u32,
    /// Why the request is refused, else `OK`.
    pub status: u32,
    /// The piece that is allocated.
    pub piece: HeapsPiece,
    /// The heap that the device is to be asked for.
    pub question: HeapsQuestion,
}

/// A committed resource, as it is recorded.
#[repr(C)]
#[derive(Drop)]
pub struct HeapsCommitted {
    /// The memory type that it counts as of.
    pub memory_type: usize,
    /// The device's handle of it.
    pub resource: u64,
    /// Its size, as the device told it.
    pub size: u64,
}

/// What is counted of a memory type's committed resources.
#[repr(C)]
#[derive(Drop)]
pub struct HeapsCommittedCounts {
    /// How many there are.
    pub count: usize,
    /// The sum of their sizes.
    pub bytes: u64,
}
