//! What callers hand to allocators, and what they get. Sizes, alignments and offsets are bytes.

use crate::memory_type_values::MemoryPiece;

/// A memory type of the device (`VkMemoryType`, with the same layout).
#[repr(C)]
#[derive(Drop)]
pub struct DeviceMemoryType {
    /// What memory of this type is like (`VkMemoryPropertyFlags`).
    pub flags: u32,
    /// The heap that it lies in.
    pub heap: u32,
}

/// A heap of the device (`VkMemoryHeap`, with the same layout).
#[repr(C)]
#[derive(Drop)]
pub struct DeviceHeap {
    /// Its size.
    pub size: u64,
    /// What the heap is like (`VkMemoryHeapFlags`).
    pub flags: u32,
}

/// What an allocator is made with, beside the memory types and heaps. Sizes of blocks are as with a memory type.
#[repr(C)]
#[derive(Drop)]
pub struct AllocatorSettings {
    /// The page size, a power of two (`bufferImageGranularity`).
    pub granularity: u64,
    /// The size of the first shared block of the device's memory.
    pub device_block_size: u64,
    /// The largest size of such a block.
    pub largest_device_block_size: u64,
    /// The size of the first shared block of memory that the host can see.
    pub host_block_size: u64,
    /// The largest size of such a block.
    pub largest_host_block_size: u64,
}

/// What is asked of an allocator.
#[repr(C)]
#[derive(Drop)]
pub struct AllocatorRequest {
    /// Not 0.
    pub size: u64,
    /// A power of two.
    pub alignment: u64,
    /// Bit `i` says that memory type `i` serves.
    pub memory_type_bits: u32,
    /// `LINEAR` or `NON_LINEAR`.
    pub kind: u32,
    /// Who reads and writes it: `UNKNOWN`, `GPU_ONLY`, `CPU_TO_GPU` or `GPU_TO_CPU`.
    pub location: u32,
    /// `MANAGED`, `FOR_BUFFER` or `FOR_IMAGE`: the latter two have memory of their own.
    pub scheme: u32,
    /// The buffer or image that the memory is for alone, where it is for one.
    pub resource: u64,
}

/// Which memory a request takes, by flags of memory types (`VkMemoryPropertyFlags`) in place of its location.
#[repr(C)]
#[derive(Drop)]
pub struct AllocatorPreference {
    /// What its memory must have.
    pub required: u32,
    /// What it would best have.
    pub preferred: u32,
    /// What it would best not have.
    pub avoided: u32,
    /// Whether only blocks that are there are looked at, and no new one is asked for.
    pub never_allocate: bool,
}

/// A piece of an allocator.
#[repr(C)]
#[derive(Drop)]
pub struct AllocatorPiece {
    /// The memory type that it is of.
    pub memory_type: usize,
    /// The address at which its block is mapped, as the caller told it, 0 where it isn't.
    pub address: u64,
    /// The piece; its block is the driver's memory.
    pub piece: MemoryPiece,
}

/// What the driver is to be asked for: memory, for what the request says that it is for.
#[repr(C)]
#[derive(Drop)]
pub struct AllocatorQuestion {
    /// The size of the memory.
    pub size: u64,
    /// Its memory type.
    pub memory_type: usize,
    /// Whether it is one piece's own, and not shared.
    pub dedicated: bool,
    /// Whether it is to be mapped, whole.
    pub mapped: bool,
}

/// What a request leads to: a piece, a question, or, once the driver has refused, its refusal. What isn't named by `kind` is all zeros.
#[repr(C)]
#[derive(Drop)]
pub struct AllocatorProgress {
    /// `PIECE`, `QUESTION` or `REFUSED`.
    pub kind: u32,
    /// Why the request is refused, else `OK`.
    pub status: u32,
    /// The piece that is allocated.
    pub piece: AllocatorPiece,
    /// What the driver is to be asked for.
    pub question: AllocatorQuestion,
}

/// Memory that goes back to the driver, or none.
#[repr(C)]
#[derive(Drop)]
pub struct AllocatorMemory {
    /// Whether there is some; else all is 0.
    pub exists: bool,
    /// Whether it is mapped: then it is unmapped first.
    pub mapped: bool,
    /// The driver's handle of it.
    pub memory: u64,
    /// The address at which it is mapped, as the caller told it, 0 where it isn't.
    pub address: u64,
}

/// A live block, or none.
#[repr(C)]
#[derive(Drop)]
pub struct AllocatorBlock {
    /// Whether there is one; else all is 0.
    pub exists: bool,
    /// Whether it is mapped.
    pub mapped: bool,
    /// Whether pieces share it; else it is one piece's own.
    pub shared: bool,
    /// The driver's handle of its memory.
    pub memory: u64,
    /// The address at which it is mapped, as the caller told it, 0 where it isn't.
    pub address: u64,
    /// Its size.
    pub size: u64,
}

/// What is counted of a memory type, and of all its blocks together.
#[repr(C)]
#[derive(Drop)]
pub struct TypeStatistics {
    /// The sum of the sizes of its blocks, in bytes.
    pub capacity: u64,
    /// How many slots there are, the empty ones included.
    pub slots: usize,
    /// How many blocks are shared.
    pub shared_blocks: usize,
    /// Whether the sum of the blocks' sizes has a bound.
    pub has_budget: bool,
    /// The bound in bytes, else 0.
    pub budget: u64,
    /// How many pieces are live.
    pub pieces: usize,
    /// The bytes that they take, with the padding before them.
    pub piece_bytes: u64,
    /// How many gaps there are.
    pub gaps: usize,
    /// The bytes of the longest gap, 0 where there is none.
    pub longest_gap: u64,
}

/// A bound of the sum of the blocks' sizes of a memory type, or none.
#[repr(C)]
#[derive(Drop)]
pub struct AllocatorBudget {
    /// Whether there is one; else all is 0.
    pub exists: bool,
    /// The bound.
    pub bytes: u64,
}
