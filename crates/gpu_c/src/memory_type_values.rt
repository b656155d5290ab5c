//! What callers hand to memory types, and what they get.

/// What a memory type is made with. Sizes are bytes; those of blocks are brought into 4 MB to 256 MB and rounded up to a multiple of
/// 4 MB. Shared blocks begin with a side's size and double up to its largest.
#[repr(C)]
#[derive(Drop)]
pub struct MemoryTypeSettings {
    /// Whether the host can see the memory: which side's block sizes count.
    pub is_host: bool,
    /// The page size in bytes, a power of two: Vulkan's bufferImageGranularity, elsewhere 1.
    pub granularity: u64,
    /// The size of the first shared block of the device's memory.
    pub device_block_size: u64,
    /// The largest size of such a block.
    pub largest_device_block_size: u64,
    /// The size of the first shared block of memory that the host can see.
    pub host_block_size: u64,
    /// The largest size of such a block.
    pub largest_host_block_size: u64,
    /// Whether the sum of the blocks' sizes has a bound.
    pub has_budget: bool,
    /// The bound in bytes; it counts only where there is one.
    pub budget: u64,
}

/// What is asked of a memory type.
#[repr(C)]
#[derive(Drop)]
pub struct MemoryRequest {
    /// Bytes; not 0.
    pub size: u64,
    /// Bytes; a power of two.
    pub alignment: u64,
    /// `LINEAR` or `NON_LINEAR`.
    pub kind: u32,
    /// Whether the piece shall have a block of its own.
    pub dedicated: bool,
}

/// A piece of a memory type.
#[repr(C)]
#[derive(Drop)]
pub struct MemoryPiece {
    /// The slot of its block.
    pub slot: usize,
    /// Its number in the block, never 0.
    pub number: u64,
    /// Where it begins, in bytes from the block's start.
    pub offset: u64,
    /// Bytes.
    pub size: u64,
    /// The driver's handle of the block.
    pub block: u64,
}

/// What a request results in: a piece, or the block that is needed for it.
#[repr(C)]
#[derive(Drop)]
pub struct MemoryPrepared {
    /// Whether a block is needed; then `piece` is all zeros, and install reports it.
    pub needs_block: bool,
    /// Whether the block that is needed is the piece's own.
    pub dedicated: bool,
    /// The size in bytes of the block that is needed, else 0.
    pub block_size: u64,
    /// The piece, where no block is needed.
    pub piece: MemoryPiece,
}

/// A block, or none.
#[repr(C)]
#[derive(Drop)]
pub struct MemoryBlock {
    /// Whether there is one.
    pub exists: bool,
    /// The driver's handle of it, else 0.
    pub block: u64,
}

/// What is counted of a memory type.
#[repr(C)]
#[derive(Drop)]
pub struct MemoryStatistics {
    /// The sum of the blocks' sizes in bytes.
    pub capacity: u64,
    /// How many slots there are, the empty ones included.
    pub slots: usize,
    /// How many blocks are shared.
    pub shared_blocks: usize,
    /// Whether the sum of the blocks' sizes has a bound.
    pub has_budget: bool,
    /// The bound in bytes, else 0.
    pub budget: u64,
    /// Whether a block is awaited.
    pub awaits_block: bool,
}

/// The size of the block in a slot, and what is counted of it; or that there is none.
#[repr(C)]
#[derive(Drop)]
pub struct MemoryBlockStatistics {
    /// Whether there is a block; else all is 0.
    pub exists: bool,
    /// Whether pieces share it; else it is one piece's own.
    pub shared: bool,
    /// Its size in bytes.
    pub size: u64,
    /// How many of its pieces are live.
    pub pieces: usize,
    /// The bytes that they take, with the padding before them.
    pub piece_bytes: u64,
    /// How many gaps it has.
    pub gaps: usize,
    /// The bytes of its longest gap, 0 where there is none.
    pub longest_gap: u64,
}
