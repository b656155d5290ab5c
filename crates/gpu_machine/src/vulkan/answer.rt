//! What the calls of Vulkan's machine answer.

use gpu_core::Piece;

/// A piece, and the memory type that it is of.
#[derive(Clone, Copy, Debug)]
pub struct Allocated<H> {
    /// The memory type.
    pub memory_type: usize,
    /// The piece.
    pub piece: Piece<H>,
    /// Whether its block is mapped, as the caller was asked to do.
    pub mapped: bool,
}

/// What the driver is to be asked for: memory, for what the request says that it is for.
#[derive(Clone, Copy, Debug)]
pub struct Question {
    /// The block: its memory type, its size in bytes, and whether it is one piece's own.
    pub block: gpu_pool::Question,
    /// Whether it is to be mapped, whole.
    pub mapped: bool,
}

/// What a request that isn't refused leads to.
#[derive(Clone, Copy, Debug)]
pub enum Progress<H> {
    /// A piece is allocated.
    Piece(Allocated<H>),
    /// A new block is needed: ask the driver, and then call `granted`, `refused` or `mapping_refused`.
    Question(Question),
}

/// A live block.
#[derive(Clone, Copy, Debug)]
pub struct LiveBlock<H> {
    /// Its memory, as `granted` was told it.
    pub handle: H,
    /// Whether it is mapped.
    pub mapped: bool,
    /// Its size in bytes.
    pub size: u64,
    /// Whether pieces share it; else it is one piece's own.
    pub shared: bool,
}

/// Memory that goes back to the driver.
#[derive(Clone, Copy, Debug)]
pub struct MemoryBack<H> {
    /// The memory, as `granted` was told it.
    pub handle: H,
    /// Whether it is mapped: then it is unmapped first.
    pub mapped: bool,
}
