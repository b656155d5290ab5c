//! What callers hand to virtual blocks, and what they get of blocks.

/// What is asked of a virtual block.
#[repr(C)]
#[derive(Drop)]
pub struct VirtualRequest {
    /// Bytes; not 0.
    pub size: u64,
    /// Bytes; a power of two.
    pub alignment: u64,
    /// `LINEAR` or `NON_LINEAR`.
    pub kind: u32,
}

/// A piece of a virtual block.
#[repr(C)]
#[derive(Drop)]
pub struct VirtualPiece {
    /// Where it begins, in bytes from the block's start.
    pub offset: u64,
    /// Its number in the block, never 0.
    pub number: u64,
}

/// What is counted of a virtual block.
#[repr(C)]
#[derive(Drop)]
pub struct VirtualStatistics {
    /// The block's size in bytes.
    pub size: u64,
    /// How many pieces are live.
    pub pieces: usize,
    /// The bytes that they take, with the padding before them.
    pub piece_bytes: u64,
    /// How many gaps there are.
    pub gaps: usize,
    /// The bytes of the longest gap, 0 where there is none.
    pub longest_gap: u64,
}

/// A live piece of a block as a visit shows it, or none. Places are in bytes from the block's start.
#[repr(C)]
#[derive(Drop)]
pub struct PieceView {
    /// Whether there is one; else all is 0.
    pub exists: bool,
    /// Its number in the block.
    pub number: u64,
    /// Where its padding begins, or its own bytes where it has none.
    pub start: u64,
    /// Where its own bytes begin.
    pub offset: u64,
    /// Where it ends.
    pub end: u64,
    /// `LINEAR` or `NON_LINEAR`.
    pub kind: u32,
    /// The word that its caller keeps with it, 0 before one is set.
    pub word: u64,
}
