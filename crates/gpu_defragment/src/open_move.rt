//! A move that is open, and one that is finished.

/// An allocation that moves, at its first place and at its second; its allocator's `propose_move` gives the second. Both are live.
#[derive(Drop)]
pub struct Move<A> {
    pub from: A,
    pub to: A,
}

/// A move that is finished.
#[derive(Drop)]
pub struct Finished<A> {
    /// The allocation at its second place.
    pub allocation: A,
    /// The size of the block that went back with the first place, in bytes; 0 where it stays.
    pub freed: u64,
}
