//! What came of a trace that was read.

/// What came of a trace that was read.
#[derive(Drop)]
pub enum Drawn {
    /// Each line was served, and what is wanted is written.
    Whole,
    /// The line of that number, counted from 1, is the first bad one; nothing is written.
    Bad(u64),
    /// No heap of 64 bits holds the plan's resources; nothing is written.
    TooLarge,
}
