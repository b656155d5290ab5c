//! What a session is asked for, whatever the API.

/// A command to a session. `key` is the caller's own number of an allocation, `R` what an allocation is asked for, and `O` what the
/// sessions of one API alone are asked for. Sizes, places and alignments are bytes.
#[derive(Debug, Drop)]
pub enum Command<R, O> {
    /// Asks for an allocation, and binds the number to it.
    Alloc {
        key: u64,
        request: R,
    },
    /// Asks for a second place of the allocation, by its request again, and binds the number `to` to it.
    Move {
        key: u64,
        to: u64,
        request: R,
    },
    /// Frees the allocation; the number is free again.
    Free {
        key: u64,
    },
    /// Asks for the report of the allocator.
    Report,
    /// Asks for the sum of the sizes of the live blocks.
    Capacity,
    /// Bounds the sum of the sizes of the blocks of a memory type, in bytes, or takes the bound away.
    SetBudget {
        memory_type: u64,
        budget: Option<u64>,
    },
    /// What only this API's sessions are asked for.
    Other(O),
}
