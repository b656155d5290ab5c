//! What a block of an allocator is known by.

/// The driver's memory, and the address at which it is mapped, 0 where it isn't.
#[derive(Clone, Copy, Debug, PartialEq, Eq)]
pub struct MappedMemory {
    /// The driver's handle of it.
    pub memory: u64,
    /// Where it is mapped, whole.
    pub address: u64,
}
