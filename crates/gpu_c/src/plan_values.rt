//! What callers hand to plans, and what they get.

/// A resource that passes of a frame use.
#[repr(C)]
#[derive(Clone, Copy)]
pub struct PlanResource {
    /// Bytes; not 0.
    pub size: u64,
    /// Bytes; a power of two.
    pub alignment: u64,
    /// `LINEAR` or `NON_LINEAR`.
    pub kind: u32,
    /// The first pass in which it is alive.
    pub first_pass: u64,
    /// The last pass in which it is alive, not before the first.
    pub last_pass: u64,
}

/// What memory a resource may lie in.
#[repr(C)]
#[derive(Clone, Copy)]
pub struct PlanNeeds {
    /// Bit N is set where memory type N serves.
    pub memory_type_bits: u32,
    /// Whether nothing else may lie in it.
    pub dedicated: bool,
}

/// Memory to be allocated for a heap.
#[repr(C)]
#[derive(Drop)]
pub struct HeapMemory {
    /// Bytes.
    pub size: u64,
    /// Bytes.
    pub alignment: u64,
    /// `LINEAR` or `NON_LINEAR`.
    pub kind: u32,
}

/// What a plan says beside the offsets.
#[repr(C)]
#[derive(Drop)]
pub struct HeapPlanned {
    /// The heap's size in bytes: the byte behind the last resource, 0 without resources.
    pub heap_size: u64,
    /// The most bytes that are alive in one pass.
    pub peak: u64,
    /// The number of the order in which the resources were placed.
    pub order: u32,
}
