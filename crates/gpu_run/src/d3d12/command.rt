//! What a session is asked for.

use gpu_d3d12::{ResourceCategory, ResourceStateOrBarrierLayout};
use gpu_device::d3d12::{ClearValue, Format, HeapFlags, HeapProperties, ResourceDesc};
use gpu_values::MemoryLocation;

/// Where the memory of a resource comes from.
#[derive(Clone, Copy, Debug, PartialEq, Eq)]
pub enum Memory {
    /// The device makes memory of the resource's own, with these properties and flags.
    Own(HeapProperties, HeapFlags),
    /// The resource is placed in a piece of the allocator's.
    Placed,
}

/// What a resource is asked for.
#[derive(Drop)]
pub struct WantedResource {
    /// The name of the piece of a placed one; a committed one's shows nowhere.
    pub name: String,
    /// Who reads and writes it.
    pub location: MemoryLocation,
    /// Of which category it is.
    pub category: ResourceCategory,
    /// What it is.
    pub desc: ResourceDesc,
    /// The formats that views of it may have besides its own.
    pub castable_formats: Vec<Format>,
    /// The value that it is cleared to fastest.
    pub clear_value: Option<ClearValue>,
    /// How it begins.
    pub initial: ResourceStateOrBarrierLayout,
    /// Where its memory comes from.
    pub memory: Memory,
}

/// What a piece is asked for: so many bytes, at a multiple of the alignment.
#[derive(Drop)]
pub struct Request {
    pub size: u64,
    pub alignment: u64,
    pub location: MemoryLocation,
    pub category: ResourceCategory,
    pub name: String,
}

/// What only sessions of DirectX 12 are asked for. `key` is the caller's own number of an allocation, of a resource in `Create` and
/// `Release`: one number may stand for one of both.
#[derive(Drop)]
pub enum Other {
    /// Renames the allocation.
    Rename { key: u64, name: String },
    /// Asks for a resource, and binds the number to it.
    Create { key: u64, wanted: WantedResource },
    /// Gives the resource back, and its piece with it; the number is free again.
    Release { key: u64 },
    /// Asks for the texts of all live pieces.
    Leaks,
    /// Asks how many committed resources of a memory type there are, and for their sizes' sum.
    Committed { memory_type: u64 },
}

/// A command to a session of DirectX 12.
pub type Command = crate::Command<Request, Other>;
