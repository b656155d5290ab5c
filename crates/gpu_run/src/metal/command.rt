//! What a session is asked for.

use gpu_device::metal::TextureDescriptor;
use gpu_values::MemoryLocation;

/// What a piece is asked for: so many bytes, at a multiple of the alignment.
#[derive(Debug, Drop)]
pub struct Request {
    pub size: u64,
    pub alignment: u64,
    pub location: MemoryLocation,
    pub name: String,
}

/// What only sessions of Metal are asked for. `key` is the caller's own number of an allocation; sizes are bytes.
#[derive(Debug, Drop)]
pub enum Other {
    /// Asks for a buffer's piece: the device tells its size and alignment.
    Buffer {
        key: u64,
        length: u64,
        location: MemoryLocation,
        name: String,
    },
    /// Asks for an acceleration structure's piece: the device tells its size and alignment.
    AccelerationStructure {
        key: u64,
        size: u64,
        location: MemoryLocation,
        name: String,
    },
    /// Asks for a texture's piece: the device tells its size and alignment, and its storage mode where it lies.
    Texture {
        key: u64,
        texture: TextureDescriptor,
        name: String,
    },
    /// Asks for the heaps of the live blocks.
    Heaps,
    /// Commits the residency set, where there is one.
    Commit,
}

/// A command to a session of Metal.
pub type Command = crate::Command<Request, Other>;
