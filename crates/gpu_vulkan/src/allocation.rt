//! A piece of device memory, as its owner holds it.

ghost use Rattle.std.specs.Prelude.{◌≡◌, Some, None, IsTrue, ◌↔◌};

use gpu_core::Piece;
use gpu_device::vulkan::{DeviceMemory, MemoryPropertyFlags};
use std::num::NonZeroU64;

/// A piece of device memory: bytes `offset..offset + size` of `memory`. Bind a buffer or image to it there. Give it
/// back by the allocator's `free`; one that is dropped otherwise stays live until `destroy`. A null allocation,
/// `Allocation::default()`, is no piece.
#[derive(Debug, Drop)]
pub struct Allocation {
    pub(super) chunk_id: Option<NonZeroU64>,
    pub(super) offset: u64,
    pub(super) size: u64,
    pub(super) memory_block_index: usize,
    pub(super) memory_type_index: usize,
    pub(super) device_memory: DeviceMemory,
    pub(super) memory_properties: MemoryPropertyFlags,
    pub(super) mapped: bool,
    pub(super) dedicated: bool,
    pub(super) name: Option<String>,
}

impl Allocation {
    ghost use Rattle.gpu_vulkan.specs.Live.{piece_of};

    /// The number of the piece in its block, or `None` where it is null.
    pub fn chunk_id(&self) -> Option<NonZeroU64>
        ensures { result ≡ self.now.chunk_id }
    {
        self.chunk_id
    }

    /// What its memory is like: the flags of its memory type; no flag where it is null.
    pub fn memory_properties(&self) -> MemoryPropertyFlags
        ensures { result ≡ self.now.memory_properties }
    {
        self.memory_properties
    }

    /// The memory that it lies in; 0 where it is null.
    pub fn memory(&self) -> DeviceMemory
        ensures { result ≡ self.now.device_memory }
    {
        self.device_memory
    }

    /// Whether memory of its own was asked for. A block made for its size alone doesn't count.
    pub fn is_dedicated(&self) -> bool
        ensures { result ≡ self.now.dedicated }
    {
        self.dedicated
    }

    /// Where it begins in its memory, in bytes; a multiple of the alignment that was asked for.
    pub fn offset(&self) -> u64
        ensures { result ≡ self.now.offset }
    {
        self.offset
    }

    /// Its size in bytes, as it was asked for; 0 where it is null.
    pub fn size(&self) -> u64
        ensures { result ≡ self.now.size }
    {
        self.size
    }

    /// Whether it is no piece.
    pub fn is_null(&self) -> bool
        ensures { IsTrue result ↔ (self.now.chunk_id ≡ None) }
    {
        Option::is_none(&self.chunk_id)
    }

    /// The index of its memory type; `usize::MAX` where it is null.
    pub fn memory_type_index(&self) -> usize
        ensures { result ≡ self.now.memory_type_index }
    {
        self.memory_type_index
    }

    /// The slot of its block in its memory type; `usize::MAX` where it is null.
    pub fn memory_block_index(&self) -> usize
        ensures { result ≡ self.now.memory_block_index }
    {
        self.memory_block_index
    }

    /// Whether its memory type is mapped, so that the host can read and write its bytes; false where it is null.
    pub fn is_mapped(&self) -> bool
        ensures { result ≡ self.now.mapped }
    {
        self.mapped
    }

    /// The piece that it stands for, or `None` where it is null.
    pub(super) fn piece(&self) -> Option<Piece<DeviceMemory>>
        ensures { result ≡ piece_of self.now }
    {
        match self.chunk_id {
            None => None,
            Some(chunk_id) => Some(Piece {
                slot: self.memory_block_index,
                chunk_id,
                offset: self.offset,
                size: self.size,
                handle: self.device_memory,
            }),
        }
    }
}

/// The null allocation.
impl Default for Allocation {
    ghost use Rattle.std.specs.Prelude.{◌≡◌};
    ghost use Rattle.gpu_vulkan.specs.Live.{null_allocation};

    ghost is_default = { λ a. a ≡ null_allocation };

    fn default() -> Self {
        Allocation {
            chunk_id: None,
            offset: 0,
            size: 0,
            memory_block_index: usize::MAX,
            memory_type_index: usize::MAX,
            device_memory: DeviceMemory(0),
            memory_properties: MemoryPropertyFlags(0),
            mapped: false,
            dedicated: false,
            name: None,
        }
    }
}
