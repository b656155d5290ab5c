//! What is asked of a memory type, and a live piece of it.

use gpu_values::AllocationType;
use std::num::NonZeroU64;

/// What is asked of a memory type. Size and alignment are bytes.
#[derive(Clone, Copy, Debug)]
pub struct Request<'a> {
    /// Not 0.
    pub size: u64,
    /// A power of two.
    pub alignment: u64,
    /// Not `Free`.
    pub kind: AllocationType,
    /// Whether the piece shall have a block of its own.
    pub dedicated: bool,
    /// What reports and leaks show.
    pub name: &'a str,
}

/// A live piece: the slot of its block, its number in the block, its place in bytes, and the device's number of the
/// block.
#[derive(Clone, Copy, Debug, PartialEq, Eq)]
pub struct Piece<H> {
    pub slot: usize,
    pub chunk_id: NonZeroU64,
    pub offset: u64,
    pub size: u64,
    pub handle: H,
}
