//! What a DirectX 12 device was asked and was given back.

use crate::d3d12::formats::Formats;
use crate::d3d12::types::{
    ClearValue, HeapDesc, HeapFlags, HeapProperties, ID3D12Heap, ID3D12Resource, ResourceDesc,
    ResourceDesc1,
};
use crate::refusal::Refusal;

/// Where a resource is to lie.
#[derive(Clone, Copy, Debug, PartialEq, Eq)]
pub enum ResourcePlace {
    /// In memory of its own, with these properties and flags.
    Own(HeapProperties, HeapFlags),
    /// In this heap, at this offset in bytes.
    InHeap(ID3D12Heap, u64),
}

/// What a resource is to be, by the call that asks for it.
#[derive(Drop)]
pub enum ResourceShape {
    /// `CreateCommittedResource`, `CreatePlacedResource`: with an initial state, as `D3D12_RESOURCE_STATES` numbers it.
    InState(ResourceDesc, u32),
    /// `CreateCommittedResource3`, `CreatePlacedResource2`: with an initial layout, as `D3D12_BARRIER_LAYOUT` numbers it, and
    /// castable formats where a list of them comes.
    InLayout(ResourceDesc1, u32, Option<Formats>),
}

/// A question for a resource.
#[derive(Drop)]
pub struct ResourceRequest {
    /// Where it is to lie.
    pub place: ResourcePlace,
    /// What it is to be.
    pub shape: ResourceShape,
    /// The value that it is cleared to fastest.
    pub clear_value: Option<ClearValue>,
}

/// A call that asks or gives back, and how a question ended; `Ok(None)` is a null pointer.
#[derive(Drop)]
pub enum Event {
    /// The question of this number, the first being 1, is to be refused so. Only a simulated device has such entries: they are its
    /// script, and come before all questions.
    Scripted(u64, Refusal),
    /// `CreateHeap`, and its answer.
    AskedHeap(HeapDesc, Result<Option<ID3D12Heap>, i32>),
    /// One of the four calls for a resource, and its answer.
    AskedResource(ResourceRequest, Result<Option<ID3D12Resource>, i32>),
    /// `ID3D12Heap::Release`.
    ReleasedHeap(ID3D12Heap),
    /// `ID3D12Resource::Release`.
    ReleasedResource(ID3D12Resource),
}
