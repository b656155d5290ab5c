//! What a Metal device was asked and was given back.

use crate::metal::types::{HeapDescriptor, MTLHeap, MTLResidencySet};
use crate::refusal::Refusal;

/// A call that asks, gives back or changes a set, and how a question ended.
#[derive(Clone, Copy, Debug, PartialEq, Eq)]
pub enum Event {
    /// The question of this number, the first being 1, is to be refused so. Only a simulated device has such entries: they are its
    /// script, and come before all questions.
    Scripted(u64, Refusal),
    /// Each question for a residency set is to be refused. Only a simulated device has such an entry, beside its script.
    WithoutSets,
    /// `makeHeap`: its description, its size in bytes, and its answer.
    AskedHeap(HeapDescriptor, u64, Option<MTLHeap>),
    /// `makeResidencySet`, and its answer.
    AskedSet(Result<MTLResidencySet, i32>),
    /// A heap's `release`.
    ReleasedHeap(MTLHeap),
    /// `addAllocation`.
    Added(MTLResidencySet, MTLHeap),
    /// `removeAllocation`.
    Removed(MTLResidencySet, MTLHeap),
    /// `commit`.
    Committed(MTLResidencySet),
}
