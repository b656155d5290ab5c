//! A DirectX 12 device: what it is asked, and what it promises.

mod device;
mod event;
mod formats;
mod journal;
pub mod laws;
mod types;

pub use device::D3D12Device;
pub use event::{Event, ResourcePlace, ResourceRequest, ResourceShape};
pub use formats::Formats;
pub use journal::Journal;
pub use types::{
    ClearValue, CpuPageProperty, Format, HeapContent, HeapDesc, HeapFlags, HeapProperties,
    HeapType, ID3D12Heap, ID3D12Resource, MemoryPool, ResourceAllocationInfo, ResourceDesc,
    ResourceDesc1, ResourceDimension, ResourceHeapTier,
};
