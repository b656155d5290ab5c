//! A Metal device: what it is asked, and what it promises.

mod device;
mod event;
mod journal;
pub mod laws;
mod types;

pub use device::MetalDevice;
pub use event::Event;
pub use journal::Journal;
pub use types::{
    CpuCacheMode, HeapDescriptor, MTLHeap, MTLResidencySet, SizeAndAlign, StorageMode,
    TextureDescriptor,
};
