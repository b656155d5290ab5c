//! What callers of GPU memory allocators set and are told: block sizes, settings, kinds of pieces, why a call is refused,
//! and reports of what is allocated.
#![tactic(auto)]

mod allocation_sizes;
mod allocation_type;
mod allocator_debug_settings;
mod bytes;
mod error;
pub mod laws;
mod memory_location;
mod report;

pub use allocation_sizes::AllocationSizes;
pub use allocation_type::AllocationType;
pub use allocator_debug_settings::AllocatorDebugSettings;
pub use bytes::fmt_bytes;
pub use error::{AllocationError, Fault, Result, internal_fault};
pub use memory_location::MemoryLocation;
pub use report::{AllocationReport, AllocatorReport, MemoryBlockReport};
