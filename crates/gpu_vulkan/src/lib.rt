//! The Vulkan allocator: device memory for buffers and images.
#![tactic(auto)]

mod allocation;
mod allocator;
mod attempt;
mod block;
mod carry;
mod choice;
mod describe;
pub mod laws;
mod logging;
mod moves;
mod preference;
mod rename;
mod setup;
mod slab;
mod source;

pub use allocation::Allocation;
pub use allocator::Allocator;
pub use attempt::next_type;
pub use block::refusal_of_memory;
pub use choice::best_type;
use choice::{first_type, required_flags};
pub use describe::{AllocationCreateDesc, AllocatorCreateDesc, request_of, requests_dedicated};
pub use moves::is_again;
pub use preference::{Preference, cheapest_type, without_type};
pub use setup::{Settings, Setup, told_parts};
use setup::{fault_of, is_mapped, parts_of};
pub use slab::MappedAllocationSlab;
