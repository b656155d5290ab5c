//! Sessions over the Vulkan allocator.

pub use gpu_run::vulkan::{Allocated, Command, Other, Reply, Request, Session, laws};
