//! Sessions: a Vulkan allocator whose allocations stand under the caller's own numbers, and that serves lists of commands; and the laws
//! of their bytes.

mod command;
pub mod laws;
mod reply;
mod session;

pub use command::{Command, Other, Request};
pub use reply::{Allocated, Reply};
pub use session::Session;
