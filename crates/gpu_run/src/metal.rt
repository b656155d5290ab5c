//! Sessions: a Metal allocator whose allocations stand under the caller's own numbers, and that serves lists of commands.

mod command;
mod describe;
mod reply;
mod session;

pub use command::{Command, Other, Request};
pub use reply::{Allocated, Reply};
pub use session::Session;
