//! Sessions: a DirectX 12 allocator whose allocations and resources stand under the caller's own numbers, and that serves lists
//! of commands.

mod command;
mod describe;
mod reply;
mod session;

pub use command::{Command, Memory, Other, Request, WantedResource};
pub use reply::{Allocated, Made, Reply};
pub use session::Session;
