//! Device traces: configuration lines, commands to an allocator over the simulated device, and the replies.

pub mod ask;
pub mod reply;
pub mod setting;
