//! Sessions: one block that is cut into pieces, whose chunk ids are the caller's numbers, and that serves lists of commands.

mod command;
mod reply;
mod session;

pub use command::{Command, Kind, Side};
pub use reply::{Reply, Report};
pub use session::BlockSession;
