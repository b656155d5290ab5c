//! Block traces: what a line asks of a block, and how its replies print.

mod command;
pub mod reply;

pub use command::command_of;
