//! Plan traces: what a line asks of a plan, and how its replies print.

mod command;
pub mod reply;

pub use command::command_of;
