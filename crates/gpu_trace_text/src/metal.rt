//! Traces of Metal: what a line says, how replies print, and how far such a trace has come.

mod command;
mod configuration;
pub mod laws;
mod line;
mod looking;
mod reply;
mod setting;
mod stage;

pub use configuration::Configuration;
pub use line::{Line, Look};
pub use reply::Reply;
pub use setting::Setting;
pub use stage::Stage;
