//! Sessions of one block.

pub use gpu_run::block::{BlockSession as Session, Command, Kind, Reply, Report, Side};
