//! Traces of every sort: what a line says, which line may follow, how replies print, and their run. Block traces, and what all sorts
//! share, stand in gpu_block_session.
#![tactic(auto)]

mod any;
mod block_or_device;
mod command;
mod configuration;
pub mod d3d12;
pub mod device;
mod dialect;
mod hex;
pub mod laws;
mod line;
pub mod metal;
mod reply;
mod spelled;
mod stage;

pub use any::{AnyReply, AnyTrace, replay_trace, run_trace};
pub use configuration::Configuration;
pub use dialect::read;
pub use gpu_block_session::{
    BlockStage, Outcome, Replayed, Trace, TraceError, replay_from, run_from,
};
pub use line::Line;
pub use reply::Reply;
pub use spelled::Spelled;
pub use stage::Stage;
