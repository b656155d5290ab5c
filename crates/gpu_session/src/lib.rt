// Sessions and traces, for users: re-exports what the crates below prove.
#![tactic(auto)]

pub mod block;
pub mod d3d12;
pub mod metal;
pub mod vulkan;

pub use gpu_block_session::run_block_trace;
pub use gpu_run::vulkan::{Allocated, Command, Other, Reply, Request, Session, laws};
pub use gpu_run::{Serve, run};
pub use gpu_trace_text::{
    AnyReply, AnyTrace, BlockStage, Configuration, Outcome, Replayed, Stage, Trace, TraceError,
    replay_trace, run_trace,
};
