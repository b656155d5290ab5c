//! The session of one block, and its trace; and what sessions and traces of every sort share: sessions that serve one command after
//! another, the numbers of errors, the words of a line, what a line did, and the run from the bytes in to the bytes out. The sessions and
//! traces of the allocators stand in gpu_run and gpu_trace_text.
#![tactic(auto)]

pub mod block;
mod block_stage;
mod block_trace;
mod error_number;
mod line;
mod outcome;
mod replay;
mod serve;
pub mod text;
mod trace;
mod trace_run;
pub mod words;

pub use block_stage::BlockStage;
pub use block_trace::run_block_trace;
pub use error_number::{ErrorNumber, number_of};
pub use line::{Line, ascii, read};
pub use outcome::Outcome;
pub use replay::{Replayed, replay_from};
pub use serve::{Serve, run};
pub use trace::Trace;
pub use trace_run::{LIMIT, TraceError, lines_in, read_trace, run_from};
