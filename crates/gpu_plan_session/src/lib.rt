//! The session of one plan, and its trace: resources are added under the caller's numbers, and placed in one heap by gpu_plan. The run of a
//! trace is gpu_block_session's.
#![tactic(auto)]

mod command;
mod line;
mod place;
mod plan_stage;
mod plan_trace;
mod reply;
mod session;
pub mod text;

pub use command::Command;
pub use line::{Line, read};
pub use plan_stage::PlanStage;
pub use plan_trace::run_plan_trace;
pub use reply::{Place, Reply, Solved};
pub use session::{Listed, PlanSession};
