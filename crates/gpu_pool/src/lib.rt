//! The blocks of an allocator and the pieces in them, over anything that blocks come from: what is the same for every
//! graphics API.
#![tactic(auto)]

mod allocation;
mod free;
mod handles;
pub mod laws;
pub mod logging;
mod named;
mod pool;
mod requests;
mod source;
mod turn;

pub use allocation::Allocation;
pub use handles::Handles;
pub use pool::Pool;
pub use requests::{Awaited, Begun, Question, Requests};
pub use source::BlockSource;
pub use turn::{answer_awaited, no_answer_awaited};
