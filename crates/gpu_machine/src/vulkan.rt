//! The Vulkan allocator as a machine that calls nobody: it asks its caller for memory, and is told the answer.

mod answer;
mod asking;
mod block_count;
mod bound;
mod description;
mod heap_limit;
pub mod laws;
mod machine;
mod refusal;
mod smaller_blocks;
mod told;

pub use answer::{Allocated, LiveBlock, MemoryBack, Progress, Question};
pub use machine::Machine;
