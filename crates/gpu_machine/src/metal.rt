//! The Metal allocator as a machine that calls nobody: it asks its caller for heaps, and is told the answer.

mod answer;
mod machine;

pub use answer::{Allocated, Granted, HeapBack, Progress, Question};
pub use machine::Machine;
