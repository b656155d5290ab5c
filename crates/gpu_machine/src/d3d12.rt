//! The DirectX 12 allocator as a machine that calls nobody: it asks its caller for heaps and committed resources, and is told the
//! answers.

mod answer;
mod machine;

pub use answer::{Allocated, Progress, Question};
pub use gpu_d3d12::{CreateCall, question_for};
pub use machine::Machine;
