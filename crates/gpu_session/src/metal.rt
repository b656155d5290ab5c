//! Sessions over the Metal allocator.

pub use gpu_run::metal::{Allocated, Command, Other, Reply, Request, Session};
