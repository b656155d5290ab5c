//! What the memory types of an allocator held after one command after another, and a picture of it.

mod columns;
pub mod laws;
mod samples;
mod svg;
mod usage;

pub use samples::{Measure, Sample, Usage};
pub use svg::TimelineSvg;
pub use usage::usage_of;
