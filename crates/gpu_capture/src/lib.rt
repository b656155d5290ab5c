//! Captures: what was asked of an allocator and what its driver refused, as a trace that `gpu_trace` replays.
#![tactic(auto)]

mod answer;
mod budget;
mod calls;
mod capture;
mod device;
mod request;
mod room;
mod words;

pub use answer::Answer;
pub use capture::{Capture, CaptureEnd, Trace};
pub use device::{BlockSizes, VulkanDevice};
pub use request::{Category, D3D12Request, MetalRequest, Request, VulkanRequest};
