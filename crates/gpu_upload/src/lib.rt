//! Uploads through a ring in one mapped allocation: what a frame in flight reads stays what was written.
#![tactic(auto)]

mod memory;
mod upload_ring;

pub use upload_ring::UploadRing;
