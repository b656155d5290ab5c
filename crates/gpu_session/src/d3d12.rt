//! Sessions over the DirectX 12 allocator.

pub use gpu_run::d3d12::{
    Allocated, Command, Made, Memory, Other, Reply, Request, Session, WantedResource,
};
