//! What a session of a plan is asked for.

use gpu_plan::Resource;

/// A command to a session of a plan. The page and what a resource measures are bytes; `key` is the caller's own number of a resource.
#[derive(Debug, Drop)]
pub enum Command {
    /// Begins a plan whose resources of different kinds share no page.
    Plan {
        page: u64,
    },
    /// Adds a resource.
    Add {
        key: u64,
        resource: Resource,
        name: String,
    },
    /// Places all resources.
    Solve,
}
