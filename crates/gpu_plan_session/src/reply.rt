//! What a session of a plan answers.

use gpu_block_session::ErrorNumber;
use gpu_plan::Order;

/// What a session of a plan answers.
#[derive(Drop)]
pub enum Reply {
    /// The plan was begun, or the resource added.
    Done,
    /// The caller's number stands for a resource already.
    Busy,
    /// The resource can't be planned, the plan has no room, or the host refused memory.
    Refused(ErrorNumber),
    /// All resources have places.
    Solved(Solved),
}

/// The places of all resources in the order in which they were added, and their heap. Sizes and offsets are bytes.
#[derive(Drop)]
pub struct Solved {
    /// Where each resource lies.
    pub places: Vec<Place>,
    /// The heap's size.
    pub heap: u64,
    /// The most bytes that are alive in one pass.
    pub peak: u64,
    /// The order in which they were placed.
    pub order: Order,
}

/// Where a resource lies, in bytes.
#[derive(Drop)]
pub struct Place {
    /// The resource's name.
    pub name: String,
    /// Its first byte.
    pub offset: u64,
    /// Its size.
    pub size: u64,
    /// The caller's numbers of those whose bytes it reuses, in the order in which they were added.
    pub reuses: Vec<u64>,
}
