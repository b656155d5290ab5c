//! What is placed, and where.

ghost use Rattle.std.specs.Prelude.{◌<◌, ◌≤◌, ◌↔◌, IsTrue, All};
ghost use Rattle.gpu_plan.specs.Plan.{IsValid};

/// How a resource lies in memory. Resources of different kinds share no page while both are alive.
#[derive(Clone, Copy, Debug, PartialEq, Eq)]
pub enum Kind {
    /// A buffer, or an image in rows.
    Linear,
    /// An image in an order of its driver's.
    Optimal,
}

/// A resource that passes of a frame use.
#[derive(Clone, Copy, Debug, PartialEq, Eq)]
pub struct Resource {
    /// In bytes, more than 0.
    pub size: u64,
    /// In bytes, more than 0: its offset is a multiple.
    pub alignment: u64,
    /// Linear or optimal.
    pub kind: Kind,
    /// The first pass in which it is alive.
    pub first: u64,
    /// The last pass in which it is alive, not before the first.
    pub last: u64,
}

/// A resource with its place.
#[derive(Clone, Copy, Debug, PartialEq, Eq)]
pub struct Placed {
    /// The resource.
    pub resource: Resource,
    /// Its first byte in the heap.
    pub offset: u64,
}

/// Whether each has a size and an alignment, and a first pass that isn't after its last: what plans ask of resources.
pub fn are_valid(resources: &[Resource]) -> bool
    ensures { IsTrue result ↔ All IsValid resources.now }
{
    resources
        .iter()
        .all(|r| 0 < r.size && 0 < r.alignment && r.first <= r.last)
}
