//! The memory that a heap lies in.

ghost use Rattle.std.specs.Prelude.{◌<◌, ◌↔◌, MatchOption, IsTrue};
ghost use Rattle.gpu_plan.specs.Memory.{AreAll, IsGreatest, IsMemoryFor, NoWholePages};

use crate::place::round_up;
use crate::resource::{Kind, Resource};

/// Memory to be allocated.
#[derive(Clone, Copy, Debug, PartialEq, Eq)]
pub struct Memory {
    /// In bytes.
    pub size: u64,
    /// In bytes.
    pub alignment: u64,
    /// Its allocator puts pieces of the other kind on no page of it.
    pub kind: Kind,
}

/// Whether each resource is of that kind.
fn are_all(resources: &[Resource], kind: Kind) -> bool
    ensures { IsTrue result ↔ AreAll kind resources.now }
{
    resources.iter().all(|r| r.kind == kind)
}

/// The greatest of the resources' alignments and this one.
fn greatest_alignment(resources: &[Resource], least: u64) -> u64
    ensures { IsGreatest least resources.now result }
{
    let mut greatest = least;
    for r in resources {
        if greatest < r.alignment {
            greatest = r.alignment;
        }
    }
    greatest
}

/// The memory for a heap (its size in bytes) in which these resources lie. Where all are of one kind, so is the memory; where they are of
/// both, it begins with a page and takes whole ones (bytes), so that nothing else lies on them. `None` where whole pages pass 64 bits.
pub fn memory_for(resources: &[Resource], heap: u64, page: u64) -> Option<Memory>
    requires { 0 < page }
    ensures { MatchOption result (NoWholePages page resources.now heap)
        (λ m. IsMemoryFor page resources.now heap m) }
{
    let is_linear = are_all(resources, Kind::Linear);
    if is_linear || are_all(resources, Kind::Optimal) {
        return Some(Memory {
            size: heap,
            alignment: greatest_alignment(resources, 1),
            kind: if is_linear {
                Kind::Linear
            } else {
                Kind::Optimal
            },
        });
    }
    match round_up(heap, page) {
        None => None,
        Some(size) => Some(Memory {
            size,
            alignment: greatest_alignment(resources, page),
            kind: Kind::Optimal,
        }),
    }
}
