//! Which resources lie where others lay: what aliasing barriers are needed for.

ghost use Rattle.std.specs.Prelude.{◌≡◌, ℕ, ◌<◌, ◌↔◌, IfOk, IsTrue, length};
ghost use Rattle.gpu_plan.specs.Plan.{ShareByte};
ghost use Rattle.gpu_plan.specs.Reuse.{AreReused};

use crate::best::HeapPlan;
use crate::resource::{Placed, Resource};
use std::alloc::{AllocError, Global};

// Whether the earlier one's life is over, and the later one has some of its bytes.
fn is_reused(earlier: &Placed, later: &Placed) -> bool
    ensures { IsTrue result ↔ ((earlier.now.resource.last < later.now.resource.first)
        × ShareByte earlier.now.offset earlier.now.resource.size later.now.offset later.now.resource.size) }
{
    let (o, p) = (earlier.offset, later.offset);
    earlier.resource.last < later.resource.first
        && (o < p || o - p < later.resource.size)
        && (p < o || p - o < earlier.resource.size)
}

/// The resources whose life ended before this one's begins, and some of whose bytes it has at these offsets: exactly these, the indices
/// ascending. An aliasing barrier goes between each of them and this one.
pub fn reused_by(
    alloc: Global,
    resources: &[Resource],
    offsets: &[u64],
    index: usize,
) -> Result<Vec<usize>, AllocError>
    requires each { length offsets.now ≡ length resources.now }
    requires index { index < length resources.now }
    ensures { IfOk result (λ found. AreReused resources.now offsets.now index found.items) }
{
    let later = Placed {
        resource: resources[index],
        offset: offsets[index],
    };
    let mut found = Vec::new(alloc);
    for i in 0..resources.len() {
        let earlier = Placed {
            resource: resources[i],
            offset: offsets[i],
        };
        if is_reused(&earlier, &later) {
            found.push(i)?;
        }
    }
    Ok(found)
}

/// The same at the offsets of a plan.
pub fn reuses(
    alloc: Global,
    resources: &[Resource],
    plan: &HeapPlan,
    index: usize,
) -> Result<Vec<usize>, AllocError>
    requires each { length plan.now.offsets.items ≡ length resources.now }
    requires index { index < length resources.now }
    ensures { IfOk result (λ found.
        AreReused resources.now plan.now.offsets.items index found.items) }
{
    reused_by(alloc, resources, &plan.offsets, index)
}
