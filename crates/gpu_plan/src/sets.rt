//! Which resources share an allocation.

ghost use Rattle.std.specs.Prelude.{◌≡◌, [], length, IfOk};
ghost use Rattle.gpu_plan.specs.Sets.{may_join, narrowed, set_for, joined, sets_of};

use std::alloc::{AllocError, Global};

/// What memory a resource may lie in, or all resources of a set.
#[derive(Clone, Copy, Debug, PartialEq, Eq)]
pub struct MemoryNeeds {
    /// Bit N is set where memory type N serves.
    pub memory_type_bits: u32,
    /// Whether nothing else may lie in it.
    pub dedicated: bool,
}

/// Whether the resource may join the set.
fn may_join(r: &MemoryNeeds, set: &MemoryNeeds) -> bool
    ensures { result ≡ may_join r.now set.now }
{
    !r.dedicated && !set.dedicated && r.memory_type_bits & set.memory_type_bits != 0
}

/// The set that the resource joins; past the last one where it begins a set.
fn set_for(r: &MemoryNeeds, sets: &[MemoryNeeds]) -> usize
    ensures { result ≡ set_for r.now sets.now }
{
    for (index, set) in sets.iter().enumerate() {
        if may_join(r, set) {
            return index;
        }
    }
    sets.len()
}

/// Lets the resource join a set, and returns which.
fn join(r: &MemoryNeeds, sets: &mut Vec<MemoryNeeds>) -> Result<usize, AllocError>
    ensures set { IfOk result (λ set. set ≡ set_for r.now sets.old.items) }
    ensures sets { IfOk result (λ set. sets.new.items ≡ joined r.now sets.old.items) }
{
    let set = set_for(r, sets);
    if set == sets.len() {
        sets.push(*r)?;
    } else {
        sets[set].memory_type_bits &= r.memory_type_bits;
    }
    Ok(set)
}

/// The set of each resource, by its index. In their order each one joins the first set, none of them and itself dedicated, with which it has a
/// memory type in common; where there is none, it begins one. Sets are numbered as they begin. The host may refuse memory.
pub fn sets_of(alloc: Global, resources: &[MemoryNeeds]) -> Result<Vec<usize>, AllocError>
    ensures sets { IfOk result (λ v. v.items ≡ sets_of [] resources.now) }
    ensures each { IfOk result (λ v. length v.items ≡ length resources.now) }
{
    let mut sets = Vec::new(alloc);
    let mut found = Vec::with_capacity(alloc, resources.len())?;
    for r in resources {
        let set = join(r, &mut sets)?;
        found.push(set)?;
    }
    Ok(found)
}
