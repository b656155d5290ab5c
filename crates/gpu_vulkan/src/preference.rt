//! Which memory type serves a preference.

ghost use Rattle.std.specs.Prelude.{◌≡◌, ◌≤◌, ◌<◌, ◌-◌, ◌^◌, length, IfSome};
ghost use Rattle.std.specs.Int.{bit_at};
ghost use Rattle.gpu_vulkan.specs.Preference.{cost, IsCheapest};

use crate::choice::serves;
use gpu_device::vulkan::{MemoryPropertyFlags, MemoryTypeInfo};

/// Which memory a request takes, by properties of memory types in place of a location. Those that have all required ones serve, and the
/// cheapest is tried first: the one with the least preferred ones missing and avoided ones there, of equal ones the first.
#[derive(Clone, Copy, Debug)]
pub struct Preference {
    /// What its memory must have.
    pub required: MemoryPropertyFlags,
    /// What it would best have.
    pub preferred: MemoryPropertyFlags,
    /// What it would best not have.
    pub avoided: MemoryPropertyFlags,
    /// Whether only blocks that are there are looked at, and no new one is asked for.
    pub never_allocate: bool,
}

impl Preference {
    // How many preferred properties a memory type lacks, and how many avoided ones it has.
    fn cost(&self, info: &MemoryTypeInfo) -> u32
        ensures costs { result ≡ cost self.now info.now }
        ensures most { result ≤ 64 }
    {
        let flags = info.property_flags.0;
        let missing = self.preferred.0 & !flags;
        let unwanted = self.avoided.0 & flags;
        missing.count_ones() + unwanted.count_ones()
    }
}

/// The cheapest memory type of those whose bit is set and that have all that is required, of equal ones the first; `None` where there
/// is none.
pub fn cheapest_type(types: &[MemoryTypeInfo], bits: u32, preference: &Preference) -> Option<usize>
    ensures cheapest { IsCheapest types.now bits preference.now result }
    ensures there { IfSome result (λ index. index < length types.now) }
    ensures is_set { IfSome result (λ index. bit_at bits index ≡ 1) }
{
    let mut cheapest = None;
    let mut least = u32::MAX;
    let mut index = 0;
    for info in types {
        let cost = preference.cost(info);
        if serves(info, index, bits, preference.required) && cost < least {
            cheapest = Some(index);
            least = cost;
        }
        index += 1;
    }
    cheapest
}

/// The bits of memory types without the one at `index`.
pub fn without_type(bits: u32, index: usize) -> u32
    requires is_set { bit_at bits index ≡ 1 }
    ensures { result ≡ bits - 2 ^ index }
{
    bits - (1 << index)
}
