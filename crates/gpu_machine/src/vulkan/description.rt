//! The description of a request that outlives its call.

ghost use Rattle.std.specs.Prelude.{◌≡◌, ◌<◌, IfOk};
ghost use Rattle.std.specs.Int.{bit_at};
ghost use Rattle.gpu_machine.specs.VulkanDescription.{description_of, without};

use gpu_device::vulkan::{AllocationScheme, MemoryRequirements};
use gpu_values::MemoryLocation;
use gpu_vulkan::{AllocationCreateDesc, without_type};
use std::alloc::{AllocError, Global};
use std::marker::Model;

/// A description with a name of its own.
#[derive(Drop)]
pub struct Description {
    name: String,
    requirements: MemoryRequirements,
    location: MemoryLocation,
    linear: bool,
    scheme: AllocationScheme,
}

impl Model for Description {
    ghost use Rattle.std.specs.Prelude.{string_bytes};
    ghost use Rattle.gpu_machine.specs.VulkanDescription.{Description};

    ghost Value = { Description };

    ghost view = { λ d. record {
      name = string_bytes d.name;
      requirements = d.requirements;
      location = d.location;
      linear = d.linear;
      scheme = d.scheme;
    } };
}

impl Description {
    /// A copy of a description.
    pub fn of(alloc: Global, desc: &AllocationCreateDesc) -> Result<Self, AllocError>
        ensures { IfOk result (λ d. d ≡ description_of desc.now) }
    {
        let name = String::from_str(alloc, desc.name)?;
        Ok(Description {
            name,
            requirements: desc.requirements,
            location: desc.location,
            linear: desc.linear,
            scheme: desc.allocation_scheme,
        })
    }

    /// The description, lent.
    pub fn lend(&self) -> AllocationCreateDesc<'_>
        ensures { description_of result ≡ self.now }
    {
        AllocationCreateDesc {
            name: &self.name,
            requirements: self.requirements,
            location: self.location,
            linear: self.linear,
            allocation_scheme: self.scheme,
        }
    }
}

/// The same request without the memory type at `index`, which is one of its bits.
pub fn without<'a>(desc: &AllocationCreateDesc<'a>, index: usize) -> AllocationCreateDesc<'a>
    requires is_set { bit_at desc.now.requirements.memory_type_bits index ≡ 1 }
    ensures left { description_of result ≡ without index (description_of desc.now) }
    ensures fewer { result.requirements.memory_type_bits
        < desc.now.requirements.memory_type_bits }
{
    AllocationCreateDesc {
        name: desc.name,
        requirements: MemoryRequirements {
            size: desc.requirements.size,
            alignment: desc.requirements.alignment,
            memory_type_bits: without_type(desc.requirements.memory_type_bits, index),
        },
        location: desc.location,
        linear: desc.linear,
        allocation_scheme: desc.allocation_scheme,
    }
}
