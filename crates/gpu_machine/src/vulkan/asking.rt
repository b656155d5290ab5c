//! A request whose question is open, as far as what follows a refusal needs it.

ghost use Rattle.std.specs.Prelude.{◌≡◌, IfOk};
ghost use Rattle.gpu_machine.specs.VulkanAsking.{asking_for};

use crate::vulkan::description::Description;
use crate::vulkan::smaller_blocks::Portion;
use gpu_vulkan::{AllocationCreateDesc, Preference};
use std::alloc::{AllocError, Global};

/// What was asked for, and at which attempt.
#[derive(Drop)]
pub struct Asking {
    /// What was asked for; by flags, of the memory types that are left.
    pub description: Description,
    /// Whether it is a location's second attempt.
    pub is_second: bool,
    /// The flags by which memory types are chosen; `None` where the location chooses.
    pub preference: Option<Preference>,
    /// How large the block is that is awaited, where it is shared.
    pub portion: Portion,
}

/// The same, as far as it is lent: what is kept of it where a block is asked for.
#[derive(Drop)]
pub struct Rest<'a> {
    /// What was asked for; by flags, of the memory types that are left.
    pub desc: &'a AllocationCreateDesc<'a>,
    /// Whether it is a location's second attempt.
    pub is_second: bool,
    /// The flags by which memory types are chosen; `None` where the location chooses.
    pub preference: Option<Preference>,
    /// How large a shared block is asked for.
    pub portion: Portion,
}

impl Asking {
    /// A copy of what is to be kept until a question is answered. Out of line: few requests lead to one.
    #[cold]
    #[inline(never)]
    pub fn of(alloc: Global, rest: &Rest) -> Result<Self, AllocError>
        ensures { IfOk result (λ a. a ≡ asking_for rest.now) }
    {
        Ok(Asking {
            description: Description::of(alloc, rest.desc)?,
            is_second: rest.is_second,
            preference: rest.preference,
            portion: rest.portion,
        })
    }
}
