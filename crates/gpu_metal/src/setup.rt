//! The memory types of a new allocator.

ghost use Rattle.std.specs.Prelude.{◌≡◌, IfOk, All, [], None};
ghost use Rattle.gpu_core.specs.Budgets.{budgets};
ghost use Rattle.gpu_core.specs.Types.{slots_of, kinds};
ghost use Rattle.gpu_metal.specs.Setup.{kinds_of_device};

use crate::memory_kind::{TYPE_COUNT, is_host, location_at};
use gpu_core::MemoryType;
use gpu_device::metal::MTLHeap;
use std::alloc::{AllocError, Global};

/// The memory types, each without blocks.
pub fn empty_types(alloc: Global) -> Result<Vec<MemoryType<MTLHeap>>, AllocError>
    ensures kinds { IfOk result (λ v. kinds v.items ≡ kinds_of_device) }
    ensures empty { IfOk result (λ v. All (λ slots. slots ≡ []) (slots_of v.items)) }
    ensures unbounded { IfOk result (λ v. All (λ b. b ≡ None) (budgets v.items)) }
{
    let mut types = Vec::with_capacity(alloc, TYPE_COUNT)?;
    for index in 0..TYPE_COUNT {
        types.push_reserved(MemoryType::new(alloc, is_host(location_at(index)), 1));
    }
    Ok(types)
}
