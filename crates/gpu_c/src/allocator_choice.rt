//! The memory type that a location takes, as C asks for it.

ghost use Rattle.gpu_c.specs.AllocatorChoice.{type_named, TellsType};
ghost use Rattle.gpu_c.specs.declared.status.TheConstants.{OK, INVALID, NO_MEMORY_TYPE};

use crate::mapped_memory::MappedMemory;
use crate::request::location_named;
use crate::status::{INVALID, NO_MEMORY_TYPE, OK};
use gpu_machine::vulkan::Machine;

/// The memory type at which a request with these bits begins at the location of that number. `INVALID` where no location has it,
/// `NO_MEMORY_TYPE` where none of these types has what the location needs.
pub fn best_type(
    machine: &Machine<MappedMemory>,
    memory_type_bits: u32,
    location: u32,
    memory_type: &mut usize,
) -> u32
    ensures { TellsType (type_named machine.now memory_type_bits location) result
        memory_type.old memory_type.new }
{
    let Some(location) = location_named(location) else {
        return INVALID;
    };
    match machine.best_type(memory_type_bits, location) {
        None => NO_MEMORY_TYPE,
        Some(found) => {
            *memory_type = found;
            OK
        }
    }
}
