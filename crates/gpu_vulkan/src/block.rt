//! Asking the device for the memory of a block, and giving it back.

ghost use Rattle.std.specs.Prelude.{◌≡◌, ℕ, ℤ, true, List, ◌∷◌, length, Option, None, Ok, IfErr, OnErr, OnOk};
ghost use Rattle.std.specs.FinMap.{remove};
ghost use Rattle.std.specs.Option.{is_some};
ghost use Rattle.gpu_values.specs.Refusal.{refusal_of};
ghost use Rattle.gpu_device.specs.Held.{IsUnmapped, size_of, bytes_of, mapped_with, raised};
ghost use Rattle.gpu_device.specs.declared.vulkan.event.Event.TheVariants.{AskedMapping, Freed};
ghost use Rattle.gpu_vulkan.specs.BlockAnswer.{BlockAnswer, Asks, IsResultOf, memory_refusal, map_refusal, mapping_answer, free_recorded};

use gpu_device::vulkan::{DeviceMemory, MemoryAllocateInfo, VulkanDevice};
use gpu_values::{AllocationError, Fault, Result};

/// Vulkan's code where the device is out of memory (`VK_ERROR_OUT_OF_DEVICE_MEMORY`).
const OUT_OF_DEVICE_MEMORY: i32 = -2;

/// Why memory was refused.
pub fn refusal_of_memory(code: i32) -> AllocationError
    ensures { refusal_of result ≡ memory_refusal code }
{
    if code == OUT_OF_DEVICE_MEMORY {
        return AllocationError::OutOfMemory;
    }
    AllocationError::Internal(Fault {
        text: "Unexpected error in vkAllocateMemory",
        code: Some(i64::from(code)),
    })
}

/// Frees memory. Mapped memory is unmapped before.
fn free_unmapped<D: VulkanDevice>(device: &mut D, memory: DeviceMemory)
    requires { bytes_of (D.held device.old) memory.0 ≡ None }
    ensures gives_back { D.held device.new ≡ remove (D.held device.old) memory.0 }
    ensures counts_nothing { D.refused device.new ≡ D.refused device.old }
    ensures names_no_question { D.latest device.new ≡ D.latest device.old }
    ensures recorded { D.history device.new ≡ Freed memory ∷ D.history device.old }
    ensures constant { D.properties device.new ≡ D.properties device.old }
{
    device.free_memory(memory);
}

#[tactic(auto, using(gpu_device::proofs::Changes::changes))]
/// Maps memory that is new. Where that is refused or gives null, the memory goes back.
fn map_new<D: VulkanDevice>(device: &mut D, memory: DeviceMemory) -> Result<()>
    requires { IsUnmapped (D.held device.old) memory.0 }
    ensures maps { OnOk result ((xs : List ℕ) × (length xs ≡ size_of (D.held device.old) memory.0)
        × (D.held device.new ≡ mapped_with (D.held device.old) memory.0 xs)) }
    ensures counts_no_grant { OnOk result (D.refused device.new ≡ D.refused device.old) }
    ensures recorded { OnOk result (D.history device.new
        ≡ AskedMapping memory (Ok true) ∷ D.history device.old) }
    ensures cause { IfErr result (λ e. (code : Option ℤ) × (refusal_of e ≡ map_refusal code)
        × (D.history device.new ≡ Freed memory ∷ AskedMapping memory (mapping_answer code)
        ∷ D.history device.old)) }
    ensures gives_back { OnErr result (D.held device.new ≡ remove (D.held device.old) memory.0) }
    ensures counts_refusal { OnErr result (D.refused device.new ≡ raised (D.refused device.old)) }
    ensures names_no_question { D.latest device.new ≡ D.latest device.old }
    ensures constant { D.properties device.new ≡ D.properties device.old }
{
    match device.map_memory(memory) {
        Ok(true) => Ok(()),
        Ok(false) => {
            free_unmapped(device, memory);
            Err(AllocationError::FailedToMap(Fault {
                text: "Returned mapped pointer is null",
                code: None,
            }))
        }
        Err(code) => {
            free_unmapped(device, memory);
            Err(AllocationError::FailedToMap(Fault {
                text: "vkMapMemory failed",
                code: Some(i64::from(code)),
            }))
        }
    }
}

#[tactic(auto, using(gpu_device::proofs::Changes::changes))]
/// Allocates the memory of a block, and maps it whole where it is to be `mapped`.
pub fn allocate_block_memory<D: VulkanDevice>(
    device: &mut D,
    info: &MemoryAllocateInfo,
    mapped: bool,
) -> Result<DeviceMemory>
    ensures { (answer : BlockAnswer) × Asks D.VulkanDevice device.old info.now mapped answer
        device.new × IsResultOf result answer }
{
    match device.allocate_memory(info) {
        Err(code) => Err(refusal_of_memory(code)),
        Ok(memory) => {
            if !mapped {
                return Ok(memory);
            }
            match map_new(device, memory) {
                Ok(()) => Ok(memory),
                Err(error) => Err(error),
            }
        }
    }
}

#[tactic(auto, using(gpu_device::proofs::Changes::changes))]
/// Frees the memory of a block. Whether it is mapped, the device knows.
pub fn free_block_memory<D: VulkanDevice>(device: &mut D, memory: DeviceMemory)
    ensures gives_back { D.held device.new ≡ remove (D.held device.old) memory.0 }
    ensures counts_nothing { D.refused device.new ≡ D.refused device.old }
    ensures names_no_question { D.latest device.new ≡ D.latest device.old }
    ensures recorded { D.history device.new
        ≡ free_recorded (is_some (bytes_of (D.held device.old) memory.0)) memory
        (D.history device.old) }
    ensures constant { D.properties device.new ≡ D.properties device.old }
{
    if device.bytes(memory, 0, 0).is_some() {
        device.unmap_memory(memory);
    }
    free_unmapped(device, memory);
}
