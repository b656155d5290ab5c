//! Refusals of a simulated Vulkan device: how it gives those that its script names, and its own.

ghost use Rattle.std.specs.Prelude.{◌≡◌};
ghost use Rattle.gpu_sim.specs.Plan.{code_for_memory, answer_for_mapping};

use gpu_sim_base::Refusal;

/// The host refused memory, or no number is left (`VK_ERROR_OUT_OF_HOST_MEMORY`).
pub(crate) const OUT_OF_HOST_MEMORY: i32 = -1;

/// The device has no such memory left (`VK_ERROR_OUT_OF_DEVICE_MEMORY`).
pub(crate) const OUT_OF_DEVICE_MEMORY: i32 = -2;

/// The host can't see so many bytes (`VK_ERROR_MEMORY_MAP_FAILED`).
pub(crate) const MAPPING_FAILED: i32 = -5;

/// The code with which script or limit refuse a question for memory.
pub(crate) fn code_for_memory(refusal: Option<Refusal>, size: u64, limit: u64) -> Option<i32>
    ensures { result ≡ code_for_memory refusal size limit }
{
    match refusal {
        Some(Refusal::Code(code)) => Some(code),
        Some(Refusal::Null) => Some(OUT_OF_DEVICE_MEMORY),
        None if size > limit => Some(OUT_OF_DEVICE_MEMORY),
        None => None,
    }
}

/// The answer with which script or size refuse a question for a mapping.
pub(crate) fn answer_for_mapping(refusal: Option<Refusal>, size: u64) -> Option<Result<bool, i32>>
    ensures { result ≡ answer_for_mapping refusal size }
{
    match refusal {
        Some(Refusal::Code(code)) => Some(Err(code)),
        Some(Refusal::Null) => Some(Ok(false)),
        None if size > isize::MAX as u64 => Some(Err(MAPPING_FAILED)),
        None => None,
    }
}
