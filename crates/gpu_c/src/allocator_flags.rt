//! Requests by flags at an allocator of Vulkan's memory: tests what C passes, and says in C's words what the machine answers.

ghost use Rattle.std.specs.Prelude.{◌≡◌, ◌≢◌, ◌↔◌, [], ◌∷◌, None, IsSome};
ghost use Rattle.gpu_c.specs.Status as status;
ghost use Rattle.gpu_c.specs.Status.{IsOneOf};
ghost use Rattle.gpu_c.specs.Allocator.{SaysNothing};
ghost use Rattle.gpu_c.specs.AllocatorFlags.{preference_said, IsBegunByFlags, IsDeniedByFlags};
ghost use Rattle.gpu_c.specs.declared.status.TheConstants.{OK, OUT_OF_MEMORY, NO_MEMORY_TYPE, INVALID, HOST_OUT_OF_MEMORY, BUDGET_EXCEEDED, AWAITS_ANSWER};

use crate::allocator_answer::progress_told;
use crate::allocator_request::described;
use crate::allocator_values::{AllocatorPreference, AllocatorProgress, AllocatorRequest};
use crate::mapped_memory::MappedMemory;
use crate::refusal::refusal_status;
use crate::status::{AWAITS_ANSWER, INVALID, OK};
use gpu_device::vulkan::MemoryPropertyFlags;
use gpu_machine::vulkan::Machine;
use gpu_vulkan::Preference;

/// The flags that C says.
fn preference_of(said: &AllocatorPreference) -> Preference
    ensures { result ≡ preference_said said.now }
{
    Preference {
        required: MemoryPropertyFlags(said.required),
        preferred: MemoryPropertyFlags(said.preferred),
        avoided: MemoryPropertyFlags(said.avoided),
        never_allocate: said.never_allocate,
    }
}

/// Begins a request by flags: it leads to a piece or to a question.
#[inline(always)]
pub fn begin_by_flags(
    machine: &mut Machine<MappedMemory>,
    request: &AllocatorRequest,
    name: &[u8],
    preference: &AllocatorPreference,
    progress: &mut AllocatorProgress,
) -> u32
    ensures begun { result ≡ status.ok → IsBegunByFlags machine.old request.now name.now
        preference.now progress.new machine.new }
    ensures awaits_answer { (result ≡ status.awaits_answer) ↔ IsSome machine.old.requests.awaited }
    ensures invalid { (result ≡ status.invalid)
        ↔ (machine.old.requests.awaited ≡ None) × SaysNothing request.now name.now }
    ensures denied { result ≢ status.ok → result ≢ status.awaits_answer → result ≢ status.invalid
        → IsDeniedByFlags machine.old request.now name.now preference.now result }
    ensures statuses { IsOneOf result (status.ok ∷ status.awaits_answer ∷ status.invalid
        ∷ status.no_memory_type ∷ status.out_of_memory ∷ status.host_out_of_memory
        ∷ status.budget_exceeded ∷ []) }
    ensures refused { result ≢ status.ok
        → (machine.new ≡ machine.old) × (progress.new ≡ progress.old) }
{
    if machine.awaits_answer() {
        return AWAITS_ANSWER;
    }
    match described(request, name) {
        None => INVALID,
        Some(desc) => match machine.begin_by_flags(&desc, &preference_of(preference)) {
            Err(error) => refusal_status(&error),
            Ok(begun) => {
                *progress = progress_told(&begun);
                OK
            }
        },
    }
}
