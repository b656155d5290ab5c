//! What lies behind a handle of an allocator: the machine of gpu_machine. Each call tests what C passes, and says in C's words what the
//! machine answers.

ghost use Rattle.std.specs.Prelude.{◌≡◌, ◌≢◌, ◌≤◌, ◌↔◌, [], ◌∷◌, length, IfSome, Some, None, IsSome, IsTrue, IsUtf8, Ok};
ghost use Rattle.gpu_vulkan.specs.BlockAnswer.{memory_refusal, map_refusal};
ghost use Rattle.gpu_pool.specs.Idle.{SetsBudgetIdle};
ghost use Rattle.gpu_machine.specs.VulkanState.{told_fault};
ghost use Rattle.gpu_c.specs.Status as status;
ghost use Rattle.gpu_c.specs.Status.{IsOneOf};
ghost use Rattle.gpu_c.specs.MemoryType.{number_if};
ghost use Rattle.gpu_c.specs.Allocator.{device_told, IsFresh, SaysNothing, IsBegun, IsDenied, IsGranted, IsDeclined, code_if, IsLive, IsFreed, IsRenamed, IsWorded};
ghost use Rattle.gpu_c.specs.declared.status.TheConstants.{OK, OUT_OF_MEMORY, FAILED_TO_MAP, NO_MEMORY_TYPE, INVALID, INVALID_DEVICE, NOT_LIVE, HOST_OUT_OF_MEMORY, BUDGET_EXCEEDED, DRIVER_REFUSED, NO_SUCH_TYPE, AWAITS_ANSWER, AWAITS_NO_ANSWER};

use crate::allocator_answer::{
    allocated_told, code_if, memory_told, named_piece, outcome_told, progress_told,
};
use crate::allocator_request::{described, heaps_of, memory_types_of, settings_of};
use crate::allocator_values::{
    AllocatorMemory, AllocatorPiece, AllocatorProgress, AllocatorRequest, AllocatorSettings,
    DeviceHeap, DeviceMemoryType,
};
use crate::mapped_memory::MappedMemory;
use crate::memory_type::number_if;
use crate::refusal::refusal_status;
use crate::status::{
    AWAITS_ANSWER, AWAITS_NO_ANSWER, HOST_OUT_OF_MEMORY, INVALID, NO_SUCH_TYPE, NOT_LIVE, OK,
};
use gpu_machine::vulkan::Machine;
use std::alloc::Global;

/// A machine over a device that is told; `None` where the host refuses memory.
pub fn fresh(
    alloc: Global,
    types: &[DeviceMemoryType],
    heaps: &[DeviceHeap],
    settings: &AllocatorSettings,
) -> Option<Machine<MappedMemory>>
    requires { told_fault (device_told types.now heaps.now settings.now) ≡ None }
    ensures { IfSome result (IsFresh types.now heaps.now settings.now) }
{
    let Ok(told_types) = memory_types_of(alloc, types) else {
        return None;
    };
    let Ok(told_heaps) = heaps_of(alloc, heaps) else {
        return None;
    };
    match Machine::new(
        alloc,
        told_types,
        told_heaps,
        settings.granularity,
        settings_of(settings),
    ) {
        Err(_) => None,
        Ok(machine) => Some(machine),
    }
}

/// Begins a request: it leads to a piece or to a question.
#[inline(always)]
pub fn begin(
    machine: &mut Machine<MappedMemory>,
    request: &AllocatorRequest,
    name: &[u8],
    progress: &mut AllocatorProgress,
) -> u32
    ensures begun { result ≡ status.ok → IsBegun machine.old request.now name.now progress.new
        machine.new }
    ensures awaits_answer { (result ≡ status.awaits_answer) ↔ IsSome machine.old.requests.awaited }
    ensures invalid { (result ≡ status.invalid)
        ↔ (machine.old.requests.awaited ≡ None) × SaysNothing request.now name.now }
    ensures denied { result ≢ status.ok → result ≢ status.awaits_answer → result ≢ status.invalid
        → IsDenied machine.old request.now name.now result }
    ensures statuses { IsOneOf result (status.ok ∷ status.awaits_answer ∷ status.invalid
        ∷ status.no_memory_type ∷ status.out_of_memory ∷ status.host_out_of_memory
        ∷ status.budget_exceeded ∷ []) }
    ensures refused { result ≢ status.ok
        → (machine.new ≡ machine.old) × (progress.new ≡ progress.old) }
{
    if machine.awaits_answer() {
        return AWAITS_ANSWER;
    }
    match described(request, name) {
        None => INVALID,
        Some(desc) => match machine.begin(&desc) {
            Err(error) => refusal_status(&error),
            Ok(begun) => {
                *progress = progress_told(&begun);
                OK
            }
        },
    }
}

/// The driver granted the memory that was asked for.
pub fn granted(
    machine: &mut Machine<MappedMemory>,
    memory: u64,
    address: u64,
    piece: &mut AllocatorPiece,
) -> u32
    ensures granted { result ≡ status.ok
        → IsGranted machine.old memory address piece.new machine.new }
    ensures awaits_no_answer { (result ≡ status.awaits_no_answer) ↔ (machine.old.requests.awaited ≡ None) }
    ensures statuses { IsOneOf result (status.ok ∷ status.awaits_no_answer ∷ []) }
    ensures refused { result ≢ status.ok → (machine.new ≡ machine.old) × (piece.new ≡ piece.old) }
{
    match machine.granted(MappedMemory { memory, address }) {
        Err(_) => AWAITS_NO_ANSWER,
        Ok(given) => {
            *piece = allocated_told(&given);
            OK
        }
    }
}

/// The driver refused the memory that was asked for, with this code.
pub fn refused(
    machine: &mut Machine<MappedMemory>,
    code: i32,
    progress: &mut AllocatorProgress,
) -> u32
    ensures declined { result ≡ status.ok
        → IsDeclined machine.old (memory_refusal code) progress.new machine.new }
    ensures awaits_no_answer { (result ≡ status.awaits_no_answer) ↔ (machine.old.requests.awaited ≡ None) }
    ensures statuses { IsOneOf result (status.ok ∷ status.awaits_no_answer ∷ []) }
    ensures refused { result ≢ status.ok
        → (machine.new ≡ machine.old) × (progress.new ≡ progress.old) }
{
    if machine.awaits_answer() {
        *progress = outcome_told(&machine.refused(code));
        OK
    } else {
        AWAITS_NO_ANSWER
    }
}

/// The driver granted the memory, but refused to map it, with a code or by a null pointer.
pub fn mapping_refused(
    machine: &mut Machine<MappedMemory>,
    has_code: bool,
    code: i32,
    progress: &mut AllocatorProgress,
) -> u32
    ensures declined { result ≡ status.ok
        → IsDeclined machine.old (map_refusal (code_if has_code code)) progress.new machine.new }
    ensures awaits_no_answer { (result ≡ status.awaits_no_answer) ↔ (machine.old.requests.awaited ≡ None) }
    ensures statuses { IsOneOf result (status.ok ∷ status.awaits_no_answer ∷ []) }
    ensures refused { result ≢ status.ok
        → (machine.new ≡ machine.old) × (progress.new ≡ progress.old) }
{
    if machine.awaits_answer() {
        *progress = outcome_told(&machine.mapping_refused(code_if(has_code, code)));
        OK
    } else {
        AWAITS_NO_ANSWER
    }
}

/// Frees a piece, and tells which memory goes back to the driver, if some does.
pub fn free(
    machine: &mut Machine<MappedMemory>,
    piece: &AllocatorPiece,
    back: &mut AllocatorMemory,
) -> u32
    ensures freed { result ≡ status.ok → IsFreed machine.old piece.now back.new machine.new }
    ensures awaits_answer { (result ≡ status.awaits_answer) ↔ IsSome machine.old.requests.awaited }
    ensures not_live { (result ≡ status.not_live)
        ↔ (machine.old.requests.awaited ≡ None) × (IsLive machine.old piece.now → ⊥) }
    ensures statuses { IsOneOf result (status.ok ∷ status.awaits_answer ∷ status.not_live ∷ []) }
    ensures refused { result ≢ status.ok → (machine.new ≡ machine.old) × (back.new ≡ back.old) }
{
    if machine.awaits_answer() {
        return AWAITS_ANSWER;
    }
    match named_piece(piece) {
        None => NOT_LIVE,
        Some(named) => match machine.free(piece.memory_type, &named) {
            Err(_) => NOT_LIVE,
            Ok(went) => {
                *back = memory_told(went);
                OK
            }
        },
    }
}

/// Renames a piece.
pub fn rename(machine: &mut Machine<MappedMemory>, piece: &AllocatorPiece, name: &[u8]) -> u32
    ensures renamed { result ≡ status.ok
        → IsUtf8 name.now × IsRenamed machine.old piece.now name.now machine.new }
    ensures awaits_answer { (result ≡ status.awaits_answer) ↔ IsSome machine.old.requests.awaited }
    ensures invalid { (result ≡ status.invalid)
        ↔ (machine.old.requests.awaited ≡ None) × (IsUtf8 name.now → ⊥) }
    ensures not_live { (result ≡ status.not_live)
        ↔ (machine.old.requests.awaited ≡ None) × IsUtf8 name.now × (IsLive machine.old piece.now → ⊥) }
    ensures host_out_of_memory { result ≡ status.host_out_of_memory
        → (machine.old.requests.awaited ≡ None) × IsUtf8 name.now × IsLive machine.old piece.now }
    ensures statuses { IsOneOf result (status.ok ∷ status.awaits_answer ∷ status.invalid
        ∷ status.not_live ∷ status.host_out_of_memory ∷ []) }
    ensures refused { result ≢ status.ok → machine.new ≡ machine.old }
{
    if machine.awaits_answer() {
        return AWAITS_ANSWER;
    }
    let Ok(name) = str::from_utf8(name) else {
        return INVALID;
    };
    match named_piece(piece) {
        None => NOT_LIVE,
        Some(named) => {
            if !machine.is_live(piece.memory_type, &named) {
                return NOT_LIVE;
            }
            match machine.rename(piece.memory_type, &named, name) {
                Err(_) => HOST_OUT_OF_MEMORY,
                Ok(_) => OK,
            }
        }
    }
}

/// Keeps another word of the caller's with a piece.
pub fn set_word(machine: &mut Machine<MappedMemory>, piece: &AllocatorPiece, word: u64) -> u32
    ensures set { result ≡ status.ok → IsWorded machine.old piece.now word machine.new }
    ensures awaits_answer { (result ≡ status.awaits_answer) ↔ IsSome machine.old.requests.awaited }
    ensures not_live { (result ≡ status.not_live)
        ↔ (machine.old.requests.awaited ≡ None) × (IsLive machine.old piece.now → ⊥) }
    ensures statuses { IsOneOf result (status.ok ∷ status.awaits_answer ∷ status.not_live ∷ []) }
    ensures refused { result ≢ status.ok → machine.new ≡ machine.old }
{
    if machine.awaits_answer() {
        return AWAITS_ANSWER;
    }
    let Some(named) = named_piece(piece) else {
        return NOT_LIVE;
    };
    match machine.set_word(piece.memory_type, &named, word) {
        Ok(()) => OK,
        Err(_error) => NOT_LIVE,
    }
}

/// Whether a piece is live.
pub fn is_live(machine: &Machine<MappedMemory>, piece: &AllocatorPiece) -> bool
    ensures { IsTrue result ↔ IsLive machine.now piece.now }
{
    match named_piece(piece) {
        None => false,
        Some(named) => machine.is_live(piece.memory_type, &named),
    }
}

/// Bounds the sum of the sizes of a memory type's blocks, or takes the bound away.
pub fn set_budget(
    machine: &mut Machine<MappedMemory>,
    memory_type: usize,
    has_budget: bool,
    bytes: u64,
) -> u32
    ensures bounded { result ≡ status.ok
        → (machine.old.requests.awaited ≡ None) × SetsBudgetIdle machine.old.requests memory_type
        (number_if has_budget bytes) (Ok tt) machine.new.requests
        × (machine.new ≡ record machine.old { requests = machine.new.requests }) }
    ensures awaits_answer { (result ≡ status.awaits_answer) ↔ IsSome machine.old.requests.awaited }
    ensures no_such_type { (result ≡ status.no_such_type)
        ↔ (machine.old.requests.awaited ≡ None) × (length machine.old.requests.budgets ≤ memory_type) }
    ensures statuses { IsOneOf result (status.ok ∷ status.awaits_answer ∷ status.no_such_type
        ∷ []) }
    ensures refused { result ≢ status.ok → machine.new ≡ machine.old }
{
    if machine.awaits_answer() {
        return AWAITS_ANSWER;
    }
    match machine.set_budget(memory_type, number_if(has_budget, bytes)) {
        Err(_) => NO_SUCH_TYPE,
        Ok(_) => OK,
    }
}
