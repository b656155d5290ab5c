//! Captures for C: the lines of a trace, each call's all or none, in at most 1 MiB. A handle begins zeroed; a call of
//! `capture_begin_calls` fills it and destroy leaves it zeroed. Each call on an empty handle returns `NO_HANDLE`, and any status but `OK`
//! leaves everything as it was.

ghost use Rattle.std.specs.Prelude.{◌≡◌, ◌≢◌, ◌≤◌, ◌↔◌, [], ◌∷◌, Some, None, IsSomeAnd, codes, drop};
ghost use Rattle.gpu_capture.specs.Budgets.{Bounds};
ghost use Rattle.gpu_capture.specs.CaptureState.{text};
ghost use Rattle.gpu_capture.specs.D3D12.{release_words};
ghost use Rattle.gpu_capture.specs.Keeps.{Keeps, with_call};
ghost use Rattle.gpu_capture.specs.Line.{line_of, name_word};
ghost use Rattle.gpu_capture.specs.Words.{free_words, rename_words};
ghost use Rattle.gpu_c.specs.Capture.{end_number};
ghost use Rattle.gpu_c.specs.Handle.{Changes};
ghost use Rattle.gpu_c.specs.MemoryType.{number_if};
ghost use Rattle.gpu_c.specs.Status as status;
ghost use Rattle.gpu_c.specs.Status.{IsOneOf};
ghost use Rattle.gpu_c.specs.Visit.{room_for, copied_into};
ghost use Rattle.gpu_c.specs.declared.status.TheConstants.{OK, NO_SUCH_TYPE, NO_HANDLE};

use crate::capture::{bounded, end_number, text_from};
use crate::capture_handle::CaptureHandle;
use crate::status::{NO_HANDLE, OK};
use std::alloc::Global;

/// An allocation is freed.
#[unsafe(no_mangle)]
pub extern "C" fn pilhangko_raw_capture_freed(
    capture: &mut CaptureHandle,
    alloc: Global,
    number: u64,
) -> u32
    ensures kept { result ≡ status.ok → Changes capture.old.value capture.new.value
        (λ old new. Keeps old (with_call old (line_of (free_words number))) new) }
    ensures no_handle { (result ≡ status.no_handle) ↔ (capture.old.value ≡ None) }
    ensures statuses { IsOneOf result (status.ok ∷ status.no_handle ∷ []) }
    ensures refused { result ≢ status.ok → capture.new.value ≡ capture.old.value }
{
    match capture.take(alloc) {
        None => NO_HANDLE,
        Some(mut kept) => {
            kept.freed(alloc, number);
            capture.put(kept);
            OK
        }
    }
}

/// A committed resource is released.
#[unsafe(no_mangle)]
pub extern "C" fn pilhangko_raw_capture_released(
    capture: &mut CaptureHandle,
    alloc: Global,
    number: u64,
) -> u32
    ensures kept { result ≡ status.ok → Changes capture.old.value capture.new.value
        (λ old new. Keeps old (with_call old (line_of (release_words number))) new) }
    ensures no_handle { (result ≡ status.no_handle) ↔ (capture.old.value ≡ None) }
    ensures statuses { IsOneOf result (status.ok ∷ status.no_handle ∷ []) }
    ensures refused { result ≢ status.ok → capture.new.value ≡ capture.old.value }
{
    match capture.take(alloc) {
        None => NO_HANDLE,
        Some(mut kept) => {
            kept.released(alloc, number);
            capture.put(kept);
            OK
        }
    }
}

/// An allocation has a new name, bytes of any kind. A Metal trace has no such line, and can't be read with it.
#[unsafe(no_mangle)]
pub extern "C" fn pilhangko_raw_capture_renamed(
    capture: &mut CaptureHandle,
    alloc: Global,
    number: u64,
    name: &[u8],
) -> u32
    ensures kept { result ≡ status.ok → Changes capture.old.value capture.new.value
        (λ old new. Keeps old (with_call old (line_of (rename_words number (name_word name.now)))) new) }
    ensures no_handle { (result ≡ status.no_handle) ↔ (capture.old.value ≡ None) }
    ensures statuses { IsOneOf result (status.ok ∷ status.no_handle ∷ []) }
    ensures refused { result ≢ status.ok → capture.new.value ≡ capture.old.value }
{
    match capture.take(alloc) {
        None => NO_HANDLE,
        Some(mut kept) => {
            kept.renamed(alloc, number, name);
            capture.put(kept);
            OK
        }
    }
}

/// The residency set is committed.
#[unsafe(no_mangle)]
pub extern "C" fn pilhangko_raw_capture_set_committed(
    capture: &mut CaptureHandle,
    alloc: Global,
) -> u32
    ensures kept { result ≡ status.ok → Changes capture.old.value capture.new.value
        (λ old new. Keeps old (with_call old (line_of (codes "commit" ∷ []))) new) }
    ensures no_handle { (result ≡ status.no_handle) ↔ (capture.old.value ≡ None) }
    ensures statuses { IsOneOf result (status.ok ∷ status.no_handle ∷ []) }
    ensures refused { result ≢ status.ok → capture.new.value ≡ capture.old.value }
{
    match capture.take(alloc) {
        None => NO_HANDLE,
        Some(mut kept) => {
            kept.set_committed();
            capture.put(kept);
            OK
        }
    }
}

/// A memory type has this budget, or none, from now on. `NO_SUCH_TYPE` from the 33rd on.
#[unsafe(no_mangle)]
pub extern "C" fn pilhangko_raw_capture_bounded(
    capture: &mut CaptureHandle,
    alloc: Global,
    memory_type: usize,
    has_budget: bool,
    bytes: u64,
) -> u32
    ensures kept { result ≡ status.ok → Changes capture.old.value capture.new.value
        (λ old new. Bounds old memory_type (number_if has_budget bytes) new) }
    ensures no_handle { (result ≡ status.no_handle) ↔ (capture.old.value ≡ None) }
    ensures no_such_type { (result ≡ status.no_such_type)
        ↔ IsSomeAnd capture.old.value (λ _. 32 ≤ memory_type) }
    ensures statuses { IsOneOf result (status.ok ∷ status.no_handle ∷ status.no_such_type ∷ []) }
    ensures refused { result ≢ status.ok → capture.new.value ≡ capture.old.value }
{
    match capture.take(alloc) {
        None => NO_HANDLE,
        Some(mut kept) => {
            let status = bounded(&mut kept, alloc, memory_type, has_budget, bytes);
            capture.put(kept);
            status
        }
    }
}

/// How far it goes: 1 with each call, 2 up to where a trace had no room for the next call, 3 up to where the host refused memory for it.
#[unsafe(no_mangle)]
pub extern "C" fn pilhangko_raw_capture_how_far(
    capture: &mut CaptureHandle,
    alloc: Global,
    end: &mut u32,
) -> u32
    ensures reported { result ≡ status.ok
        → IsSomeAnd capture.old.value (λ c. end.new ≡ end_number c.end) }
    ensures no_handle { (result ≡ status.no_handle) ↔ (capture.old.value ≡ None) }
    ensures statuses { IsOneOf result (status.ok ∷ status.no_handle ∷ []) }
    ensures same { capture.new.value ≡ capture.old.value }
    ensures refused { result ≢ status.ok → end.new ≡ end.old }
{
    match capture.take(alloc) {
        None => NO_HANDLE,
        Some(kept) => {
            *end = end_number(kept.end());
            capture.put(kept);
            OK
        }
    }
}

/// Copies the trace from its byte `from` on, as much as there is room for, and tells how many bytes that are: none where it has no more. It
/// ends with `destroy` where the allocator is gone.
#[unsafe(no_mangle)]
pub extern "C" fn pilhangko_raw_capture_text(
    capture: &mut CaptureHandle,
    alloc: Global,
    is_destroyed: bool,
    from: usize,
    bytes: &mut [u8],
    count: &mut usize,
) -> u32
    ensures copied { result ≡ status.ok → IsSomeAnd capture.old.value
        (λ c. (bytes.new ≡ copied_into (drop from (text c is_destroyed)) bytes.old)
        × (count.new ≡ room_for (drop from (text c is_destroyed)) bytes.old)) }
    ensures no_handle { (result ≡ status.no_handle) ↔ (capture.old.value ≡ None) }
    ensures statuses { IsOneOf result (status.ok ∷ status.no_handle ∷ []) }
    ensures same { capture.new.value ≡ capture.old.value }
    ensures refused { result ≢ status.ok
        → (bytes.new ≡ bytes.old) × (count.new ≡ count.old) }
{
    match capture.take(alloc) {
        None => NO_HANDLE,
        Some(kept) => {
            *count = text_from(&kept, is_destroyed, from, bytes);
            capture.put(kept);
            OK
        }
    }
}

/// Ends a capture, and leaves the handle zeroed.
#[unsafe(no_mangle)]
pub extern "C" fn pilhangko_raw_capture_destroy(capture: &mut CaptureHandle, alloc: Global) -> u32
    ensures gone { capture.new.value ≡ None }
    ensures no_handle { (result ≡ status.no_handle) ↔ (capture.old.value ≡ None) }
    ensures statuses { IsOneOf result (status.ok ∷ status.no_handle ∷ []) }
{
    match capture.take(alloc) {
        None => NO_HANDLE,
        Some(_) => OK,
    }
}
