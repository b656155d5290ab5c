//! What the calls keep of the capture that lies behind a handle, and what they show of it.

ghost use Rattle.std.specs.Prelude.{◌≡◌, ◌≢◌, ◌+◌, ◌≤◌, ◌↔◌, [], ◌∷◌, ◌++◌, length, map, take, drop, Some, None, IfOk, IsSomeAnd};
ghost use Rattle.gpu_capture.specs.Budgets.{Bounds};
ghost use Rattle.gpu_capture.specs.CaptureState.{text};
ghost use Rattle.gpu_capture.specs.Requests.{alloc_line, move_line, committed_line};
ghost use Rattle.gpu_c.specs.Capture.{answer_told, refusal_told, end_number, KeepsLine};
ghost use Rattle.gpu_c.specs.MemoryType.{number_if};
ghost use Rattle.gpu_c.specs.Status as status;
ghost use Rattle.gpu_c.specs.Status.{IsOneOf};
ghost use Rattle.gpu_c.specs.Visit.{room_for, copied_into};
ghost use Rattle.gpu_c.specs.declared.status.TheConstants.{OK, INVALID, NO_SUCH_TYPE};

use crate::capture_values::CaptureAnswer;
use crate::memory_type::number_if;
use crate::status::{INVALID, NO_SUCH_TYPE, OK};
use gpu_capture::{Answer, Capture, CaptureEnd, D3D12Request, Request};
use gpu_device::Refusal;
use std::alloc::{AllocError, Global};

/// How many memory types a capture notes budgets of.
const MEMORY_TYPES: usize = 32;

fn refusal_told(code: i32) -> Refusal
    ensures { result ≡ refusal_told code }
{
    if code == 0 {
        Refusal::Null
    } else {
        Refusal::Code(code)
    }
}

fn answer_told(told: &CaptureAnswer) -> Answer
    ensures { result ≡ answer_told told.now }
{
    if told.refused {
        Answer::Refused(refusal_told(told.code))
    } else {
        Answer::Granted
    }
}

fn answers_told(alloc: Global, told: &[CaptureAnswer]) -> Result<Vec<Answer>, AllocError>
    ensures { IfOk result (λ v. v.items ≡ map answer_told told.now) }
{
    let mut answers = Vec::with_capacity(alloc, told.len())?;
    for answer in told {
        answers.push_reserved(answer_told(answer));
    }
    Ok(answers)
}

fn keep_allocated(
    capture: &mut Capture,
    alloc: Global,
    number: u64,
    request: &Request<'_>,
    told: &[CaptureAnswer],
)
    ensures { KeepsLine capture.old (alloc_line number request.now) told.now capture.new }
{
    match answers_told(alloc, told) {
        Ok(answers) => capture.allocated(alloc, number, request, &answers),
        Err(_) => capture.lacks_memory(),
    }
}

fn keep_committed(
    capture: &mut Capture,
    alloc: Global,
    number: u64,
    request: &D3D12Request<'_>,
    told: &[CaptureAnswer],
)
    ensures { KeepsLine capture.old (committed_line number request.now) told.now capture.new }
{
    match answers_told(alloc, told) {
        Ok(answers) => capture.committed(alloc, number, request, &answers),
        Err(_) => capture.lacks_memory(),
    }
}

/// Keeps a request, where an allocator serves it, with what the driver answered.
pub fn allocated(
    capture: &mut Capture,
    alloc: Global,
    number: u64,
    request: Option<Request<'_>>,
    told: &[CaptureAnswer],
) -> u32
    ensures kept { result ≡ status.ok → IsSomeAnd request.entry
        (λ r. KeepsLine capture.old (alloc_line number r) told.now capture.new) }
    ensures invalid { (result ≡ status.invalid) ↔ (request.entry ≡ None) }
    ensures statuses { IsOneOf result (status.ok ∷ status.invalid ∷ []) }
    ensures refused { result ≢ status.ok → capture.new ≡ capture.old }
{
    match request {
        None => INVALID,
        Some(request) => {
            keep_allocated(capture, alloc, number, &request, told);
            OK
        }
    }
}

/// Keeps a committed resource's request, where an allocator serves it, with what the device answered.
pub fn committed(
    capture: &mut Capture,
    alloc: Global,
    number: u64,
    request: Option<D3D12Request<'_>>,
    told: &[CaptureAnswer],
) -> u32
    ensures kept { result ≡ status.ok → IsSomeAnd request.entry
        (λ r. KeepsLine capture.old (committed_line number r) told.now capture.new) }
    ensures invalid { (result ≡ status.invalid) ↔ (request.entry ≡ None) }
    ensures statuses { IsOneOf result (status.ok ∷ status.invalid ∷ []) }
    ensures refused { result ≢ status.ok → capture.new ≡ capture.old }
{
    match request {
        None => INVALID,
        Some(request) => {
            keep_committed(capture, alloc, number, &request, told);
            OK
        }
    }
}

/// Keeps the request of a second place, where an allocator serves it.
pub fn moved(
    capture: &mut Capture,
    alloc: Global,
    from: u64,
    to: u64,
    request: Option<Request<'_>>,
) -> u32
    ensures kept { result ≡ status.ok → IsSomeAnd request.entry
        (λ r. KeepsLine capture.old (move_line from to r) [] capture.new) }
    ensures invalid { (result ≡ status.invalid) ↔ (request.entry ≡ None) }
    ensures statuses { IsOneOf result (status.ok ∷ status.invalid ∷ []) }
    ensures refused { result ≢ status.ok → capture.new ≡ capture.old }
{
    match request {
        None => INVALID,
        Some(request) => {
            capture.moved(alloc, from, to, &request);
            OK
        }
    }
}

/// Keeps a memory type's budget.
pub fn bounded(
    capture: &mut Capture,
    alloc: Global,
    memory_type: usize,
    has_budget: bool,
    bytes: u64,
) -> u32
    ensures kept { result ≡ status.ok
        → Bounds capture.old memory_type (number_if has_budget bytes) capture.new }
    ensures no_such_type { (result ≡ status.no_such_type) ↔ (32 ≤ memory_type) }
    ensures statuses { IsOneOf result (status.ok ∷ status.no_such_type ∷ []) }
    ensures refused { result ≢ status.ok → capture.new ≡ capture.old }
{
    if memory_type >= MEMORY_TYPES {
        return NO_SUCH_TYPE;
    }
    capture.bounded(alloc, memory_type, number_if(has_budget, bytes));
    OK
}

/// How far it goes: with each call, up to where a trace had no more room, or up to where the host refused memory.
pub fn end_number(end: CaptureEnd) -> u32
    ensures { result ≡ end_number end }
{
    match end {
        CaptureEnd::Whole => 1,
        CaptureEnd::TooLong => 2,
        CaptureEnd::HostOutOfMemory => 3,
    }
}

/// Copies what a part has behind so many bytes, behind those that a buffer is filled with, as much as there is room for, and returns how many
/// it is filled with then.
fn append_part(part: &[u8], skipped: usize, buffer: &mut [u8], filled: usize) -> usize
    requires { filled ≤ length buffer.old }
    ensures filled { result ≡ filled + room_for (drop skipped part.now) (drop filled buffer.old) }
    ensures copied { buffer.new ≡ take filled buffer.old
        ++ copied_into (drop skipped part.now) (drop filled buffer.old) }
{
    let rest = &part[skipped.min(part.len())..];
    let count = rest.len().min(buffer.len() - filled);
    buffer[filled..filled + count].copy_from_slice(&rest[..count]);
    filled + count
}

/// Copies the trace from its byte `from` on, as much as there is room for, and returns how many bytes that are.
pub fn text_from(capture: &Capture, is_destroyed: bool, from: usize, buffer: &mut [u8]) -> usize
    ensures filled { result ≡ room_for (drop from (text capture.now is_destroyed)) buffer.old }
    ensures copied { buffer.new ≡ copied_into (drop from (text capture.now is_destroyed)) buffer.old }
{
    let trace = capture.trace(is_destroyed);
    let new = from.saturating_sub(trace.device.len());
    let calls = new.saturating_sub(trace.new.len());
    let end = calls.saturating_sub(trace.calls.len());
    let filled = append_part(trace.device, from, buffer, 0);
    let filled = append_part(trace.new, new, buffer, filled);
    let filled = append_part(trace.calls, calls, buffer, filled);
    append_part(trace.end, end, buffer, filled)
}
