//! What Metal's machine asks and tells, one call after another.

use super::*;
use gpu_device::metal::{CpuCacheMode, StorageMode};
use gpu_values::AllocationError;

/// The size of a shared block in bytes, and whether it is one piece's own, where a new one is asked for.
fn question(progress: &Result<Progress>) -> Option<(usize, u64, bool)> {
    match progress {
        Ok(Progress::Question(q)) => Some((q.block.memory_type, q.block.size, q.block.dedicated)),
        _ => None,
    }
}

/// Whether the device is asked for a shared heap with gathered writes, under its label.
fn asks_for_an_upload_heap(progress: &Result<Progress>) -> bool {
    match progress {
        Ok(Progress::Question(q)) => {
            q.descriptor.storage_mode == StorageMode::Shared
                && q.descriptor.cpu_cache_mode == CpuCacheMode::WriteCombined
                && heap_label(q.location) == "MemoryBlock CpuToGpu"
        }
        _ => false,
    }
}

/// Whether the call was refused since an answer is awaited, or none is.
fn is_out_of_turn(error: &AllocationError, want: &str) -> bool {
    match error {
        AllocationError::Internal(fault) => fault.text == want && fault.code.is_none(),
        _ => false,
    }
}

/// A question, the calls that are refused while it is open, and its two answers.
fn questions_and_answers(alloc: Global) -> Result<[bool; 9]> {
    let mut m = Machine::new(alloc, AllocationSizes::default(), true)?;
    let none = m.refused();
    let asked = m.begin(&piece(512, MemoryLocation::CpuToGpu));
    let open = m.awaits_answer();
    let again = m.begin(&piece(512, MemoryLocation::CpuToGpu));
    let granted = m.granted(MTLHeap(7))?;
    let it = granted.allocated;
    let shared = m.begin(&piece(512, MemoryLocation::CpuToGpu))?;
    let large = m.begin(&piece(300_000_000, MemoryLocation::GpuOnly));
    let refused = m.refused();
    Ok([
        is_out_of_turn(&none, "No answer is awaited."),
        question(&asked) == Some((1, 64 << 20, false)) && asks_for_an_upload_heap(&asked),
        open && again.is_err_and(|error| is_out_of_turn(&error, "An answer is awaited.")),
        granted.joins && it.memory_type == 1 && it.piece.handle.0 == 7 && it.piece.offset == 0,
        matches!(shared, Progress::Piece(a) if a.piece.offset == 512),
        question(&large) == Some((0, 300_000_000, true)),
        is_out_of_turn(&refused, "No MTLHeap was returned") && !m.awaits_answer(),
        m.is_live(1, &it.piece) && m.capacity() == 64 << 20,
        m.set_budget(3, None).is_err() && m.budget(1).is_none(),
    ])
}

/// The word of the first piece in the piece's block.
fn first_word(m: &Machine, it: &Allocated) -> Option<u64> {
    let mut pieces = m.memory_types().memory_type(0)?.pieces(it.piece.slot)?;
    Some(pieces.next()?.word())
}

/// Whether a word is kept with the piece through a new name.
fn keeps_word(m: &mut Machine, it: &Allocated) -> bool {
    let before = first_word(m, it);
    let set = m.set_word(0, &it.piece, 7).is_ok() && m.rename(0, &it.piece, "mesh").is_ok();
    set && before == Some(0) && first_word(m, it) == Some(7)
}

/// Whether a name and a budget that leaves no room are set, and the budget is kept.
fn is_named_and_bounded(m: &mut Machine, it: &Allocated) -> bool {
    let set = m.rename(0, &it.piece, "shadow map").is_ok()
        && m.set_budget(0, Some(300_000_000)).is_ok();
    match m.begin(&piece(1, MemoryLocation::GpuOnly)) {
        Err(AllocationError::BudgetExceeded) => set && m.budget(0) == Some(300_000_000),
        _ => false,
    }
}

/// Whether there is one leak, and its text has this name.
fn is_only_leak(alloc: Global, m: &Machine, name: &str) -> bool {
    match m.memory_types().leak_texts(alloc) {
        Err(_) => false,
        Ok(texts) => match texts.first() {
            None => false,
            Some(text) => text.contains(name) && m.leaks().count() == 1,
        },
    }
}

/// Whether so many bytes are told as allocated.
fn holds(m: &Machine, bytes: u64) -> bool {
    match m.report() {
        Err(_) => false,
        Ok(report) => report.total_allocated_bytes == bytes && m.capacity() == bytes,
    }
}

/// Whether the piece is freed once, and its heap goes back.
fn goes_back(m: &mut Machine, it: &Allocated) -> bool {
    match m.free(0, &it.piece) {
        Ok(Some(back)) => back.heap.0 == 3 && back.leaves && m.free(0, &it.piece).is_err(),
        _ => false,
    }
}

/// A piece in a heap of its own, from its request to its end.
fn a_piece_comes_and_goes(alloc: Global) -> Result<[bool; 8]> {
    let mut m = Machine::new(alloc, AllocationSizes::default(), true)?;
    let _ = m.begin(&piece(300_000_000, MemoryLocation::GpuOnly))?;
    let it = m.granted(MTLHeap(3))?.allocated;
    Ok([
        keeps_word(&mut m, &it),
        is_named_and_bounded(&mut m, &it),
        is_only_leak(alloc, &m, "shadow map"),
        holds(&m, 300_000_000),
        m.block(0, 0)
            .is_some_and(|back| back.heap.0 == 3 && back.leaves),
        goes_back(&mut m, &it),
        m.set_word(0, &it.piece, 9).is_err(),
        holds(&m, 0),
    ])
}

#[test]
fn questions_are_asked_and_answered_in_turn(rt: HostRuntime) {
    let steps = questions_and_answers(rt.alloc());
    check(&rt, &[steps.is_ok()]);
    if let Ok(steps) = steps {
        check(&rt, &steps);
    }
}

#[test]
fn a_piece_of_a_heap_of_its_own_comes_and_goes(rt: HostRuntime) {
    let steps = a_piece_comes_and_goes(rt.alloc());
    check(&rt, &[steps.is_ok()]);
    if let Ok(steps) = steps {
        check(&rt, &steps);
    }
}
