//! What DirectX 12's machine asks and tells, one call after another.

use super::*;
use gpu_device::d3d12::{CpuPageProperty, HeapContent, HeapType, MemoryPool};
use gpu_values::AllocationError;

/// Whether the device is asked for a heap of 64 MB for buffers that the CPU writes to.
fn asks_for_an_upload_heap(progress: &Result<Progress>) -> bool {
    match progress {
        Ok(Progress::Question(q)) => {
            let properties = q.desc.properties;
            q.block.memory_type == 3
                && q.desc.size == 64 << 20
                && q.desc.alignment == 4 << 20
                && q.desc.content == HeapContent::Buffers
                && properties.heap_type == HeapType::Custom
                && properties.cpu_page_property == CpuPageProperty::WriteCombine
                && properties.memory_pool_preference == MemoryPool::L0
        }
        _ => false,
    }
}

/// Whether the error has this text and code.
fn is_internal(error: &AllocationError, text: &str, code: Option<i64>) -> bool {
    match error {
        AllocationError::Internal(fault) => fault.text == text && fault.code == code,
        _ => false,
    }
}

/// A machine at tier 1.
fn machine(alloc: Global) -> Result<Machine> {
    Machine::new(alloc, AllocationSizes::default(), ResourceHeapTier::Tier1)
}

/// An upload buffer of so many bytes.
fn upload(size: u64) -> AllocationCreateDesc<'static> {
    piece(size, MemoryLocation::CpuToGpu, ResourceCategory::Buffer)
}

/// A question, the calls that are refused while it is open, and its two answers.
fn questions_and_answers(alloc: Global) -> Result<[bool; 9]> {
    let mut m = machine(alloc)?;
    let none = m.refused(Some(-7));
    let asked = m.begin(&upload(512));
    let open = m.awaits_answer() && m.tier() == ResourceHeapTier::Tier1;
    let again = m.begin(&upload(512));
    let it = m.granted(ID3D12Heap(7))?;
    let shared = m.begin(&upload(512))?;
    let _ = m.begin(&upload(300_000_000))?;
    let lack = m.refused(Some(-2_147_024_882));
    let _ = m.begin(&upload(300_000_000))?;
    let code = m.refused(Some(-7));
    let _ = m.begin(&upload(300_000_000))?;
    let null = m.refused(None);
    Ok([
        is_internal(&none, "No answer is awaited.", None),
        asks_for_an_upload_heap(&asked),
        open && again.is_err_and(|error| is_internal(&error, "An answer is awaited.", None)),
        it.memory_type == 3 && it.piece.handle.0 == 7 && it.piece.offset == 0,
        matches!(shared, Progress::Piece(a) if a.memory_type == 3 && a.piece.offset == 512),
        matches!(lack, AllocationError::OutOfMemory),
        is_internal(&code, "ID3D12Device::CreateHeap failed", Some(-7)),
        is_internal(
            &null,
            "ID3D12Heap pointer is null, but should not be.",
            None,
        ),
        m.is_live(3, &it.piece) && m.capacity() == 64 << 20 && !m.awaits_answer(),
    ])
}

/// The word of the first piece in the piece's block.
fn first_word(m: &Machine, it: &Allocated) -> Option<u64> {
    let mut pieces = m.memory_types().memory_type(3)?.pieces(it.piece.slot)?;
    Some(pieces.next()?.word())
}

/// Whether a word is kept with the piece through a new name.
fn keeps_word(m: &mut Machine, it: &Allocated) -> bool {
    let before = first_word(m, it);
    let set = m.set_word(3, &it.piece, 7).is_ok() && m.rename(3, &it.piece, "mesh").is_ok();
    set && before == Some(0) && first_word(m, it) == Some(7)
}

/// Whether a name and a budget that leaves no room are set, and the budget is kept.
fn is_named_and_bounded(m: &mut Machine, it: &Allocated) -> bool {
    let set = m.rename(3, &it.piece, "shadow map").is_ok()
        && m.set_budget(3, Some(300_000_000)).is_ok();
    match m.begin(&upload(1)) {
        Err(AllocationError::BudgetExceeded) => set && m.budget(3) == Some(300_000_000),
        _ => false,
    }
}

/// Whether there is one leak, and its text has this name.
fn is_only_leak(alloc: Global, m: &Machine, name: &str) -> bool {
    match m.memory_types().leak_texts(alloc) {
        Err(_) => false,
        Ok(texts) => match texts.first() {
            None => false,
            Some(text) => text.contains(name) && m.leaks().count() == 1,
        },
    }
}

/// Whether so many bytes are told as allocated.
fn holds(m: &Machine, bytes: u64) -> bool {
    match m.report() {
        Err(_) => false,
        Ok(report) => report.total_allocated_bytes == bytes && m.capacity() == bytes,
    }
}

/// Whether the piece is freed once, and its heap goes back.
fn goes_back(m: &mut Machine, it: &Allocated) -> bool {
    match m.free(3, &it.piece) {
        Ok(Some(back)) => back.0 == 3 && m.free(3, &it.piece).is_err(),
        _ => false,
    }
}

/// A piece in a heap of its own, from its request to its end.
fn a_piece_comes_and_goes(alloc: Global) -> Result<[bool; 8]> {
    let mut m = machine(alloc)?;
    let _ = m.begin(&upload(300_000_000))?;
    let it = m.granted(ID3D12Heap(3))?;
    Ok([
        keeps_word(&mut m, &it),
        is_named_and_bounded(&mut m, &it),
        is_only_leak(alloc, &m, "shadow map"),
        holds(&m, 300_000_000),
        m.block(3, 0).is_some_and(|heap| heap.0 == 3),
        goes_back(&mut m, &it),
        m.set_word(3, &it.piece, 9).is_err(),
        holds(&m, 0),
    ])
}

/// Committed resources: asked for, made or not, counted, forgotten once.
fn committed_resources(alloc: Global) -> Result<[bool; 8]> {
    let mut m = machine(alloc)?;
    let target = ResourceCategory::RtvDsvTexture;
    let none = m.made(ID3D12Resource(1));
    m.begin_committed(1000, MemoryLocation::GpuOnly, target)?;
    let open = m.awaits_resource() && !m.awaits_answer();
    let again = m.begin_committed(1, MemoryLocation::GpuOnly, target);
    let it = m.made(ID3D12Resource(5))?;
    m.begin_committed(24, MemoryLocation::GpuOnly, target)?;
    m.not_made()?;
    let too_much = m.begin_committed(u64::MAX, MemoryLocation::GpuOnly, target);
    let told = m.committed(1);
    m.forget_committed(it)?;
    Ok([
        none.is_err_and(|error| is_internal(&error, "No answer is awaited.", None)),
        open && again.is_err_and(|error| is_internal(&error, "An answer is awaited.", None)),
        it.memory_type == 1 && it.resource.0 == 5 && it.size == 1000,
        matches!(too_much, Err(AllocationError::OutOfMemory)),
        told.is_some_and(|told| told.num_allocations == 1 && told.total_size == 1000),
        m.committed(9).is_none() && !m.awaits_resource(),
        m.forget_committed(it).is_err_and(|error| is_internal(
            &error,
            "Resource was already freed.",
            None,
        )),
        m.committed(1)
            .is_some_and(|told| told.num_allocations == 0 && told.total_size == 0),
    ])
}

#[test]
fn questions_are_asked_and_answered_in_turn(rt: HostRuntime) {
    let steps = questions_and_answers(rt.alloc());
    check(&rt, &[steps.is_ok()]);
    if let Ok(steps) = steps {
        check(&rt, &steps);
    }
}

#[test]
fn a_piece_of_a_heap_of_its_own_comes_and_goes(rt: HostRuntime) {
    let steps = a_piece_comes_and_goes(rt.alloc());
    check(&rt, &[steps.is_ok()]);
    if let Ok(steps) = steps {
        check(&rt, &steps);
    }
}

#[test]
fn committed_resources_are_counted_until_they_are_forgotten(rt: HostRuntime) {
    let steps = committed_resources(rt.alloc());
    check(&rt, &[steps.is_ok()]);
    if let Ok(steps) = steps {
        check(&rt, &steps);
    }
}
