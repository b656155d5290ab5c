//! What is read of memory types, whatever their blocks are known by: what is counted, blocks and pieces, the report, and the texts of
//! pieces as leaks. The allocators of all APIs read theirs by it.

ghost use Rattle.std.specs.Prelude.{◌≡◌, ◌≢◌, ◌≤◌, ◌↔◌, [], ◌∷◌, length, string_bytes, IfOk, OnErr, Some, IsSome};
ghost use Rattle.std.specs.Option.{option_map, unwrap_or};
ghost use Rattle.std.specs.List.{slice_get};
ghost use Rattle.gpu_block_pieces.specs.Leak.{leak_text};
ghost use Rattle.gpu_core.specs.TypeReport.{pieces_in, block_in};
ghost use Rattle.gpu_core.specs.TypeState.{slot_at, capacity_of};
ghost use Rattle.gpu_core.specs.Types.{slots_of};
ghost use Rattle.gpu_core.specs.Blocks.{slots_at};
ghost use Rattle.gpu_core.specs.Budgets.{budgets, budget_at};
ghost use Rattle.gpu_core.specs.Leaks.{all_leaks};
ghost use Rattle.gpu_core.specs.Reports.{whole_report};
ghost use Rattle.gpu_report.specs.ReportJson.{report_json};
ghost use Rattle.gpu_c.specs.TypesVisit.{type_counts, ShowsText, ShowsLeak};
ghost use Rattle.gpu_c.specs.MemoryType.{block_counts};
ghost use Rattle.gpu_c.specs.Status as status;
ghost use Rattle.gpu_c.specs.Status.{IsOneOf};
ghost use Rattle.gpu_c.specs.Visit.{pieces_in_from, ShowsPieces, ShowsNames};
ghost use Rattle.gpu_c.specs.declared.status.TheConstants.{OK, HOST_OUT_OF_MEMORY, NO_SUCH_TYPE};

use crate::allocator_values::TypeStatistics;
use crate::memory_type::block_counts;
use crate::memory_type_values::MemoryBlockStatistics;
use crate::status::{HOST_OUT_OF_MEMORY, NO_SUCH_TYPE, OK};
use crate::virtual_block_values::PieceView;
use crate::visit::{copy_text, fill_from, names_from};
use gpu_core::{MemoryType, MemoryTypes};
use gpu_report::ReportJson;
use gpu_values::Result;
use std::alloc::{AllocError, Global};

/// The memory type at an index, lent to be looked at; `None` where it isn't there.
fn type_at<H: Copy + Eq>(types: &MemoryTypes<H>, index: usize) -> Option<&MemoryType<H>>
    ensures { slots_at (slots_of types.now) index
        ≡ unwrap_or (option_map (λ m. m.now.slots) result) [] }
{
    types.memory_type(index)
}

/// What is counted of a memory type and of all its blocks together. `NO_SUCH_TYPE` where it isn't there.
pub fn type_statistics<H: Copy + Eq>(
    types: &MemoryTypes<H>,
    index: usize,
    statistics: &mut TypeStatistics,
) -> u32
    ensures reported { result ≡ status.ok
        → statistics.new ≡ type_counts (slots_of types.now) (budgets types.now) index }
    ensures no_such_type { (result ≡ status.no_such_type) ↔ (length (slots_of types.now) ≤ index) }
    ensures statuses { IsOneOf result (status.ok ∷ status.no_such_type ∷ []) }
    ensures refused { result ≢ status.ok → statistics.new ≡ statistics.old }
{
    let Some(counted) = types.memory_type(index) else {
        return NO_SUCH_TYPE;
    };
    let budget = types.budget(index);
    let blocks = counted.total_statistics();
    *statistics = TypeStatistics {
        capacity: counted.capacity(),
        slots: counted.slots(),
        shared_blocks: counted.active_general_blocks(),
        has_budget: budget.is_some(),
        budget: budget.unwrap_or(0),
        pieces: blocks.pieces,
        piece_bytes: blocks.piece_bytes,
        gaps: blocks.gaps,
        longest_gap: blocks.longest_gap,
    };
    OK
}

/// The sum of the sizes of a memory type's blocks. `NO_SUCH_TYPE` where it isn't there.
pub fn type_capacity<H: Copy + Eq>(types: &MemoryTypes<H>, index: usize, bytes: &mut u64) -> u32
    ensures reported { result ≡ status.ok
        → bytes.new ≡ capacity_of (slots_at (slots_of types.now) index) }
    ensures no_such_type { (result ≡ status.no_such_type) ↔ (length (slots_of types.now) ≤ index) }
    ensures statuses { IsOneOf result (status.ok ∷ status.no_such_type ∷ []) }
    ensures refused { result ≢ status.ok → bytes.new ≡ bytes.old }
{
    match types.memory_type(index) {
        None => NO_SUCH_TYPE,
        Some(counted) => {
            *bytes = counted.capacity();
            OK
        }
    }
}

/// What is counted of the block in a slot of a memory type, or none.
pub fn block_statistics<H: Copy + Eq>(
    types: &MemoryTypes<H>,
    index: usize,
    slot: usize,
) -> MemoryBlockStatistics
    ensures { result ≡ block_counts (block_in
        (slot_at (slots_at (slots_of types.now) index) slot)) }
{
    let Some(found) = type_at(types, index) else {
        return block_counts(None);
    };
    block_counts(found.sub_allocator(slot))
}

/// Fills an array with the pieces of the block in a slot of a memory type whose own bytes begin at `from` or behind it, as far as it has
/// room, and returns how many it shows.
pub fn pieces<H: Copy + Eq>(
    types: &MemoryTypes<H>,
    index: usize,
    slot: usize,
    from: u64,
    views: &mut [PieceView],
) -> usize
    ensures { ShowsPieces (pieces_in_from from
        (pieces_in (slot_at (slots_at (slots_of types.now) index) slot))) views.old views.new result }
{
    let Some(found) = type_at(types, index) else {
        return 0;
    };
    match found.pieces(slot) {
        None => 0,
        Some(pieces) => fill_from(pieces, from, views),
    }
}

/// Fills an array with the lengths of the names of the pieces that `pieces` shows, and a buffer with these names one after another, as
/// far as each has room; returns how many lengths there are.
pub fn piece_names<H: Copy + Eq>(
    types: &MemoryTypes<H>,
    index: usize,
    slot: usize,
    from: u64,
    lengths: &mut [usize],
    names: &mut [u8],
) -> usize
    ensures { ShowsNames (pieces_in_from from
        (pieces_in (slot_at (slots_at (slots_of types.now) index) slot))) lengths.old lengths.new
        names.old names.new result }
{
    let Some(found) = type_at(types, index) else {
        return 0;
    };
    match found.pieces(slot) {
        None => 0,
        Some(pieces) => names_from(pieces, from, lengths, names),
    }
}

/// The report as JSON.
fn report_text<H: Copy + Eq>(types: &MemoryTypes<H>, alloc: Global) -> Result<String>
    ensures { IfOk result (λ text. string_bytes text
        ≡ report_json (whole_report (slots_of types.now))) }
{
    let report = types.report(alloc)?;
    Ok(ReportJson(&report).to_string(alloc)?)
}

/// Copies the report as JSON into a buffer, as much as there is room for, and reports its whole length.
pub fn report<H: Copy + Eq>(
    types: &MemoryTypes<H>,
    alloc: Global,
    text: &mut [u8],
    whole: &mut usize,
) -> u32
    ensures reported { result ≡ status.ok
        → ShowsText (report_json (whole_report (slots_of types.now))) text.old text.new whole.new }
    ensures statuses { IsOneOf result (status.ok ∷ status.host_out_of_memory ∷ []) }
    ensures refused { result ≢ status.ok → (text.new ≡ text.old) × (whole.new ≡ whole.old) }
{
    match report_text(types, alloc) {
        Err(_) => HOST_OUT_OF_MEMORY,
        Ok(json) => {
            *whole = copy_text(json.as_str(), text);
            OK
        }
    }
}

/// The text of the live piece with that number, by memory type, then by slot, then in order of offset, if there are so many.
fn leak_at<H: Copy + Eq>(
    types: &MemoryTypes<H>,
    alloc: Global,
    number: usize,
) -> Result<Option<String>, AllocError>
    ensures text { IfOk result (λ text. option_map string_bytes text
        ≡ option_map leak_text (slice_get (all_leaks (slots_of types.now)) number)) }
    ensures there { OnErr result (IsSome (slice_get (all_leaks (slots_of types.now)) number)) }
{
    match types.leaks().nth(number) {
        None => Ok(None),
        Some(leak) => Ok(Some(leak.to_string(alloc)?)),
    }
}

/// Copies the text of a live piece as a leak into a buffer, as much as there is room for, and reports its whole length, 0 where there
/// are not so many.
pub fn leak<H: Copy + Eq>(
    types: &MemoryTypes<H>,
    alloc: Global,
    number: usize,
    text: &mut [u8],
    whole: &mut usize,
) -> u32
    ensures reported { result ≡ status.ok
        → ShowsLeak (slice_get (all_leaks (slots_of types.now)) number) text.old text.new whole.new }
    ensures host_out_of_memory { result ≡ status.host_out_of_memory
        → IsSome (slice_get (all_leaks (slots_of types.now)) number) }
    ensures statuses { IsOneOf result (status.ok ∷ status.host_out_of_memory ∷ []) }
    ensures refused { result ≢ status.ok → (text.new ≡ text.old) × (whole.new ≡ whole.old) }
{
    match leak_at(types, alloc, number) {
        Err(_) => HOST_OUT_OF_MEMORY,
        Ok(None) => {
            *whole = copy_text("", text);
            OK
        }
        Ok(Some(found)) => {
            *whole = copy_text(found.as_str(), text);
            OK
        }
    }
}
