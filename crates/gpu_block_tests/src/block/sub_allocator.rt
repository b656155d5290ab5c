//! Tests of a block of either form: lists of calls, each with what it answers.

ghost use Rattle.std.specs.Prelude.{◌≡◌, IfOk};
ghost use Rattle.gpu_block.specs.Block.{HasPages};
ghost use Rattle.gpu_block.specs.SubAllocator.{block_of};

use super::calls::Call::{
    self, Allocated, Finds, Frees, FreesNothing, IsGeneral, Renames, RenamesNothing, Reports,
    SetsNoWord, SetsWord, Size, Takes, TakesAligned, TakesImage, TakesNothing, Words,
};
use super::calls::{check_calls, check_dedicated, check_list, count};
use super::{MB, general};
use gpu_block::{FreeListAllocator, SubAllocator};
use gpu_values::{AllocationError, Result};
use std::alloc::Global;

const OUT_OF_MEMORY: &str = "Out of memory";

const OTHER_SIZE: &str = "Internal error: DedicatedBlockAllocator size must match allocation size.";

const NOT_ONE: &str = "Internal error: Chunk ID must be 1.";

const MISSING: &str = "Internal error: Chunk ID must be a valid value.";

const NOT_LISTED: &str = "Internal error: Attempting to free chunk that is not in chunk list.";

const FREED_TWICE: &str = "Internal error: Attempting to free a freed allocation.";

const RENAMED_AFTER_FREE: &str = "Internal error: Attempting to rename a freed allocation.";

const RENAMED_UNKNOWN: &str =
    "Internal error: Attempting to rename chunk that is not in chunk list.";

#[test]
fn a_dedicated_block_holds_one_piece_of_its_size(rt: HostRuntime) {
    const CALLS: &[Call] = &[
        IsGeneral(false),
        TakesNothing(999, 1, OTHER_SIZE),
        Allocated(0),
        Takes(1000, "a", (0, 1)),
        TakesNothing(999, 1, OUT_OF_MEMORY),
        TakesNothing(1000, 1, OUT_OF_MEMORY),
        Allocated(1000),
        FreesNothing(2, NOT_ONE),
        FreesNothing(0, NOT_ONE),
        Frees(1),
        FreesNothing(1, FREED_TWICE),
        FreesNothing(2, NOT_ONE),
        Allocated(0),
    ];
    check_dedicated(&rt, rt.alloc(), CALLS);
}

#[test]
fn a_word_stays_with_its_piece(rt: HostRuntime) {
    const CALLS: &[Call] = &[
        Takes(10, "a", (0, 2)),
        Takes(10, "b", (10, 3)),
        Words(&[0, 0]),
        SetsWord(3, u64::MAX),
        SetsWord(2, 7),
        Words(&[7, u64::MAX]),
        Renames(2, "a name of more than 22 bytes"),
        Words(&[7, u64::MAX]),
        SetsNoWord(0, MISSING),
        SetsNoWord(4, RENAMED_UNKNOWN),
        Frees(2),
        Words(&[u64::MAX]),
        SetsNoWord(2, RENAMED_AFTER_FREE),
        Takes(10, "c", (0, 2)),
        Words(&[0, u64::MAX]),
    ];
    check_list(&rt, rt.alloc(), 1, CALLS);
}

#[test]
fn a_word_stays_with_the_piece_of_a_dedicated_block(rt: HostRuntime) {
    const CALLS: &[Call] = &[
        SetsNoWord(1, RENAMED_AFTER_FREE),
        Takes(1000, "a", (0, 1)),
        Words(&[0]),
        SetsWord(1, 7),
        Renames(1, "b"),
        Words(&[7]),
        SetsNoWord(2, NOT_ONE),
        Frees(1),
        Takes(1000, "c", (0, 1)),
        Words(&[0]),
    ];
    check_dedicated(&rt, rt.alloc(), CALLS);
}

#[test]
fn a_free_list_in_a_block_gives_and_takes(rt: HostRuntime) {
    const CALLS: &[Call] = &[
        IsGeneral(true),
        Allocated(0),
        Takes(10, "a", (0, 2)),
        TakesNothing(4 * MB, 1, OUT_OF_MEMORY),
        FreesNothing(0, MISSING),
        FreesNothing(1, NOT_LISTED),
        FreesNothing(3, NOT_LISTED),
        FreesNothing(7, NOT_LISTED),
        Frees(2),
        FreesNothing(2, NOT_LISTED),
        Allocated(0),
        Takes(4 * MB, "b", (0, 2)),
        Frees(2),
        Takes(10, "a", (0, 3)),
    ];
    check_list(&rt, rt.alloc(), 1, CALLS);
}

/// The greatest alignment: of its multiples only 0 lies in a block of 4 MB.
const HALF: u64 = 9_223_372_036_854_775_808;

#[test]
fn sizes_and_alignments_may_be_as_large_as_they_like(rt: HostRuntime) {
    const CALLS: &[Call] = &[
        TakesNothing(u64::MAX, 1, OUT_OF_MEMORY),
        TakesAligned(1, HALF, "a", (0, 2)),
        TakesNothing(1, HALF, OUT_OF_MEMORY),
        TakesImage(64, 256, "b", (256, 3)),
    ];
    check_list(&rt, rt.alloc(), 1, CALLS);
}

/// Makes the calls in a block of all bytes that there can be.
fn count_in_all(alloc: Global, calls: &[Call]) -> usize {
    match general(alloc, u64::MAX, 1) {
        Ok(mut block) => count(alloc, &mut block, 1, calls),
        Err(_) => 0,
    }
}

#[test]
fn a_block_may_have_all_bytes(rt: HostRuntime) {
    const CALLS: &[Call] = &[
        Takes(u64::MAX - 1, "a", (0, 2)),
        Takes(1, "a", (u64::MAX - 1, 1)),
        TakesNothing(1, 1, OUT_OF_MEMORY),
    ];
    check_calls(&rt, count_in_all(rt.alloc(), CALLS), CALLS);
}

/// The greatest number that a piece can have.
const LAST: u64 = 18_446_744_073_709_551_614;

/// A block of 4 MB whose next piece has this number.
fn numbered(alloc: Global, next: u64) -> Result<SubAllocator>
    ensures { IfOk result (λ b. HasPages (block_of b) 1) }
{
    let granularity = 1u64;
    if next < 2 || !granularity.is_power_of_two() {
        return Err(AllocationError::InvalidAllocationCreateDesc);
    }
    let list = FreeListAllocator::with_counter(alloc, 4 * MB, granularity, next)?;
    Ok(SubAllocator::FreeList(list))
}

/// Makes the calls in a block whose next piece has this number.
fn count_from(alloc: Global, next: u64, calls: &[Call]) -> usize {
    match numbered(alloc, next) {
        Ok(mut block) => count(alloc, &mut block, 1, calls),
        Err(_) => 0,
    }
}

#[test]
fn the_last_number_in_a_block_is_given_once(rt: HostRuntime) {
    const CALLS: &[Call] = &[
        Takes(10, "a", (0, LAST)),
        TakesNothing(10, 1, OUT_OF_MEMORY),
        Takes(4_194_294, "c", (10, 1)),
        Frees(LAST),
        Takes(10, "d", (0, LAST)),
    ];
    check_calls(&rt, count_from(rt.alloc(), LAST, CALLS), CALLS);
}

#[test]
fn a_gap_is_refused_for_its_last_page(rt: HostRuntime) {
    const CALLS: &[Call] = &[
        Takes(2000, "a", (0, 2)),
        TakesImage(100, 1, "b", (2048, 3)),
        Frees(2),
        Takes(1000, "a", (0, 4)),
        Takes(1000, "a", (3072, 5)),
        TakesImage(1000, 1, "b", (4096, 6)),
    ];
    check_list(&rt, rt.alloc(), 1024, CALLS);
}

#[test]
fn a_live_piece_gets_another_name_and_no_other(rt: HostRuntime) {
    const CALLS: &[Call] = &[
        Takes(10, "a", (0, 2)),
        Takes(20, "b", (10, 3)),
        Takes(30, "c", (30, 4)),
        Frees(2),
        Renames(3, "new"),
        Reports("new 10 20;c 30 30;"),
        RenamesNothing(0, MISSING),
        RenamesNothing(1, RENAMED_AFTER_FREE),
        RenamesNothing(2, RENAMED_AFTER_FREE),
        RenamesNothing(5, RENAMED_UNKNOWN),
        Reports("new 10 20;c 30 30;"),
    ];
    check_list(&rt, rt.alloc(), 1, CALLS);
}

#[test]
fn a_dedicated_piece_gets_another_name(rt: HostRuntime) {
    const CALLS: &[Call] = &[
        RenamesNothing(1, RENAMED_AFTER_FREE),
        RenamesNothing(2, NOT_ONE),
        RenamesNothing(0, NOT_ONE),
        Reports(""),
        Takes(1000, "a", (0, 1)),
        RenamesNothing(2, NOT_ONE),
        Reports("a 0 1000;"),
        Renames(1, "new"),
        Reports("new 0 1000;"),
    ];
    check_dedicated(&rt, rt.alloc(), CALLS);
}

#[test]
fn a_live_piece_is_found_by_its_number(rt: HostRuntime) {
    const CALLS: &[Call] = &[
        Size(4 * MB),
        Takes(100, "a", (0, 2)),
        TakesAligned(64, 256, "b", (256, 3)),
        Finds(2, Some((0, 100))),
        Finds(3, Some((256, 64))),
        Finds(1, None),
        Finds(4, None),
    ];
    check_list(&rt, rt.alloc(), 1, CALLS);
}

#[test]
fn a_dedicated_piece_is_found_by_the_number_one(rt: HostRuntime) {
    const CALLS: &[Call] = &[
        Size(1000),
        Finds(1, None),
        Takes(1000, "a", (0, 1)),
        Finds(1, Some((0, 1000))),
        Finds(2, None),
    ];
    check_dedicated(&rt, rt.alloc(), CALLS);
}
