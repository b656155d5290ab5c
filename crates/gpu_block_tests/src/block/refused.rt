//! Every call of a block of either form, copies of a report's rows, and amounts, while the host refuses one request for memory. With ample memory
//! the tests pass. Where one request was refused they fail with a text of their own, after all else held:
//! `tools/check_refused` refuses each in turn, and looks for that text.

ghost use Rattle.std.specs.Prelude.{◌≡◌, ◌≢◌, ℕ};
ghost use Rattle.gpu_block.specs.Block.{HasPages};
ghost use Rattle.gpu_block.specs.SubAllocator.{block_of};

use super::{MB, allocate, dedicated, free, gave, general, linear, rename, report_text};
use crate::steps::{check, ends, is_refused, reads};
use gpu_block::SubAllocator;
use gpu_values::{AllocationReport, Result, fmt_bytes};
use std::alloc::Global;
use std::test::Fail;

/// How a test ends.
type Outcome = std::result::Result<(), Fail>;

/// Takes a piece; where the host refused memory nothing has changed, and it is asked for once more.
fn takes(
    block: &mut SubAllocator,
    refused: &mut u64,
    size: u64,
    name: &str,
    want: (u64, u64),
) -> bool
    requires { HasPages (block_of block.old) 1 }
    ensures { (g : ℕ) → HasPages (block_of block.old) g → HasPages (block_of block.new) g }
{
    let before = (block.allocated(), block.is_empty());
    let answer = allocate(block, linear(size, 1, 1, name));
    if is_refused(refused, &answer) {
        let after = (block.allocated(), block.is_empty());
        return after == before && gave(allocate(block, linear(size, 1, 1, name)), want);
    }
    gave(answer, want)
}

/// Whether a report shows this, asked for once more where the host refused memory. It stands in a text, which takes memory too.
fn shows(block: &SubAllocator, alloc: Global, refused: &mut u64, want: &str) -> bool {
    let answer = report_text(block, alloc);
    if is_refused(refused, &answer) {
        return reads(report_text(block, alloc), want);
    }
    reads(answer, want)
}

/// Gives another name; where the host refused memory the report is as before, and the name is given once more.
fn renames(
    block: &mut SubAllocator,
    alloc: Global,
    refused: &mut u64,
    chunk_id: u64,
    name: &str,
    before: &str,
) -> bool
    ensures { (g : ℕ) → HasPages (block_of block.old) g → HasPages (block_of block.new) g }
{
    let answer = rename(block, chunk_id, name);
    if is_refused(refused, &answer) {
        return shows(block, alloc, refused, before) && rename(block, chunk_id, name).is_ok();
    }
    answer.is_ok()
}

/// Whether there are so many texts.
fn are_so_many(texts: Result<Vec<String>>, want: usize) -> bool {
    match texts {
        Ok(texts) => texts.len() == want,
        Err(_) => false,
    }
}

/// Whether there are so many leaks by their texts, asked for once more where the host refused memory.
fn leaks(block: &SubAllocator, refused: &mut u64, want: usize) -> bool {
    let answer = block.leak_texts(0, 0);
    if is_refused(refused, &answer) {
        return are_so_many(block.leak_texts(0, 0), want);
    }
    are_so_many(answer, want)
}

const LONG: &str = "a second piece with a longer name";

const NEW: &str = "a name of more than twenty-two bytes";

/// Two pieces with names, one of them long enough to have memory of its own, a gap, and a piece in it.
fn calls(alloc: Global, b: &mut SubAllocator, refused: &mut u64) -> [bool; 8]
    requires { HasPages (block_of b.old) 1 }
{
    let before = "first 0 100;a second piece with a longer name 100 64;";
    let after = "first 0 100;a name of more than twenty-two bytes 100 64;";
    [
        takes(b, refused, 100, "first", (0, 2)),
        takes(b, refused, 64, LONG, (100, 3)),
        renames(b, alloc, refused, 3, NEW, before),
        shows(b, alloc, refused, after),
        leaks(b, refused, 2),
        (b.allocated(), b.size()) == (164, 4 * MB),
        free(b, 2).is_ok(),
        takes(b, refused, 50, "third", (0, 4)),
    ]
}

/// Many pieces, so that the block's own lists grow.
fn takes_many(b: &mut SubAllocator, refused: &mut u64) -> bool
    requires { HasPages (block_of b.old) 1 }
{
    for place in 0..40u64 {
        let want = (place.saturating_mul(16), place.saturating_add(2));
        if !takes(b, refused, 16, "piece", want) {
            return false;
        }
    }
    true
}

/// All of them back.
fn frees_many(b: &mut SubAllocator) -> bool {
    for chunk_id in 2..42u64 {
        if free(b, chunk_id).is_err() {
            return false;
        }
    }
    b.is_empty()
}

#[test]
fn a_free_list_loses_nothing_where_memory_is_refused(rt: HostRuntime) -> Outcome {
    let mut refused = 0;
    let Ok(mut block) = general(rt.alloc(), 4 * MB, 1) else {
        return ends(1);
    };
    check(&rt, &calls(rt.alloc(), &mut block, &mut refused));
    ends(refused)
}

#[test]
fn many_pieces_lose_nothing_where_memory_is_refused(rt: HostRuntime) -> Outcome {
    let mut refused = 0;
    let Ok(mut block) = general(rt.alloc(), 4 * MB, 1) else {
        return ends(1);
    };
    let taken = takes_many(&mut block, &mut refused);
    check(&rt, &[taken, frees_many(&mut block)]);
    ends(refused)
}

/// One piece of the block's size, with another name, and back.
fn dedicated_calls(alloc: Global, b: &mut SubAllocator, refused: &mut u64) -> [bool; 6]
    requires { HasPages (block_of b.old) 1 }
{
    let before = "a second piece with a longer name 0 1000;";
    let after = "a name of more than twenty-two bytes 0 1000;";
    [
        takes(b, refused, 1000, LONG, (0, 1)),
        renames(b, alloc, refused, 1, NEW, before),
        shows(b, alloc, refused, after),
        leaks(b, refused, 1),
        free(b, 1).is_ok(),
        b.is_empty(),
    ]
}

#[test]
fn a_dedicated_block_loses_nothing_where_memory_is_refused(rt: HostRuntime) -> Outcome {
    let mut refused = 0;
    let mut block = dedicated(rt.alloc(), 1000);
    check(&rt, &dedicated_calls(rt.alloc(), &mut block, &mut refused));
    ends(refused)
}

/// Whether it is a row of a name, an offset and a size.
fn is_row(row: Result<AllocationReport>) -> bool {
    match row {
        Ok(row) => (row.name.as_str(), row.offset, row.size) == ("a", 256, 64),
        Err(_) => false,
    }
}

/// A copy of a row, asked for once more where the host refused memory.
fn copies(row: &AllocationReport, refused: &mut u64) -> bool {
    let copy = row.clone();
    if is_refused(refused, &copy) {
        return is_row(row.clone());
    }
    is_row(copy)
}

/// The text of an amount, asked for once more where the host refused memory.
fn amounts(alloc: Global, refused: &mut u64) -> bool {
    let amount = fmt_bytes(alloc, 1536);
    if is_refused(refused, &amount) {
        return reads(fmt_bytes(alloc, 1536), "1.50 KB");
    }
    reads(amount, "1.50 KB")
}

#[test]
fn rows_and_amounts_lose_nothing_where_memory_is_refused(rt: HostRuntime) -> Outcome {
    let mut refused = 0;
    let Ok(name) = String::from_str(rt.alloc(), "a") else {
        return ends(1);
    };
    let row = AllocationReport {
        name,
        offset: 256,
        size: 64,
    };
    let steps = [
        copies(&row, &mut refused),
        amounts(rt.alloc(), &mut refused),
    ];
    check(&rt, &steps);
    ends(refused)
}
