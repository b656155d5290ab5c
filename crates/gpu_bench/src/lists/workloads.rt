//! The lists. Each is made before any clock starts, and depends on no answer.

ghost use Rattle.std.specs.Prelude.{◌<◌, ◌≤◌, ◌+◌, ℕ};

use crate::lists::work::{Class, Generator, Work};
use std::alloc::{AllocError, Global};

const BATCH: u64 = 32;

const TEETH: u64 = 21;

/// The names of all lists.
pub const NAMES: [&str; 16] = [
    "a_fill_g1",
    "a_fill_g1024",
    "b_churn_g1",
    "b_churn_g1024",
    "c_frag",
    "d_gaps_100",
    "d_gaps_1000",
    "d_gaps_10000",
    "d_gaps_50000",
    "e_refuse_10000",
    "f_after_50000",
    "g_misaligned_10000",
    "h_pages_10000",
    "i_equal_10000",
    "i_equal_50000",
    "k_comb",
];

/// The list of that name.
pub fn work_of(alloc: Global, name: &str) -> Result<Work, AllocError> {
    match name {
        "a_fill_g1" => fill(alloc, "a_fill_g1", 1),
        "a_fill_g1024" => fill(alloc, "a_fill_g1024", 1024),
        "b_churn_g1" => churn(alloc, "b_churn_g1", 1),
        "b_churn_g1024" => churn(alloc, "b_churn_g1024", 1024),
        "c_frag" => frag(alloc),
        "d_gaps_100" => beside_gaps(alloc, "d_gaps_100", 100, 2_000),
        "d_gaps_1000" => beside_gaps(alloc, "d_gaps_1000", 1_000, 1_000),
        "d_gaps_10000" => beside_gaps(alloc, "d_gaps_10000", 10_000, 200),
        "d_gaps_50000" => beside_gaps(alloc, "d_gaps_50000", 50_000, 50),
        "e_refuse_10000" => refuse(alloc),
        "f_after_50000" => after(alloc),
        "g_misaligned_10000" => misaligned(alloc),
        "h_pages_10000" => pages(alloc),
        "i_equal_10000" => equal(alloc, "i_equal_10000", 10_000, 4),
        "i_equal_50000" => equal(alloc, "i_equal_50000", 50_000, 1),
        _ => comb(alloc),
    }
}

/// The numbers below `n`, in an order by chance.
fn shuffled(alloc: Global, draw: &mut Generator, n: u64) -> Result<Vec<u64>, AllocError> {
    let mut order: Vec<u64> = (0..n).collect(alloc)?;
    for i in (1..order.len()).rev() {
        let j = draw.below(i as u64 + 1) as usize;
        order.swap(i, j);
    }
    Ok(order)
}

/// A block is filled with mixed pieces, and they are freed in mixed order.
fn fill(alloc: Global, name: &'static str, granularity: u64) -> Result<Work, AllocError> {
    let n = 10_000u64;
    let mut draw = Generator::new(1);
    let mut work = Work::new(alloc, name, granularity, n as usize);
    for _ in 0..20 {
        for slot in 0..n {
            work.mixed(&mut draw, slot)?;
        }
        work.cut(Class::Alloc)?;
        for slot in &shuffled(alloc, &mut draw, n)? {
            work.free(*slot)?;
        }
        work.cut(Class::Free)?;
    }
    Ok(work)
}

/// One of 10,000 mixed pieces is freed, and another is allocated.
fn churn(alloc: Global, name: &'static str, granularity: u64) -> Result<Work, AllocError> {
    let n = 10_000u64;
    let mut draw = Generator::new(2);
    let mut work = Work::new(alloc, name, granularity, n as usize);
    for slot in 0..n {
        work.mixed(&mut draw, slot)?;
    }
    work.cut(Class::Untimed)?;
    for _ in 0..200_000 {
        let slot = draw.below(n);
        work.free(slot)?;
        work.mixed(&mut draw, slot)?;
    }
    work.cut(Class::Whole)?;
    Ok(work)
}

/// Every second piece is freed, and then pieces of other sizes are allocated.
fn frag(alloc: Global) -> Result<Work, AllocError> {
    let mut draw = Generator::new(3);
    let mut work = Work::new(alloc, "c_frag", 1, 30_000);
    for slot in 0..20_000u64 {
        work.linear(slot, 1024, 256)?;
    }
    work.cut(Class::Fill)?;
    for i in 0..10_000u64 {
        work.free(2 * i)?;
    }
    work.cut(Class::Punch)?;
    for i in 0..10_000u64 {
        let size = draw.below(3585).wrapping_add(512);
        let alignment = draw.alignment();
        work.linear(20_000 + i, size, alignment)?;
    }
    work.cut(Class::Alloc)?;
    for i in 0..10_000u64 {
        work.free(2 * i + 1)?;
    }
    for slot in 20_000..30_000u64 {
        work.free(slot)?;
    }
    work.cut(Class::Free)?;
    Ok(work)
}

/// Gaps of 64 to 4,096 bytes, and the rest of the block.
fn gaps(work: &mut Work, draw: &mut Generator, n: u64) -> Result<(), AllocError>
    requires { n ≤ 50_000 }
{
    for i in 0..n {
        let size = draw.below(4033).wrapping_add(64);
        work.linear(2 * i, size, 1)?;
        work.linear(2 * i + 1, 64, 1)?;
    }
    free_evens(work, n)
}

/// Frees every second piece.
fn free_evens(work: &mut Work, n: u64) -> Result<(), AllocError>
    requires { n ≤ 50_000 }
{
    for i in 0..n {
        work.free(2 * i)?;
    }
    Ok(())
}

/// Frees a batch.
fn free_batch(work: &mut Work, first: u64) -> Result<(), AllocError>
    requires { first ≤ 100_000 }
{
    for j in 0..BATCH {
        work.free(first + j)?;
    }
    work.cut(Class::Free)
}

/// Batches of pieces are allocated and freed.
fn batches(
    work: &mut Work,
    draw: &mut Generator,
    first: u64,
    count: usize,
) -> Result<(), AllocError>
    requires { first ≤ 100_000 }
{
    for _ in 0..count {
        for j in 0..BATCH {
            let size = draw.below(4033).wrapping_add(64);
            let alignment = draw.alignment();
            work.linear(first + j, size, alignment)?;
        }
        work.cut(Class::Alloc)?;
        free_batch(work, first)?;
    }
    Ok(())
}

/// Pieces are allocated and freed beside gaps.
fn beside_gaps(alloc: Global, name: &'static str, n: u64, count: usize) -> Result<Work, AllocError>
    requires { n ≤ 50_000 }
{
    let mut draw = Generator::new(4);
    let mut work = Work::new(alloc, name, 1, (2 * n + BATCH) as usize);
    gaps(&mut work, &mut draw, n)?;
    work.cut(Class::Untimed)?;
    batches(&mut work, &mut draw, 2 * n, count)?;
    Ok(work)
}

/// A request that is longer than each gap.
fn refuse(alloc: Global) -> Result<Work, AllocError> {
    let mut draw = Generator::new(5);
    let mut work = Work::new(alloc, "e_refuse_10000", 1, 20_002);
    gaps(&mut work, &mut draw, 10_000)?;
    let rest = work.block.wrapping_sub(work.asked());
    work.linear(20_000, rest, 1)?;
    work.cut(Class::Untimed)?;
    for _ in 0..3_200 {
        work.linear(20_001, 8192, 1)?;
    }
    work.cut(Class::Whole)?;
    Ok(work)
}

/// Pieces are allocated and freed where 50,000 gaps were.
fn after(alloc: Global) -> Result<Work, AllocError> {
    let mut draw = Generator::new(6);
    let mut work = Work::new(alloc, "f_after_50000", 1, 100_032);
    gaps(&mut work, &mut draw, 50_000)?;
    for i in 0..50_000u64 {
        work.free(2 * i + 1)?;
    }
    work.cut(Class::Untimed)?;
    batches(&mut work, &mut draw, 100_000, 200)?;
    Ok(work)
}

/// 10,000 gaps that are long enough and serve no piece of that size, alignment and kind.
fn useless(work: &mut Work, size: u64, alignment: u64, non_linear: bool) -> Result<(), AllocError> {
    free_evens(work, 10_000)?;
    work.cut(Class::Untimed)?;
    for _ in 0..50 {
        for slot in 20_000..20_032u64 {
            work.allocate(slot, size, alignment, non_linear)?;
        }
        work.cut(Class::Alloc)?;
        free_batch(work, 20_000)?;
    }
    Ok(())
}

/// No gap is long enough for the alignment of a request.
fn misaligned(alloc: Global) -> Result<Work, AllocError> {
    let mut work = Work::new(alloc, "g_misaligned_10000", 1, 20_033);
    work.linear(20_032, 32, 1)?;
    for i in 0..10_000u64 {
        work.linear(2 * i, 4096, 1)?;
        work.linear(2 * i + 1, 64, 1)?;
    }
    useless(&mut work, 4096, 64, false)?;
    Ok(work)
}

/// Each gap shares its page with a piece of the other kind.
fn pages(alloc: Global) -> Result<Work, AllocError> {
    let mut work = Work::new(alloc, "h_pages_10000", 1024, 20_032);
    for i in 0..10_000u64 {
        work.linear(2 * i, 1000, 1)?;
        work.linear(2 * i + 1, 24, 1)?;
    }
    useless(&mut work, 1000, 1, true)?;
    Ok(work)
}

/// All gaps have one length; they are made in an order by chance, and filled again.
fn equal(alloc: Global, name: &'static str, n: u64, rounds: usize) -> Result<Work, AllocError>
    requires { n ≤ 50_000 }
{
    let mut draw = Generator::new(7);
    let mut work = Work::new(alloc, name, 1, (2 * n) as usize);
    for i in 0..n {
        work.linear(2 * i, 4096, 1)?;
        work.linear(2 * i + 1, 64, 1)?;
    }
    work.cut(Class::Untimed)?;
    for _ in 0..rounds {
        for place in &shuffled(alloc, &mut draw, n)? {
            work.free(place.wrapping_mul(2))?;
        }
        work.cut(Class::Free)?;
        for i in 0..n {
            work.linear(2 * i, 4096, 1)?;
        }
        work.cut(Class::Alloc)?;
    }
    Ok(work)
}

/// Gaps of 64 bytes at the powers of two from 128 on: the deepest tree of their starts. The rest of the block is taken.
fn teeth(work: &mut Work) -> Result<(), AllocError> {
    let mut end = 0u64;
    for i in 0..TEETH {
        let start = 128u64 << i;
        work.linear(2 * i, start.wrapping_sub(end), 1)?;
        work.linear(2 * i + 1, 64, 1)?;
        end = start.wrapping_add(64);
    }
    work.linear(100, work.block.wrapping_sub(end), 1)?;
    for i in 0..TEETH {
        work.free(2 * i + 1)?;
    }
    work.cut(Class::Untimed)
}

/// The gaps of the deepest tree are filled one after another, and made again from behind.
fn comb(alloc: Global) -> Result<Work, AllocError> {
    let mut work = Work::new(alloc, "k_comb", 1, 128);
    teeth(&mut work)?;
    for _ in 0..2_000 {
        for i in 0..TEETH {
            work.linear(2 * i + 1, 64, 1)?;
        }
        work.cut(Class::Alloc)?;
        for i in (0..TEETH).rev() {
            work.free(2 * i + 1)?;
        }
        work.cut(Class::Free)?;
    }
    Ok(work)
}
