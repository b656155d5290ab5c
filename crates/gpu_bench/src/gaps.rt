//! What is timed beside many gaps.

ghost use Rattle.std.specs.Prelude.{◌≢◌};

use crate::draw::{Asked, Draw};
use crate::error::Result;
use crate::field::Field;
use crate::show::{Times, show_tally, show_time};
use gpu_values::AllocationType;
use std::num::NonZeroU64;
use std::time::{Duration, Instant};

/// So many pieces are taken, and then so many given back, between two looks at the clock.
const BATCH: u64 = 16;

const HALF: u64 = 512;

/// Takes two pieces for each gap, and gives the second back.
fn open_gaps(
    field: &mut Field,
    draw: &mut Draw,
    count: u64,
    gone: &mut Vec<Option<NonZeroU64>>,
) -> Result<()> {
    for _ in 0..count {
        let _ = field.take(draw.plain());
        gone.push(field.take(draw.plain()))?;
    }
    Ok(())
}

/// A field with so many gaps of 64 bytes to 4 KB between pieces, and one behind all of them.
fn field_of_gaps(rt: &HostRuntime, draw: &mut Draw, count: u64) -> Result<Field> {
    let mut field = Field::new(rt.alloc(), count.wrapping_mul(8_192), 1)?;
    let mut gone = Vec::new(rt.alloc());
    open_gaps(&mut field, draw, count, &mut gone)?;
    field.give_all_back(&gone);
    Ok(field)
}

fn take_batch(
    field: &mut Field,
    draw: &mut Draw,
    numbers: &mut Vec<Option<NonZeroU64>>,
) -> Result<()> {
    for _ in 0..BATCH {
        numbers.push(field.take(draw.plain()))?;
    }
    Ok(())
}

/// Takes a batch and gives it back, and adds what that took.
fn time_batch(
    rt: &HostRuntime,
    field: &mut Field,
    draw: &mut Draw,
    numbers: &mut Vec<Option<NonZeroU64>>,
    times: &mut Times,
) -> Result<()> {
    numbers.clear();
    let start = Instant::now(rt)?;
    take_batch(field, draw, numbers)?;
    times.taking = times.taking.saturating_add(start.elapsed(rt)?);
    let start = Instant::now(rt)?;
    field.give_all_back(numbers);
    times.giving = times.giving.saturating_add(start.elapsed(rt)?);
    Ok(())
}

fn show_beside(
    rt: &HostRuntime,
    count: u64,
    field: &Field,
    times: Times,
    operations: u64,
) -> Result<()> {
    let tally = format!(in rt.alloc(); "beside {count} gaps")?;
    show_tally(rt, tally.as_str(), field)?;
    let take = format!(in rt.alloc(); "a take beside {count} gaps")?;
    show_time(rt, take.as_str(), times.taking, operations)?;
    let release = format!(in rt.alloc(); "a release beside {count} gaps")?;
    show_time(rt, release.as_str(), times.giving, operations)?;
    Ok(())
}

/// Pieces that are taken and given back beside so many gaps.
pub fn beside_gaps(rt: &HostRuntime, count: u64, turns: u64) -> Result<()> {
    let mut draw = Draw::new(3);
    let mut field = field_of_gaps(rt, &mut draw, count)?;
    let mut numbers = Vec::new(rt.alloc());
    let mut times = Times::new();
    for _ in 0..turns {
        time_batch(rt, &mut field, &mut draw, &mut numbers, &mut times)?;
    }
    show_beside(rt, count, &field, times, turns.wrapping_mul(BATCH))
}

/// Asks so often for the same piece.
fn ask_often(field: &mut Field, asked: Asked, turns: u64)
    requires { asked.kind ≢ AllocationType.Free }
{
    for _ in 0..turns {
        let _ = field.take(asked);
    }
}

/// What asking so often takes.
fn time_asking(rt: &HostRuntime, field: &mut Field, asked: Asked, turns: u64) -> Result<Duration>
    requires { asked.kind ≢ AllocationType.Free }
{
    let start = Instant::now(rt)?;
    ask_often(field, asked, turns);
    Ok(start.elapsed(rt)?)
}

fn show_too_long(
    rt: &HostRuntime,
    count: u64,
    field: &Field,
    taken: Duration,
    turns: u64,
) -> Result<()> {
    let tally = format!(in rt.alloc(); "too long for {count} gaps")?;
    show_tally(rt, tally.as_str(), field)?;
    let case = format!(in rt.alloc(); "a request too long for {count} gaps")?;
    show_time(rt, case.as_str(), taken, turns)?;
    Ok(())
}

/// Requests that are longer than each of so many gaps.
pub fn too_long(rt: &HostRuntime, count: u64, turns: u64) -> Result<()> {
    let mut draw = Draw::new(4);
    let mut field = field_of_gaps(rt, &mut draw, count)?;
    let asked = Asked {
        size: 1 << 40,
        alignment: 1,
        kind: AllocationType::Linear,
    };
    let taken = time_asking(rt, &mut field, asked, turns)?;
    show_too_long(rt, count, &field, taken, turns)
}

/// A field that is full of linear pieces of half a page but for every other one.
fn field_of_halves(rt: &HostRuntime, pages: u64, count: u64) -> Result<Field> {
    let mut field = Field::new(rt.alloc(), count.wrapping_mul(2 * HALF), pages)?;
    let half = Asked {
        size: HALF,
        alignment: 1,
        kind: AllocationType::Linear,
    };
    let mut gone = Vec::new(rt.alloc());
    for _ in 0..count {
        let _ = field.take(half);
        gone.push(field.take(half))?;
    }
    field.give_all_back(&gone);
    Ok(field)
}

fn show_never(
    rt: &HostRuntime,
    case: &str,
    field: &Field,
    taken: Duration,
    operations: u64,
) -> Result<()> {
    show_tally(rt, case, field)?;
    let gap = format!(in rt.alloc(); "{case}, a gap")?;
    show_time(rt, gap.as_str(), taken, operations)?;
    Ok(())
}

/// Requests that fit in none of so many gaps, though each is long enough.
pub fn never_fits(
    rt: &HostRuntime,
    case: &str,
    pages: u64,
    asked: Asked,
    count: u64,
    turns: u64,
) -> Result<()>
    requires { asked.kind ≢ AllocationType.Free }
{
    let mut field = field_of_halves(rt, pages, count)?;
    let taken = time_asking(rt, &mut field, asked, turns)?;
    show_never(rt, case, &field, taken, turns.wrapping_mul(count))
}

/// A piece that would have to begin where each gap ends.
pub fn misaligned() -> Asked
    ensures { result.kind ≢ AllocationType.Free }
{
    Asked {
        size: 256,
        alignment: 2 * HALF,
        kind: AllocationType::Linear,
    }
}

/// A piece that may not begin on the page of any gap.
pub fn of_another_page() -> Asked
    ensures { result.kind ≢ AllocationType.Free }
{
    Asked {
        size: 256,
        alignment: 1,
        kind: AllocationType::NonLinear,
    }
}
