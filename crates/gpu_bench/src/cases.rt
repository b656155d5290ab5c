//! What is timed among many pieces.

ghost use Rattle.std.specs.Prelude.{◌≤◌, ◌<◌, ◌^◌};

use crate::draw::Draw;
use crate::error::Result;
use crate::field::Field;
use crate::show::{Times, show_case, show_tally, show_time};
use std::num::NonZeroU64;
use std::time::{Duration, Instant};

const MB: u64 = 1_048_576;

const PIECES: u64 = 10_000;

/// The order in which a filled block's pieces are given back.
#[derive(Clone, Copy)]
pub enum Order {
    AsTaken,
    /// By chance.
    Mixed,
}

impl Order {
    fn name(self) -> &'static str {
        match self {
            Order::AsTaken => "",
            Order::Mixed => " in mixed order",
        }
    }
}

/// Puts the pieces in an order by chance.
fn mix(draw: &mut Draw, numbers: &mut [Option<NonZeroU64>]) {
    for place in 1..PIECES {
        let other = draw.between(0, place) as usize;
        if (place as usize) < numbers.len() {
            numbers.swap(place as usize, other);
        }
    }
}

/// Takes mixed pieces of at most that size.
fn take_mixed(
    field: &mut Field,
    draw: &mut Draw,
    most: u64,
    numbers: &mut Vec<Option<NonZeroU64>>,
) -> Result<()>
    requires some { 64 ≤ most }
    requires small { most < 2 ^ 32 }
{
    for _ in 0..PIECES {
        numbers.push(field.take(draw.mixed(most)))?;
    }
    Ok(())
}

/// Fills the block once, gives all back, and adds what that took.
fn time_round(
    rt: &HostRuntime,
    field: &mut Field,
    draw: &mut Draw,
    order: Order,
    numbers: &mut Vec<Option<NonZeroU64>>,
    times: &mut Times,
) -> Result<()> {
    let start = Instant::now(rt)?;
    take_mixed(field, draw, 32_768, numbers)?;
    times.taking = times.taking.saturating_add(start.elapsed(rt)?);
    if let Order::Mixed = order {
        mix(draw, numbers);
    }
    let start = Instant::now(rt)?;
    field.give_all_back(numbers);
    times.giving = times.giving.saturating_add(start.elapsed(rt)?);
    Ok(())
}

fn show_fill(
    rt: &HostRuntime,
    order: Order,
    field: &Field,
    times: Times,
    operations: u64,
) -> Result<()> {
    let how = order.name();
    let case = format!(in rt.alloc(); "fill and free{how}")?;
    show_tally(rt, case.as_str(), field)?;
    show_time(rt, "fill: a take", times.taking, operations)?;
    let release = format!(in rt.alloc(); "fill: a release{how}")?;
    show_time(rt, release.as_str(), times.giving, operations)?;
    Ok(())
}

/// Fills a block with mixed pieces, and gives all back in that order.
pub fn fill_and_free(rt: &HostRuntime, order: Order, rounds: u64) -> Result<()> {
    let mut draw = Draw::new(1);
    let mut field = Field::new(rt.alloc(), 256 * MB, 1)?;
    let mut times = Times::new();
    for _ in 0..rounds {
        let mut numbers = Vec::new(rt.alloc());
        time_round(rt, &mut field, &mut draw, order, &mut numbers, &mut times)?;
    }
    show_fill(rt, order, &field, times, PIECES.wrapping_mul(rounds))
}

/// What so many reports take.
fn time_reports(rt: &HostRuntime, field: &Field, rounds: u64) -> Result<Duration> {
    let start = Instant::now(rt)?;
    for _ in 0..rounds {
        let _ = field.report()?;
    }
    Ok(start.elapsed(rt)?)
}

/// Reports of a block that is full of mixed pieces.
pub fn report(rt: &HostRuntime, rounds: u64) -> Result<()> {
    let mut draw = Draw::new(5);
    let mut field = Field::new(rt.alloc(), 256 * MB, 1)?;
    let mut numbers = Vec::new(rt.alloc());
    take_mixed(&mut field, &mut draw, 32_768, &mut numbers)?;
    let taken = time_reports(rt, &field, rounds)?;
    show_case(
        rt,
        "report, a piece",
        &field,
        taken,
        PIECES.wrapping_mul(rounds),
    )?;
    Ok(())
}

/// Says what it holds before and after it took mixed pieces, for tools/host_memory, which counts the memory that they take.
pub fn hold(rt: &HostRuntime) -> Result<()> {
    let mut draw = Draw::new(6);
    let mut field = Field::new(rt.alloc(), 256 * MB, 1)?;
    let mut numbers = Vec::with_capacity(rt.alloc(), PIECES as usize)?;
    show_tally(rt, "before", &field)?;
    take_mixed(&mut field, &mut draw, 32_768, &mut numbers)?;
    show_tally(rt, "holding", &field)?;
    Ok(())
}

/// One piece goes and another comes, by chance.
fn exchange(field: &mut Field, draw: &mut Draw, numbers: &mut Vec<Option<NonZeroU64>>) {
    let place = draw.between(0, PIECES - 1) as usize;
    if let Some(number) = numbers.get_mut(place) {
        field.give_back(*number);
        *number = field.take(draw.mixed(65_536));
    }
}

/// What so many exchanges take.
fn time_exchanges(
    rt: &HostRuntime,
    field: &mut Field,
    draw: &mut Draw,
    numbers: &mut Vec<Option<NonZeroU64>>,
    turns: u64,
) -> Result<Duration> {
    let start = Instant::now(rt)?;
    for _ in 0..turns {
        exchange(field, draw, numbers);
    }
    Ok(start.elapsed(rt)?)
}

fn show_churn(
    rt: &HostRuntime,
    pages: u64,
    field: &Field,
    taken: Duration,
    turns: u64,
) -> Result<()> {
    let case = format!(in rt.alloc(); "churn with pages of {pages}")?;
    show_case(rt, case.as_str(), field, taken, turns)?;
    Ok(())
}

/// Pieces that come and go by chance among many that stay.
pub fn churn(rt: &HostRuntime, pages: u64, turns: u64) -> Result<()> {
    let mut draw = Draw::new(2);
    let mut field = Field::new(rt.alloc(), 512 * MB, pages)?;
    let mut numbers = Vec::new(rt.alloc());
    take_mixed(&mut field, &mut draw, 65_536, &mut numbers)?;
    let taken = time_exchanges(rt, &mut field, &mut draw, &mut numbers, turns)?;
    show_churn(rt, pages, &field, taken, turns)
}
