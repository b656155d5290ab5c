// Times blocks, memory types and lent bytes. What was granted and refused goes to standard output and is the same in every
// run; what an operation took goes to standard error. With the argument `large` the runs are longer; with `hold` nothing is
// timed, and pieces are held while tools/host_memory counts their memory. `lists [--runs N] [--check] [NAME]..` runs the lists of
// operations that other allocators are timed on as well.
#![tactic(auto)]

mod blocks;
mod cases;
mod draw;
mod error;
mod field;
mod gaps;
mod lent;
mod lists;
mod show;

use crate::error::Result;
use blocks::beside_blocks;
use cases::{Order, churn, fill_and_free, hold, report};
use gaps::{beside_gaps, misaligned, never_fits, of_another_page, too_long};
use lent::live_allocations;
use lists::{check_lists, run_lists};
use std::env;

/// How long the runs are.
#[derive(Clone, Copy)]
struct Length {
    rounds: u64,
    turns: u64,
    batches: u64,
    requests: u64,
    most_gaps: u64,
    most_blocks: u64,
    reports: u64,
}

const SHORT: Length = Length {
    rounds: 1,
    turns: 5_000,
    batches: 20,
    requests: 10,
    most_gaps: 10_000,
    most_blocks: 100,
    reports: 1,
};

const LONG: Length = Length {
    rounds: 50,
    turns: 1_000_000,
    batches: 2_000,
    requests: 2_000,
    most_gaps: 50_000,
    most_blocks: 1_000,
    reports: 100,
};

/// What the argument asks for.
#[derive(Clone, Copy)]
enum Run {
    Timed(Length),
    /// Nothing is timed: pieces are held while their memory is counted.
    Held,
    /// The lists of operations.
    Lists,
}

fn run_asked(rt: &HostRuntime) -> Result<Run> {
    match env::args(rt)?.nth(1) {
        Some(word) if word.as_str() == "large" => Ok(Run::Timed(LONG)),
        Some(word) if word.as_str() == "hold" => Ok(Run::Held),
        Some(word) if word.as_str() == "lists" => Ok(Run::Lists),
        _ => Ok(Run::Timed(SHORT)),
    }
}

/// Takes and releases beside more and more gaps.
fn beside_more_gaps(rt: &HostRuntime, length: Length) -> Result<()> {
    for count in [100, 1_000, 10_000, 50_000] {
        if count <= length.most_gaps {
            beside_gaps(rt, count, length.batches)?;
        }
    }
    Ok(())
}

/// Requests that are refused beside many gaps.
fn refused(rt: &HostRuntime, length: Length) -> Result<()> {
    too_long(rt, 10_000, length.turns)?;
    never_fits(rt, "misaligned", 1, misaligned(), 10_000, length.requests)?;
    never_fits(
        rt,
        "on the wrong page",
        1_024,
        of_another_page(),
        10_000,
        length.requests,
    )?;
    Ok(())
}

/// Takes and releases beside more and more full blocks.
fn beside_more_blocks(rt: &HostRuntime, length: Length) -> Result<()> {
    for count in [1, 100, 1_000] {
        if count <= length.most_blocks {
            beside_blocks(rt, count, length.batches)?;
        }
    }
    Ok(())
}

/// One case after another.
fn time_all(rt: &HostRuntime, length: Length) -> Result<()> {
    fill_and_free(rt, Order::AsTaken, length.rounds)?;
    fill_and_free(rt, Order::Mixed, length.rounds)?;
    churn(rt, 1, length.turns)?;
    churn(rt, 1_024, length.turns)?;
    beside_more_gaps(rt, length)?;
    refused(rt, length)?;
    beside_more_blocks(rt, length)?;
    report(rt, length.reports)?;
    live_allocations(rt, length.reports)?;
    check_lists(rt)
}

fn main(rt: HostRuntime) -> Result<()> {
    match run_asked(&rt)? {
        Run::Timed(length) => time_all(&rt, length),
        Run::Held => hold(&rt),
        Run::Lists => run_lists(&rt),
    }
}
