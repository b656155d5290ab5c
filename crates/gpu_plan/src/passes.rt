//! How many bytes are alive in a pass. They are the most in a pass in which some resource's life begins.

ghost use Rattle.std.specs.Prelude.{◌≡◌, ℕ, ◌<◌, ◌≤◌, ◌↔◌, ◌⊎◌, IsTrue, IfOk, OnOk, List, length};
ghost use Rattle.gpu_plan.specs.Plan.{resource_at};
ghost use Rattle.gpu_plan.specs.Passes.{bytes_alive, AreTrue, HasStart, AreStarts, IsPeak, IsBusiest};

use crate::resource::Resource;
use std::alloc::{AllocError, Global};

/// A pass in which some resource's life begins.
#[derive(Clone, Copy)]
pub struct Start {
    /// The pass.
    pub pass: u64,
    /// The bytes alive in it.
    pub bytes: u128,
}

/// The sizes of those alive in a pass, together.
fn bytes_alive(resources: &[Resource], pass: u64) -> u128
    ensures { result ≡ bytes_alive resources.now pass }
{
    let mut bytes: u128 = 0;
    for r in resources {
        if (r.first <= pass) & (pass <= r.last) {
            bytes += r.size as u128;
        }
    }
    bytes
}

/// Adds a pass with the bytes alive in it, unless it is there.
fn add_start(starts: &mut Vec<Start>, resources: &[Resource], pass: u64) -> Result<(), AllocError>
    requires { AreTrue resources.now starts.old.items }
    ensures told { AreTrue resources.now starts.new.items }
    ensures kept { (p : ℕ) → HasStart starts.old.items p → HasStart starts.new.items p }
    ensures added { OnOk result (HasStart starts.new.items pass) }
{
    let index = starts.partition_point(|start| start.pass < pass);
    if index < starts.len() && starts[index].pass == pass {
        return Ok(());
    }
    let bytes = bytes_alive(resources, pass);
    starts.insert(index, Start { pass, bytes })?;
    Ok(())
}

/// The passes in which lives begin, each once.
pub fn starts(alloc: Global, resources: &[Resource]) -> Result<Vec<Start>, AllocError>
    ensures { IfOk result (λ starts. AreStarts resources.now starts.items) }
{
    let mut starts = Vec::new(alloc);
    for r in resources {
        add_start(&mut starts, resources, r.first)?;
    }
    Ok(starts)
}

/// The most bytes that are alive in one pass.
pub fn peak(starts: &[Start]) -> u128
    ensures { (resources : List Resource) → AreStarts resources starts.now
        → IsPeak resources result }
{
    let mut most = 0;
    for start in starts {
        if most < start.bytes {
            most = start.bytes;
        }
    }
    most
}

// Whether the pass is one of a life.
fn is_within(start: &Start, first: u64, last: u64) -> bool
    ensures { IsTrue result ↔ ((first ≤ start.now.pass) × (start.now.pass ≤ last)) }
{
    (first <= start.pass) & (start.pass <= last)
}

// Whether more bytes are alive in it, or as many and it comes before.
fn is_busier(start: &Start, than: &Start) -> bool
    ensures { IsTrue result ↔ ((than.now.bytes < start.now.bytes)
        ⊎ ((start.now.bytes ≡ than.now.bytes) × (start.now.pass < than.now.pass))) }
{
    than.bytes < start.bytes || start.bytes == than.bytes && start.pass < than.pass
}

/// The start at a pass, with no bytes where there is none.
fn start_at(starts: &[Start], pass: u64) -> Start
    ensures pass { result.pass ≡ pass }
    ensures bytes { (resources : List Resource) → AreTrue resources starts.now
        → HasStart starts.now pass → result.bytes ≡ bytes_alive resources pass }
{
    for start in starts {
        if start.pass == pass {
            return *start;
        }
    }
    Start { pass, bytes: 0 }
}

/// Of the passes of a life the one in which the most bytes are alive, of equal ones the first.
pub fn busiest(starts: &[Start], first: u64, last: u64) -> Start
    ensures { (resources : List Resource) (index : ℕ) → AreStarts resources starts.now
        → index < length resources → (resource_at resources index).first ≡ first
        → (resource_at resources index).last ≡ last → first ≤ last
        → IsBusiest resources (resource_at resources index) result.pass
        × (result.bytes ≡ bytes_alive resources result.pass) }
{
    let mut best = start_at(starts, first);
    for start in starts {
        if is_within(start, first, last) && is_busier(start, &best) {
            best = *start;
        }
    }
    best
}
