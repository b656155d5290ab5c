//! The least offset of a resource beside those that are placed.

ghost use Rattle.std.specs.Prelude.{◌≡◌, ◌≢◌, ℕ, ◌+◌, ◌-◌, ◌/◌, ◌%◌, ◌^◌, ◌<◌, ◌≤◌, ◌↔◌, MatchOption, All, IsTrue};
ghost use Rattle.gpu_plan.specs.Plan.{Meets, IsFree, IsLeast, IsSound, Overlap, ShareByte, SharePage};
ghost use Rattle.gpu_plan.specs.Outcomes.{Skips, Tries};

use crate::resource::{Placed, Resource};

/// What an offset that is tried says of those behind it.
enum Outcome {
    /// It is free.
    Free,
    /// None before this one is.
    Next(u64),
    /// None of 64 bits is.
    Past,
}

/// The least multiple of `step` from a place on, if it has 64 bits.
pub fn round_up(place: u64, step: u64) -> Option<u64>
    requires { 0 < step }
    ensures { MatchOption result ((o : ℕ) → place ≤ o → o % step ≡ 0 → 2 ^ 64 ≤ o)
        (λ n. (place ≤ n) × (n % step ≡ 0) × ((o : ℕ) → place ≤ o → o % step ≡ 0 → n ≤ o)) }
{
    let over = place % step;
    if over == 0 {
        return Some(place);
    }
    let padding = step - over;
    if u64::MAX - place < padding {
        return None;
    }
    Some(place + padding)
}

/// Whether the two have a byte in common.
fn share_byte(o: u64, r: &Resource, p: &Placed) -> bool
    requires end { o + r.now.size < 2 ^ 64 }
    requires sound { IsSound p.now }
    ensures { IsTrue result ↔ ShareByte o r.now.size p.now.offset p.now.resource.size }
{
    o < p.offset + p.resource.size && p.offset < o + r.size
}

/// Whether one alone is linear and the two have a page in common.
fn share_page(o: u64, r: &Resource, p: &Placed, page: u64) -> bool
    requires end { o + r.now.size < 2 ^ 64 }
    requires sized { 0 < r.now.size }
    requires paged { 0 < page }
    requires sound { IsSound p.now }
    ensures { IsTrue result ↔ ((r.now.kind ≢ p.now.resource.kind)
        × SharePage page o r.now.size p.now.offset p.now.resource.size) }
{
    r.kind != p.resource.kind
        && o / page <= (p.offset + p.resource.size - 1) / page
        && p.offset / page <= (o + r.size - 1) / page
}

/// The place behind the page on which a byte lies, if it has 64 bits.
pub fn page_end(last: u64, page: u64) -> Option<u64>
    requires { 0 < page }
    ensures { MatchOption result ((q : ℕ) → q < 2 ^ 64 → q / page ≤ last / page)
        (λ n. ((q : ℕ) → q < n → q / page ≤ last / page) × ((q : ℕ) → q / page ≤ last / page → q < n)) }
{
    let start = last / page * page;
    if u64::MAX - start < page {
        return None;
    }
    Some(start + page)
}

/// Past a placed resource that the offset meets.
fn past(o: u64, r: &Resource, p: &Placed, page: u64) -> Outcome
    requires end { o + r.now.size < 2 ^ 64 }
    requires sized { 0 < r.now.size }
    requires aligned { 0 < r.now.alignment }
    requires paged { 0 < page }
    requires sound { IsSound p.now }
    ensures { Skips page r.now o p.now result }
{
    if r.last < p.resource.first || p.resource.last < r.first {
        return Outcome::Free;
    }
    let end = if share_page(o, r, p, page) {
        match page_end(p.offset + p.resource.size - 1, page) {
            Some(end) => end,
            None => return Outcome::Past,
        }
    } else if share_byte(o, r, p) {
        p.offset + p.resource.size
    } else {
        return Outcome::Free;
    };
    match round_up(end, r.alignment) {
        Some(next) => Outcome::Next(next),
        None => Outcome::Past,
    }
}

/// Past each placed resource that the offset meets, one after another.
fn next_try(placed: &[Placed], o: u64, r: &Resource, page: u64) -> Outcome
    requires end { o + r.now.size < 2 ^ 64 }
    requires sized { 0 < r.now.size }
    requires aligned { 0 < r.now.alignment }
    requires paged { 0 < page }
    requires sound { All IsSound placed.now }
    ensures { Tries page placed.now r.now o result }
{
    let mut at = o;
    for p in placed {
        if u64::MAX - r.size < at {
            return Outcome::Next(at);
        }
        match past(at, r, p, page) {
            Outcome::Free => {}
            Outcome::Next(next) => at = next,
            Outcome::Past => return Outcome::Past,
        }
    }
    if at == o {
        Outcome::Free
    } else {
        Outcome::Next(at)
    }
}

/// The least offset at which the resource is apart from all placed ones that are alive with it, if its end has 64 bits.
pub fn least_offset(placed: &[Placed], r: &Resource, page: u64) -> Option<u64>
    requires sized { 0 < r.now.size }
    requires aligned { 0 < r.now.alignment }
    requires paged { 0 < page }
    requires sound { All IsSound placed.now }
    ensures { MatchOption result ((o : ℕ) → IsFree page placed.now r.now o → 2 ^ 64 ≤ o + r.now.size)
        (λ o. IsLeast page placed.now r.now o × (o + r.now.size < 2 ^ 64)) }
{
    let size = r.size;
    let mut o: u64 = 0;
    while o <= u64::MAX - size {
        match next_try(placed, o, r, page) {
            Outcome::Free => return Some(o),
            Outcome::Next(next) => o = next,
            Outcome::Past => return None,
        }
    }
    None
}
