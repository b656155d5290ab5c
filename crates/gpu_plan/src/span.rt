//! The least offset of a resource beside the spans of those that are placed: of its kind, and of the other kind.

ghost use Rattle.std.specs.Prelude.{◌≡◌, ℕ, ◌+◌, ◌-◌, ◌/◌, ◌%◌, ◌^◌, ◌<◌, ◌≤◌, ◌↔◌, All, MatchOption, IsTrue, length};
ghost use Rattle.std.specs.List.Sorted.{IsNonDecreasingBy};
ghost use Rattle.gpu_plan.specs.Span.{IsAlive, IsPassed, IsReached, NoneFrom, IsSpan, IsBeside, ArePassed};

use crate::place::{page_end, round_up};
use crate::resource::Resource;

/// The bytes of a placed resource, and the passes in which it is alive.
#[derive(Clone, Copy)]
pub struct Span {
    /// The first pass in which it is alive.
    pub first: u64,
    /// The last one.
    pub last: u64,
    /// Its first byte.
    pub start: u64,
    /// The byte behind its last one.
    pub end: u64,
}

/// An offset that is past the first spans of a list.
#[derive(Drop)]
struct Reached {
    offset: u64,
    /// How many spans those are.
    next: usize,
}

/// The page that a place lies on.
fn page_of(place: u64, page: u64) -> u64
    requires { 0 < page }
    ensures { result ≡ place / page }
{
    // resources of one kind have pages of one byte, which cost no division
    if page == 1 { place } else { place / page }
}

/// Whether some pass has both.
fn is_alive(span: &Span, r: &Resource) -> bool
    ensures { IsTrue result ↔ IsAlive r.now span.now }
{
    (r.first <= span.last) & (span.first <= r.last)
}

/// The least offset of a resource behind the page on which a span ends, if its end has 64 bits.
fn past_span(span: &Span, r: &Resource, page: u64) -> Option<u64>
    requires sized { IsSpan span.now }
    requires aligned { 0 < r.now.alignment }
    requires paged { 0 < page }
    ensures { MatchOption result
        ((q : ℕ) → IsPassed page q span.now → q % r.now.alignment ≡ 0 → 2 ^ 64 ≤ q + r.now.size)
        (λ n. IsPassed page n span.now × (n % r.now.alignment ≡ 0) × (n + r.now.size < 2 ^ 64)
        × ((q : ℕ) → IsPassed page q span.now → q % r.now.alignment ≡ 0 → n ≤ q)) }
{
    let end = page_end(span.end - 1, page)?;
    let offset = round_up(end, r.alignment)?;
    if u64::MAX - r.size < offset {
        return None;
    }
    Some(offset)
}

/// From an offset on, past each span that is alive with the resource, up to the first that begins behind it.
fn reach(spans: &[Span], from: usize, o: u64, r: &Resource, page: u64) -> Option<Reached>
    requires sized { 0 < r.now.size }
    requires aligned { 0 < r.now.alignment }
    requires paged { 0 < page }
    requires end { o + r.now.size < 2 ^ 64 }
    requires spans { All IsSpan spans.now }
    requires sorted { IsNonDecreasingBy (λ s. s.start) spans.now }
    requires from { from ≤ length spans.now }
    requires passed { ArePassed page r.now o spans.now from }
    requires multiple { o % r.now.alignment ≡ 0 }
    ensures { MatchOption result (NoneFrom page r.now o spans.now)
        (λ s. IsReached page r.now o spans.now s) }
{
    let mut offset = o;
    let mut next = from;
    while next < spans.len() {
        let span = &spans[next];
        if is_alive(span, r) {
            if page_of(offset + r.size - 1, page) < page_of(span.start, page) {
                return Some(Reached { offset, next });
            }
            if page_of(offset, page) <= page_of(span.end - 1, page) {
                offset = past_span(span, r, page)?;
            }
        }
        next += 1;
    }
    Some(Reached { offset, next })
}

/// The least offset at which the resource is clear of the spans of its kind, and on no page of those of the other kind, if its end has 64 bits.
pub fn least_beside(same: &[Span], other: &[Span], r: &Resource, page: u64) -> Option<u64>
    requires sized { 0 < r.now.size }
    requires aligned { 0 < r.now.alignment }
    requires paged { 0 < page }
    requires same { All IsSpan same.now }
    requires other { All IsSpan other.now }
    requires same_sorted { IsNonDecreasingBy (λ s. s.start) same.now }
    requires other_sorted { IsNonDecreasingBy (λ s. s.start) other.now }
    ensures { MatchOption result
        ((q : ℕ) → IsBeside page same.now other.now r.now q → 2 ^ 64 ≤ q + r.now.size)
        (λ o. IsBeside page same.now other.now r.now o × (o + r.now.size < 2 ^ 64)
        × ((q : ℕ) → IsBeside page same.now other.now r.now q → o ≤ q)) }
{
    let size = r.size;
    let mut o: u64 = 0;
    let mut same_next = 0;
    let mut other_next = 0;
    while o <= u64::MAX - size {
        let past_same = reach(same, same_next, o, r, 1)?;
        let past_both = reach(other, other_next, past_same.offset, r, page)?;
        if past_both.offset == past_same.offset {
            return Some(past_both.offset);
        }
        o = past_both.offset;
        same_next = past_same.next;
        other_next = past_both.next;
    }
    None
}
