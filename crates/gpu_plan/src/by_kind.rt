//! The spans of placed resources, those of each kind apart.

ghost use Rattle.std.specs.Prelude.{◌≡◌, ℕ, ◌+◌, ◌^◌, ◌<◌, ◌≤◌, ◌∷◌, ◌++◌, [], List, OnOk, MatchOption};
ghost use Rattle.std.specs.List.Sorted.{IsPermutation};
ghost use Rattle.gpu_plan.specs.Plan.{IsFree, IsLeast, IsSound};
ghost use Rattle.gpu_plan.specs.Span.{IsSpan};
ghost use Rattle.gpu_plan.specs.ByKind.{AreOrdered, BothOrdered, AreSpans};
ghost use Rattle.gpu_plan.specs.declared.resource.Placed.{Placed};

use crate::resource::{Kind, Placed, Resource};
use crate::span::{Span, least_beside};
use std::alloc::{AllocError, Global};

/// The spans of placed resources by kind, each list in order of offset.
#[derive(Drop)]
pub struct SpansByKind {
    /// Those of linear resources.
    pub linear: Vec<Span>,
    /// Those of optimal ones.
    pub optimal: Vec<Span>,
}

/// Adds a span behind those that begin where it does, or before.
fn insert_span(spans: &mut Vec<Span>, span: Span) -> Result<(), AllocError>
    requires ordered { AreOrdered spans.old.items }
    requires sized { IsSpan span }
    ensures added { OnOk result (IsPermutation (span ∷ spans.old.items) spans.new.items) }
    ensures ordered { OnOk result (AreOrdered spans.new.items) }
{
    let index = spans.partition_point(|s| s.start <= span.start);
    spans.insert(index, span)?;
    Ok(())
}

impl SpansByKind {
    /// No spans.
    pub fn new(alloc: Global) -> SpansByKind
        ensures spans { AreSpans [] result }
        ensures ordered { BothOrdered result }
    {
        SpansByKind {
            linear: Vec::new(alloc),
            optimal: Vec::new(alloc),
        }
    }

    /// The least offset at which the resource is apart from all that are alive with it, if its end has 64 bits.
    pub fn least_offset(&self, r: &Resource, page: u64) -> Option<u64>
        requires sized { 0 < r.now.size }
        requires aligned { 0 < r.now.alignment }
        requires paged { 0 < page }
        requires ordered { BothOrdered self.now }
        ensures { (placed : List Placed) → AreSpans placed self.now → MatchOption result
            ((o : ℕ) → IsFree page placed r.now o → 2 ^ 64 ≤ o + r.now.size)
            (λ o. IsLeast page placed r.now o × (o + r.now.size < 2 ^ 64)) }
    {
        match r.kind {
            Kind::Linear => least_beside(&self.linear, &self.optimal, r, page),
            Kind::Optimal => least_beside(&self.optimal, &self.linear, r, page),
        }
    }

    /// Adds the span of one more.
    pub fn insert(&mut self, one: &Placed) -> Result<(), AllocError>
        requires sound { IsSound one.now }
        requires ordered { BothOrdered self.old }
        ensures spans { (placed : List Placed) → AreSpans placed self.old
            → OnOk result (AreSpans (placed ++ (one.now ∷ [])) self.new) }
        ensures ordered { OnOk result (BothOrdered self.new) }
    {
        let span = Span {
            first: one.resource.first,
            last: one.resource.last,
            start: one.offset,
            end: one.offset + one.resource.size,
        };
        match one.resource.kind {
            Kind::Linear => insert_span(&mut self.linear, span),
            Kind::Optimal => insert_span(&mut self.optimal, span),
        }
    }
}
