//! A trace that can be drawn: of any sort, also of a plan.

ghost use Rattle.std.specs.Prelude.{◌≡◌, ◌↔◌, IsTrue, IfOk, IfSome};
ghost use Rattle.gpu_block_session.specs.Line.{IsBlank};
ghost use Rattle.gpu_block_session.specs.Replay.{ReplaysTrace};
ghost use Rattle.gpu_picture.specs.Drawable.{BeginsPlan, DidAny, DidPlan, SeesFirst, MatchSeen, Sees};
ghost use Rattle.gpu_picture.specs.declared.drawable.Drawable.TheVariants as drawables;

use gpu_block_session::ascii;
use gpu_plan_session::{PlanStage, Reply as PlanReply};
use gpu_trace_text::{
    AnyReply, AnyTrace, Outcome, Replayed, Stage, Trace, TraceError, replay_from,
};
use log::Log;
use std::alloc::{AllocError, Global};
use std::io;
use std::io::{Read, Write};

/// How far a trace that can be drawn has come. It must be ended.
pub enum Drawable {
    /// Nothing but blank lines came yet.
    Before,
    /// A trace of any sort but a plan's.
    Any(AnyTrace),
    /// A plan trace.
    Plan(PlanStage),
}

/// The answer to a line of a trace that can be drawn.
#[derive(Drop)]
pub enum DrawableReply {
    Any(AnyReply),
    Plan(PlanReply),
}

/// Whether a line is empty or a remark.
fn is_blank(line: &[u8]) -> bool
    ensures { IsTrue result ↔ IsBlank line.now }
{
    match line {
        [] | [b'#', ..] => ascii(line).is_some(),
        _ => false,
    }
}

/// Whether a line begins a plan.
fn begins_plan(line: &[u8]) -> bool
    ensures { IsTrue result ↔ BeginsPlan line.now }
{
    line.starts_with(b"plan")
}

/// Serves a line before which nothing but blank lines came.
fn serve_first<L: Log>(
    log: &L,
    alloc: Global,
    line: &[u8],
) -> Result<(Drawable, Outcome<DrawableReply>), AllocError>
    ensures { IfOk result (MatchSeen (SeesFirst line.now)) }
{
    if is_blank(line) {
        return Ok((Drawable::Before, Outcome::Nothing));
    }
    if begins_plan(line) {
        return serve_plan(log, alloc, PlanStage::Before, line);
    }
    serve_any(log, alloc, AnyTrace::Vulkan(Stage::Before), line)
}

/// Serves a line of a trace of any sort but a plan's.
fn serve_any<L: Log>(
    log: &L,
    alloc: Global,
    trace: AnyTrace,
    line: &[u8],
) -> Result<(Drawable, Outcome<DrawableReply>), AllocError>
    ensures { IfOk result (MatchSeen (DidAny trace line.now)) }
{
    let (trace, outcome) = trace.serve(log, alloc, line)?;
    let outcome = match outcome {
        Outcome::Nothing => Outcome::Nothing,
        Outcome::Replied(reply) => Outcome::Replied(DrawableReply::Any(reply)),
        Outcome::Bad => Outcome::Bad,
    };
    Ok((Drawable::Any(trace), outcome))
}

/// Serves a line of a plan trace.
fn serve_plan<L: Log>(
    log: &L,
    alloc: Global,
    stage: PlanStage,
    line: &[u8],
) -> Result<(Drawable, Outcome<DrawableReply>), AllocError>
    ensures { IfOk result (MatchSeen (DidPlan stage line.now)) }
{
    let (stage, outcome) = Trace::serve(stage, log, alloc, line)?;
    let outcome = match outcome {
        Outcome::Nothing => Outcome::Nothing,
        Outcome::Replied(reply) => Outcome::Replied(DrawableReply::Plan(reply)),
        Outcome::Bad => Outcome::Bad,
    };
    Ok((Drawable::Plan(stage), outcome))
}

impl Trace for Drawable {
    ghost use Rattle.gpu_picture.specs.Drawable.{Sees, reply_line};

    type Reply = DrawableReply;

    ghost does = { Sees };

    ghost reply_line = { reply_line };

    fn serve<L: Log>(
        self,
        log: &L,
        alloc: Global,
        line: &[u8],
    ) -> Result<(Self, Outcome<DrawableReply>), AllocError> {
        match self {
            Drawable::Before => serve_first(log, alloc, line),
            Drawable::Any(trace) => serve_any(log, alloc, trace, line),
            Drawable::Plan(stage) => serve_plan(log, alloc, stage, line),
        }
    }

    fn write<W: Write>(reply: &DrawableReply, writer: &mut W) -> io::Result<()> {
        match reply {
            DrawableReply::Any(reply) => AnyTrace::write(reply, writer),
            DrawableReply::Plan(reply) => PlanStage::write(reply, writer),
        }
    }

    fn end<L: Log>(self, log: &L) {
        match self {
            Drawable::Before => {}
            Drawable::Any(trace) => trace.end(log),
            Drawable::Plan(stage) => Trace::end(stage, log),
        }
    }
}

/// Reads a trace that can be drawn and serves its lines. Answers how far they come, or the number of the first bad line. Fails where a
/// read fails, or memory for the trace itself is refused.
pub fn replay_drawable<R: Read, L: Log>(
    log: &L,
    alloc: Global,
    reader: &mut R,
) -> Result<Replayed<Drawable>, TraceError>
    ensures { IfOk result (λ r. IfSome (R.remaining reader.old)
        (λ input. ReplaysTrace Sees drawables.Before input r)) }
{
    replay_from(log, alloc, Drawable::Before, reader)
}
