//! A trace of any sort.

ghost use Rattle.std.specs.Prelude.{◌≡◌, ◌≤◌, ℕ, Some, None, IfOk, IfSome};
ghost use Rattle.gpu_trace_text.specs.declared.stage.Stage.TheVariants as stages;
ghost use Rattle.gpu_block_session.specs.Run.{Answers};
ghost use Rattle.gpu_trace_text.specs.Any.{Does, DidVulkan, DidMetal, DidD3D12, MatchDone, reply_line};
ghost use Rattle.gpu_block_session.specs.Replay.{ReplaysTrace};
ghost use Rattle.gpu_trace_text.specs.declared.any.AnyTrace.TheVariants.{Vulkan};

use crate::{Outcome, Replayed, Stage, Trace, TraceError, d3d12, metal, replay_from, run_from};
use log::Log;
use std::alloc::{AllocError, Global};
use std::io;
use std::io::{Read, Write};

/// How far a trace of any sort has come. It must be ended.
pub enum AnyTrace {
    /// A block trace or a device trace, or nothing but blank lines came yet.
    Vulkan(Stage),
    /// A Metal trace.
    Metal(metal::Stage),
    /// A DirectX 12 trace.
    D3D12(d3d12::Stage),
}

/// The answer to a line of a trace of any sort.
#[derive(Drop)]
pub enum AnyReply {
    Vulkan(crate::Reply),
    Metal(metal::Reply),
    D3D12(d3d12::Reply),
}

/// Serves a line of a block trace or a device trace.
fn serve_vulkan<L: Log>(
    log: &L,
    alloc: Global,
    stage: Stage,
    line: &[u8],
) -> Result<(AnyTrace, Outcome<AnyReply>), AllocError>
    ensures { IfOk result (MatchDone (DidVulkan stage line.now)) }
{
    let (stage, outcome) = Trace::serve(stage, log, alloc, line)?;
    let outcome = match outcome {
        Outcome::Nothing => Outcome::Nothing,
        Outcome::Replied(reply) => Outcome::Replied(AnyReply::Vulkan(reply)),
        Outcome::Bad => Outcome::Bad,
    };
    Ok((AnyTrace::Vulkan(stage), outcome))
}

/// Serves a line of a Metal trace.
fn serve_metal<L: Log>(
    log: &L,
    alloc: Global,
    stage: metal::Stage,
    line: &[u8],
) -> Result<(AnyTrace, Outcome<AnyReply>), AllocError>
    ensures { IfOk result (MatchDone (DidMetal stage line.now)) }
{
    let (stage, outcome) = stage.serve(log, alloc, line)?;
    let outcome = match outcome {
        Outcome::Nothing => Outcome::Nothing,
        Outcome::Replied(reply) => Outcome::Replied(AnyReply::Metal(reply)),
        Outcome::Bad => Outcome::Bad,
    };
    Ok((AnyTrace::Metal(stage), outcome))
}

/// Serves a line of a DirectX 12 trace.
fn serve_d3d12<L: Log>(
    log: &L,
    alloc: Global,
    stage: d3d12::Stage,
    line: &[u8],
) -> Result<(AnyTrace, Outcome<AnyReply>), AllocError>
    ensures { IfOk result (MatchDone (DidD3D12 stage line.now)) }
{
    let (stage, outcome) = stage.serve(log, alloc, line)?;
    let outcome = match outcome {
        Outcome::Nothing => Outcome::Nothing,
        Outcome::Replied(reply) => Outcome::Replied(AnyReply::D3D12(reply)),
        Outcome::Bad => Outcome::Bad,
    };
    Ok((AnyTrace::D3D12(stage), outcome))
}

impl Trace for AnyTrace {
    ghost use Rattle.gpu_trace_text.specs.Any.{Does, reply_line};

    type Reply = AnyReply;

    ghost does = { Does };

    ghost reply_line = { reply_line };

    fn serve<L: Log>(
        self,
        log: &L,
        alloc: Global,
        line: &[u8],
    ) -> Result<(Self, Outcome<AnyReply>), AllocError> {
        match self {
            AnyTrace::Metal(stage) => serve_metal(log, alloc, stage, line),
            AnyTrace::D3D12(stage) => serve_d3d12(log, alloc, stage, line),
            AnyTrace::Vulkan(stage) => match stage {
                Stage::Before => match line {
                    [b'm', b'e', b't', b'a', b'l'] => {
                        let start = metal::Stage::Configuring(metal::Configuration::new(alloc));
                        Ok((AnyTrace::Metal(start), Outcome::Nothing))
                    }
                    [b'd', b'3', b'd', b'1', b'2'] => {
                        let start = d3d12::Stage::Configuring(d3d12::Configuration::new(alloc));
                        Ok((AnyTrace::D3D12(start), Outcome::Nothing))
                    }
                    _ => serve_vulkan(log, alloc, Stage::Before, line),
                },
                Stage::Block(it) => serve_vulkan(log, alloc, Stage::Block(it), line),
                Stage::Configuring(it) => serve_vulkan(log, alloc, Stage::Configuring(it), line),
                Stage::Device(it) => serve_vulkan(log, alloc, Stage::Device(it), line),
                Stage::Closed => serve_vulkan(log, alloc, Stage::Closed, line),
            },
        }
    }

    fn write<W: Write>(reply: &AnyReply, writer: &mut W) -> io::Result<()> {
        match reply {
            AnyReply::Vulkan(reply) => Stage::write(reply, writer),
            AnyReply::Metal(reply) => metal::Stage::write(reply, writer),
            AnyReply::D3D12(reply) => d3d12::Stage::write(reply, writer),
        }
    }

    fn end<L: Log>(self, log: &L) {
        match self {
            AnyTrace::Vulkan(stage) => Trace::end(stage, log),
            AnyTrace::Metal(stage) => stage.end(log),
            AnyTrace::D3D12(stage) => stage.end(log),
        }
    }
}

/// Reads a trace of any sort, runs it and writes its replies, a line each: what each line means and what is answered stands in
/// docs/TRACE.md. Answers the exit status: 0 where each line was read; 2 where one could not be, and then `bad line N` is
/// written behind the earlier replies; 1 where a read or a write failed, or memory for the trace itself was refused. Replies are
/// written one by one and flushed at the end, so hand in a writer with a buffer.
pub fn run_trace<R: Read, W: Write, L: Log>(
    log: &L,
    alloc: Global,
    reader: &mut R,
    writer: &mut W,
) -> u8
    ensures status { result ≤ 2 }
    ensures whole { result ≡ 0 → IfSome (R.remaining reader.old)
        (λ input. Answers Does reply_line (Vulkan stages.Before) input (W.contents writer.old)
        (W.contents writer.new) None) }
    ensures bad { result ≡ 2 → IfSome (R.remaining reader.old)
        (λ input. (n : ℕ) × Answers Does reply_line (Vulkan stages.Before) input
        (W.contents writer.old) (W.contents writer.new) (Some n)) }
{
    run_from(log, alloc, AnyTrace::Vulkan(Stage::Before), reader, writer)
}

/// Reads a trace of any sort and serves its lines, and writes no replies: what each line means stands in docs/TRACE.md. Answers
/// how far they come, or the number of the first bad line; a trace above 1,048,576 bytes is bad in its first. Fails where a read
/// fails, or memory for the trace itself is refused.
pub fn replay_trace<R: Read, L: Log>(
    log: &L,
    alloc: Global,
    reader: &mut R,
) -> Result<Replayed<AnyTrace>, TraceError>
    ensures { IfOk result (λ r. IfSome (R.remaining reader.old)
        (λ input. ReplaysTrace Does (Vulkan stages.Before) input r)) }
{
    replay_from(log, alloc, AnyTrace::Vulkan(Stage::Before), reader)
}
