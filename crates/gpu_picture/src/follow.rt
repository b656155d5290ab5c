//! A trace of any sort, with what its memory types held after each of its commands.

ghost use Rattle.std.specs.Prelude.{◌≡◌, [], ◌∷◌, ◌++◌, map, IfOk, IfSome, OnOk};
ghost use Rattle.std.specs.Io.KnownBytes.{Appends};
ghost use Rattle.gpu_block.specs.SubAllocator.{block_of};
ghost use Rattle.gpu_core.specs.Types.{slots_of};
ghost use Rattle.gpu_report.specs.Samples.{usage_of};
ghost use Rattle.gpu_report.specs.Timeline.{timeline_svg};
ghost use Rattle.gpu_block_session.specs.Replay.{ReplaysTrace};
ghost use Rattle.gpu_picture.specs.Follow.{told, usage_of_block, is_vulkan_refusal, is_metal_refusal, is_d3d12_refusal, is_refusal, usages_in_vulkan, usages_in_metal, usages_in_d3d12, usages_in, noted, IsStart, Follows};
ghost use Rattle.gpu_picture.specs.declared.follow.Followed.{Followed};

use gpu_block::SubAllocator;
use gpu_core::MemoryTypes;
use gpu_report::timeline::{Sample, TimelineSvg, Usage, usage_of};
use gpu_run::block::Reply as BlockReply;
use gpu_run::d3d12::Reply as D3D12Reply;
use gpu_run::metal::Reply as MetalReply;
use gpu_run::vulkan::Reply as VulkanReply;
use gpu_trace_text::device::reply as device;
use gpu_trace_text::{
    AnyReply, AnyTrace, BlockStage, Outcome, Replayed, Reply, Stage, Trace, TraceError, d3d12,
    metal, replay_from,
};
use log::Log;
use std::alloc::{AllocError, Global};
use std::io;
use std::io::{Read, Write};

/// How far a trace of any sort has come, and what was noted of its commands. It must be ended.
pub struct Followed {
    trace: AnyTrace,
    /// How many lines were served.
    lines: u64,
    samples: Vec<Sample>,
}

/// Whether a command of a block trace or a device trace was answered by an error.
fn is_vulkan_refusal(reply: &Reply) -> bool
    ensures { result ≡ is_vulkan_refusal reply.now }
{
    matches!(
        reply,
        Reply::Block(BlockReply::Refused(_))
            | Reply::Device(device::Reply::Refused(_))
            | Reply::Device(device::Reply::Served(VulkanReply::Error(_)))
    )
}

/// Whether a command of a Metal trace was answered by an error.
fn is_metal_refusal(reply: &metal::Reply) -> bool
    ensures { result ≡ is_metal_refusal reply.now }
{
    matches!(
        reply,
        metal::Reply::Refused(_) | metal::Reply::Served(MetalReply::Error(_))
    )
}

/// Whether a command of a DirectX 12 trace was answered by an error.
fn is_d3d12_refusal(reply: &d3d12::Reply) -> bool
    ensures { result ≡ is_d3d12_refusal reply.now }
{
    matches!(
        reply,
        d3d12::Reply::Refused(_) | d3d12::Reply::Served(D3D12Reply::Error(_))
    )
}

/// Whether a command was answered by an error.
fn is_refusal(reply: &AnyReply) -> bool
    ensures { result ≡ is_refusal reply.now }
{
    match reply {
        AnyReply::Vulkan(reply) => is_vulkan_refusal(reply),
        AnyReply::Metal(reply) => is_metal_refusal(reply),
        AnyReply::D3D12(reply) => is_d3d12_refusal(reply),
    }
}

/// What each memory type holds.
fn usages_of<H: Copy + Eq>(alloc: Global, types: &MemoryTypes<H>) -> Result<Vec<Usage>, AllocError>
    ensures { IfOk result (λ v. v.items ≡ map usage_of (slots_of types.now)) }
{
    let mut usages = Vec::new(alloc);
    for index in 0..types.count() {
        if let Some(memory_type) = types.memory_type(index) {
            usages.push(usage_of(memory_type))?;
        }
    }
    Ok(usages)
}

/// What a block holds, as the one memory type of its trace.
fn usages_of_block(alloc: Global, block: &SubAllocator) -> Result<Vec<Usage>, AllocError>
    ensures { IfOk result (λ v. v.items ≡ usage_of_block (block_of block.now) ∷ []) }
{
    let mut usages = Vec::new(alloc);
    usages.push(Usage {
        blocks: block.size(),
        pieces: block.allocated(),
    })?;
    Ok(usages)
}

fn usages_in_vulkan(alloc: Global, stage: &Stage) -> Result<Vec<Usage>, AllocError>
    ensures { IfOk result (λ v. v.items ≡ usages_in_vulkan stage.now) }
{
    match stage {
        Stage::Block(BlockStage::Open(session)) => usages_of_block(alloc, session.block()),
        Stage::Device(session) => usages_of(alloc, session.allocator().memory_types()),
        Stage::Before | Stage::Block(_) | Stage::Configuring(_) | Stage::Closed => {
            Ok(Vec::new(alloc))
        }
    }
}

fn usages_in_metal(alloc: Global, stage: &metal::Stage) -> Result<Vec<Usage>, AllocError>
    ensures { IfOk result (λ v. v.items ≡ usages_in_metal stage.now) }
{
    match stage {
        metal::Stage::Running(session) => usages_of(alloc, session.allocator().memory_types()),
        metal::Stage::Configuring(_) | metal::Stage::Closed => Ok(Vec::new(alloc)),
    }
}

fn usages_in_d3d12(alloc: Global, stage: &d3d12::Stage) -> Result<Vec<Usage>, AllocError>
    ensures { IfOk result (λ v. v.items ≡ usages_in_d3d12 stage.now) }
{
    match stage {
        d3d12::Stage::Running(session) => usages_of(alloc, session.allocator().memory_types()),
        d3d12::Stage::Configuring(_) | d3d12::Stage::Closed => Ok(Vec::new(alloc)),
    }
}

/// What each memory type holds; there is none before an allocator is made and behind its end.
fn usages_in(alloc: Global, trace: &AnyTrace) -> Result<Vec<Usage>, AllocError>
    ensures { IfOk result (λ v. v.items ≡ usages_in trace.now) }
{
    match trace {
        AnyTrace::Vulkan(stage) => usages_in_vulkan(alloc, stage),
        AnyTrace::Metal(stage) => usages_in_metal(alloc, stage),
        AnyTrace::D3D12(stage) => usages_in_d3d12(alloc, stage),
    }
}

/// Notes what the line of that number did, where it was answered.
fn note(
    alloc: Global,
    samples: &mut Vec<Sample>,
    line: u64,
    outcome: &Outcome<AnyReply>,
    trace: &AnyTrace,
) -> Result<(), AllocError>
    ensures { OnOk result (map told samples.new.items
        ≡ map told samples.old.items ++ noted line outcome.now trace.now) }
{
    let Outcome::Replied(reply) = outcome else {
        return Ok(());
    };
    let usages = usages_in(alloc, trace)?;
    samples.push(Sample {
        line,
        refused: is_refusal(reply),
        usages,
    })?;
    Ok(())
}

impl Trace for Followed {
    ghost use Rattle.gpu_trace_text.specs.Any.{reply_line};
    ghost use Rattle.gpu_picture.specs.Follow.{Follows};

    type Reply = AnyReply;

    ghost does = { Follows };

    ghost reply_line = { reply_line };

    fn serve<L: Log>(
        self,
        log: &L,
        alloc: Global,
        line: &[u8],
    ) -> Result<(Self, Outcome<AnyReply>), AllocError> {
        let Followed {
            trace,
            lines,
            mut samples,
        } = self;
        let (trace, outcome) = trace.serve(log, alloc, line)?;
        let lines = lines.saturating_add(1);
        if let Err(error) = note(alloc, &mut samples, lines, &outcome, &trace) {
            trace.end(log);
            return Err(error);
        }
        let next = Followed {
            trace,
            lines,
            samples,
        };
        Ok((next, outcome))
    }

    fn write<W: Write>(reply: &AnyReply, writer: &mut W) -> io::Result<()> {
        AnyTrace::write(reply, writer)
    }

    fn end<L: Log>(self, log: &L) {
        let Followed {
            trace,
            lines: _,
            samples: _,
        } = self;
        trace.end(log);
    }
}

/// Before the first line.
fn start(alloc: Global) -> Followed
    ensures { IsStart result }
{
    Followed {
        trace: AnyTrace::Vulkan(Stage::Before),
        lines: 0,
        samples: Vec::new(alloc),
    }
}

/// Reads a trace of any sort and follows its lines. Answers how far they come, with what was noted of each command, or the
/// number of the first bad line. Fails where a read fails, or memory for the trace itself is refused.
pub fn follow_trace<R: Read, L: Log>(
    log: &L,
    alloc: Global,
    reader: &mut R,
) -> Result<Replayed<Followed>, TraceError>
    ensures { IfOk result (λ r. IfSome (R.remaining reader.old)
        (λ input. (first : Followed) × IsStart first × ReplaysTrace Follows first input r)) }
{
    replay_from(log, alloc, start(alloc), reader)
}

/// Writes what memory types held after one command after another, as a picture, and flushes.
pub fn draw_over_time<W: Write>(followed: &Followed, writer: &mut W) -> io::Result<()>
    ensures { OnOk result (Appends (W.contents writer.old) (W.contents writer.new)
        (timeline_svg followed.now.samples.items)) }
{
    let picture = TimelineSvg(&followed.samples);
    write!(writer, "{picture}")?;
    writer.flush()
}
