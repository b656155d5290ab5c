//! A whole trace, from its bytes to what is written of it.

ghost use Rattle.std.specs.Prelude.{IfOk, IfErr, IfSome};
ghost use Rattle.gpu_picture.specs.WholeTrace.{DrawsLeft, DrawsTrace, LeavesWritten};
ghost use Rattle.gpu_picture.specs.declared.whole_trace.Wanted.TheVariants.{Picture, Json, OverTime as Times};

use crate::draw::{Form, draw, draw_nothing};
use crate::draw_plan::draw_plan;
use crate::drawable::{Drawable, replay_drawable};
use crate::drawn::Drawn;
use crate::follow::{draw_over_time, follow_trace};
use gpu_trace_text::{Replayed, Trace, TraceError, replay_trace};
use log::Log;
use std::alloc::Global;
use std::io;
use std::io::{Read, Write};

/// What is to be written.
#[derive(Clone, Copy)]
pub enum Wanted {
    /// What the trace leaves, as a picture: its plan or its blocks.
    Picture,
    /// The blocks that the trace leaves, as JSON.
    Json,
    /// What memory types held after one command after another.
    OverTime,
}

/// Why nothing, or only a part, is written.
#[derive(Drop)]
pub enum DrawError {
    /// A read failed, or host memory for the trace was refused; nothing is written.
    Trace(TraceError),
    /// A write failed, or host memory for what is to be written was refused.
    Write(io::Error),
}

/// Writes what a trace leaves as a picture: its plan or its blocks.
fn draw_left<W: Write>(alloc: Global, left: &Drawable, writer: &mut W) -> io::Result<Drawn>
    ensures { IfOk result (λ drawn. DrawsLeft left.now drawn (W.contents writer.old)
        (W.contents writer.new)) }
{
    match left {
        Drawable::Plan(stage) => return draw_plan(alloc, stage, writer),
        Drawable::Any(trace) => draw(alloc, Form::Svg, trace, writer)?,
        Drawable::Before => draw_nothing(writer)?,
    }
    Ok(Drawn::Whole)
}

/// Reads a trace and writes what it leaves as a picture.
fn draw_picture<R: Read, W: Write, L: Log>(
    log: &L,
    alloc: Global,
    reader: &mut R,
    writer: &mut W,
) -> Result<Drawn, DrawError>
    ensures draws { IfOk result (λ drawn. IfSome (R.remaining reader.old)
        (λ input. DrawsTrace Picture input drawn (W.contents writer.old) (W.contents writer.new))) }
    ensures unread { IfErr result (λ error. LeavesWritten error (W.contents writer.old)
        (W.contents writer.new)) }
{
    let left = match replay_drawable(log, alloc, reader) {
        Err(error) => return Err(DrawError::Trace(error)),
        Ok(Replayed::Bad(number)) => return Ok(Drawn::Bad(number)),
        Ok(Replayed::Whole(left)) => left,
    };
    let drawn = draw_left(alloc, &left, writer);
    left.end(log);
    match drawn {
        Ok(drawn) => Ok(drawn),
        Err(error) => Err(DrawError::Write(error)),
    }
}

/// Reads a trace and writes the blocks that it leaves as JSON.
fn draw_json<R: Read, W: Write, L: Log>(
    log: &L,
    alloc: Global,
    reader: &mut R,
    writer: &mut W,
) -> Result<Drawn, DrawError>
    ensures draws { IfOk result (λ drawn. IfSome (R.remaining reader.old)
        (λ input. DrawsTrace Json input drawn (W.contents writer.old) (W.contents writer.new))) }
    ensures unread { IfErr result (λ error. LeavesWritten error (W.contents writer.old)
        (W.contents writer.new)) }
{
    let trace = match replay_trace(log, alloc, reader) {
        Err(error) => return Err(DrawError::Trace(error)),
        Ok(Replayed::Bad(number)) => return Ok(Drawn::Bad(number)),
        Ok(Replayed::Whole(trace)) => trace,
    };
    let written = draw(alloc, Form::Json, &trace, writer);
    trace.end(log);
    match written {
        Ok(()) => Ok(Drawn::Whole),
        Err(error) => Err(DrawError::Write(error)),
    }
}

/// Reads a trace and writes what was held over time.
fn draw_times<R: Read, W: Write, L: Log>(
    log: &L,
    alloc: Global,
    reader: &mut R,
    writer: &mut W,
) -> Result<Drawn, DrawError>
    ensures draws { IfOk result (λ drawn. IfSome (R.remaining reader.old)
        (λ input. DrawsTrace Times input drawn (W.contents writer.old) (W.contents writer.new))) }
    ensures unread { IfErr result (λ error. LeavesWritten error (W.contents writer.old)
        (W.contents writer.new)) }
{
    let followed = match follow_trace(log, alloc, reader) {
        Err(error) => return Err(DrawError::Trace(error)),
        Ok(Replayed::Bad(number)) => return Ok(Drawn::Bad(number)),
        Ok(Replayed::Whole(followed)) => followed,
    };
    let written = draw_over_time(&followed, writer);
    followed.end(log);
    match written {
        Ok(()) => Ok(Drawn::Whole),
        Err(error) => Err(DrawError::Write(error)),
    }
}

/// Reads a trace of any sort and writes what is wanted of it, as docs/REPORT.md says; of a trace with a bad line nothing. What is
/// written is flushed, so hand in a writer with a buffer.
pub fn draw_trace<R: Read, W: Write, L: Log>(
    log: &L,
    alloc: Global,
    wanted: Wanted,
    reader: &mut R,
    writer: &mut W,
) -> Result<Drawn, DrawError>
    ensures draws { IfOk result (λ drawn. IfSome (R.remaining reader.old)
        (λ input. DrawsTrace wanted input drawn (W.contents writer.old) (W.contents writer.new))) }
    ensures unread { IfErr result (λ error. LeavesWritten error (W.contents writer.old)
        (W.contents writer.new)) }
{
    match wanted {
        Wanted::Picture => draw_picture(log, alloc, reader, writer),
        Wanted::Json => draw_json(log, alloc, reader, writer),
        Wanted::OverTime => draw_times(log, alloc, reader, writer),
    }
}
